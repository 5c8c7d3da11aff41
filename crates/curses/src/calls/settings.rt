//! Calls that set something in a window: cursor, region, attributes, background, settings.
ghost use Rattle.curses.specs.Forwarding.{OnDesk};
ghost use Rattle.scr_windows.specs.Calls.Settings.{move_cursor_call, set_region_call, scroll_ok_call, clear_ok_call, leave_ok_call, attr_on_call, attr_off_call, attr_set_call, color_set_call, set_background_call, change_background_call};

use crate::screens::Screen;
use scr_cells::{Attrs, Cell};
use scr_windows::{Win, WinFault};

impl Screen {
    /// Moves the cursor of a window to a row and a column.
    ///
    /// Refused: NoWindow; OutOfWindow for a place outside the window. X/Open Curses Issue 7, move().
    pub fn move_cursor(&mut self, win: Win, row: u32, column: u32) -> Result<(), WinFault>
        ensures { OnDesk self.old self.new result (move_cursor_call self.old.desk win.0 row column) }
    {
        self.desk.move_cursor(win, row, column)
    }

    /// Sets the first and the last row of a window's scrolling region, both inside it. They may be the same row.
    ///
    /// Refused: NoWindow; BadRegion if `top` is greater than `bottom`, or `bottom` is not a row of the window. X/Open
    /// Curses Issue 7, setscrreg().
    pub fn set_region(&mut self, win: Win, top: u32, bottom: u32) -> Result<(), WinFault>
        ensures { OnDesk self.old self.new result (set_region_call self.old.desk win.0 top bottom) }
    {
        self.desk.set_region(win, top, bottom)
    }

    /// Sets whether the scrolling region of a window may scroll.
    ///
    /// Refused: NoWindow. X/Open Curses Issue 7, scrollok().
    pub fn scroll_ok(&mut self, win: Win, on: bool) -> Result<(), WinFault>
        ensures { OnDesk self.old self.new result (scroll_ok_call self.old.desk win.0 on) }
    {
        self.desk.scroll_ok(win, on)
    }

    /// Sets whether the next update with a window repaints the whole screen.
    ///
    /// Refused: NoWindow. X/Open Curses Issue 7, clearok().
    pub fn clear_ok(&mut self, win: Win, on: bool) -> Result<(), WinFault>
        ensures { OnDesk self.old self.new result (clear_ok_call self.old.desk win.0 on) }
    {
        self.desk.clear_ok(win, on)
    }

    /// Sets whether the terminal's cursor may stay where an update with a window leaves it.
    ///
    /// Refused: NoWindow. X/Open Curses Issue 7, leaveok().
    pub fn leave_ok(&mut self, win: Win, on: bool) -> Result<(), WinFault>
        ensures { OnDesk self.old self.new result (leave_ok_call self.old.desk win.0 on) }
    {
        self.desk.leave_ok(win, on)
    }

    /// Adds attributes to those that bytes are written with in a window.
    ///
    /// Refused: NoWindow. X/Open Curses Issue 7, attron().
    pub fn attr_on(&mut self, win: Win, attrs: Attrs) -> Result<(), WinFault>
        ensures { OnDesk self.old self.new result (attr_on_call self.old.desk win.0 attrs) }
    {
        self.desk.attr_on(win, attrs)
    }

    /// Removes attributes from those that bytes are written with in a window.
    ///
    /// Refused: NoWindow. X/Open Curses Issue 7, attroff().
    pub fn attr_off(&mut self, win: Win, attrs: Attrs) -> Result<(), WinFault>
        ensures { OnDesk self.old self.new result (attr_off_call self.old.desk win.0 attrs) }
    {
        self.desk.attr_off(win, attrs)
    }

    /// Replaces the attributes that bytes are written with in a window.
    ///
    /// Refused: NoWindow. X/Open Curses Issue 7, attrset().
    pub fn attr_set(&mut self, win: Win, attrs: Attrs) -> Result<(), WinFault>
        ensures { OnDesk self.old self.new result (attr_set_call self.old.desk win.0 attrs) }
    {
        self.desk.attr_set(win, attrs)
    }

    /// Sets the colour pair that bytes are written with in a window; 0 stands for the pair of the background.
    ///
    /// Refused: NoWindow; BadPair for a pair above 63. X/Open Curses Issue 7, color_set().
    pub fn color_set(&mut self, win: Win, pair: u32) -> Result<(), WinFault>
        ensures { OnDesk self.old self.new result (color_set_call self.old.desk win.0 pair) }
    {
        self.desk.color_set(win, pair)
    }

    /// Sets the background of a window, and changes no cell.
    ///
    /// Refused: NoWindow. X/Open Curses Issue 7, bkgdset().
    pub fn set_background(&mut self, win: Win, cell: Cell) -> Result<(), WinFault>
        ensures { OnDesk self.old self.new result (set_background_call self.old.desk win.0 cell) }
    {
        self.desk.set_background(win, cell)
    }

    /// Sets the background of a window, and replaces the old one in every cell: the old background's character becomes
    /// the new one's, its attributes are removed and the new ones added, and its colour pair becomes the new one. All
    /// lines are touched.
    ///
    /// Refused: NoWindow. X/Open Curses Issue 7, bkgd().
    pub fn change_background(&mut self, win: Win, cell: Cell) -> Result<(), WinFault>
        ensures { OnDesk self.old self.new result (change_background_call self.old.desk win.0 cell) }
    {
        self.desk.change_background(win, cell)
    }
}
