//! Calls that move a window on the screen, or a subwindow in its parent.
ghost use Rattle.curses.specs.Forwarding.{OnDesk};
ghost use Rattle.scr_windows.specs.Calls.Moving.{move_window_call, move_derived_call};

use crate::screens::Screen;
use scr_windows::{Win, WinFault};

impl Screen {
    /// Moves a window to a row and a column of the screen, and all its descendants with it. Its own lines are touched.
    ///
    /// Refused: NoWindow; IsPad; IsSub; OffScreen if it would not be wholly on the screen. X/Open Curses Issue 7,
    /// mvwin().
    pub fn move_window(&mut self, win: Win, row: u32, column: u32) -> Result<(), WinFault>
        ensures { OnDesk self.old self.new result (move_window_call self.old.desk win.0 row column) }
    {
        self.desk.move_window(win, row, column)
    }

    /// Makes a subwindow share its parent's cells from another row and column of the parent on. Its place on the screen
    /// stays, its descendants share what is at the same place in it as before, and its own lines are touched.
    ///
    /// Refused: NoWindow; IsPad; NotInParent if it has no parent, or would not be wholly in the parent. X/Open Curses
    /// Issue 7, mvderwin().
    pub fn move_derived(&mut self, win: Win, row: u32, column: u32) -> Result<(), WinFault>
        ensures { OnDesk self.old self.new result (move_derived_call self.old.desk win.0 row column) }
    {
        self.desk.move_derived(win, row, column)
    }
}
