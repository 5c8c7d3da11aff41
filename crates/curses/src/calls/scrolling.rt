//! Calls that move the cells of a line, or whole lines.
ghost use Rattle.curses.specs.Forwarding.{OnDesk};
ghost use Rattle.scr_windows.specs.Calls.Scrolling.{delete_byte_call, insert_delete_lines_call, scroll_call};

use crate::screens::Screen;
use scr_windows::{Win, WinFault};

impl Screen {
    /// Deletes the byte at a window's cursor: what is right of it in the line moves left by one, and the last column
    /// gets the background. The cursor stays.
    ///
    /// Refused: NoWindow. X/Open Curses Issue 7, delch().
    pub fn delete_byte(&mut self, win: Win) -> Result<(), WinFault>
        ensures { OnDesk self.old self.new result (delete_byte_call self.old.desk win.0) }
    {
        self.desk.delete_byte(win)
    }

    /// Inserts `n` lines at the cursor's row of a window, or deletes `-n` lines from there on if `n` is below 0. The
    /// lines from the cursor's to the window's last move, and the lines left free get the background. The cursor stays.
    ///
    /// Refused: NoWindow. X/Open Curses Issue 7, insdelln().
    pub fn insert_delete_lines(&mut self, win: Win, n: i32) -> Result<(), WinFault>
        ensures { OnDesk self.old self.new result (insert_delete_lines_call self.old.desk win.0 n) }
    {
        self.desk.insert_delete_lines(win, n)
    }

    /// Moves the lines of a window's scrolling region up by `n`, or down by `-n` if `n` is below 0. The lines left free
    /// get the background. The cursor stays.
    ///
    /// Refused: NoWindow; NoScroll if `scroll_ok` is off. X/Open Curses Issue 7, scrl().
    pub fn scroll(&mut self, win: Win, n: i32) -> Result<(), WinFault>
        ensures { OnDesk self.old self.new result (scroll_call self.old.desk win.0 n) }
    {
        self.desk.scroll(win, n)
    }
}
