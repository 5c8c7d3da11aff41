//! The call that deletes a window.
ghost use Rattle.curses.specs.Forwarding.{OnDesk};
ghost use Rattle.scr_windows.specs.Calls.Removing.{delete_call};

use crate::screens::Screen;
use scr_windows::{Win, WinFault};

impl Screen {
    /// Deletes a window, and its cells if no other window shares them. The first window may go too. Its number is not
    /// used again.
    ///
    /// Refused: NoWindow; HasChildren if it has subwindows. X/Open Curses Issue 7, delwin().
    pub fn delete(&mut self, win: Win) -> Result<(), WinFault>
        ensures { OnDesk self.old self.new result (delete_call self.old.desk win.0) }
    {
        self.desk.delete(win)
    }
}
