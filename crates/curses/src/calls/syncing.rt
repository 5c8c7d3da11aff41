//! Calls that touch lines of windows that share cells.
ghost use Rattle.curses.specs.Forwarding.{OnDesk};
ghost use Rattle.scr_windows.specs.Calls.Syncing.{sync_up_call, sync_down_call};

use crate::screens::Screen;
use scr_windows::{Win, WinFault};

impl Screen {
    /// Touches each line of every ancestor of a window that shares a row of cells with a touched line of the window.
    ///
    /// Refused: NoWindow. X/Open Curses Issue 7, wsyncup().
    pub fn sync_up(&mut self, win: Win) -> Result<(), WinFault>
        ensures { OnDesk self.old self.new result (sync_up_call self.old.desk win.0) }
    {
        self.desk.sync_up(win)
    }

    /// Touches each line of a window that shares a row of cells with a touched line of any of its ancestors.
    ///
    /// Refused: NoWindow. X/Open Curses Issue 7, wsyncdown().
    pub fn sync_down(&mut self, win: Win) -> Result<(), WinFault>
        ensures { OnDesk self.old self.new result (sync_down_call self.old.desk win.0) }
    {
        self.desk.sync_down(win)
    }
}
