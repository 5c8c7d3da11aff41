//! Calls that erase.
ghost use Rattle.curses.specs.Forwarding.{OnDesk};
ghost use Rattle.scr_windows.specs.Calls.Erasing.{clear_to_eol_call, clear_to_bottom_call, erase_call, clear_call};

use crate::screens::Screen;
use scr_windows::{Win, WinFault};

impl Screen {
    /// Erases a window from the cursor to the end of the line: these places get the background. The cursor stays.
    ///
    /// Refused: NoWindow. X/Open Curses Issue 7, clrtoeol().
    pub fn clear_to_eol(&mut self, win: Win) -> Result<(), WinFault>
        ensures { OnDesk self.old self.new result (clear_to_eol_call self.old.desk win.0) }
    {
        self.desk.clear_to_eol(win)
    }

    /// Erases a window from the cursor to the end of the line, and all lines below: these places get the background.
    /// The cursor stays.
    ///
    /// Refused: NoWindow. X/Open Curses Issue 7, clrtobot().
    pub fn clear_to_bottom(&mut self, win: Win) -> Result<(), WinFault>
        ensures { OnDesk self.old self.new result (clear_to_bottom_call self.old.desk win.0) }
    {
        self.desk.clear_to_bottom(win)
    }

    /// Erases a whole window: every place gets the background, and the cursor goes to the first place.
    ///
    /// Refused: NoWindow. X/Open Curses Issue 7, erase().
    pub fn erase(&mut self, win: Win) -> Result<(), WinFault>
        ensures { OnDesk self.old self.new result (erase_call self.old.desk win.0) }
    {
        self.desk.erase(win)
    }

    /// Erases a whole window as `erase` does, and sets `clear_ok`: the next update with this window repaints the whole
    /// screen.
    ///
    /// Refused: NoWindow. X/Open Curses Issue 7, clear().
    pub fn clear(&mut self, win: Win) -> Result<(), WinFault>
        ensures { OnDesk self.old self.new result (clear_call self.old.desk win.0) }
    {
        self.desk.clear(win)
    }
}
