//! The calls that draw a border.
ghost use Rattle.curses.specs.Forwarding.{OnDesk};
ghost use Rattle.scr_windows.specs.Calls.Borders.{border_call, border_of_call};

use crate::screens::Screen;
use scr_windows::{Win, WinFault};

impl Screen {
    /// Writes eight bytes 32 to 126 along the edges of a window: on the left, right, top and bottom edge, then in the
    /// top left, top right, bottom left and bottom right corner. Where two of them meet, the later one stands. A blank
    /// is written as the background's character. The cursor stays, and all lines are touched.
    ///
    /// Refused: NoWindow; NotAscii if any of them is another byte. X/Open Curses Issue 7, border().
    pub fn border(&mut self, win: Win, bytes: [u8; 8]) -> Result<(), WinFault>
        ensures { OnDesk self.old self.new result (border_call self.old.desk win.0 bytes) }
    {
        self.desk.border(win, bytes)
    }

    /// Writes eight characters along the edges of a window, in the order of `border` and in its way. `BOX`,
    /// `DOUBLE_BOX` and `ROUND_BOX` are eight such characters.
    ///
    /// Refused: NoWindow; NotOneColumn if any of them is no character. X/Open Curses Issue 7, border_set().
    pub fn border_of(&mut self, win: Win, characters: [char; 8]) -> Result<(), WinFault>
        ensures { OnDesk self.old self.new result (border_of_call self.old.desk win.0 characters) }
    {
        self.desk.border_of(win, characters)
    }
}
