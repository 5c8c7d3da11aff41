//! Calls that touch lines, or make them untouched.
ghost use Rattle.std.specs.Prelude.{true, false};
ghost use Rattle.curses.specs.Forwarding.{OnDesk};
ghost use Rattle.scr_windows.specs.Calls.Touching.{touch_all_call, touch_lines_call};

use crate::screens::Screen;
use scr_windows::{Win, WinFault};

impl Screen {
    /// Touches all lines of a window.
    ///
    /// Refused: NoWindow. X/Open Curses Issue 7, touchwin().
    pub fn touch_window(&mut self, win: Win) -> Result<(), WinFault>
        ensures { OnDesk self.old self.new result (touch_all_call self.old.desk win.0 true) }
    {
        self.desk.touch_window(win)
    }

    /// Makes all lines of a window untouched.
    ///
    /// Refused: NoWindow. X/Open Curses Issue 7, untouchwin().
    pub fn untouch(&mut self, win: Win) -> Result<(), WinFault>
        ensures { OnDesk self.old self.new result (touch_all_call self.old.desk win.0 false) }
    {
        self.desk.untouch(win)
    }

    /// Makes `n` lines of a window, from line `first` on, touched, or untouched if `changed` is false.
    ///
    /// Refused: NoWindow; OutOfWindow if the window has fewer than `first + n` lines. X/Open Curses Issue 7,
    /// wtouchln().
    pub fn touch_lines(
        &mut self,
        win: Win,
        first: u32,
        n: u32,
        changed: bool,
    ) -> Result<(), WinFault>
        ensures { OnDesk self.old self.new result (touch_lines_call self.old.desk win.0 first n changed) }
    {
        self.desk.touch_lines(win, first, n, changed)
    }
}
