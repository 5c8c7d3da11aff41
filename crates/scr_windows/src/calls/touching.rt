//! Calls that touch lines, make them untouched, or copy them for an update. The definitions are in
//! `specs/Calls/Touching.antt`.
ghost use Rattle.std.specs.Prelude.{◌≡◌, true, false};
ghost use Rattle.scr_windows.specs.DeskViews.{HasSameSize};
ghost use Rattle.scr_windows.specs.Calls.Touching.{take_lines_call, touch_all_call, touch_lines_call};

use crate::desks::Desk;
use crate::faults::{Win, WinFault};

impl Desk {
    /// Touches all lines of a window.
    #[tactic(auto, unfolding(crate::specs::Calls::Touching::touch_all_call))]
    pub fn touch_window(&mut self, win: Win) -> Result<(), WinFault>
        ensures call { (self.new, result) ≡ touch_all_call self.old win.0 true }
        ensures size { HasSameSize self.old self.new }
    {
        let canvas = self.canvas(win)?;
        self.mark(canvas.index, 0, canvas.area.rows, true);
        Ok(())
    }

    /// Makes all lines of a window untouched.
    #[tactic(auto, unfolding(crate::specs::Calls::Touching::touch_all_call))]
    pub fn untouch(&mut self, win: Win) -> Result<(), WinFault>
        ensures call { (self.new, result) ≡ touch_all_call self.old win.0 false }
        ensures size { HasSameSize self.old self.new }
    {
        let canvas = self.canvas(win)?;
        self.mark(canvas.index, 0, canvas.area.rows, false);
        Ok(())
    }

    /// Makes `n` lines of a window, from line `first` on, touched, or untouched if `changed` is false.
    #[tactic(auto, unfolding(crate::specs::Calls::Touching::touch_lines_call))]
    pub fn touch_lines(
        &mut self,
        win: Win,
        first: u32,
        n: u32,
        changed: bool,
    ) -> Result<(), WinFault>
        ensures call { (self.new, result) ≡ touch_lines_call self.old win.0 first n changed }
        ensures size { HasSameSize self.old self.new }
    {
        let canvas = self.canvas(win)?;
        if first > canvas.area.rows || n > canvas.area.rows - first {
            return Err(WinFault::OutOfWindow);
        }
        self.mark(canvas.index, first, first + n, changed);
        Ok(())
    }

    /// Takes `n` lines of a window, from line `first` on, for an update: they become untouched, and `clear_ok` is
    /// returned and switched off.
    ///
    /// Refused: NoWindow; OutOfWindow if the window has fewer than `first + n` lines. curs_refresh(3X), wnoutrefresh().
    #[tactic(auto, unfolding(crate::specs::Calls::Touching::take_lines_call))]
    pub fn take_lines(&mut self, win: Win, first: u32, n: u32) -> Result<bool, WinFault>
        ensures call { (self.new, result) ≡ take_lines_call self.old win.0 first n }
        ensures size { HasSameSize self.old self.new }
    {
        let canvas = self.canvas(win)?;
        if first > canvas.area.rows || n > canvas.area.rows - first {
            return Err(WinFault::OutOfWindow);
        }
        self.mark(canvas.index, first, first + n, false);
        let mut state = canvas.state;
        state.clear_ok = false;
        self.set_state(canvas.index, state);
        Ok(canvas.state.clear_ok)
    }
}
