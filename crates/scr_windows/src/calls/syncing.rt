//! Calls that touch lines of windows that share cells. The definitions are in `specs/Calls/Syncing.antt`.
ghost use Rattle.std.specs.Prelude.{◌≡◌, ◌≢◌, ◌<◌, length, MatchOption};
ghost use Rattle.scr_windows.specs.DeskViews.{HasSameSize, IsDesk, window_at};
ghost use Rattle.scr_windows.specs.Changes.{with_window};
ghost use Rattle.scr_windows.specs.Calls.Syncing.{ancestors, frames_of, parent_index, sync_down_call, sync_up_call, touched_at, touched_down, touched_up, with_touched};

use crate::desks::Desk;
use crate::faults::{Win, WinFault};
use crate::windows::index_of_number;

impl Desk {
    /// Touches each line of every ancestor of a window that shares a row of cells with a touched line of the window.
    #[tactic(auto, unfolding(crate::specs::Calls::Syncing::sync_up_call))]
    pub fn sync_up(&mut self, win: Win) -> Result<(), WinFault>
        ensures call { (self.new, result) ≡ sync_up_call self.old win.0 }
        ensures size { HasSameSize self.old self.new }
    {
        let index = self.index_of(win)?;
        self.touch_up(index);
        Ok(())
    }

    /// Touches each line of a window that shares a row of cells with a touched line of any of its ancestors.
    #[tactic(auto, unfolding(crate::specs::Calls::Syncing::sync_down_call))]
    pub fn sync_down(&mut self, win: Win) -> Result<(), WinFault>
        ensures call { (self.new, result) ≡ sync_down_call self.old win.0 }
        ensures size { HasSameSize self.old self.new }
    {
        let index = self.index_of(win)?;
        self.touch_down(index);
        Ok(())
    }

    // Touches lines of the ancestors of the window at an index.
    fn touch_up(&mut self, index: usize)
        requires { index < length self.old.windows }
        ensures { self.new ≡ touched_up (ancestors self.old index) self.old index }
    {
        let mut above = self.parent_of(index);
        while let Some(parent) = above {
            self.touch_shared(index, parent);
            above = self.parent_of(parent);
        }
    }

    // Touches lines of the window at an index for the touched lines of its ancestors.
    fn touch_down(&mut self, index: usize)
        requires { index < length self.old.windows }
        ensures { self.new ≡ touched_down (ancestors self.old index) self.old index }
    {
        let mut above = self.parent_of(index);
        while let Some(parent) = above {
            self.touch_shared(parent, index);
            above = self.parent_of(parent);
        }
    }

    // The index of the parent of the window at an index. It comes before the window.
    fn parent_of(&self, index: usize) -> Option<usize>
        requires { index < length self.now.windows }
        ensures parent { result ≡ parent_index (frames_of self.now) index }
        ensures before { MatchOption result (Unit {0}) (λ parent. parent < index) }
        ensures desk { IsDesk self.now }
    {
        match self.window_at(index).frame().parent {
            Some(number) => index_of_number(&self.windows, number),
            None => None,
        }
    }

    // Touches each line of one window that shares a row of the surface with a touched line of another.
    fn touch_shared(&mut self, from: usize, to: usize)
        requires from { from < length self.old.windows }
        requires to { to < length self.old.windows }
        requires apart { from ≢ to }
        ensures { self.new ≡ with_window self.old to (with_touched (touched_at (window_at self.old from)) (window_at self.old to)) }
    {
        let one = self.window_at(from).frame().area;
        let other = self.window_at(to).frame().area;
        let end = (one.top + one.rows).min(other.top + other.rows);
        for row in one.top.max(other.top)..end {
            if self.is_row_touched(from, row) {
                let line = row - other.top;
                self.mark(to, line, line + 1, true);
            }
        }
    }

    // Whether the window at an index has a touched line in a row of its surface.
    fn is_row_touched(&self, index: usize, row: u32) -> bool
        requires { index < length self.now.windows }
        ensures { result ≡ touched_at (window_at self.now index) row }
    {
        let window = self.window_at(index);
        let area = window.frame().area;
        row >= area.top && row - area.top < area.rows && window.is_touched(row - area.top)
    }
}
