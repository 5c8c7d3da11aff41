//! Calls that erase. The definitions are in `specs/Calls/Erasing.antt`.
ghost use Rattle.std.specs.Prelude.{◌≡◌, ◌<◌, ◌≤◌, length};
ghost use Rattle.scr_windows.specs.DeskViews.{HasSameSize, window_at};
ghost use Rattle.scr_windows.specs.Code.Canvases.{IsKept};
ghost use Rattle.scr_windows.specs.Calls.Erasing.{erased_up_to, clear_to_eol_call, clear_to_bottom_call, erase_call, clear_call};

use crate::desks::Desk;
use crate::faults::{Win, WinFault};
use crate::surfaces::Drawing;

impl Desk {
    /// Erases a window from the cursor to the end of the line: these places get the background.
    #[tactic(auto, unfolding(crate::specs::Calls::Erasing::clear_to_eol_call))]
    pub fn clear_to_eol(&mut self, win: Win) -> Result<(), WinFault>
        ensures call { (self.new, result) ≡ clear_to_eol_call self.old win.0 }
        ensures size { HasSameSize self.old self.new }
    {
        let canvas = self.canvas(win)?;
        self.erase_up_to(canvas.index, canvas.area.columns);
        Ok(())
    }

    /// Erases a window from the cursor to the end of the line, and all lines below: these places get the background.
    #[tactic(auto, unfolding(crate::specs::Calls::Erasing::clear_to_bottom_call))]
    pub fn clear_to_bottom(&mut self, win: Win) -> Result<(), WinFault>
        ensures call { (self.new, result) ≡ clear_to_bottom_call self.old win.0 }
        ensures size { HasSameSize self.old self.new }
    {
        let canvas = self.canvas(win)?;
        let (row, column) = canvas.state.cursor;
        self.draw(
            canvas.index,
            &Drawing::Below {
                row,
                column,
                cell: canvas.state.background,
            },
        );
        Ok(())
    }

    /// Erases a whole window: every place gets the background, and the cursor goes to the first place.
    #[tactic(auto, unfolding(crate::specs::Calls::Erasing::erase_call))]
    pub fn erase(&mut self, win: Win) -> Result<(), WinFault>
        ensures call { (self.new, result) ≡ erase_call self.old win.0 }
        ensures size { HasSameSize self.old self.new }
    {
        let canvas = self.canvas(win)?;
        let mut state = canvas.state;
        self.draw(
            canvas.index,
            &Drawing::Rows {
                first: 0,
                end: canvas.area.rows,
                cell: state.background,
            },
        );
        state.cursor = (0, 0);
        self.set_state(canvas.index, state);
        Ok(())
    }

    /// Erases a whole window as `erase` does, and sets `clear_ok`: the next update with this window repaints the whole
    /// screen.
    #[tactic(auto, unfolding(crate::specs::Calls::Erasing::clear_call))]
    pub fn clear(&mut self, win: Win) -> Result<(), WinFault>
        ensures call { (self.new, result) ≡ clear_call self.old win.0 }
        ensures size { HasSameSize self.old self.new }
    {
        let canvas = self.canvas(win)?;
        let mut cleared = canvas.state;
        self.draw(
            canvas.index,
            &Drawing::Rows {
                first: 0,
                end: canvas.area.rows,
                cell: cleared.background,
            },
        );
        cleared.cursor = (0, 0);
        cleared.clear_ok = true;
        self.set_state(canvas.index, cleared);
        Ok(())
    }

    // Erases from the cursor of the window at an index up to a column of the cursor's line.
    pub(crate) fn erase_up_to(&mut self, index: usize, end: u32)
        requires here { index < length self.old.windows }
        requires from { (window_at self.old index).state.cursor.1 ≤ end }
        requires inside { end ≤ (window_at self.old index).frame.area.columns }
        ensures erased { self.new ≡ erased_up_to self.old index end }
        ensures kept { IsKept self.old self.new index }
    {
        let canvas = self.canvas_at(index);
        let (row, column) = canvas.state.cursor;
        self.draw(
            index,
            &Drawing::Run {
                row,
                from: column,
                end,
                cell: canvas.state.background,
            },
        );
    }
}
