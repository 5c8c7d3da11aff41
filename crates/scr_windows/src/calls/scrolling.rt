//! Calls that move cells within a line, or whole lines: deleting a byte, inserting and deleting lines, scrolling.
//!
//! The definitions are in `specs/Calls/Scrolling.antt`.
ghost use Rattle.std.specs.Prelude.{◌≡◌};
ghost use Rattle.scr_windows.specs.DeskViews.{HasSameSize};
ghost use Rattle.scr_windows.specs.Calls.Scrolling.{delete_byte_call, insert_delete_lines_call, scroll_call};

use crate::desks::Desk;
use crate::faults::{Win, WinFault};
use crate::surfaces::Drawing;

impl Desk {
    /// Deletes the byte at a window's cursor: what is right of it in the line moves left by one, and the last column
    /// gets the background.
    #[tactic(auto, unfolding(crate::specs::Calls::Scrolling::delete_byte_call))]
    pub fn delete_byte(&mut self, win: Win) -> Result<(), WinFault>
        ensures call { (self.new, result) ≡ delete_byte_call self.old win.0 }
        ensures size { HasSameSize self.old self.new }
    {
        let canvas = self.canvas(win)?;
        let (row, column) = canvas.state.cursor;
        self.draw(
            canvas.index,
            &Drawing::Closed {
                row,
                column,
                cell: canvas.state.background,
            },
        );
        Ok(())
    }

    /// Inserts `n` lines at the cursor's row of a window, or deletes `-n` lines from there on if `n` is below 0.
    #[tactic(auto, unfolding(crate::specs::Calls::Scrolling::insert_delete_lines_call))]
    pub fn insert_delete_lines(&mut self, win: Win, n: i32) -> Result<(), WinFault>
        ensures call { (self.new, result) ≡ insert_delete_lines_call self.old win.0 n }
        ensures size { HasSameSize self.old self.new }
    {
        let canvas = self.canvas(win)?;
        let (first, end) = lines_from(canvas.state.cursor, canvas.area.rows);
        let many = n.unsigned_abs();
        if n > 0 {
            self.draw(
                canvas.index,
                &Drawing::Down {
                    first,
                    end,
                    count: many,
                    cell: canvas.state.background,
                },
            );
        } else if n < 0 {
            self.draw(
                canvas.index,
                &Drawing::Up {
                    first,
                    end,
                    count: many,
                    cell: canvas.state.background,
                },
            );
        }
        Ok(())
    }

    /// Moves the lines of a window's scrolling region up by `n`, or down by `-n` if `n` is below 0.
    #[tactic(auto, unfolding(crate::specs::Calls::Scrolling::scroll_call))]
    pub fn scroll(&mut self, win: Win, n: i32) -> Result<(), WinFault>
        ensures call { (self.new, result) ≡ scroll_call self.old win.0 n }
        ensures size { HasSameSize self.old self.new }
    {
        let canvas = self.canvas(win)?;
        if !canvas.state.scroll_ok {
            return Err(WinFault::NoScroll);
        }
        let (top, bottom) = canvas.state.region;
        let many = n.unsigned_abs();
        if n > 0 {
            self.draw(
                canvas.index,
                &Drawing::Up {
                    first: top,
                    end: bottom + 1,
                    count: many,
                    cell: canvas.state.background,
                },
            );
        } else if n < 0 {
            self.draw(
                canvas.index,
                &Drawing::Down {
                    first: top,
                    end: bottom + 1,
                    count: many,
                    cell: canvas.state.background,
                },
            );
        }
        Ok(())
    }
}

// The lines from a cursor's to a window's last: the first, and the end (exclusive).
fn lines_from(cursor: (u32, u32), rows: u32) -> (u32, u32)
    ensures first { result.0 ≡ cursor.0 }
    ensures end { result.1 ≡ rows }
{
    (cursor.0, rows)
}
