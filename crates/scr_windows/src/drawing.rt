//! Drawing in the window at an index among the desk's, which touches the lines that are written.
//!
//! What each drawing does is a matter of `surfaces`.
ghost use Rattle.std.specs.Prelude.{◌≡◌, ◌+◌, ◌<◌, ◌≤◌, length};
ghost use Rattle.scr_windows.specs.Surfaces.Drawings.{IsFitting, drawn};
ghost use Rattle.scr_windows.specs.Surfaces.Formulas.{run_put};
ghost use Rattle.scr_windows.specs.DeskViews.{window_at};
ghost use Rattle.scr_windows.specs.Code.Canvases.{IsKept, lines_drawn};
ghost use Rattle.scr_windows.specs.Code.Stretches.{characters_first, forms_from, row_laid};
ghost use Rattle.scr_windows.specs.Changes.{write};

use crate::desks::Desk;
use crate::laws::surface_laws;
use crate::surfaces::Drawing;
use scr_cells::Cell;

impl Desk {
    // Draws in the window at an index, and touches the lines that are written.
    pub(crate) fn draw(&mut self, index: usize, drawing: &Drawing)
        requires here { index < length self.old.windows }
        requires fits { IsFitting drawing.now (window_at self.old index).frame.area.rows (window_at self.old index).frame.area.columns }
        ensures drawn { self.new ≡ write self.old index (lines_drawn drawing.now (window_at self.old index).frame.area.rows).0 (lines_drawn drawing.now (window_at self.old index).frame.area.rows).1 (drawn drawing.now (window_at self.old index).frame.area.rows (window_at self.old index).frame.area.columns) }
        ensures kept { IsKept self.old self.new index }
    {
        let window = &mut self.windows[index];
        let frame = window.frame();
        let (first, end) = lines_of(drawing, frame.area.rows);
        window.mark(first, end, true);
        surface_laws();
        self.surfaces[frame.surface].draw(frame.area, drawing);
    }

    // Puts a cell in one place of the window at an index, and touches the line.
    #[inline(always)]
    pub(crate) fn put(&mut self, index: usize, row: u32, column: u32, cell: Cell)
        requires here { index < length self.old.windows }
        requires row { row < (window_at self.old index).frame.area.rows }
        requires column { column < (window_at self.old index).frame.area.columns }
        ensures put { self.new ≡ write self.old index row (row + 1) (run_put row column (column + 1) cell) }
        ensures kept { IsKept self.old self.new index }
    {
        let window = &mut self.windows[index];
        let frame = window.frame();
        window.touch_line(row);
        surface_laws();
        self.surfaces[frame.surface].put(frame.area, row, column, cell);
    }

    // Writes the characters that a text begins with from a place on in the window at an index, and touches the line.
    // Each is in the cell that a blank gets, but for its byte. The line has room for all of the text. Gives how many
    // they are.
    #[inline(always)]
    pub(crate) fn put_text(
        &mut self,
        index: usize,
        place: (u32, u32),
        text: &[u8],
        blank: Cell,
    ) -> usize
        requires here { index < length self.old.windows }
        requires row { place.0 < (window_at self.old index).frame.area.rows }
        requires fits { place.1 + length text.now ≤ (window_at self.old index).frame.area.columns }
        ensures count { result ≡ characters_first text.now }
        ensures put { self.new ≡ write self.old index place.0 (place.0 + 1) (row_laid place.0 place.1 (place.1 + result) (forms_from blank place.1 text.now)) }
        ensures kept { IsKept self.old self.new index }
    {
        let (row, column) = place;
        let window = &mut self.windows[index];
        let frame = window.frame();
        window.touch_line(row);
        surface_laws();
        self.surfaces[frame.surface].write_text(frame.area, row, column, text, blank)
    }
}

// The first line that a drawing writes in a window of this many rows, and the end (exclusive).
fn lines_of(drawing: &Drawing, rows: u32) -> (u32, u32)
    requires { (lines_drawn drawing.now rows).1 ≤ rows }
    ensures { result ≡ lines_drawn drawing.now rows }
{
    match *drawing {
        Drawing::Run { row, .. } | Drawing::Opened { row, .. } | Drawing::Closed { row, .. } => {
            (row, row + 1)
        }
        Drawing::Rows { first, end, .. }
        | Drawing::Column { first, end, .. }
        | Drawing::Up { first, end, .. }
        | Drawing::Down { first, end, .. } => (first, end),
        Drawing::Below { row, .. } => (row, rows),
        Drawing::Exchanged { .. } | Drawing::Edges(_) => (0, rows),
    }
}
