//! Runs of cells in one row of a surface: the steps that every drawing is made of.
ghost use Rattle.std.specs.Prelude.{◌≡◌, ◌+◌, ◌-◌, ◌<◌, ◌≤◌, length, slice_index_or};
ghost use Rattle.scr_cells.specs.CellViews.{blank_cell, exchanged};
ghost use Rattle.scr_windows.specs.Surfaces.SurfaceViews.{cell_of};
ghost use Rattle.scr_windows.specs.Surfaces.Formulas.{laid, over};
ghost use Rattle.scr_windows.specs.Code.Steps.{RunIs};
ghost use Rattle.scr_windows.specs.Code.Stretches.{characters_first, form_of, forms_from};

use crate::surfaces::Surface;
use scr_cells::{Cell, grid_laws};

impl Surface {
    // Fills columns `from..end` of a row with a cell.
    pub(crate) fn put_row(&mut self, row: u32, from: u32, end: u32, cell: Cell)
        requires row { row < self.old.rows }
        requires order { from ≤ end }
        requires end { end ≤ self.old.columns }
        ensures { RunIs self.old self.new row from end (λ c. cell) }
    {
        grid_laws::<Cell>();
        self.grid.fill(row, from, end, cell);
    }

    // Puts a cell in one place.
    pub(crate) fn put_place(&mut self, row: u32, column: u32, cell: Cell)
        requires row { row < self.old.rows }
        requires column { column < self.old.columns }
        ensures { RunIs self.old self.new row column (column + 1) (λ c. cell) }
    {
        grid_laws::<Cell>();
        self.grid.put(row, column, cell);
    }

    // Writes the characters that a text begins with from a column on: each in the cell that a blank gets, but for its
    // byte. Gives how many they are.
    pub(crate) fn write_row(&mut self, row: u32, from: u32, text: &[u8], blank: Cell) -> usize
        requires row { row < self.old.rows }
        requires end { from + length text.now ≤ self.old.columns }
        ensures count { result ≡ characters_first text.now }
        ensures run { RunIs self.old self.new row from (from + result) (forms_from blank from text.now) }
    {
        grid_laws::<Cell>();
        self.grid
            .lay_while(row, from, text, |byte| form_of(byte, blank))
    }

    // Replaces an old background with a new one in columns `from..end` of a row.
    pub(crate) fn exchange_row(&mut self, row: u32, from: u32, end: u32, old: Cell, new: Cell)
        requires row { row < self.old.rows }
        requires order { from ≤ end }
        requires end { end ≤ self.old.columns }
        ensures { RunIs self.old self.new row from end (λ c. exchanged old new (cell_of self.old row c)) }
    {
        grid_laws::<Cell>();
        self.grid
            .change(row, from, end, |_, cell| cell.exchanged(old, new));
    }

    // Lays cells over columns `from..end` of a row; with `overlay`, a blank leaves its place.
    pub(crate) fn lay_row(&mut self, row: u32, from: u32, end: u32, cells: &[Cell], overlay: bool)
        requires row { row < self.old.rows }
        requires end { end ≤ self.old.columns }
        requires width { from + length cells.now ≡ end }
        ensures { RunIs self.old self.new row from end (λ c. laid overlay (slice_index_or cells.now (c - from) blank_cell) (cell_of self.old row c)) }
    {
        if overlay {
            self.overlay_row(row, from, end, cells);
        } else {
            self.overwrite_row(row, from, end, cells);
        }
    }

    // Copies columns `start..end` of a row to a row from column `to` on, also if the two overlap.
    pub(crate) fn move_row(&mut self, source: u32, start: u32, end: u32, row: u32, to: u32)
        requires source { source < self.old.rows }
        requires row { row < self.old.rows }
        requires order { start ≤ end }
        requires end { end ≤ self.old.columns }
        requires to { to + (end - start) ≤ self.old.columns }
        ensures { RunIs self.old self.new row to (to + (end - start)) (λ c. cell_of self.old source (start + (c - to))) }
    {
        grid_laws::<Cell>();
        self.grid.copy(source, start, end, row, to);
    }

    // Replaces columns `from..end` of a row with cells.
    fn overwrite_row(&mut self, row: u32, from: u32, end: u32, cells: &[Cell])
        requires row { row < self.old.rows }
        requires end { end ≤ self.old.columns }
        requires width { from + length cells.now ≡ end }
        ensures { RunIs self.old self.new row from end (λ c. slice_index_or cells.now (c - from) blank_cell) }
    {
        grid_laws::<Cell>();
        self.grid.lay(row, from, cells);
    }

    // Lays cells over columns `from..end` of a row, except for the blanks among them.
    fn overlay_row(&mut self, row: u32, from: u32, end: u32, cells: &[Cell])
        requires row { row < self.old.rows }
        requires end { end ≤ self.old.columns }
        requires width { from + length cells.now ≡ end }
        ensures { RunIs self.old self.new row from end (λ c. over (slice_index_or cells.now (c - from) blank_cell) (cell_of self.old row c)) }
    {
        grid_laws::<Cell>();
        let laid = |column: u32, under: Cell| -> Cell
            requires { (from ≤ column) × (column < from + length cells.now) }
            ensures { result ≡ over (slice_index_or cells.entry.now (column - from) blank_cell) under }
        { over(cells[(column - from) as usize], under) };
        self.grid.change(row, from, end, laid);
    }
}

// A cell laid over another: a blank leaves the other.
fn over(cell: Cell, under: Cell) -> Cell
    ensures { result ≡ over cell under }
{
    if cell.code() == 32 { under } else { cell }
}

// The cell of a byte where a blank gets this one; `None` if it is no character.
#[inline(always)]
fn form_of(byte: u8, blank: Cell) -> Option<Cell>
    ensures { result ≡ form_of blank byte }
{
    let cell = blank.with_byte(byte)?;
    Some(if byte == 32 { blank } else { cell })
}
