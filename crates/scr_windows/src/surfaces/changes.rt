//! The drawings that fill and move places of an area. Each is a private function, and every place outside the area
//! stays.
ghost use Rattle.std.specs.Prelude.{◌≡◌, ◌+◌, ◌-◌, ◌<◌, ◌≤◌};
ghost use Rattle.scr_cells.specs.Grids.{rows_down, rows_up};
ghost use Rattle.scr_windows.specs.Surfaces.SurfaceViews.{IsPart, IsSurface, filled, inside_at};
ghost use Rattle.scr_windows.specs.Surfaces.Formulas.{run_put, rows_put, below_put, column_put, all_exchanged, row_opened, row_closed};

use crate::surfaces::{Area, Surface};
use scr_cells::Cell;

impl Surface {
    // Fills columns `from..end` of a row of the area.
    pub(crate) fn fill_run(&mut self, area: Area, row: u32, from: u32, end: u32, cell: Cell)
        requires part { IsPart self.old area }
        requires row { row < area.rows }
        requires order { from ≤ end }
        requires end { end ≤ area.columns }
        requires surface { IsSurface self.old }
        ensures { self.new ≡ filled self.old area (run_put row from end cell (inside_at self.old area)) }
    {
        self.put_row(area.top + row, area.left + from, area.left + end, cell);
    }

    // Fills rows `first..end` of the area.
    pub(crate) fn fill_rows(&mut self, area: Area, first: u32, end: u32, cell: Cell)
        requires part { IsPart self.old area }
        requires order { first ≤ end }
        requires end { end ≤ area.rows }
        requires surface { IsSurface self.old }
        ensures { self.new ≡ filled self.old area (rows_put first end cell (inside_at self.old area)) }
    {
        for row in first..end {
            self.put_row(area.top + row, area.left, area.left + area.columns, cell);
        }
    }

    // Fills the places from one to the end of its row, and the rows below.
    pub(crate) fn fill_below(&mut self, area: Area, row: u32, column: u32, cell: Cell)
        requires part { IsPart self.old area }
        requires row { row < area.rows }
        requires column { column < area.columns }
        requires surface { IsSurface self.old }
        ensures { self.new ≡ filled self.old area (below_put row column cell (inside_at self.old area)) }
    {
        let right = area.left + area.columns;
        self.put_row(area.top + row, area.left + column, right, cell);
        for below in row + 1..area.rows {
            self.put_row(area.top + below, area.left, right, cell);
        }
    }

    // Moves the places of a row of the area, from one column on, right by one, and puts a cell in the free place. The
    // last one is lost.
    pub(crate) fn open_row(&mut self, area: Area, row: u32, column: u32, cell: Cell)
        requires part { IsPart self.old area }
        requires row { row < area.rows }
        requires column { column < area.columns }
        requires surface { IsSurface self.old }
        ensures { self.new ≡ filled self.old area (row_opened row column cell (inside_at self.old area)) }
    {
        let row = area.top + row;
        let column = area.left + column;
        let last = area.left + area.columns - 1;
        self.move_row(row, column, last, row, column + 1);
        self.put_row(row, column, column + 1, cell);
    }

    // Moves the places of a row of the area after one column left by one, and puts a cell in the last place.
    pub(crate) fn close_row(&mut self, area: Area, row: u32, column: u32, cell: Cell)
        requires part { IsPart self.old area }
        requires row { row < area.rows }
        requires column { column < area.columns }
        requires surface { IsSurface self.old }
        ensures { self.new ≡ filled self.old area (row_closed area.columns row column cell (inside_at self.old area)) }
    {
        let row = area.top + row;
        let column = area.left + column;
        let end = area.left + area.columns;
        self.move_row(row, column + 1, end, row, column);
        self.put_row(row, end - 1, end, cell);
    }

    // Moves rows `first..end` of the area up by `n` among themselves, and fills those left free.
    #[inline(never)]
    pub(crate) fn move_up(&mut self, area: Area, first: u32, end: u32, n: u32, cell: Cell)
        requires part { IsPart self.old area }
        requires order { first ≤ end }
        requires end { end ≤ area.rows }
        requires surface { IsSurface self.old }
        ensures { self.new ≡ filled self.old area (rows_up first end n cell (inside_at self.old area)) }
    {
        let left = area.left;
        let right = area.left + area.columns;
        let top = area.top + first;
        let free = top + (end - first).saturating_sub(n);
        for row in top..free {
            self.move_row(row + n, left, right, row, left);
        }
        for below in free..area.top + end {
            self.put_row(below, left, right, cell);
        }
    }

    // Moves rows `first..end` of the area down by `n` among themselves, and fills those left free.
    #[inline(never)]
    pub(crate) fn move_down(&mut self, area: Area, first: u32, end: u32, n: u32, cell: Cell)
        requires part { IsPart self.old area }
        requires order { first ≤ end }
        requires end { end ≤ area.rows }
        requires surface { IsSurface self.old }
        ensures { self.new ≡ filled self.old area (rows_down first end n cell (inside_at self.old area)) }
    {
        let left = area.left;
        let right = area.left + area.columns;
        let bottom = area.top + end;
        let moved = (end - first).saturating_sub(n);
        for done in 0..moved {
            let row = bottom - 1 - done;
            self.move_row(row - n, left, right, row, left);
        }
        for put in moved..end - first {
            self.put_row(bottom - 1 - put, left, right, cell);
        }
    }

    // Fills rows `first..end` of a column of the area.
    pub(crate) fn fill_column(&mut self, area: Area, column: u32, first: u32, end: u32, cell: Cell)
        requires part { IsPart self.old area }
        requires column { column < area.columns }
        requires order { first ≤ end }
        requires end { end ≤ area.rows }
        requires surface { IsSurface self.old }
        ensures { self.new ≡ filled self.old area (column_put column first end cell (inside_at self.old area)) }
    {
        let left = area.left + column;
        for row in first..end {
            self.put_row(area.top + row, left, left + 1, cell);
        }
    }

    // Replaces a background in all places of the area.
    pub(crate) fn exchange(&mut self, area: Area, old: Cell, new: Cell)
        requires part { IsPart self.old area }
        requires surface { IsSurface self.old }
        ensures { self.new ≡ filled self.old area (all_exchanged old new (inside_at self.old area)) }
    {
        let right = area.left + area.columns;
        for row in 0..area.rows {
            self.exchange_row(area.top + row, area.left, right, old, new);
        }
    }
}
