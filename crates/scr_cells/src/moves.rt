//! Moves of a grid's rows, and of the places of a row. What moves off is lost, and what is left free gets an element.
ghost use Rattle.std.specs.Prelude.{◌≡◌, ◌<◌, ◌≤◌};
ghost use Rattle.scr_cells.specs.Grids.{grid_at, grid_of, places_left, places_right, rows_down, rows_up};

use crate::Grid;

impl<T: Copy> Grid<T> {
    /// Moves rows `first..end` up by `n` among themselves, and fills those left free. Nothing else changes.
    pub fn move_rows_up(&mut self, first: u32, end: u32, n: u32, element: T)
        requires order { first ≤ end }
        requires end { end ≤ self.old.rows }
        ensures { self.new ≡ record self.old { lines = grid_of self.old.rows self.old.columns (rows_up first end n element (grid_at element self.old.lines)) } }
    {
        let columns = self.columns();
        let free = first + (end - first).saturating_sub(n);
        for row in first..free {
            self.copy(row + n, 0, columns, row, 0);
        }
        for row in free..end {
            self.fill(row, 0, columns, element);
        }
    }

    /// Moves rows `first..end` down by `n` among themselves, and fills those left free. Nothing else changes.
    pub fn move_rows_down(&mut self, first: u32, end: u32, n: u32, element: T)
        requires order { first ≤ end }
        requires end { end ≤ self.old.rows }
        ensures { self.new ≡ record self.old { lines = grid_of self.old.rows self.old.columns (rows_down first end n element (grid_at element self.old.lines)) } }
    {
        let columns = self.columns();
        let moved = (end - first).saturating_sub(n);
        for done in 0..moved {
            let row = end - 1 - done;
            self.copy(row - n, 0, columns, row, 0);
        }
        for put in moved..end - first {
            self.fill(end - 1 - put, 0, columns, element);
        }
    }

    /// Moves the places of a row in columns `from..end` left by `n` among themselves, and fills those left free.
    /// Nothing else changes.
    pub fn move_places_left(&mut self, row: u32, from: u32, end: u32, n: u32, element: T)
        requires row { row < self.old.rows }
        requires order { from ≤ end }
        requires end { end ≤ self.old.columns }
        ensures { self.new ≡ record self.old { lines = grid_of self.old.rows self.old.columns (places_left row from end n element (grid_at element self.old.lines)) } }
    {
        let _columns = self.columns();
        let moved = (end - from).saturating_sub(n);
        self.copy(row, end - moved, end, row, from);
        self.fill(row, from + moved, end, element);
    }

    /// Moves the places of a row in columns `from..end` right by `n` among themselves, and fills those left free.
    /// Nothing else changes.
    pub fn move_places_right(&mut self, row: u32, from: u32, end: u32, n: u32, element: T)
        requires row { row < self.old.rows }
        requires order { from ≤ end }
        requires end { end ≤ self.old.columns }
        ensures { self.new ≡ record self.old { lines = grid_of self.old.rows self.old.columns (places_right row from end n element (grid_at element self.old.lines)) } }
    {
        let _columns = self.columns();
        let moved = (end - from).saturating_sub(n);
        self.copy(row, from, from + moved, row, end - moved);
        self.fill(row, from, end - moved, element);
    }
}
