//! Which columns of which rows may have changed: a range a row, and the first and the last row with one.
ghost use Rattle.std.specs.Prelude.{◌≡◌, ◌<◌, ◌≤◌, ◌⊎◌, ◌&&◌, ℕ, IfOk, false, leb, ltb};
ghost use Rattle.scr_cells.specs.Grids.{is_in_run};
ghost use Rattle.scr_terminal.specs.Marks.{AreNone, AreOfSize, HasAdded, IsMarks, is_marked, marked_in};

use scr_cells::{NoMemory, Size};
use std::alloc::Global;
use std::marker::Model;

// No columns.
const NO_COLUMNS: (u32, u32) = (u32::MAX, 0);

/// The places of a screen that may have changed: in each row the columns from one to another.
#[derive(Drop)]
pub struct Marks {
    rows: u32,
    columns: u32,
    // The first marked column of each row, and the end of these.
    ranges: Vec<(u32, u32)>,
    // The first row with a mark, and the end of these.
    first: u32,
    end: u32,
}

impl Model for Marks {
    ghost use Rattle.scr_terminal.specs.Marks.{IsMarks, MarksView};

    ghost Value = { MarksView };

    ghost view = { λ a. record { rows = a.rows; columns = a.columns; ranges = a.ranges.items; first = a.first; end = a.end } };

    ghost invariant = { λ a. IsMarks (record { rows = a.rows; columns = a.columns; ranges = a.ranges.items; first = a.first; end = a.end }) };
}

impl Marks {
    /// No marks on a screen of this size. Fails only when memory runs out.
    pub fn new(alloc: Global, size: Size) -> Result<Marks, NoMemory>
        ensures size { IfOk result (AreOfSize size.rows size.columns) }
        ensures none { IfOk result AreNone }
    {
        let mut ranges = Vec::with_capacity(alloc, size.rows as usize)?;
        ranges.resize(size.rows as usize, NO_COLUMNS)?;
        Ok(Marks {
            rows: size.rows,
            columns: size.columns,
            ranges,
            first: size.rows,
            end: 0,
        })
    }

    /// The number of rows and columns of the screen.
    pub fn size(&self) -> Size
        ensures rows { result.rows ≡ self.now.rows }
        ensures columns { result.columns ≡ self.now.columns }
        ensures marks { IsMarks self.now }
    {
        Size {
            rows: self.rows,
            columns: self.columns,
        }
    }

    /// Marks columns `from..end` of a row.
    #[inline(always)]
    pub fn mark(&mut self, row: u32, from: u32, end: u32)
        requires row { row < self.old.rows }
        requires end { end ≤ self.old.columns }
        ensures size { AreOfSize self.old.rows self.old.columns self.new }
        ensures marks { HasAdded (is_in_run row from end) self.old self.new }
    {
        let (start, last) = self.ranges[row as usize];
        self.ranges[row as usize] = (start.min(from), last.max(end));
        self.first = self.first.min(row);
        self.end = self.end.max(row + 1);
    }

    /// Marks the rows `first..end` whole.
    pub fn mark_rows(&mut self, first: u32, end: u32)
        requires { end ≤ self.old.rows }
        ensures size { AreOfSize self.old.rows self.old.columns self.new }
        ensures marks { HasAdded (λ r c. leb first r && ltb r end && ltb c self.old.columns) self.old self.new }
    {
        let columns = self.columns;
        for row in first..end {
            self.mark(row, 0, columns);
        }
    }

    /// The first row with a mark, and the end of the rows with marks.
    #[inline(always)]
    pub fn rows(&self) -> (u32, u32)
        ensures end { result.1 ≤ self.now.rows }
        ensures outside { (r c : ℕ) → (r < result.0) ⊎ (result.1 ≤ r) → is_marked self.now r c ≡ false }
    {
        (self.first, self.end)
    }

    /// The first marked column of a row, and the end of the marked ones, which is not behind the first if there are none.
    #[inline(always)]
    pub fn columns(&self, row: u32) -> (u32, u32)
        requires { row < self.now.rows }
        ensures value { result ≡ marked_in self.now row }
        ensures end { result.1 ≤ self.now.columns }
    {
        self.ranges[row as usize]
    }

    /// Takes all marks away.
    pub fn clear(&mut self)
        ensures size { AreOfSize self.old.rows self.old.columns self.new }
        ensures none { AreNone self.new }
    {
        for row in self.first..self.end {
            self.ranges[row as usize] = NO_COLUMNS;
        }
        self.first = self.rows;
        self.end = 0;
    }
}
