//! Ranges of columns, one or none for each row of a screen. The definitions are in `specs/Ranges.antt`.
ghost use Rattle.std.specs.Prelude.{◌≡◌, ◌<◌, ◌≤◌, ◌&&◌, leb, ltb, IfOk, None, length, replicate, slice_index_or, slice_set};
ghost use Rattle.scr_virtual.specs.Ranges.{AreNoneOutside, joined, ranges_with};
ghost use Rattle.scr_virtual.specs.Code.Rows.{with_rows};

use scr_cells::NoMemory;
use std::alloc::Global;
use std::marker::Model;

// A first and a last column, or none, for each row.
#[derive(Drop)]
pub(crate) struct Ranges {
    // One for each row.
    columns: Vec<Option<(u32, u32)>>,
    // The first and the last row that may have a range. Whatever reads or empties the ranges looks at no other row.
    rows: Option<(u32, u32)>,
}

impl Model for Ranges {
    ghost use Rattle.std.specs.Prelude.{ℕ, List, Option};
    ghost use Rattle.scr_virtual.specs.Code.Rows.{HoldRanges};

    ghost Value = { List (Option (ℕ × ℕ)) };

    ghost view = { λ a. a.columns.items };

    ghost invariant = { λ a. HoldRanges a.rows a.columns.items };
}

impl Ranges {
    // No range for any of this many rows, at most those of a screen. Fails only when memory runs out.
    pub(crate) fn new(alloc: Global, rows: u32) -> Result<Ranges, NoMemory>
        requires { rows ≤ 500 }
        ensures { IfOk result (λ ranges. ranges ≡ replicate rows None) }
    {
        let mut columns = Vec::with_capacity(alloc, rows as usize)?;
        columns.resize(rows as usize, None)?;
        Ok(Ranges {
            columns,
            rows: None,
        })
    }

    // The range of a row.
    pub(crate) fn at(&self, row: u32) -> Option<(u32, u32)>
        requires { row < length self.now }
        ensures { result ≡ slice_index_or self.now row None }
    {
        self.columns[row as usize]
    }

    // The first row and the end (exclusive) of the rows that may have a range.
    pub(crate) fn rows(&self) -> (u32, u32)
        ensures order { result.0 ≤ result.1 }
        ensures end { result.1 ≤ length self.now }
        ensures others { AreNoneOutside self.now result.0 result.1 }
    {
        match self.rows {
            Some((first, last)) => (first, last + 1),
            None => (0, 0),
        }
    }

    // Removes the range of every row.
    pub(crate) fn clear(&mut self)
        ensures { self.new ≡ replicate (length self.old) None }
    {
        let (first, end) = self.rows();
        fill(&mut self.columns, first as usize, end as usize, None);
        self.rows = None;
    }

    // Gives the rows `first..end` one range.
    pub(crate) fn fill(&mut self, first: u32, end: u32, range: (u32, u32))
        requires order { first ≤ end }
        requires end { end ≤ length self.old }
        ensures { self.new ≡ ranges_with (λ r. leb first r && ltb r end) (λ _ _. Some range) self.old }
    {
        fill(&mut self.columns, first as usize, end as usize, Some(range));
        self.rows = with_rows(first, end, self.rows);
    }

    // Extends the range of a row so that it holds another too, if there is one.
    pub(crate) fn join(&mut self, row: u32, other: Option<(u32, u32)>)
        requires { row < length self.old }
        ensures { self.new ≡ slice_set self.old row (joined other (slice_index_or self.old row None)) }
    {
        if other.is_none() {
            return;
        }
        let range = &mut self.columns[row as usize];
        *range = joined(other, *range);
        self.rows = joined(Some((row, row)), self.rows);
    }
}

// The range that holds both of two ranges, and everything between them.
fn joined(other: Option<(u32, u32)>, range: Option<(u32, u32)>) -> Option<(u32, u32)>
    ensures { result ≡ joined other range }
{
    match (other, range) {
        (Some(other), Some(range)) => Some((other.0.min(range.0), other.1.max(range.1))),
        (Some(_), None) => other,
        (None, _) => range,
    }
}

// The first and the last of the rows `first..end` together with those in `rows`.
fn with_rows(first: u32, end: u32, rows: Option<(u32, u32)>) -> Option<(u32, u32)>
    ensures { result ≡ with_rows first end rows }
{
    if first < end {
        joined(Some((first, end - 1)), rows)
    } else {
        rows
    }
}

// Sets one range, or none, in the rows `first..end`.
fn fill(ranges: &mut [Option<(u32, u32)>], first: usize, end: usize, range: Option<(u32, u32)>)
    requires order { first ≤ end }
    requires end { end ≤ length ranges.old }
    ensures { ranges.new ≡ ranges_with (λ r. leb first r && ltb r end) (λ _ _. range) ranges.old }
{
    for row in first..end {
        ranges[row] = range;
    }
}
