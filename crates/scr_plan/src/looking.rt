//! Finding the places of a row that differ from what it shows, and the blanks at its end.
ghost use Rattle.std.specs.Prelude.{ℕ, ◌≡◌, ◌≢◌, ◌+◌, ◌-◌, ◌<◌, ◌≤◌, ◌⊎◌, IfSome, List, Option, Some, false, true, length, option_map, slice_index_or, if◌then◌else◌};
ghost use Rattle.scr_cells.specs.CellViews.{blank_cell};
ghost use Rattle.scr_cells.specs.Characters.{seen_character};
ghost use Rattle.scr_cells.specs.Grids.{grid_row};
ghost use Rattle.scr_cells.specs.LookViews.{blank};
ghost use Rattle.scr_cells.specs.Showing.{HasRendition, shown_in};
ghost use Rattle.scr_term.specs.declared.operations.operation.Op.TheVariants.{EraseLine};
ghost use Rattle.scr_term.specs.Operations.Texts.{has};
ghost use Rattle.scr_plan.specs.Code.Joinings.{ShowsRow};
ghost use Rattle.scr_plan.specs.Code.Looking.{IsRest};
ghost use Rattle.scr_plan.specs.Code.Painters.{is_that_pen, painter_look, painter_sees, row_differs};
ghost use Rattle.scr_memory.specs.Memories.{MemoryView};
ghost use Rattle.scr_plan.specs.Repaints.{erased_column, look_eq};
ghost use Rattle.scr_plan.specs.Code.Scenes.{IsLine, IsScene};

use crate::scenes::{Line, Scene};
use scr_cells::{Cell, Look, Pen, character_laws, shown_before, unshown_before};
use scr_term::Op;

// The code of a blank.
const BLANK: u32 = 32;

impl<'a> Scene<'a> {
    // A row of the picture, and what it shows: `before`, or blanks.
    pub(crate) fn line(&self, row: u32, before: Option<&'a [Look]>) -> Line<'a>
        requires row { row < self.now.picture.now.rows }
        requires width { IfSome before (λ looks. length looks.now ≡ self.now.picture.now.columns) }
        ensures line { IsLine self.now.picture.now result }
        ensures row { result.row ≡ row }
        ensures before { result.before ≡ before.entry }
    {
        let _size = self.picture.size();
        Line {
            row,
            cells: self.picture.row(row),
            before,
        }
    }
}

impl Scene<'_> {
    // What is seen of a row's cell: the code of a character, and the pen that it is written with. Most cells are
    // blank, and their pen is plain.
    #[inline(always)]
    pub(crate) fn seen_in(&self, cells: &[Cell], column: u32) -> (u32, Pen)
        requires { column < length cells.now }
        ensures code { result.0 ≡ (painter_sees self.now.painter self.now.picture.now.pairs (slice_index_or cells.now column blank_cell)).character }
        ensures pen { result.1 ≡ (painter_sees self.now.painter self.now.picture.now.pairs (slice_index_or cells.now column blank_cell)).pen }
    {
        character_laws();
        let cell = cell_in(cells, column);
        if cell == Cell::blank() {
            return (BLANK, Pen::plain());
        }
        (
            self.painter.code_of(cell),
            self.painter.pen_of(self.picture, cell),
        )
    }

    // The column from which the joined repaint erases the rest of a row, if it does. Only columns
    // `from..end` can differ.
    pub(crate) fn erased_column(&self, line: &Line<'_>, from: u32, end: u32) -> Option<u32>
        requires scene { IsScene self.now }
        requires line { IsLine self.now.picture.now line.now }
        requires from { from ≤ end }
        requires end { end ≤ self.now.picture.now.columns }
        requires outside { (c : ℕ) → (c < from) ⊎ (end ≤ c) → c < self.now.picture.now.columns → row_differs self.now.painter self.now.picture.now (option_map (λ looks. looks.now) line.now.before) (line.now.row, c) ≡ false }
        ensures inside { IfSome result (λ column. (from ≤ column) × (column < end)) }
        ensures blank { IfSome result (λ column. painter_look self.now.painter self.now.picture.now (line.now.row, column) ≡ blank) }
        ensures has { IfSome result (λ column. has self.now.profile.now EraseLine ≡ true) }
        ensures value { (memory : MemoryView) → ShowsRow memory line.now.row (option_map (λ looks. looks.now) line.now.before) → result ≡ erased_column self.now.profile.now self.now.picture.now memory line.now.row }
    {
        let rest = self.blank_rest(line, from, end);
        let column = rest.first?;
        let price = self.profile.cost(Op::EraseLine)?;
        if (rest.count as usize) < price || !self.is_blank_from(line.row, line.cells, end) {
            return None;
        }
        Some(column)
    }

    // The blanks at the end of a part of a row: the first that differs, and how many differ.
    pub(crate) fn blank_rest(&self, line: &Line<'_>, from: u32, end: u32) -> Rest
        requires line { IsLine self.now.picture.now line.now }
        requires from { from ≤ end }
        requires end { end ≤ self.now.picture.now.columns }
        ensures { IsRest self.now.painter self.now.picture.now line.now.row (option_map (λ looks. looks.now) line.now.before) from end result }
    {
        let _size = self.picture.size();
        let mut rest = Rest {
            begin: end,
            first: None,
            count: 0,
        };
        while rest.begin > from {
            let (code, pen) = self.seen_in(line.cells, rest.begin - 1);
            if !is_blank(code, pen) {
                return rest;
            }
            rest = rest.with_blank(line.before, code, pen);
        }
        rest
    }

    // Whether a row is seen blank from a column on.
    pub(crate) fn is_blank_from(&self, row: u32, cells: &[Cell], from: u32) -> bool
        requires cells { cells.now ≡ grid_row self.now.picture.now.lines row }
        requires wide { length cells.now ≡ self.now.picture.now.columns }
        ensures all { result ≡ true → (c : ℕ) → from ≤ c → c < self.now.picture.now.columns → look_eq (painter_look self.now.painter self.now.picture.now (row, c)) blank ≡ true }
        ensures none { result ≡ false → (c : ℕ) × (from ≤ c) × (c < self.now.picture.now.columns) × (look_eq (painter_look self.now.painter self.now.picture.now (row, c)) blank ≡ false) }
    {
        let size = self.picture.size();
        self.is_blank(row, cells, from, size.columns)
    }

    // Whether a row is seen blank in columns `from..end`.
    pub(crate) fn is_blank(&self, row: u32, cells: &[Cell], from: u32, end: u32) -> bool
        requires cells { cells.now ≡ grid_row self.now.picture.now.lines row }
        requires wide { length cells.now ≡ self.now.picture.now.columns }
        requires end { end ≤ self.now.picture.now.columns }
        ensures all { result ≡ true → (c : ℕ) → from ≤ c → c < end → look_eq (painter_look self.now.painter self.now.picture.now (row, c)) blank ≡ true }
        ensures none { result ≡ false → (c : ℕ) × (from ≤ c) × (c < end) × (look_eq (painter_look self.now.painter self.now.picture.now (row, c)) blank ≡ false) }
    {
        for column in from..end {
            let (code, pen) = self.seen_in(cells, column);
            if !is_blank(code, pen) {
                return false;
            }
        }
        true
    }

    // The first column in `from..end` in which the row does not show what is seen of its cell;
    // `end` if there is none.
    pub(crate) fn unlike_from(&self, line: &Line<'_>, from: u32, end: u32) -> u32
        requires line { IsLine self.now.picture.now line.now }
        requires from { from ≤ end }
        requires end { end ≤ self.now.picture.now.columns }
        ensures from { from ≤ result }
        ensures end { result ≤ end }
        ensures same { (c : ℕ) → from ≤ c → c < result → row_differs self.now.painter self.now.picture.now (option_map (λ looks. looks.now) line.now.before) (line.now.row, c) ≡ false }
        ensures unlike { result < end → row_differs self.now.painter self.now.picture.now (option_map (λ looks. looks.now) line.now.before) (line.now.row, result) ≡ true }
    {
        for column in from + self.shown_by_eight(line, from, end)..end {
            let (code, pen) = self.seen_in(line.cells, column);
            if !is_shown_in(line.before, column, code, pen) {
                return column;
            }
        }
        end
    }

    // The first column after `column` in which the row shows what is seen of its cell, or whose
    // cell has other attributes or another colour pair; `end` if there is none before it.
    pub(crate) fn unlike_end(&self, line: &Line<'_>, column: u32, end: u32) -> u32
        requires line { IsLine self.now.picture.now line.now }
        requires column { column < end }
        requires end { end ≤ self.now.picture.now.columns }
        ensures more { column < result }
        ensures end { result ≤ end }
        ensures unlike { row_differs self.now.painter self.now.picture.now (option_map (λ looks. looks.now) line.now.before) (line.now.row, column) ≡ true → (c : ℕ) → column ≤ c → c < result → row_differs self.now.painter self.now.picture.now (option_map (λ looks. looks.now) line.now.before) (line.now.row, c) ≡ true }
        ensures alike { (c : ℕ) → column ≤ c → c < result → (painter_look self.now.painter self.now.picture.now (line.now.row, c)).pen ≡ (painter_look self.now.painter self.now.picture.now (line.now.row, column)).pen }
    {
        let first = cell_in(line.cells, column);
        let pen = self.painter.pen_of(self.picture, first);
        let second = column + 1;
        if second >= end || self.ends(line, first, second, pen) {
            return second;
        }
        let begun = column + self.unlike_by_eight(line, column, end).max(1);
        for next in begun..end {
            if self.ends(line, first, next, pen) {
                return next;
            }
        }
        end
    }

    // Whether a place shows what is seen of its cell with a pen, or its cell has other attributes
    // or another colour pair than `first`.
    #[inline(always)]
    fn ends(&self, line: &Line<'_>, first: Cell, column: u32, pen: Pen) -> bool
        requires column { column < length line.now.cells.now }
        requires width { IfSome line.now.before (λ looks. column < length looks.now) }
        ensures attrs { result ≡ false → first.attrs ≡ (slice_index_or line.now.cells.now column blank_cell).attrs }
        ensures pair { result ≡ false → first.pair ≡ (slice_index_or line.now.cells.now column blank_cell).pair }
        ensures unlike { result ≡ false → look_eq (shown_in (option_map (λ looks. looks.now) line.now.before) column) (record { character = seen_character self.now.painter.charset (slice_index_or line.now.cells.now column blank_cell).character; pen = pen }) ≡ false }
    {
        let cell = cell_in(line.cells, column);
        !are_alike(first, cell) || is_shown_in(line.before, column, self.painter.code_of(cell), pen)
    }

    // How many places from a column on do not show what is seen of their cells, all with the
    // attributes and pair of the first. They are looked at eight at a time, so the count may be too
    // low.
    fn unlike_by_eight(&self, line: &Line<'_>, from: u32, end: u32) -> u32
        requires width { IfSome line.now.before (λ looks. length looks.now ≡ length line.now.cells.now) }
        requires from { from ≤ end }
        requires end { end ≤ length line.now.cells.now }
        ensures end { from + result ≤ end }
        ensures unlike { (c : ℕ) → from ≤ c → c < from + result → (pairs : List (Option ℕ × Option ℕ))
            → shown_in (option_map (λ looks. looks.now) line.now.before) c ≢ painter_sees self.now.painter pairs (slice_index_or line.now.cells.now c blank_cell) }
        ensures alike { (c : ℕ) → from ≤ c → c < from + result → HasRendition (slice_index_or line.now.cells.now from blank_cell) line.now.cells.now c }
    {
        unshown_before(
            looks_in(line.before, from, end),
            &line.cells[from as usize..end as usize],
            self.painter.charset,
            self.painter.shown,
        ) as u32
    }

    // How many places from a column on show what is seen of their cells. They are looked at eight
    // at a time, so the count may be too low.
    fn shown_by_eight(&self, line: &Line<'_>, from: u32, end: u32) -> u32
        requires width { IfSome line.now.before (λ looks. length looks.now ≡ length line.now.cells.now) }
        requires from { from ≤ end }
        requires end { end ≤ length line.now.cells.now }
        ensures end { from + result ≤ end }
        ensures same { (c : ℕ) → from ≤ c → c < from + result → (pairs : List (Option ℕ × Option ℕ))
            → shown_in (option_map (λ looks. looks.now) line.now.before) c ≡ painter_sees self.now.painter pairs (slice_index_or line.now.cells.now c blank_cell) }
    {
        shown_before(
            looks_in(line.before, from, end),
            &line.cells[from as usize..end as usize],
            self.painter.charset,
            self.painter.shown,
        ) as u32
    }
}

// The blanks at the end of a part of a row: where they begin, the first of them that differs from what
// the row shows, and how many differ.
#[derive(Clone, Copy)]
pub(crate) struct Rest {
    pub(crate) begin: u32,
    pub(crate) first: Option<u32>,
    pub(crate) count: u32,
}

impl Rest {
    // With one more blank in front.
    fn with_blank(self, before: Option<&[Look]>, code: u32, pen: Pen) -> Rest
        requires begin { 0 < self.begin }
        requires width { IfSome before (λ looks. self.begin ≤ length looks.now) }
        requires few { self.count ≤ 500 }
        ensures begin { result.begin ≡ self.begin - 1 }
        ensures first { result.first ≡ if look_eq (shown_in (option_map (λ looks. looks.now) before.entry) (self.begin - 1)) (record { character = code; pen = pen }) then self.first else Some (self.begin - 1) }
        ensures count { result.count ≡ if look_eq (shown_in (option_map (λ looks. looks.now) before.entry) (self.begin - 1)) (record { character = code; pen = pen }) then self.count else self.count + 1 }
    {
        let begin = self.begin - 1;
        if is_shown_in(before, begin, code, pen) {
            return Rest {
                begin,
                first: self.first,
                count: self.count,
            };
        }
        Rest {
            begin,
            first: Some(begin),
            count: self.count + 1,
        }
    }
}

// What a row shows in columns `from..end`: looks, or blanks.
#[inline(always)]
fn looks_in(before: Option<&[Look]>, from: u32, end: u32) -> Option<&[Look]>
    requires from { from ≤ end }
    requires end { IfSome before (λ looks. end ≤ length looks.now) }
    ensures width { IfSome result (λ looks. length looks.now ≡ end - from) }
    ensures shown { (i : ℕ) → i < end - from → shown_in (option_map (λ looks. looks.now) result) i ≡ shown_in (option_map (λ looks. looks.now) before.entry) (from + i) }
{
    let looks = before?;
    Some(&looks[from as usize..end as usize])
}

// The cell in a column of a row.
#[inline(always)]
pub(crate) fn cell_in(cells: &[Cell], column: u32) -> Cell
    requires { column < length cells.now }
    ensures { result ≡ slice_index_or cells.now column blank_cell }
{
    cells[column as usize]
}

// Whether two cells have the same attributes and the same colour pair.
#[inline(always)]
pub(crate) fn are_alike(a: Cell, b: Cell) -> bool
    ensures attrs { result ≡ true → a.attrs ≡ b.attrs }
    ensures pair { result ≡ true → a.pair ≡ b.pair }
{
    a.has_rendition_of(b)
}

// Whether a blank is seen.
#[inline(always)]
fn is_blank(code: u32, pen: Pen) -> bool
    ensures { result ≡ look_eq (record { character = code; pen = pen }) blank }
{
    code == BLANK && pen.is_plain()
}

// Whether a row shows a character with a pen in a column.
#[inline(always)]
pub(crate) fn is_shown_in(before: Option<&[Look]>, column: u32, code: u32, pen: Pen) -> bool
    requires { IfSome before (λ looks. column < length looks.now) }
    ensures { result ≡ look_eq (shown_in (option_map (λ looks. looks.now) before.entry) column) (record { character = code; pen = pen }) }
{
    let look = match before {
        Some(looks) => looks[column as usize],
        None => Look::blank(),
    };
    look.code() == code && look.pen() == pen
}

// Whether a place was painted with a pen.
#[inline(always)]
pub(crate) fn is_that_pen(left: Option<Pen>, pen: Pen) -> bool
    ensures { result ≡ is_that_pen left pen }
{
    match left {
        Some(left) => left == pen,
        None => false,
    }
}
