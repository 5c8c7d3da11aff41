//! Changes of an emulated terminal, worked out before any of them is made.
ghost use Rattle.std.specs.Prelude.{◌≤◌, IfSome};
ghost use Rattle.scr_term.specs.Operations.States.{IsSpot, characters_deleted, characters_erased, characters_inserted, lines_deleted, lines_inserted, moved_down, moved_left, moved_right, moved_to, moved_to_column, moved_to_row, moved_up, rest_of_line_erased, scrolled_down, scrolled_up};
ghost use Rattle.scr_terminal.specs.Code.Changes.{IsChange, IsMoved, Makes, MakesAt};

use scr_cells::{Pen, Size};
use scr_term::Spot;

/// A change of an emulated terminal.
#[derive(Clone, Copy)]
pub(crate) enum Change {
    /// The cursor goes to this spot.
    Moved(Spot),
    /// Columns `from..end` of a row are erased; the numbers are the row, `from` and `end`.
    ErasedRun(u32, u32, u32),
    /// The places from a row and a column to the end of the screen are erased.
    ErasedFrom(u32, u32),
    /// Every place is erased.
    ErasedAll,
    /// Every place is erased, and the cursor goes to row 0, column 0.
    Cleared,
    /// Blank lines are inserted before a row; the numbers are the row and how many.
    LinesInserted(u32, u32),
    /// Lines are deleted from a row on; the numbers are the row and how many.
    LinesDeleted(u32, u32),
    /// Blanks are inserted into a row; the numbers are the row, the column and how many.
    CharactersInserted(u32, u32, u32),
    /// Characters of a row are deleted; the numbers are the row, the column and how many.
    CharactersDeleted(u32, u32, u32),
    /// This is the pen from now on.
    Rendered(Pen),
}

/// Moves the cursor to a row and a column; `None` if these are off the screen.
pub(crate) fn moved_to(size: Size, row: u32, column: u32) -> Option<Change>
    ensures value { Makes size.rows size.columns result (λ state. moved_to size.rows size.columns state row column) }
    ensures change { IfSome result (IsChange size.rows size.columns) }
    ensures moved { IfSome result IsMoved }
{
    if row < size.rows && column < size.columns {
        Some(Change::Moved(Spot::At(row, column)))
    } else {
        None
    }
}

/// Moves the cursor up by `count` rows; `None` if that is off the screen, and at the margin.
pub(crate) fn moved_up(size: Size, spot: Spot, count: u32) -> Option<Change>
    requires { IsSpot size.rows size.columns spot }
    ensures value { MakesAt size.rows size.columns spot result (λ state. moved_up size.rows size.columns state count) }
    ensures change { IfSome result (IsChange size.rows size.columns) }
    ensures moved { IfSome result IsMoved }
{
    match spot {
        Spot::At(row, column) if count <= row => moved_to(size, row - count, column),
        _ => None,
    }
}

/// Moves the cursor down by `count` rows; `None` if that is off the screen, and at the margin.
pub(crate) fn moved_down(size: Size, spot: Spot, count: u32) -> Option<Change>
    requires spot { IsSpot size.rows size.columns spot }
    requires few { count ≤ 65535 }
    ensures value { MakesAt size.rows size.columns spot result (λ state. moved_down size.rows size.columns state count) }
    ensures change { IfSome result (IsChange size.rows size.columns) }
    ensures moved { IfSome result IsMoved }
{
    match spot {
        Spot::At(row, column) => moved_to(size, row + count, column),
        _ => None,
    }
}

/// Moves the cursor right by `count` columns; `None` if that is off the screen, and at the margin.
pub(crate) fn moved_right(size: Size, spot: Spot, count: u32) -> Option<Change>
    requires spot { IsSpot size.rows size.columns spot }
    requires few { count ≤ 65535 }
    ensures value { MakesAt size.rows size.columns spot result (λ state. moved_right size.rows size.columns state count) }
    ensures change { IfSome result (IsChange size.rows size.columns) }
    ensures moved { IfSome result IsMoved }
{
    match spot {
        Spot::At(row, column) => moved_to(size, row, column + count),
        _ => None,
    }
}

/// Moves the cursor left by `count` columns; `None` if that is off the screen, and at the margin.
pub(crate) fn moved_left(size: Size, spot: Spot, count: u32) -> Option<Change>
    requires { IsSpot size.rows size.columns spot }
    ensures value { MakesAt size.rows size.columns spot result (λ state. moved_left size.rows size.columns state count) }
    ensures change { IfSome result (IsChange size.rows size.columns) }
    ensures moved { IfSome result IsMoved }
{
    match spot {
        Spot::At(row, column) if count <= column => moved_to(size, row, column - count),
        _ => None,
    }
}

/// Moves the cursor to a column of its row; `None` if that is off the screen, and at the margin.
pub(crate) fn moved_to_column(size: Size, spot: Spot, column: u32) -> Option<Change>
    ensures value { MakesAt size.rows size.columns spot result (λ state. moved_to_column size.rows size.columns state column) }
    ensures change { IfSome result (IsChange size.rows size.columns) }
    ensures moved { IfSome result IsMoved }
{
    match spot {
        Spot::At(row, _) => moved_to(size, row, column),
        _ => None,
    }
}

/// Moves the cursor to a row, in its column; `None` if that is off the screen, and at the margin.
pub(crate) fn moved_to_row(size: Size, spot: Spot, row: u32) -> Option<Change>
    ensures value { MakesAt size.rows size.columns spot result (λ state. moved_to_row size.rows size.columns state row) }
    ensures change { IfSome result (IsChange size.rows size.columns) }
    ensures moved { IfSome result IsMoved }
{
    match spot {
        Spot::At(_, column) => moved_to(size, row, column),
        _ => None,
    }
}

/// Erases from the cursor to the end of the line; `None` at the margin.
pub(crate) fn rest_of_line_erased(size: Size, spot: Spot) -> Option<Change>
    requires { IsSpot size.rows size.columns spot }
    ensures value { MakesAt size.rows size.columns spot result (λ state. rest_of_line_erased size.rows size.columns state) }
    ensures change { IfSome result (IsChange size.rows size.columns) }
{
    match spot {
        Spot::At(row, column) => Some(Change::ErasedRun(row, column, size.columns)),
        _ => None,
    }
}

/// Erases `count` characters from the cursor on; `None` if these go past the end of the line, and
/// at the margin.
pub(crate) fn characters_erased(size: Size, spot: Spot, count: u32) -> Option<Change>
    requires spot { IsSpot size.rows size.columns spot }
    requires few { count ≤ 65535 }
    ensures value { MakesAt size.rows size.columns spot result (λ state. characters_erased size.rows size.columns state count) }
    ensures change { IfSome result (IsChange size.rows size.columns) }
{
    match spot {
        Spot::At(row, column) if column + count <= size.columns => {
            Some(Change::ErasedRun(row, column, column + count))
        }
        _ => None,
    }
}

/// Inserts `count` blank lines before the cursor's; `None` if there are not
/// so many from there on, outside the first column, and at the margin.
pub(crate) fn lines_inserted(size: Size, spot: Spot, count: u32) -> Option<Change>
    requires spot { IsSpot size.rows size.columns spot }
    requires few { count ≤ 65535 }
    ensures value { MakesAt size.rows size.columns spot result (λ state. lines_inserted size.rows size.columns state count) }
    ensures change { IfSome result (IsChange size.rows size.columns) }
{
    match spot {
        Spot::At(row, 0) if row + count <= size.rows => Some(Change::LinesInserted(row, count)),
        _ => None,
    }
}

/// Deletes `count` lines from the cursor's on; `None` if there are not
/// so many from there on, outside the first column, and at the margin.
pub(crate) fn lines_deleted(size: Size, spot: Spot, count: u32) -> Option<Change>
    requires spot { IsSpot size.rows size.columns spot }
    requires few { count ≤ 65535 }
    ensures value { MakesAt size.rows size.columns spot result (λ state. lines_deleted size.rows size.columns state count) }
    ensures change { IfSome result (IsChange size.rows size.columns) }
{
    match spot {
        Spot::At(row, 0) if row + count <= size.rows => Some(Change::LinesDeleted(row, count)),
        _ => None,
    }
}

/// Inserts `count` blanks at the cursor; `None` if these go past the end of the line,
/// and at the margin.
pub(crate) fn characters_inserted(size: Size, spot: Spot, count: u32) -> Option<Change>
    requires spot { IsSpot size.rows size.columns spot }
    requires few { count ≤ 65535 }
    ensures value { MakesAt size.rows size.columns spot result (λ state. characters_inserted size.rows size.columns state count) }
    ensures change { IfSome result (IsChange size.rows size.columns) }
{
    match spot {
        Spot::At(row, column) if column + count <= size.columns => {
            Some(Change::CharactersInserted(row, column, count))
        }
        _ => None,
    }
}

/// Deletes `count` characters from the cursor on; `None` if these go past the end of the line,
/// and at the margin.
pub(crate) fn characters_deleted(size: Size, spot: Spot, count: u32) -> Option<Change>
    requires spot { IsSpot size.rows size.columns spot }
    requires few { count ≤ 65535 }
    ensures value { MakesAt size.rows size.columns spot result (λ state. characters_deleted size.rows size.columns state count) }
    ensures change { IfSome result (IsChange size.rows size.columns) }
{
    match spot {
        Spot::At(row, column) if column + count <= size.columns => {
            Some(Change::CharactersDeleted(row, column, count))
        }
        _ => None,
    }
}

/// Moves all lines up by `count`; `None` if there are not so many, outside the bottom left corner, and
/// at the margin.
pub(crate) fn scrolled_up(size: Size, spot: Spot, count: u32) -> Option<Change>
    requires { IsSpot size.rows size.columns spot }
    ensures value { MakesAt size.rows size.columns spot result (λ state. scrolled_up size.rows size.columns state count) }
    ensures change { IfSome result (IsChange size.rows size.columns) }
{
    match spot {
        Spot::At(row, 0) if row + 1 == size.rows && count <= size.rows => {
            Some(Change::LinesDeleted(0, count))
        }
        _ => None,
    }
}

/// Moves all lines down by `count`; `None` if there are not so many, outside the top left corner, and
/// at the margin.
pub(crate) fn scrolled_down(size: Size, spot: Spot, count: u32) -> Option<Change>
    requires { IsSpot size.rows size.columns spot }
    ensures value { MakesAt size.rows size.columns spot result (λ state. scrolled_down size.rows size.columns state count) }
    ensures change { IfSome result (IsChange size.rows size.columns) }
{
    match spot {
        Spot::At(0, 0) if count <= size.rows => Some(Change::LinesInserted(0, count)),
        _ => None,
    }
}
