//! Cells that are copied to C.
ghost use Rattle.std.specs.Prelude.{◌≡◌, ◌++◌, ◌⊎◌, None, drop, length, map, min, take};
ghost use Rattle.scr_windows.specs.Calls.Reading.{row_answer};
ghost use Rattle.huttavel_c.specs.Asking.{Makes, OfEntry, OfScreen};
ghost use Rattle.huttavel_c.specs.Copying.{CopiesCells, IsGiven, cells_from};
ghost use Rattle.huttavel_c.specs.Replies.{given_cell, no_length};

use crate::answers::{GivenCell, Length, given, no_length};
use crate::faults::{CLOSED, window_number};
use crate::handles::Handle;
use crate::sessions::Kept;
use curses::{Cell, Screen, Win, WinFault};
use std::alloc::Global;

// Copies as many cells as both have.
fn copy_cells(line: &[Cell], cells: &mut [GivenCell]) -> usize
    ensures count { result ≡ min (length line.now) (length cells.old) }
    ensures cells { cells.new ≡ map given_cell (take result line.now) ++ drop result cells.old }
{
    let count = line.len().min(cells.len());
    for place in 0..count {
        cells[place] = given(line[place]);
    }
    count
}

// Copies cells of a row of a window, from a column on.
fn copy_row(screen: &Screen, window: u32, row: u32, column: u32, cells: &mut [GivenCell]) -> Length
    ensures { IsGiven (cells_from (row_answer screen.now.desk window row) column) cells.old cells.new result }
{
    match screen.line(Win(window), row) {
        Ok(line) if (column as usize) < line.len() => Length {
            fault: 0,
            count: copy_cells(&line[column as usize..], cells),
        },
        Ok(_) => no_length(window_number(WinFault::OutOfWindow)),
        Err(fault) => no_length(window_number(fault)),
    }
}

// The same of the screen that is held, if one is.
fn copy_held(kept: &Kept, window: u32, row: u32, column: u32, cells: &mut [GivenCell]) -> Length
    ensures { OfScreen (λ session. CopiesCells window row column cells.old cells.new session session result) kept.now ⊎ (OfEntry (λ _. Unit {0}) kept.now × (result ≡ no_length 1) × (cells.new ≡ cells.old)) }
{
    match kept {
        Kept::Screen(session) => copy_row(&session.screen, window, row, column, cells),
        Kept::Entry(_) => no_length(CLOSED),
    }
}

/// Copies cells of a row of a window, from a column on, as many as the row has and there is room for, and tells how
/// many. Refused: CLOSED; NO_WINDOW; OUT_OF_WINDOW for a place outside of the window.
#[unsafe(no_mangle)]
pub extern "C" fn huttavel_held_cells(
    alloc: Global,
    handle: &mut Handle,
    window: u32,
    row: u32,
    column: u32,
    cells: &mut [GivenCell],
) -> Length
    ensures copied { Makes (CopiesCells window row column cells.old cells.new) (no_length 1) handle.old.held.value handle.new.held.value result }
    ensures closed { handle.old.held.value ≡ None → cells.new ≡ cells.old }
{
    let Some(kept) = handle.take(alloc) else {
        return no_length(CLOSED);
    };
    let length = copy_held(&kept, window, row, column, cells);
    handle.put(kept);
    length
}
