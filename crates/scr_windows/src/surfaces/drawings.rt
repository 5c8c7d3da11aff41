//! What can be drawn in an area.
use crate::surfaces::Border;
use scr_cells::Cell;

/// What is drawn in an area. Rows and columns are those of the area, counted from 0. Every place that is not named
/// keeps its cell.
#[derive(Clone, Copy)]
pub enum Drawing {
    /// The cell in columns `from..end` of a row.
    Run {
        row: u32,
        from: u32,
        end: u32,
        cell: Cell,
    },
    /// The cell everywhere in rows `first..end`.
    Rows {
        first: u32,
        end: u32,
        cell: Cell,
    },
    /// The cell from a place to the end of its row, and everywhere in the rows below (X/Open Curses Issue 7,
    /// clrtobot()).
    Below {
        row: u32,
        column: u32,
        cell: Cell,
    },
    /// The cell in rows `first..end` of a column (vline()).
    Column {
        column: u32,
        first: u32,
        end: u32,
        cell: Cell,
    },
    /// The places of a row from a column on move right by one, the last one is lost, and the cell takes the free place
    /// (insch()).
    Opened {
        row: u32,
        column: u32,
        cell: Cell,
    },
    /// The places of a row right of a column move left by one, and the cell takes the last place (delch()).
    Closed {
        row: u32,
        column: u32,
        cell: Cell,
    },
    /// Rows `first..end` move up by `count` among themselves, and the rows left free get the cell (scrl(), insdelln()).
    Up {
        first: u32,
        end: u32,
        count: u32,
        cell: Cell,
    },
    /// Rows `first..end` move down by `count` among themselves, and the rows left free get the cell.
    Down {
        first: u32,
        end: u32,
        count: u32,
        cell: Cell,
    },
    /// A new background replaces an old one everywhere (bkgd()).
    Exchanged {
        old: Cell,
        new: Cell,
    },
    /// A border along the edges (border()).
    Edges(Border),
}
