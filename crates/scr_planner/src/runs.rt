//! Runs: places of a row that one visit paints with one pen.

use crate::ways::Target;
use scr_cells::Pen;

// How the places of a run are painted.
#[derive(Clone, Copy)]
pub(crate) enum How {
    // Each place is written.
    Write,
    // The rest of the line is erased.
    EraseLine,
    // The places are erased as characters.
    EraseChars,
}

// Columns of a row, `start..end`, that are painted with one pen.
#[derive(Clone, Copy)]
pub(crate) struct Run {
    // The row, counted from 0 at the top.
    pub(crate) row: u32,
    // The first column.
    pub(crate) start: u32,
    // The column after the last one.
    pub(crate) end: u32,
    // The pen that all of them are painted with.
    pub(crate) pen: Pen,
    // How they are painted.
    pub(crate) how: How,
}

impl Default for Run {
    // No places.
    fn default() -> Run {
        Run {
            row: 0,
            start: 0,
            end: 0,
            pen: Pen::plain(),
            how: How::Write,
        }
    }
}

impl Run {
    // Its first place, with its pen.
    #[inline(always)]
    pub(crate) fn target(&self) -> Target {
        Target {
            row: self.row,
            column: self.start,
            pen: self.pen,
        }
    }
}
