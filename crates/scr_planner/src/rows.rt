//! Rows that differ from what the terminal shows, and the runs of a row.

use crate::runs::Run;
use crate::scenes::Scene;
use scr_cells::{Cell, Look};

/// A row that differs from what the terminal shows: in the first of these columns, and in none
/// outside `start..end`.
#[derive(Clone, Copy, Default)]
pub struct RowChange {
    /// The row, counted from 0 at the top.
    pub row: u32,
    /// The first column that differs.
    pub start: u32,
    /// The column after the last one that may differ.
    pub end: u32,
}

// A row, what it shows, what is wanted there, and all of its runs.
#[derive(Clone, Copy)]
pub(crate) struct RowRuns<'a> {
    // The row.
    pub(crate) row: u32,
    // What it shows.
    pub(crate) looks: &'a [Look],
    // What is wanted there.
    pub(crate) cells: &'a [Cell],
    // Its runs, from the left.
    pub(crate) runs: &'a [Run],
}

// The price of runs as they stand, plus an easy motion for each.
pub(crate) fn price_of_runs(scene: &Scene<'_>, runs: &[Run]) -> u32 {
    let mut price = 0u32;
    for run in runs {
        price = price.saturating_add(scene.price_as_it_stands(run));
    }
    price
}

// The row of the run with a number, and the number of the next run in another row; that of all runs if there is none.
pub(crate) fn runs_end(runs: &[Run], begun: usize) -> (u32, usize) {
    let row = match runs.get(begun) {
        Some(run) => run.row,
        None => u32::MAX,
    };
    let mut after = begun;
    for run in runs.get(begun..).unwrap_or(&[]) {
        if run.row != row {
            return (row, after);
        }
        after = after.saturating_add(1);
    }
    (row, after)
}
