//! From which row on many lines are to be erased at once, before anything is painted, if that is worth it.

use crate::blanks::{is_blank, least_on_blanks, price_on_blanks};
use crate::runs::Run;
use crate::scenes::Scene;
use crate::ways::{Cursor, Target};
use scr_cells::Pen;
use scr_term::Op;

// How many bytes an erasure has to save beyond its own price to be worth it.
const WORTH: i64 = 8;

// The first row that is erased, and the operation that does it.
#[derive(Clone, Copy)]
pub(crate) struct Wiping {
    // The first row that is erased, and with it all below it.
    pub(crate) top: u32,
    // `Clear` or `EraseBelow`.
    pub(crate) by: Op,
}

// From which row on the screen is to be erased before these runs are painted, if that is worth it. The runs are by
// rows, and are all that differs.
pub(crate) fn cheapest_wiping(scene: &Scene<'_>, cursor: &Cursor, runs: &[Run]) -> Option<Wiping> {
    let differing = rows_with_runs(runs);
    if differing < 2 || !may_gain(scene, runs) {
        return None;
    }
    let mut best = None;
    let mut most = WORTH;
    let mut walk = Upwards::from_end(runs);
    let rows = scene.picture.size().rows;
    for below in 0..rows {
        let row = rows - 1 - below;
        if walk.left == 0 || !walk.meets(scene, row, differing) {
            return best;
        }
        if walk.spared > most {
            let (by, price) = erasure(scene, cursor, row);
            let gain = walk.spared.saturating_sub(i64::from(price));
            if gain > most {
                best = Some(Wiping { top: row, by });
                most = gain;
            }
        }
    }
    best
}

// How many rows have runs. The runs are by rows.
fn rows_with_runs(runs: &[Run]) -> u32 {
    let mut rows = 0u32;
    let mut last = None;
    for run in runs {
        if last != Some(run.row) {
            rows = rows.saturating_add(1);
            last = Some(run.row);
        }
    }
    rows
}

// Whether some erasure can gain more than it has to: from some row on the runs cost enough more as
// they stand than the least that their rows cost on blank ones.
fn may_gain(scene: &Scene<'_>, runs: &[Run]) -> bool {
    let lost = least_lost(scene);
    let mut left = price_as_they_stand(scene, runs);
    let mut spared = 0i64;
    let mut row = None;
    for run in runs.iter().rev() {
        if row != Some(run.row) {
            if spared.saturating_add(left) <= lost {
                return false;
            }
            let least = least_on_blanks(scene, scene.cells(run.row));
            spared = spared.saturating_sub(i64::from(least));
            row = Some(run.row);
        }
        let price = i64::from(scene.price_as_it_stands(run));
        left = left.saturating_sub(price);
        spared = spared.saturating_add(price);
        if spared > lost {
            return true;
        }
    }
    false
}

// The least that an erasure costs, plus what it has to gain.
fn least_lost(scene: &Scene<'_>) -> i64 {
    let below = scene.prices.of(Op::EraseBelow);
    i64::from(below.min(scene.prices.of(Op::Clear))).saturating_add(WORTH)
}

// The price of the runs as they stand, plus an easy motion for each.
fn price_as_they_stand(scene: &Scene<'_>, runs: &[Run]) -> i64 {
    let mut sum = 0i64;
    for run in runs {
        sum = sum.saturating_add(i64::from(scene.price_as_it_stands(run)));
    }
    sum
}

// A walk upwards over rows: the runs, how many are left, how many rows without runs it met, and what
// erasing the rows that it met saves.
#[derive(Clone, Copy)]
struct Upwards<'a> {
    runs: &'a [Run],
    left: usize,
    others: u32,
    spared: i64,
}

impl<'a> Upwards<'a> {
    // No row was met yet.
    fn from_end(runs: &'a [Run]) -> Upwards<'a> {
        Upwards {
            runs,
            left: runs.len(),
            others: 0,
            spared: 0,
        }
    }

    // Meets one more row. Returns whether the walk goes on: it ends at a row that shows something and
    // does not differ, and once it met more rows that do not differ than differ at all.
    fn meets(&mut self, scene: &Scene<'_>, row: u32, differing: u32) -> bool {
        let cells = scene.cells(row);
        let left = self.left;
        self.take_runs(scene, row);
        if self.left < left {
            let price = price_on_blanks(scene, cells);
            self.spared = self.spared.saturating_sub(i64::from(price));
            return true;
        }
        self.others = self.others.saturating_add(1);
        self.others <= differing && is_blank(scene, cells)
    }

    // Takes the runs of a row, the last ones that are left.
    fn take_runs(&mut self, scene: &Scene<'_>, row: u32) {
        for _ in 0..self.left {
            let Some(run) = self.runs.get(self.left.saturating_sub(1)) else {
                return;
            };
            if run.row != row {
                return;
            }
            self.left = self.left.saturating_sub(1);
            let price = scene.price_as_it_stands(run);
            self.spared = self.spared.saturating_add(i64::from(price));
        }
    }
}

// The cheapest erasure of a row and all below it, and its price together with what leads to it.
fn erasure(scene: &Scene<'_>, cursor: &Cursor, row: u32) -> (Op, u32) {
    let plain = Pen::plain();
    let way = scene.way(
        cursor,
        &Target {
            row,
            column: 0,
            pen: plain,
        },
    );
    let below = way.price.saturating_add(scene.prices.of(Op::EraseBelow));
    let clear = scene
        .price_of_turn(cursor.pen, plain)
        .saturating_add(scene.prices.of(Op::Clear));
    if row == 0 && clear < below {
        (Op::Clear, clear)
    } else {
        (Op::EraseBelow, below)
    }
}
