//! What erases the rows that are not known, because others wrote on the screen. Attributes are turned off, and each row
//! that is not known is erased and counts as blank from then on; the last rows are erased at once if that is cheaper.

use crate::cuts::Runs;
use crate::drafts::Draft;
use crate::scenes::{Scene, Update};
use scr_cells::NoMemory;
use scr_memory::Memory;
use scr_term::{Op, Prices, Profile, Spot};

// Whether a row is known.
fn is_known(memory: &Memory, row: u32) -> bool {
    row < memory.size().rows && memory.is_known_row(row)
}

// The first row that is not known; the first of all if there is none.
fn first_unknown(memory: &Memory) -> u32 {
    let rows = memory.size().rows;
    for row in 0..rows {
        if !is_known(memory, row) {
            return row;
        }
    }
    0
}

// From which row on the last rows are erased at once: none of them is known, and one by one they would cost more. The
// number of rows if there are no such rows.
fn top_of_rest(prices: &Prices, memory: &Memory) -> u32 {
    let rows = memory.size().rows;
    let first = first_of_last_unknown(memory);
    if is_cheaper_at_once(prices, rows.saturating_sub(first)) {
        first
    } else {
        rows
    }
}

// The first of the last rows that are not known; the number of rows if the last row is known.
fn first_of_last_unknown(memory: &Memory) -> u32 {
    let rows = memory.size().rows;
    for after in 0..rows {
        if is_known(memory, rows - 1 - after) {
            return rows - after;
        }
    }
    0
}

// Whether erasing `count` rows at once costs less than one by one.
fn is_cheaper_at_once(prices: &Prices, count: u32) -> bool {
    let lines = prices.of(Op::EraseLine).saturating_mul(count);
    let steps = prices
        .of(Op::Down(1))
        .saturating_mul(count.saturating_sub(1));
    prices.of(Op::EraseBelow) < lines.saturating_add(steps)
}

// Whether clearing the screen takes no more bytes than erasing all of its rows: no row is known, and what is painted
// then is the same.
pub(crate) fn is_clearing_best(profile: &Profile, memory: &Memory) -> bool {
    if first_of_last_unknown(memory) > 0 {
        return false;
    }
    let by = if is_cheaper_at_once(profile.prices(), memory.size().rows) {
        Op::EraseBelow
    } else {
        Op::EraseLine
    };
    let erasing = bytes_of(profile, Op::Move(0, 0)).saturating_add(bytes_of(profile, by));
    bytes_of(profile, Op::Clear) <= erasing
}

// The number of bytes of an operation; more than any other where the terminal lacks it.
fn bytes_of(profile: &Profile, op: Op) -> usize {
    profile.cost(op).unwrap_or(usize::MAX)
}

impl Draft {
    // Turns attributes off, goes to the first row that is not known, and erases each such row, the last ones at once if
    // that is cheaper. Returns whether that was possible.
    pub(crate) fn wipe_unknown(&mut self, update: &Update<'_>) -> Result<bool, NoMemory> {
        let (scene, memory) = (&update.scene, update.memory);
        self.reset(scene)?;
        let row = first_unknown(memory);
        self.add(Op::Move(row, 0))?;
        self.spot = Spot::At(row, 0);
        let top = top_of_rest(scene.prices, memory);
        for row in 0..top {
            if !is_known(memory, row) && !self.wipe_row(scene, row)? {
                return Ok(false);
            }
        }
        if top >= scene.rows {
            return Ok(true);
        }
        self.reach_row(scene, top)?;
        self.erase_below(scene, top)
    }

    // Erases a row from its first column on. Returns whether that was possible.
    fn wipe_row(&mut self, scene: &Scene<'_>, row: u32) -> Result<bool, NoMemory> {
        self.reach_row(scene, row)?;
        let can = self.can_erase(scene.profile, row, 0, Op::EraseLine);
        if can {
            self.add(Op::EraseLine)?;
        }
        Ok(can)
    }
}

impl Update<'_> {
    // Finds the runs of all places that need painting once the rows that are not known are blank.
    pub(crate) fn find_unsettled(&self, runs: &mut Runs) -> Result<(), NoMemory> {
        for row in 0..self.scene.rows {
            let looks = if is_known(self.memory, row) {
                Some(self.looks(row))
            } else {
                None
            };
            self.scene
                .add_row(row, looks, (0, self.scene.columns), runs)?;
        }
        Ok(())
    }
}
