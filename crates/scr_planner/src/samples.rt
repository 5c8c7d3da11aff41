//! By how many rows a picture moved: rows that are wanted are looked for among those that are
//! known. A choice affects nothing but the number of bytes of an update.

use crate::blanks::{BLANK, is_blank};
use crate::rows::{RowChange, price_of_runs};
use crate::runs::Run;
use crate::scenes::{Scene, Update};
use scr_cells::{Cell, Look, NoMemory};
use scr_term::{FAR, Op, Prices};
use std::alloc::Global;

// What the rows that differ have to cost, at least, before rows that moved are looked for.
const WORTH_LOOKING: u32 = 40;

// What the first rows that differ cost: enough for a search for rows that moved, or not.
#[derive(Drop)]
pub(crate) struct Worth<'a> {
    scene: &'a Scene<'a>,
    rows: u32,
    runs: usize,
    price: u32,
}

impl<'a> Worth<'a> {
    // Of no rows yet.
    pub(crate) fn of(scene: &'a Scene<'a>) -> Worth<'a> {
        Worth {
            scene,
            rows: 0,
            runs: 0,
            price: 0,
        }
    }

    // Adds one more row, whose runs stand behind those of the rows before. Returns whether there
    // are at least two rows, and all these cost enough.
    pub(crate) fn add_row(&mut self, runs: &[Run]) -> bool {
        let begun = self.runs.min(runs.len());
        let price = price_of_runs(self.scene, &runs[begun..]);
        self.price = self.price.saturating_add(price);
        self.runs = runs.len();
        self.rows = self.rows.saturating_add(1);
        self.rows > 1 && self.price >= WORTH_LOOKING
    }
}

// The greatest number of rows that are looked for.
const MOST_SAMPLES: u32 = 16;

// By how many rows rows moved, up or down.
#[derive(Clone, Copy)]
pub(crate) struct Distance {
    pub(crate) count: u32,
    pub(crate) up: bool,
}

// A row that may be looked for, the first column in which it differs from what it showed, the character
// that is wanted there, and whether the row that comes was seen to be just what is wanted.
#[derive(Clone, Copy)]
struct Sample {
    row: u32,
    column: u32,
    code: u32,
    is_shown: bool,
}

// How many of the rows that are looked for a distance is right for, and for which: a bit for the
// number of each.
#[derive(Clone, Copy)]
struct Votes {
    count: u32,
    which: u32,
}

// The rows that differ and are not wanted blank, and the first and the last row that differs. Not
// more of them are looked for than there may be.
#[derive(Drop)]
pub(crate) struct Samples {
    found: Vec<Sample>,
    pub(crate) first: u32,
    pub(crate) last: u32,
}

impl Samples {
    // The rows that differ.
    pub(crate) fn of(
        alloc: Global,
        scene: &Scene<'_>,
        changes: &[RowChange],
    ) -> Result<Samples, NoMemory> {
        let mut samples = Samples {
            found: Vec::new(alloc),
            first: FAR,
            last: 0,
        };
        for change in changes {
            samples.first = samples.first.min(change.row);
            samples.last = change.row;
            samples.add(scene, change.row, change.start)?;
        }
        Ok(samples)
    }

    // Adds a row that differs from a column on, unless it is wanted blank.
    fn add(&mut self, scene: &Scene<'_>, row: u32, column: u32) -> Result<(), NoMemory> {
        let cells = scene.cells(row);
        let code = code_at(scene, cells, column);
        if code == BLANK && is_blank(scene, cells) {
            return Ok(());
        }
        let is_shown = false;
        self.found.push(Sample {
            row,
            column,
            code,
            is_shown,
        })?;
        Ok(())
    }

    // How many rows are looked for.
    fn count(&self) -> u32 {
        self.found.len().min(MOST_SAMPLES as usize) as u32
    }

    // The place of one of the rows that are looked for: of all rows if they are not too many, or one
    // from each of as many parts.
    #[inline(always)]
    fn place(&self, number: u32) -> usize {
        let all = self.found.len();
        let number = number as usize;
        if all <= MOST_SAMPLES as usize {
            return number;
        }
        number
            .saturating_mul(2)
            .saturating_add(1)
            .saturating_mul(all)
            / (2 * MOST_SAMPLES as usize)
    }

    // By how many rows most of these rows moved, if any did. They are marked then.
    pub(crate) fn most_common(&mut self, update: &Update<'_>) -> Option<Distance> {
        let (distance, votes) = most_votes(update, self)?;
        for number in 0..self.count() {
            let place = self.place(number);
            if votes.which.wrapping_shr(number) % 2 == 1 && place < self.found.len() {
                self.found[place].is_shown = true;
            }
        }
        Some(distance)
    }

    // Whether the sample with a number is of a row and marked; `None` if it is not of this row.
    pub(crate) fn mark_of(&self, number: usize, row: u32) -> Option<bool> {
        match self.found.get(number) {
            Some(sample) if sample.row == row => Some(sample.is_shown),
            _ => None,
        }
    }

    // Which of these rows show, so many rows further down or up, what is wanted in them; or any
    // fewer of them if these are no more than `least`. Only the numbers of `within` are asked for.
    fn votes(
        &self,
        update: &Update<'_>,
        distance: Distance,
        within: (u32, u32),
        least: u32,
    ) -> Votes {
        let (from, end) = within;
        let mut votes = Votes::none();
        for number in from..end {
            if votes.count.saturating_add(end - number) <= least {
                return votes;
            }
            if self.is_vote(update, distance, number) {
                votes.add(number);
            }
        }
        votes
    }

    // Whether the row at this distance shows what is wanted in a row.
    #[inline(always)]
    fn is_vote(&self, update: &Update<'_>, distance: Distance, number: u32) -> bool {
        let Some(sample) = self.found.get(self.place(number)) else {
            return false;
        };
        match distance.source(sample.row) {
            Some(source) => is_alike(update, update.looks(source), sample),
            None => false,
        }
    }

    // The row of the sample with a number.
    fn row_of(&self, number: u32) -> u32 {
        match self.found.get(self.place(number)) {
            Some(sample) => sample.row,
            None => FAR,
        }
    }
}

// The samples that have a row to come from, so many rows further: upwards those before `up`, and
// downwards those from `down` on. The further the rows move, the fewer these are.
#[derive(Clone, Copy)]
struct Movable {
    up: u32,
    down: u32,
}

impl Movable {
    // Drops the samples that have none.
    fn drop_those_beyond(&mut self, samples: &Samples, rows: u32) {
        let count = samples.count();
        let last = samples.last.saturating_sub(rows);
        while self.up > 0 && samples.row_of(self.up - 1) > last {
            self.up -= 1;
        }
        let first = samples.first.saturating_add(rows);
        while self.down < count && samples.row_of(self.down) < first {
            self.down += 1;
        }
    }

    // The numbers of the samples in one direction.
    fn within(self, count: u32, up: bool) -> (u32, u32) {
        if up { (0, self.up) } else { (self.down, count) }
    }

    // How many samples there are at most in either direction.
    fn most(self, count: u32) -> u32 {
        self.up.max(count.saturating_sub(self.down))
    }
}

impl Distance {
    // The row whose looks would come into a row.
    #[inline(always)]
    pub(crate) fn source(self, row: u32) -> Option<u32> {
        if self.up {
            row.checked_add(self.count)
        } else {
            row.checked_sub(self.count)
        }
    }
}

// The character that is seen of the cell in a column; a blank if there is none.
fn code_at(scene: &Scene<'_>, cells: &[Cell], column: u32) -> u32 {
    match cells.get(column as usize) {
        Some(cell) => scene.code_of(*cell),
        None => BLANK,
    }
}

// Whether looks are just what is wanted in a row; first the character in one column is compared.
#[inline(always)]
fn is_alike(update: &Update<'_>, looks: &[Look], sample: &Sample) -> bool {
    let column = sample.column as usize;
    column < looks.len()
        && looks[column].code() == sample.code
        && update.is_shown(sample.row, looks)
}

impl Votes {
    fn none() -> Votes {
        Votes { count: 0, which: 0 }
    }

    // Adds the row with a number.
    fn add(&mut self, number: u32) {
        self.count = self.count.saturating_add(1);
        self.which |= 1u32.wrapping_shl(number);
    }
}

// By how many rows most of the samples moved, if any did, and which of them: on a tie the fewest
// rows, and then down. The terminal can move as many lines so. Rows that more samples cannot have
// moved by are not looked at.
fn most_votes(update: &Update<'_>, samples: &Samples) -> Option<(Distance, Votes)> {
    let count = samples.count();
    let mut movable = Movable { up: count, down: 0 };
    let mut best = None;
    let mut most = 0u32;
    for less in 0..samples.last.saturating_sub(samples.first) {
        let rows = less.saturating_add(1);
        movable.drop_those_beyond(samples, rows);
        if most >= movable.most(count) {
            return best;
        }
        for up in [false, true] {
            let distance = Distance { count: rows, up };
            if can_shift(update.scene.prices, distance) {
                let within = movable.within(count, up);
                let votes = samples.votes(update, distance, within, most);
                if votes.count > most {
                    most = votes.count;
                    best = Some((distance, votes));
                }
            }
        }
    }
    best
}

// Whether the terminal can move rows so, some of them or all.
pub(crate) fn can_shift(prices: &Prices, distance: Distance) -> bool {
    can_move_lines(prices, distance.count) || can_scroll(prices, distance)
}

// Whether the terminal can insert and delete so many lines.
pub(crate) fn can_move_lines(prices: &Prices, count: u32) -> bool {
    prices.of(Op::InsertLines(count)) < FAR && prices.of(Op::DeleteLines(count)) < FAR
}

// Whether the terminal can scroll so.
pub(crate) fn can_scroll(prices: &Prices, distance: Distance) -> bool {
    let scroll = if distance.up {
        Op::ScrollUp(distance.count)
    } else {
        Op::ScrollDown(distance.count)
    };
    prices.of(scroll) < FAR
}
