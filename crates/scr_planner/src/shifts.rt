//! The search for rows that moved: which block of rows is to be shifted, and by how many rows.
//! Prices alone decide, and the choice affects nothing but the number of bytes of an update.

use crate::blanks::is_blank;
use crate::counts::Counts;
use crate::rows::RowChange;
use crate::samples::{Distance, Samples, can_move_lines, can_scroll, can_shift};
use crate::scenes::{Scene, Update};
use crate::scrolls::{price_of_scroll, price_of_step};
use crate::slides::are_blank;
use crate::ways::Cursor;
use scr_cells::NoMemory;
use scr_term::{FAR, Op, Prices, Spot};
use std::alloc::Global;

// How many bytes a shift has to save, at least.
const WORTH: i64 = 4;

// Blocks that save so much less than the one that saves most are not priced: their shifts are not
// likely to cost so much less.
const FAR_LESS: i64 = 64;

// Rows `top..end` that move up or down by `count` among themselves; the rows left free are blank.
// Rows count from 0 at the top.
#[derive(Clone, Copy)]
pub(crate) struct Shift {
    // The first of these rows.
    pub(crate) top: u32,
    // The row after the last one.
    pub(crate) end: u32,
    // By how many rows they move.
    pub(crate) count: u32,
    // Whether they move up.
    pub(crate) up: bool,
}

// The shift that saves most, if one saves enough. The changes are those of all rows that differ,
// from the top. Fails only when memory runs out.
#[inline(never)]
pub(crate) fn cheapest_shift(
    alloc: Global,
    update: &Update<'_>,
    cursor: &Cursor,
    changes: &[RowChange],
) -> Result<Option<Shift>, NoMemory> {
    let mut samples = Samples::of(alloc, &update.scene, changes)?;
    let Some(distance) = samples.most_common(update) else {
        return Ok(None);
    };
    let last = with_blank_rows(update, samples.last);
    let (first, last) = with_all_rows(update, distance, samples.first, last);
    let blocks = Blocks {
        update,
        cursor: *cursor,
        distance,
        first,
        last,
    };
    let lines = Lines::of(alloc, &blocks, changes, &samples)?;
    Ok(blocks.best(&lines))
}

// Whether the terminal can shift any rows.
pub(crate) fn can_shift_some(prices: &Prices) -> bool {
    for count in [1, 2] {
        for up in [false, true] {
            if can_shift(prices, Distance { count, up }) {
                return true;
            }
        }
    }
    false
}

// The first and the last row of the screen if the terminal can scroll so and at least half of its
// rows lie between these two, else these two.
fn with_all_rows(update: &Update<'_>, distance: Distance, first: u32, last: u32) -> (u32, u32) {
    let scene = &update.scene;
    let rows = scene.picture.size().rows;
    let between = last.saturating_sub(first);
    if can_scroll(scene.prices, distance) && between >= rows / 2 {
        (0, rows.saturating_sub(1))
    } else {
        (first, last)
    }
}

// The last row of the screen if all rows below one are blank, else that row.
fn with_blank_rows(update: &Update<'_>, last: u32) -> u32 {
    let scene = &update.scene;
    let rows = scene.picture.size().rows;
    for row in last.saturating_add(1)..rows {
        if !is_blank(scene, scene.cells(row)) {
            return last;
        }
    }
    rows.saturating_sub(1)
}

// What is compared of a row: what it saves by being painted over the row that comes there, and what
// all rows before it save by being painted over blanks.
#[derive(Clone, Copy)]
struct Line {
    gain: i64,
    saved: i64,
}

// What is compared of the rows that blocks may lie in, and after them what all of them save.
#[derive(Drop)]
struct Lines(Vec<Line>);

impl Lines {
    // Of the rows that blocks may lie in, of which these differ, and samples of these.
    fn of(
        alloc: Global,
        blocks: &Blocks<'_>,
        changes: &[RowChange],
        samples: &Samples,
    ) -> Result<Lines, NoMemory> {
        let (first, end) = (blocks.first, blocks.last.saturating_add(1));
        let count = end.saturating_sub(first).saturating_add(1);
        let mut lines = Vec::with_capacity(alloc, count as usize)?;
        let mut saved = 0i64;
        let mut next = 0usize;
        let mut sample = 0usize;
        for row in first..end {
            let change = change_in(changes, next, row);
            next = next.saturating_add(usize::from(change.is_some()));
            let mark = samples.mark_of(sample, row);
            sample = sample.saturating_add(usize::from(mark.is_some()));
            let (gain, fresh) = blocks.savings(row, change, mark.unwrap_or(false));
            lines.push(Line { gain, saved })?;
            saved = saved.wrapping_add(fresh);
        }
        lines.push(Line { gain: 0, saved })?;
        Ok(Lines(lines))
    }

    // How many rows there are.
    fn count(&self) -> usize {
        self.0.len().saturating_sub(1)
    }

    // What the row in a place saves by being painted over the row that comes there.
    #[inline(always)]
    fn gain(&self, place: usize) -> i64 {
        if place < self.0.len() {
            self.0[place].gain
        } else {
            0
        }
    }

    // What the rows before a place save by being painted over blanks.
    #[inline(always)]
    fn saved(&self, place: usize) -> i64 {
        if place < self.0.len() {
            self.0[place].saved
        } else {
            0
        }
    }
}

// The change with a number, if it is that of a row.
fn change_in(changes: &[RowChange], number: usize, row: u32) -> Option<&RowChange> {
    match changes.get(number) {
        Some(change) if change.row == row => Some(change),
        _ => None,
    }
}

// What blocks of rows are compared by: where they may lie, and by how many rows they move.
#[derive(Drop)]
struct Blocks<'a> {
    update: &'a Update<'a>,
    cursor: Cursor,
    distance: Distance,
    first: u32,
    last: u32,
}

// The best block so far, and what it saves; and the most that any block saves, without what its
// shift costs. Blocks that save less than `least` of that are not priced.
#[derive(Clone, Copy)]
struct Best {
    shift: Option<Shift>,
    saved: i64,
    most: i64,
    least: i64,
}

impl Blocks<'_> {
    // The scene that is painted.
    fn scene(&self) -> &Scene<'_> {
        let update = self.update;
        &update.scene
    }

    // The best block. First that is found which saves most, then those near it are priced.
    fn best(&self, lines: &Lines) -> Option<Shift> {
        let most = self.best_from(lines, i64::MAX).most;
        self.best_from(lines, most.saturating_sub(FAR_LESS)).shift
    }

    // The best block of those that save so much.
    fn best_from(&self, lines: &Lines, least: i64) -> Best {
        let best = if !can_move_lines(self.scene().prices, self.distance.count) {
            Best::none(least)
        } else if self.distance.up {
            self.best_up(lines, least)
        } else {
            self.best_down(lines, least)
        };
        self.or_all(best, lines)
    }

    // The better of the best block and all rows of the screen, if all of these are compared.
    fn or_all(&self, best: Best, lines: &Lines) -> Best {
        let rows = self.scene().picture.size().rows as usize;
        let count = self.distance.count as usize;
        if self.first > 0 || lines.count() != rows || count > rows {
            return best;
        }
        let (first, end) = if self.distance.up {
            (0, rows - count)
        } else {
            (count, rows)
        };
        let mut sum = lines
            .saved(rows)
            .wrapping_sub(lines.saved(end))
            .wrapping_add(lines.saved(first));
        for place in first..end {
            sum = sum.wrapping_add(lines.gain(place));
        }
        self.better(best, 0, rows, sum)
    }

    // The best block that moves up. For each last row that gets another's looks, the first one is
    // the best there is; the blank rows come in below.
    fn best_up(&self, lines: &Lines, least: i64) -> Best {
        let count = self.distance.count as usize;
        let mut best = Best::none(least);
        let mut top = 0usize;
        let mut sum = 0i64;
        for place in 0..lines.count().saturating_sub(count) {
            if sum <= 0 {
                sum = 0;
                top = place;
            }
            sum = sum.wrapping_add(lines.gain(place));
            let after = place + 1;
            let end = after.saturating_add(count);
            let fresh = lines.saved(end).wrapping_sub(lines.saved(after));
            best = self.better(best, top, end, sum.wrapping_add(fresh));
        }
        best
    }

    // The best block that moves down. The blank rows come in above.
    fn best_down(&self, lines: &Lines, least: i64) -> Best {
        let count = self.distance.count as usize;
        let mut best = Best::none(least);
        let mut top = 0usize;
        let mut sum = 0i64;
        for place in count..lines.count() {
            let above = place.saturating_sub(count);
            let fresh = lines.saved(place).wrapping_sub(lines.saved(above));
            if place == count || sum <= fresh {
                sum = fresh;
                top = above;
            }
            sum = sum.wrapping_add(lines.gain(place));
            best = self.better(best, top, place + 1, sum);
        }
        best
    }

    // What a row saves by being painted over the row that comes there, and over blanks; the change
    // is how it differs, if it does. Where that row is just what is wanted, as is seen here unless
    // it is known, the places that differ are counted.
    fn savings(&self, row: u32, change: Option<&RowChange>, is_known: bool) -> (i64, i64) {
        let update = self.update;
        let scene = &update.scene;
        let coming = match self.distance.source(row) {
            Some(source) => update.looks(source),
            None => &[],
        };
        if is_known || update.is_shown(row, coming) {
            let counts = Counts::of(scene, update.looks(row), coming);
            let cost = i64::from(counts.price(scene));
            return (cost, cost - i64::from(counts.price_of_filled(scene)));
        }
        let cost = match change {
            Some(change) => i64::from(update.price_of_change(change)),
            None => 0,
        };
        let blank = scene.price_of_row(row);
        let over = if coming.is_empty() {
            0
        } else if are_blank(coming) {
            blank
        } else {
            update.price_over(row, coming)
        };
        (cost - i64::from(over), cost - i64::from(blank))
    }

    // The better of the best block so far and one that saves so much, without what its shift costs.
    #[inline(always)]
    fn better(&self, best: Best, top: usize, end: usize, saved: i64) -> Best {
        let mut best = best;
        best.most = best.most.max(saved);
        if saved < best.least || saved <= best.saved {
            return best;
        }
        self.priced(best, self.row_in(top), self.row_in(end), saved)
    }

    // The row in a place.
    fn row_in(&self, place: usize) -> u32 {
        self.first.saturating_add(place.min(FAR as usize) as u32)
    }

    // The better of the best block so far and one whose shift is priced.
    #[inline(never)]
    fn priced(&self, best: Best, top: u32, end: u32, saved: i64) -> Best {
        let shift = Shift {
            top,
            end,
            count: self.distance.count,
            up: self.distance.up,
        };
        let saved = saved.saturating_sub(i64::from(self.price_of_shift(shift)));
        if saved <= best.saved {
            return best;
        }
        let mut best = best;
        best.shift = Some(shift);
        best.saved = saved;
        best
    }

    // The price of a shift, by lines or as a scroll: of the turn to a plain pen, and of its motions
    // and operations.
    fn price_of_shift(&self, shift: Shift) -> u32 {
        let scene = self.scene();
        let rows = scene.picture.size().rows;
        let scroll = price_of_scroll(scene.prices, self.cursor.spot, shift, rows);
        scene
            .price_of_reset(self.cursor.pen)
            .saturating_add(self.price_by_lines(shift).min(scroll))
    }

    // The price of the motions and operations of a shift by lines.
    fn price_by_lines(&self, shift: Shift) -> u32 {
        let spot = self.cursor.spot;
        let inner = shift.end.saturating_sub(shift.count);
        let deleted = Op::DeleteLines(shift.count);
        let inserted = Op::InsertLines(shift.count);
        let scene = self.scene();
        let prices = scene.prices;
        let is_last = shift.end >= scene.rows;
        if shift.up {
            let first = price_of_step(prices, spot, shift.top, deleted);
            if is_last {
                first
            } else {
                first.saturating_add(price_of_step(prices, Spot::At(shift.top, 0), inner, inserted))
            }
        } else if is_last {
            price_of_step(prices, spot, shift.top, inserted)
        } else {
            price_of_step(prices, spot, inner, deleted).saturating_add(price_of_step(
                prices,
                Spot::At(inner, 0),
                shift.top,
                inserted,
            ))
        }
    }
}

impl Best {
    // No block yet: the first has to save enough.
    fn none(least: i64) -> Best {
        Best {
            shift: None,
            saved: WORTH - 1,
            most: 0,
            least,
        }
    }
}
