//! The cheapest way to a place with a pen: by a motion and a turn, or by writing places with what
//! they are to show.

use crate::motions::places::{Place, price_of_motion};
use crate::motions::turns::cheapest_turn;
use crate::runs::{How, Run};
use crate::scenes::Scene;
use scr_cells::{Cell, Pen};
use scr_term::{Op, Spot};

// Where the cursor is, and its pen.
#[derive(Clone, Copy)]
pub(crate) struct Cursor {
    // Where it is.
    pub(crate) spot: Spot,
    // What it writes with.
    pub(crate) pen: Pen,
}

/// A place that the cursor is to come to, with a pen.
#[derive(Clone, Copy)]
pub struct Target {
    /// Its row.
    pub row: u32,
    /// Its column.
    pub column: u32,
    /// The pen.
    pub pen: Pen,
}

impl Cursor {
    // The row that the cursor is in.
    pub(crate) fn row(&self) -> u32 {
        match self.spot {
            Spot::At(row, _) | Spot::Margin(row) => row,
        }
    }
}

// How a place is reached with a pen. If motions need no attribute and default colours, a turn to
// these comes before each of them.
#[derive(Clone, Copy)]
pub(crate) enum Path {
    // Move to the place by a motion of this price, then turn to the pen.
    Moving(u32),
    // Write the places of the row from this column on with the current pen, then turn to the pen.
    Writing(u32),
    // Move to the first column of the row by a motion of this price, turn to the pen, and write the
    // places before the place with it.
    MovingToWrite(u32),
}

// A path, and how many bytes it has.
#[derive(Clone, Copy)]
pub(crate) struct Way {
    // The path.
    pub(crate) path: Path,
    // How many bytes it has.
    pub(crate) price: u32,
}

// The number of a run, and the way to it, if one was chosen together with the order.
#[derive(Clone, Copy)]
pub(crate) struct Stop {
    // The number of the run among those that were given, counted from 0.
    pub(crate) number: u32,
    // The way to it from the run before.
    pub(crate) way: Option<Way>,
}

// Where a way leads, and the price of the turn to its pen from the one that is on.
#[derive(Clone, Copy)]
pub(crate) struct Goal {
    pub(crate) to: Target,
    pub(crate) turn: u32,
}

impl Scene<'_> {
    // The cheapest way to a place with a pen.
    pub(crate) fn way(&self, cursor: &Cursor, to: &Target) -> Way {
        let turn = self.price_of_turn(cursor.pen, to.pen);
        let motion = price_of_motion(self.prices, cursor.spot, to.row, to.column);
        self.way_to(cursor, &Goal { to: *to, turn }, motion)
    }

    // The cheapest way to a goal, to which the cheapest motion has this price: by that and a turn,
    // unless writing places costs less.
    #[inline(always)]
    pub(crate) fn way_to(&self, cursor: &Cursor, goal: &Goal, motion: u32) -> Way {
        let price = self.price_of_moving(cursor, motion, goal);
        let by_writing = if cursor.row() == goal.to.row {
            self.writing(cursor, goal, price)
        } else {
            self.moving_to_write(cursor, goal, price)
        };
        by_writing.unwrap_or(Way {
            path: Path::Moving(motion),
            price,
        })
    }

    // The price of a motion and the goal's turn, with the turn that may be needed before the motion.
    #[inline(always)]
    fn price_of_moving(&self, cursor: &Cursor, motion: u32, goal: &Goal) -> u32 {
        if self.moves_in_any_rendition || cursor.pen.is_plain() || motion == 0 {
            return motion.saturating_add(goal.turn);
        }
        self.price_of_turn(cursor.pen, Pen::plain())
            .saturating_add(motion)
            .saturating_add(self.price_of_turn(Pen::plain(), goal.to.pen))
    }

    // The price of the cheapest turn from one pen to another.
    #[inline(always)]
    pub(crate) fn price_of_turn(&self, from: Pen, to: Pen) -> u32 {
        if from == to {
            return 0;
        }
        cheapest_turn(self.prices, from, to).price
    }

    // The price of the reset that comes before a move, unless the pen is plain.
    pub(crate) fn price_of_reset(&self, pen: Pen) -> u32 {
        if pen.is_plain() {
            0
        } else {
            self.prices.of(Op::Reset)
        }
    }

    // By writing the places of the row in between, if this costs less than the limit.
    #[inline(always)]
    fn writing(&self, cursor: &Cursor, goal: &Goal, limit: u32) -> Option<Way> {
        let Target { row, column, .. } = goal.to;
        let Spot::At(_, from) = cursor.spot else {
            return None;
        };
        if from >= column {
            return None;
        }
        let left = limit.saturating_sub(goal.turn);
        let bytes = self.bytes_below(cursor.pen, row, (from, column), left)?;
        Some(Way {
            path: Path::Writing(from),
            price: bytes.saturating_add(goal.turn),
        })
    }

    // By writing the places before it in its row, if this costs less than the limit.
    #[inline(always)]
    fn moving_to_write(&self, cursor: &Cursor, goal: &Goal, limit: u32) -> Option<Way> {
        let Target { row, column, pen } = goal.to;
        if column == 0 || column > self.jump || column >= limit {
            return None;
        }
        let motion = price_of_motion(self.prices, cursor.spot, row, 0);
        let price = self.price_of_moving(cursor, motion, goal);
        let bytes = self.bytes_below(pen, row, (0, column), limit.saturating_sub(price))?;
        Some(Way {
            path: Path::MovingToWrite(motion),
            price: price.saturating_add(bytes),
        })
    }

    // How many bytes the characters have that are seen in a row from the first of two columns up to the second, if all
    // of them are seen with a pen, and these are fewer bytes than the limit.
    #[inline(always)]
    fn bytes_below(&self, pen: Pen, row: u32, columns: (u32, u32), limit: u32) -> Option<u32> {
        let (from, end) = columns;
        if end.saturating_sub(from) >= limit || !self.are_seen_with(pen, row, from, end) {
            return None;
        }
        let bytes = self.bytes_between(row, from, end);
        if bytes < limit { Some(bytes) } else { None }
    }

    // The least that a way to a place costs from past the last column: it goes there at once, or to
    // the first column, to write.
    pub(crate) fn least_from_margin(&self, place: &Place) -> u32 {
        let margin = Spot::Margin(place.row);
        let at_once = place.price_from(self.prices, margin, u32::MAX);
        if place.column == 0 || place.column > self.jump {
            return at_once;
        }
        let to_write = price_of_motion(self.prices, margin, place.row, 0);
        at_once.min(to_write.saturating_add(self.bytes_between(place.row, 0, place.column)))
    }

    // Whether columns `from..end` of a row are all seen with a pen.
    fn are_seen_with(&self, pen: Pen, row: u32, from: u32, end: u32) -> bool {
        let cells = self.cells(row);
        if from > end || end as usize > cells.len() {
            return false;
        }
        self.have_pen(&cells[from as usize..end as usize], pen)
    }

    // Whether cells are all seen with a pen.
    fn have_pen(&self, cells: &[Cell], pen: Pen) -> bool {
        for cell in cells {
            if self.pen_of(*cell) != pen {
                return false;
            }
        }
        true
    }

    // The price of a run once the cursor is at its first place with its pen.
    pub(crate) fn price_of_painting(&self, run: &Run) -> u32 {
        let count = run.end.saturating_sub(run.start);
        match run.how {
            How::Write => self.bytes_between(run.row, run.start, run.end),
            How::EraseLine => self.prices.of(Op::EraseLine),
            How::EraseChars => self.prices.of(Op::EraseChars(count)),
        }
    }

    // The price of a run as it stands, plus an easy motion.
    pub(crate) fn price_as_it_stands(&self, run: &Run) -> u32 {
        self.price_of_painting(run).saturating_add(self.jump)
    }

    // The cursor after a run.
    pub(crate) fn after(&self, run: &Run) -> Cursor {
        let spot = match run.how {
            How::Write if run.end < self.columns => Spot::At(run.row, run.end),
            How::Write => Spot::Margin(run.row),
            How::EraseLine | How::EraseChars => Spot::At(run.row, run.start),
        };
        Cursor { spot, pen: run.pen }
    }
}
