//! Finding blanks in a row of cells, and whether they are worth an erasure.

use crate::blanks::BLANK;
use crate::lines::Line;
use crate::scenes::Scene;
use scr_term::{Op, Prices};

// The next blanks in a row from `from` on: where they begin, and the column of one of them. Only one column in `many`
// is looked at: so the first `many` blanks in a row are found, or some blanks before them.
pub(crate) fn next_blanks(line: &Line<'_>, from: u32, end: u32, many: u32) -> Option<(u32, u32)> {
    let mut column = from.saturating_add(many.saturating_sub(1));
    for _ in from..end {
        if column >= end {
            return None;
        }
        if line.cell(column).code() == BLANK {
            return Some((blanks_begin(line, from, column), column));
        }
        column = column.saturating_add(many);
    }
    None
}

// The first column of the blanks right before `column`, not further left than `from`; `column` itself if there are
// none.
fn blanks_begin(line: &Line<'_>, from: u32, column: u32) -> u32 {
    for before in 0..column.saturating_sub(from) {
        let first = column - before;
        if line.cell(first - 1).code() != BLANK {
            return first;
        }
    }
    from
}

// Where the blanks end that begin in a column; the column itself if it has none.
#[inline(always)]
pub(crate) fn blanks_end(line: &Line<'_>, column: u32, end: u32) -> u32 {
    for place in column..end {
        if line.cell(place).code() != BLANK {
            return place;
        }
    }
    end
}

// The least number of blanks in a row that can be worth an erasure: fewer cost no more than it does.
pub(crate) fn least_worth_erasing(prices: &Prices) -> u32 {
    let few = prices
        .of(Op::EraseChars(2))
        .min(prices.of(Op::EraseChars(10)));
    few.min(prices.of(Op::EraseChars(100))).saturating_add(1)
}

// Whether `count` blanks cost more than their erasure, plus a motion after them if the run goes on there.
#[inline(always)]
pub(crate) fn is_worth_erasing(prices: &Prices, count: u32, goes_on: bool) -> bool {
    if count <= 1 {
        return false;
    }
    let erasure = prices.of(Op::EraseChars(count));
    let motion = if goes_on {
        prices.of(Op::Right(count))
    } else {
        0
    };
    count > erasure.saturating_add(motion)
}

impl Scene<'_> {
    // The column from which the rest of a row is to be erased, if that costs less than writing it.
    pub(crate) fn erased_rest(&self, line: &Line<'_>, from: u32, end: u32) -> Option<u32> {
        let price = self.prices.of(Op::EraseLine);
        if end.saturating_sub(from) <= price {
            return None;
        }
        let (first, last) = self.blank_rest(line, from, end)?;
        if last.saturating_add(1).saturating_sub(first) <= price {
            return None;
        }
        if !self.is_blank_from(line, end) {
            return None;
        }
        Some(first)
    }
}
