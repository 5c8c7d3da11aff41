//! Shifts of all rows of a screen by a scroll, in place of lines that are deleted or inserted. The
//! choice affects nothing but the number of bytes of an update.

use crate::motions::places::price_of_motion;
use crate::shifts::Shift;
use scr_term::{FAR, Op, Prices, Spot};

// Whether a shift is sent as a scroll, from this spot on a screen of so many rows: all rows move, and
// this costs no more than by lines, with the motion from there to the first row that comes in blank.
pub(crate) fn is_scrolled(prices: &Prices, spot: Spot, shift: Shift, rows: u32) -> bool {
    let scroll = price_of_scroll(prices, spot, shift, rows);
    if scroll >= FAR {
        return false;
    }
    let (edge, fresh, by_lines) = if shift.up {
        (
            rows.saturating_sub(1),
            rows.saturating_sub(shift.count),
            Op::DeleteLines(shift.count),
        )
    } else {
        (0, 0, Op::InsertLines(shift.count))
    };
    let lines = price_of_step(prices, spot, 0, by_lines);
    let from_edge = price_of_motion(prices, Spot::At(edge, 0), fresh, 0);
    let from_top = price_of_motion(prices, Spot::At(0, 0), fresh, 0);
    scroll.saturating_add(from_edge) <= lines.saturating_add(from_top)
}

// The price of a shift by a scroll; `FAR` where not all rows move.
pub(crate) fn price_of_scroll(prices: &Prices, spot: Spot, shift: Shift, rows: u32) -> u32 {
    if shift.top > 0 || shift.end < rows {
        return FAR;
    }
    if shift.up {
        price_of_step(
            prices,
            spot,
            rows.saturating_sub(1),
            Op::ScrollUp(shift.count),
        )
    } else {
        price_of_step(prices, spot, 0, Op::ScrollDown(shift.count))
    }
}

// The price of going to the first column of a row, and of an operation there.
pub(crate) fn price_of_step(prices: &Prices, spot: Spot, row: u32, op: Op) -> u32 {
    price_of_motion(prices, spot, row, 0).saturating_add(prices.of(op))
}
