//! The cheapest motion of the cursor to a place.

pub(crate) mod places;
pub(crate) mod turns;

use crate::motions::places::price_of_motion;
use scr_term::{Op, Prices, Spot};

// How the cursor goes to a place: at most three operations, of which the last may be sent several
// times.
#[derive(Clone, Copy)]
pub(crate) struct Motion {
    // What is sent first, if there are three.
    pub(crate) first: Option<Op>,
    // What is sent before the last.
    pub(crate) second: Option<Op>,
    // What is sent last.
    pub(crate) last: Option<Op>,
    // How many times that is sent.
    pub(crate) times: u32,
    // How many bytes all of it has.
    pub(crate) price: u32,
}

// The cheapest motion to a place: to it at once, along rows and columns from the cursor's place, or
// along them from the first place of the screen; the first of these that costs least. From past the
// last column, no motion goes along.
pub(crate) fn cheapest_motion(prices: &Prices, spot: Spot, row: u32, column: u32) -> Motion {
    let price = price_of_motion(prices, spot, row, column);
    motion_of_price(prices, spot, (row, column), price)
}

// The cheapest motion from a spot to the place in a row and a column, of which the price is known.
pub(crate) fn motion_of_price(prices: &Prices, spot: Spot, to: (u32, u32), price: u32) -> Motion {
    if price == 0 {
        return Motion::none();
    }
    let direct = Op::Move(to.0, to.1);
    if price == prices.of(direct) {
        return Motion::none().with_last(direct, 1).priced(price);
    }
    if let Spot::At(row, column) = spot {
        if let Some(along) = motion_along(prices, (row, column), to, price) {
            return along.priced(price);
        }
    }
    let left = price.saturating_sub(prices.of(Op::Home));
    match motion_along(prices, (0, 0), to, left) {
        Some(along) => along.after_home().priced(price),
        None => Motion::none().with_last(direct, 1).priced(price),
    }
}

// The motion along rows and then columns, if the cheapest one has this price.
#[inline(always)]
fn motion_along(prices: &Prices, from: (u32, u32), to: (u32, u32), price: u32) -> Option<Motion> {
    let mut rows = Motion::none();
    let mut left = price;
    if from.0 != to.0 {
        let (op, price) = cheapest_rows(prices, from.0, to.0);
        rows.first = Some(op);
        left = left.checked_sub(price)?;
    }
    rows.along_columns(prices, from.1, to.1, left)
}

// What leads from one row to another, a count, or the row at once if that is cheaper, and its price.
#[inline(always)]
fn cheapest_rows(prices: &Prices, from: u32, to: u32) -> (Op, u32) {
    let by = By::rows(from, to);
    let (by_count, at_once) = (by.price(prices), prices.of(Op::Line(to)));
    if at_once < by_count {
        (Op::Line(to), at_once)
    } else {
        (by.cheaper(prices), by_count)
    }
}

impl Motion {
    // Nothing is sent.
    #[inline(always)]
    fn none() -> Motion {
        Motion {
            first: None,
            second: None,
            last: None,
            times: 0,
            price: 0,
        }
    }

    // With an operation that is sent last, so many times.
    #[inline(always)]
    fn with_last(self, op: Op, times: u32) -> Motion {
        Motion {
            last: Some(op),
            times,
            ..self
        }
    }

    // With a price.
    #[inline(always)]
    fn priced(self, price: u32) -> Motion {
        Motion { price, ..self }
    }

    // From the first place of the screen. No return leads on from its first column, so there are at
    // most three operations.
    fn after_home(self) -> Motion {
        Motion {
            first: Some(Op::Home),
            second: self.first,
            ..self
        }
    }

    // With what leads from one column to another at this price: a count, single steps to the left, a
    // return and a count, or the column at once.
    #[inline(always)]
    fn along_columns(self, prices: &Prices, from: u32, to: u32, price: u32) -> Option<Motion> {
        if from == to {
            return if price == 0 { Some(self) } else { None };
        }
        let by = By::columns(from, to);
        if price == by.price(prices) {
            return Some(self.with_last(by.cheaper(prices), 1));
        }
        if price == price_of_singles(prices, from, to) {
            return Some(self.with_last(Op::Left(1), from.saturating_sub(to)));
        }
        if price == price_from_first(prices, to) {
            return Some(self.from_first(prices, to));
        }
        if price == prices.of(Op::Column(to)) {
            return Some(self.with_last(Op::Column(to), 1));
        }
        None
    }

    // With what leads to the first column, and right from there.
    #[inline(always)]
    fn from_first(self, prices: &Prices, column: u32) -> Motion {
        if column == 0 {
            return self.with_last(Op::Return, 1);
        }
        Motion {
            second: Some(Op::Return),
            ..self.with_last(By::columns(0, column).cheaper(prices), 1)
        }
    }
}

// The price of going left to a column in single steps; too high from its left.
#[inline(always)]
pub(crate) fn price_of_singles(prices: &Prices, from: u32, to: u32) -> u32 {
    if from < to {
        return u32::MAX;
    }
    prices.of(Op::Left(1)).saturating_mul(from - to)
}

// The price of going to the first column of a row, and right from there.
#[inline(always)]
pub(crate) fn price_from_first(prices: &Prices, column: u32) -> u32 {
    let first = prices.of(Op::Return);
    if column == 0 {
        return first;
    }
    first.saturating_add(By::columns(0, column).price(prices))
}

// A motion by a count, and the one with a number that it may be in place of, if it is by one.
#[derive(Clone, Copy)]
pub(crate) struct By {
    count: u32,
    op: Op,
    numbered: Op,
}

impl By {
    // Up or down, from one row to another.
    #[inline(always)]
    pub(crate) fn rows(from: u32, to: u32) -> By {
        if from < to {
            By::new(to - from, Op::Down(to - from), Op::DownBy(1))
        } else {
            By::new(from - to, Op::Up(from - to), Op::UpBy(1))
        }
    }

    // Left or right, from one column to another.
    #[inline(always)]
    pub(crate) fn columns(from: u32, to: u32) -> By {
        if from < to {
            By::new(to - from, Op::Right(to - from), Op::RightBy(1))
        } else {
            By::new(from - to, Op::Left(from - to), Op::LeftBy(1))
        }
    }

    #[inline(always)]
    fn new(count: u32, op: Op, numbered: Op) -> By {
        By {
            count,
            op,
            numbered,
        }
    }

    // Its price. By one it is that of the text with a number, if the text for one is dearer or is a
    // line feed.
    #[inline(always)]
    pub(crate) fn price(self, prices: &Prices) -> u32 {
        let price = prices.of(self.op);
        if self.count == 1 {
            price.min(prices.of(self.numbered))
        } else {
            price
        }
    }

    // The operation of this price.
    #[inline(always)]
    fn cheaper(self, prices: &Prices) -> Op {
        if self.price(prices) < prices.of(self.op) {
            self.numbered
        } else {
            self.op
        }
    }
}
