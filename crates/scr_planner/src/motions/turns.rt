//! The cheapest turn from one pen to another.

use scr_cells::{Attrs, Pen};
use scr_term::{Op, Prices};

// How a pen becomes another: what is sent first, if anything. After that, each attribute that is
// missing is turned on, and each colour that differs is set.
#[derive(Clone, Copy)]
pub(crate) struct Turn {
    // What is sent first: `Reset`, `ExitAttributes` or `Set`.
    pub(crate) first: Option<Op>,
    // How many bytes all of it has.
    pub(crate) price: u32,
}

impl Turn {
    // The cheaper of two turns; this one if they cost the same.
    fn or(self, other: Turn) -> Turn {
        if other.price < self.price {
            other
        } else {
            self
        }
    }
}

// The cheapest turn from one pen to another: by adding to it, by a reset if adding is not enough,
// or by setting all attributes at once.
pub(crate) fn cheapest_turn(prices: &Prices, from: Pen, to: Pen) -> Turn {
    if from == to {
        return Turn {
            first: None,
            price: 0,
        };
    }
    let turn = if keeps(from, to) {
        adding(prices, from, to)
    } else {
        resetting(prices, from, to)
    };
    if to.attrs().0 == 0 {
        turn
    } else {
        turn.or(setting(prices, to))
    }
}

// Nothing is turned off: this never costs more than turning everything off first.
fn adding(prices: &Prices, from: Pen, to: Pen) -> Turn {
    Turn {
        first: None,
        price: price_of_adding(prices, from, to),
    }
}

// Everything is turned off first: attributes alone where no colour is on, if that costs less.
fn resetting(prices: &Prices, from: Pen, to: Pen) -> Turn {
    let has_colour = from.foreground().is_some() || from.background().is_some();
    let first = if !has_colour && prices.of(Op::ExitAttributes) < prices.of(Op::Reset) {
        Op::ExitAttributes
    } else {
        Op::Reset
    };
    let added = price_of_adding(prices, Pen::plain(), to);
    Turn {
        first: Some(first),
        price: prices.of(first).saturating_add(added),
    }
}

// All attributes are set at once, which makes the colours default.
fn setting(prices: &Prices, to: Pen) -> Turn {
    let first = Op::Set(to.attrs());
    let colours = price_of_colours(prices, Pen::plain(), to);
    Turn {
        first: Some(first),
        price: prices.of(first).saturating_add(colours),
    }
}

// Whether a pen has all attributes of another, and a colour wherever the other has one.
fn keeps(from: Pen, to: Pen) -> bool {
    from.attrs().0 & to.attrs().0 == from.attrs().0
        && (from.foreground().is_none() || to.foreground().is_some())
        && (from.background().is_none() || to.background().is_some())
}

// The price of turning on the attributes that a pen lacks, and setting the colours that differ.
fn price_of_adding(prices: &Prices, from: Pen, to: Pen) -> u32 {
    let lacking = Attrs(to.attrs().0 ^ (to.attrs().0 & from.attrs().0));
    prices
        .enters(lacking)
        .saturating_add(price_of_colours(prices, from, to))
}

// The price of setting the colours that differ.
fn price_of_colours(prices: &Prices, from: Pen, to: Pen) -> u32 {
    let foreground = match to.foreground() {
        Some(colour) if from.foreground() != Some(colour) => prices.of(Op::Fore(colour)),
        _ => 0,
    };
    let background = match to.background() {
        Some(colour) if from.background() != Some(colour) => prices.of(Op::Back(colour)),
        _ => 0,
    };
    foreground.saturating_add(background)
}
