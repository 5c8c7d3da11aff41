//! What motions to a place cost, wherever the cursor is.

use crate::motions::{By, price_from_first, price_of_singles};
use scr_term::{Op, Prices, Spot};

// A place, and what does not depend on where the cursor comes from: the price of going to it at once
// or from the first place of the screen, to its row at once, and to its column at once or from the
// first column. Motions to one place from many others are priced by it. Of places in a list it also
// has the least that a way to it, or to one after it, costs from past the last column.
#[derive(Clone, Copy)]
pub(crate) struct Place {
    pub(crate) row: u32,
    pub(crate) column: u32,
    at_once: u32,
    to_row: u32,
    to_column: u32,
    pub(crate) least: u32,
}

impl Place {
    // A place that motions from any spots lead to.
    pub(crate) fn of(prices: &Prices, row: u32, column: u32) -> Place {
        Place::without_home(prices, row, column).with_home(prices)
    }

    // A place that no motion leads to from the first place of the screen.
    #[inline(always)]
    fn without_home(prices: &Prices, row: u32, column: u32) -> Place {
        let from_first = price_from_first(prices, column);
        Place {
            row,
            column,
            at_once: prices.of(Op::Move(row, column)),
            to_row: prices.of(Op::Line(row)),
            to_column: from_first.min(prices.of(Op::Column(column))),
            least: 0,
        }
    }

    // The same, with motions from the first place of the screen.
    fn with_home(self, prices: &Prices) -> Place {
        let from_home = prices
            .of(Op::Home)
            .saturating_add(self.price_of_rows(prices, 0))
            .saturating_add(self.price_of_columns(prices, 0));
        Place {
            at_once: self.at_once.min(from_home),
            ..self
        }
    }

    // The price of the cheapest motion from a spot; if it is not below the limit, it may be any other
    // that is not. From past the last column, no motion goes along.
    #[inline(always)]
    pub(crate) fn price_from(&self, prices: &Prices, spot: Spot, limit: u32) -> u32 {
        let Spot::At(row, column) = spot else {
            return self.at_once;
        };
        let rows = self.price_of_rows(prices, row);
        if rows >= limit {
            return self.at_once;
        }
        let columns = self.price_of_columns(prices, column);
        self.at_once.min(rows.saturating_add(columns))
    }

    // The price of going to its row: by a count, or at once.
    #[inline(always)]
    fn price_of_rows(&self, prices: &Prices, from: u32) -> u32 {
        if from == self.row {
            return 0;
        }
        By::rows(from, self.row).price(prices).min(self.to_row)
    }

    // The price of going to its column: by a count, in single steps, or wherever the cursor is in the
    // row.
    #[inline(always)]
    fn price_of_columns(&self, prices: &Prices, from: u32) -> u32 {
        if from == self.column {
            return 0;
        }
        By::columns(from, self.column)
            .price(prices)
            .min(price_of_singles(prices, from, self.column))
            .min(self.to_column)
    }
}

// The price of the cheapest motion from a spot to a place.
pub(crate) fn price_of_motion(prices: &Prices, spot: Spot, row: u32, column: u32) -> u32 {
    if spot == Spot::At(row, column) {
        return 0;
    }
    let place = Place::without_home(prices, row, column);
    let price = place.price_from(prices, spot, u32::MAX);
    if prices.of(Op::Home) >= price {
        return price;
    }
    place.with_home(prices).at_once.min(price)
}
