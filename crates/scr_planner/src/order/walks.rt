//! Walks over runs: what orders are compared by.

use crate::order::ToPaint;
use crate::ways::{Cursor, Stop, Target, Way};
use scr_cells::NoMemory;

// A walk over runs: where the cursor is, the runs painted so far with the ways to them, and how many
// bytes the ways have. What it takes to paint the runs themselves is the same in any order.
#[derive(Drop)]
pub(crate) struct Walk {
    pub(crate) cursor: Cursor,
    pub(crate) stops: Vec<Stop>,
    pub(crate) price: u32,
}

impl Walk {
    // No run was painted yet.
    pub(crate) fn from(to_paint: &ToPaint<'_>, cursor: &Cursor) -> Result<Walk, NoMemory> {
        Ok(Walk {
            cursor: *cursor,
            stops: Vec::with_capacity(to_paint.alloc, to_paint.runs.len())?,
            price: 0,
        })
    }

    // The cheaper of two walks; this one if they cost the same.
    pub(crate) fn or(self, other: Walk) -> Walk {
        if other.price < self.price {
            other
        } else {
            self
        }
    }

    // Adds the price of the way to where the cursor is wanted, and of the reset that the next moves
    // need.
    pub(crate) fn end(&mut self, to_paint: &ToPaint<'_>) {
        let scene = to_paint.scene;
        let pen = self.cursor.pen;
        if to_paint.moved {
            self.price = self.price.saturating_add(scene.price_of_reset(pen));
        }
        if let Some((row, column)) = to_paint.wish {
            let way = scene.way(&self.cursor, &Target { row, column, pen });
            self.price = self.price.saturating_add(way.price);
        }
    }
}

impl ToPaint<'_> {
    // Paints the run with a number, if there is one; a way leads to it.
    pub(crate) fn paint(&self, walk: &mut Walk, number: u32, way: Way) -> Result<(), NoMemory> {
        let Some(run) = self.runs.get(number as usize) else {
            return Ok(());
        };
        walk.cursor = self.scene.after(run);
        walk.price = walk.price.saturating_add(way.price);
        walk.stops.push(Stop {
            number,
            way: Some(way),
        })?;
        Ok(())
    }
}
