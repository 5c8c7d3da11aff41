//! The order by pens: all runs of one pen, then those of another.

use crate::order::ToPaint;
use crate::order::links::{Chain, Links, NONE};
use crate::order::walks::Walk;
use crate::ways::Cursor;
use scr_cells::{NoMemory, Pen};

impl ToPaint<'_> {
    // All runs of the chain with the cheapest turn, then those of the next one, and at last the runs
    // without a chain.
    pub(crate) fn by_pens(&self, cursor: &Cursor, links: &mut Links) -> Result<Walk, NoMemory> {
        let mut walk = Walk::from(self, cursor)?;
        let chains = links.chains.len();
        for _ in 0..chains {
            self.paint_next_chain(&mut walk, links)?;
        }
        self.paint_others(&mut walk, links)?;
        walk.end(self);
        Ok(walk)
    }

    // Paints the runs without a chain, by rows.
    fn paint_others(&self, walk: &mut Walk, links: &Links) -> Result<(), NoMemory> {
        let mut number = 0u32;
        for _ in 0..self.runs.len() {
            if links.chain_at(number) == NONE {
                self.go_on(walk, number)?;
            }
            number = number.saturating_add(1);
        }
        Ok(())
    }

    // The chain with the cheapest turn from a pen, among those not painted yet. It is painted then.
    fn next_chain(&self, links: &mut Links, pen: Pen) -> Option<Chain> {
        let mut best = None;
        let mut least = u32::MAX;
        for number in 0..links.chains.len() {
            let chain = links.chains[number];
            let turn = self.scene.price_of_turn(pen, chain.pen);
            if !chain.is_painted && turn < least {
                best = Some(number);
                least = turn;
            }
        }
        let chain = links.chains.get_mut(best?)?;
        chain.is_painted = true;
        Some(*chain)
    }

    // Paints all runs of the chain that is next, from the first; or upwards from the last row if that
    // is nearer.
    fn paint_next_chain(&self, walk: &mut Walk, links: &mut Links) -> Result<(), NoMemory> {
        let Some(chain) = self.next_chain(links, walk.cursor.pen) else {
            return Ok(());
        };
        let row = walk.cursor.row();
        let to_first = row.abs_diff(self.row_of(chain.first));
        let to_last = row.abs_diff(self.row_of(chain.last));
        if to_last < to_first {
            return self.paint_upwards(walk, links, chain.last);
        }
        self.paint_part(walk, links, chain.first, chain.last)
    }

    // Paints the runs of a chain up to `last`, row by row upwards, each row from the left.
    fn paint_upwards(&self, walk: &mut Walk, links: &Links, last: u32) -> Result<(), NoMemory> {
        let mut end = last;
        for _ in 0..self.runs.len() {
            if end == NONE {
                return Ok(());
            }
            let first = self.first_in_row(links, end);
            self.paint_part(walk, links, first, end)?;
            end = links.alike(first).before;
        }
        Ok(())
    }

    // The first run of a chain in the same row as `last`.
    fn first_in_row(&self, links: &Links, last: u32) -> u32 {
        let row = self.row_of(last);
        let mut first = last;
        for _ in 0..self.runs.len() {
            let before = links.alike(first).before;
            if before == NONE || self.row_of(before) != row {
                return first;
            }
            first = before;
        }
        first
    }

    // Paints the runs of a chain from `first` to `last`, both included.
    fn paint_part(
        &self,
        walk: &mut Walk,
        links: &Links,
        first: u32,
        last: u32,
    ) -> Result<(), NoMemory> {
        let mut number = first;
        for _ in 0..self.runs.len() {
            self.go_on(walk, number)?;
            if number == last {
                return Ok(());
            }
            number = links.alike(number).next;
        }
        Ok(())
    }
}
