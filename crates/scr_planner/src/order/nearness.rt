//! The order by nearness: the nearest run next each time.

use crate::order::ToPaint;
use crate::order::links::{Links, NONE};
use crate::order::walks::Walk;
use crate::ways::{Cursor, Goal, Path, Way};
use scr_cells::NoMemory;
use scr_term::Spot;

// How many waiting runs are looked at from the last one's place on, and how many before that.
const AHEAD: usize = 4;

const BACK: usize = 2;

// How many are looked at, with two of those that have the current pen.
const MOST: usize = AHEAD + BACK + 2;

// What a run costs more in the row where the cursor is wanted at the end, so that it is painted
// late.
const WISHED_LAST: u32 = 3;

// The nearest run so far, the way to it, and the price that is compared.
#[derive(Clone, Copy)]
struct Nearest {
    number: u32,
    way: Way,
    compared: u32,
}

impl Nearest {
    // No run was looked at yet.
    fn none() -> Nearest {
        Nearest {
            number: NONE,
            way: Way {
                path: Path::Moving(0),
                price: 0,
            },
            compared: u32::MAX,
        }
    }
}

impl ToPaint<'_> {
    // The nearest run next each time. If it costs more than the limit, it may end early.
    pub(crate) fn by_nearness(
        &self,
        cursor: &Cursor,
        links: &mut Links,
        limit: u32,
    ) -> Result<Walk, NoMemory> {
        let mut walk = Walk::from(self, cursor)?;
        let mut from = self.first_in_or_below(cursor.row());
        let mut next_alike = NONE;
        for _ in 0..self.runs.len() {
            let nearest = self.nearest(&walk, links, from, next_alike);
            self.paint(&mut walk, nearest.number, nearest.way)?;
            if walk.price > limit {
                return Ok(walk);
            }
            from = links.around(nearest.number).next;
            next_alike = links.alike(nearest.number).next;
            links.remove(nearest.number);
        }
        walk.end(self);
        Ok(walk)
    }

    // The first run in a row or below it; the first of all if there is none.
    fn first_in_or_below(&self, row: u32) -> u32 {
        let mut number = 0u32;
        for run in self.runs {
            if run.row >= row {
                return number;
            }
            number = number.saturating_add(1);
        }
        0
    }

    // The nearest of a few waiting runs.
    fn nearest(&self, walk: &Walk, links: &mut Links, from: u32, next_alike: u32) -> Nearest {
        let mut nearest = Nearest::none();
        if let Spot::Margin(_) = walk.cursor.spot {
            self.look_at(walk, links, &mut nearest, from);
            if self.is_surely_nearest(links, &nearest) {
                return nearest;
            }
        }
        for number in self.candidates(walk, links, from, next_alike) {
            self.look_at(walk, links, &mut nearest, number);
        }
        nearest
    }

    // Whether no other run is nearer than this one, from past the last column: none before it waits,
    // and no way to one after it costs less.
    #[inline(always)]
    fn is_surely_nearest(&self, links: &Links, nearest: &Nearest) -> bool {
        match self.at(nearest.number) {
            Some((_, place)) => {
                nearest.compared <= place.least
                    && links.around(nearest.number).before >= nearest.number
            }
            None => false,
        }
    }

    // The waiting runs that are looked at, in order: some around the place of the last one, and, of
    // those with the current pen, the next one and the first. If few runs wait, these are all.
    fn candidates(&self, walk: &Walk, links: &Links, from: u32, next_alike: u32) -> [u32; MOST] {
        let waiting = self.runs.len().saturating_sub(walk.stops.len());
        let mut found = [NONE; MOST];
        let mut number = from;
        for place in 0..AHEAD.min(waiting) {
            found[place] = number;
            number = links.around(number).next;
        }
        number = from;
        for place in AHEAD..(AHEAD + BACK).min(waiting) {
            number = links.around(number).before;
            found[place] = number;
        }
        if waiting > AHEAD && !found.contains(&next_alike) {
            found[AHEAD + BACK] = next_alike;
        }
        let first_alike = links.first_with(walk.cursor.pen);
        if waiting > AHEAD && !found.contains(&first_alike) {
            found[MOST - 1] = first_alike;
        }
        found
    }

    // Looks at a run, if it exists: it becomes the nearest so far if it is nearer. Many runs are
    // ruled out by the turn alone.
    #[inline(always)]
    fn look_at(&self, walk: &Walk, links: &mut Links, nearest: &mut Nearest, number: u32) {
        if number == nearest.number {
            return;
        }
        let Some((run, place)) = self.at(number) else {
            return;
        };
        let more = self.price_of_wish(run.row);
        let turn = links.turn(self.scene, walk.cursor.pen, run, number);
        let limit = nearest.compared.saturating_sub(more);
        if turn >= limit {
            return;
        }
        let goal = Goal {
            to: run.target(),
            turn,
        };
        let motion = place.price_from(self.scene.prices, walk.cursor.spot, limit - turn);
        let way = self.scene.way_to(&walk.cursor, &goal, motion);
        if way.price < limit {
            *nearest = Nearest {
                number,
                way,
                compared: way.price.saturating_add(more),
            };
        }
    }

    // What a run costs more because it is in this row.
    fn price_of_wish(&self, row: u32) -> u32 {
        match self.wish {
            Some((wished, _)) if wished == row => WISHED_LAST,
            _ => 0,
        }
    }
}
