//! Choosing the order of runs: the nearest next, or pen by pen, whichever is cheaper; where rows or
//! characters were moved, also as they are read.

mod links;
mod nearness;
mod pens;
mod walks;

use crate::motions::places::Place;
use crate::order::links::Links;
use crate::order::walks::Walk;
use crate::runs::Run;
use crate::scenes::Scene;
use crate::ways::{Cursor, Goal, Stop, Way};
use scr_cells::NoMemory;
use std::alloc::Global;

// The runs in the cheapest order from where the cursor is, to where the picture wants it; the nearest next if others
// cost the same. The runs are by rows, each row from the left. `moved` says whether rows or characters were moved
// before. Fails only when memory runs out.
pub(crate) fn cheapest_order(
    alloc: Global,
    scene: &Scene<'_>,
    cursor: &Cursor,
    runs: &[Run],
    moved: bool,
) -> Result<Vec<Stop>, NoMemory> {
    let places = places_of(alloc, scene, runs)?;
    let to_paint = ToPaint {
        alloc,
        scene,
        runs,
        places: &places,
        wish: scene.picture.wish(),
        moved,
    };
    let mut links = Links::new(alloc, runs)?;
    let by_pens = to_paint.by_pens(cursor, &mut links)?;
    let nearest = to_paint.by_nearness(cursor, &mut links, by_pens.price)?;
    let mut best = nearest.or(by_pens);
    if moved {
        let read = to_paint.as_read(cursor, best.price)?;
        best = best.or(read);
    }
    Ok(best.stops)
}

// The first place of each run.
fn places_of(alloc: Global, scene: &Scene<'_>, runs: &[Run]) -> Result<Vec<Place>, NoMemory> {
    let mut places = Vec::with_capacity(alloc, runs.len())?;
    for run in runs {
        places.push(Place::of(scene.prices, run.row, run.start))?;
    }
    let mut least = u32::MAX;
    for place in places.iter_mut().rev() {
        least = least.min(scene.least_from_margin(place));
        place.least = least;
    }
    Ok(places)
}

// What an order is made for: the runs, by rows, their first places, where the cursor is wanted after
// them, and whether something was moved before. If so, the next update is likely to move something
// too.
#[derive(Clone, Copy)]
struct ToPaint<'a> {
    alloc: Global,
    scene: &'a Scene<'a>,
    runs: &'a [Run],
    places: &'a [Place],
    wish: Option<(u32, u32)>,
    moved: bool,
}

impl ToPaint<'_> {
    // The run with a number and its first place, if there is one.
    #[inline(always)]
    fn at(&self, number: u32) -> Option<(&Run, &Place)> {
        let number = number as usize;
        if number >= self.runs.len() || number >= self.places.len() {
            return None;
        }
        Some((&self.runs[number], &self.places[number]))
    }

    // The row of the run with a number; the first of all if there is none.
    fn row_of(&self, number: u32) -> u32 {
        match self.runs.get(number as usize) {
            Some(run) => run.row,
            None => 0,
        }
    }

    // Goes on to the run with a number, if there is one.
    fn go_on(&self, walk: &mut Walk, number: u32) -> Result<(), NoMemory> {
        let Some((run, place)) = self.at(number) else {
            return Ok(());
        };
        let goal = Goal {
            to: run.target(),
            turn: self.scene.price_of_turn(walk.cursor.pen, run.pen),
        };
        let motion = place.price_from(self.scene.prices, walk.cursor.spot, u32::MAX);
        let way = self.scene.way_to(&walk.cursor, &goal, motion);
        self.paint(walk, number, way)
    }

    // The order in which the runs are: row by row, each row from the left. If it costs as much as
    // the limit, it may end early.
    fn as_read(&self, cursor: &Cursor, limit: u32) -> Result<Walk, NoMemory> {
        let mut walk = Walk::from(self, cursor)?;
        let mut number = 0u32;
        for _ in 0..self.runs.len() {
            if walk.price < limit {
                self.go_on(&mut walk, number)?;
                number = number.saturating_add(1);
            }
        }
        walk.end(self);
        Ok(walk)
    }
}
