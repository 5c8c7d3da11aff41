//! Sliding the characters of rows one after another, where that is worth it: the runs of a row that is slid are found
//! anew, over what it shows then.

use crate::cuts::Runs;
use crate::drafts::Draft;
use crate::rows::{RowRuns, runs_end};
use crate::runs::Run;
use crate::scenes::{Scene, Update};
use crate::shifts::Shift;
use crate::shown::slide_into;
use crate::slides::{Slide, are_wide, can_slide_some, cheapest_slide};
use scr_cells::{Look, NoMemory};
use scr_term::{Op, Profile};
use std::alloc::Global;

// Room for what slides put together: a row of looks, and the runs of later rows.
#[derive(Drop)]
struct Room {
    looks: Vec<Look>,
    later: Vec<Run>,
}

impl Draft {
    // Slides the characters of each row where that is worth it. After a shift, if there was one, the rows show the
    // picture except in their runs. These are by rows.
    pub(crate) fn slide_rows(
        &mut self,
        alloc: Global,
        update: &Update<'_>,
        shift: Option<Shift>,
        runs: &mut Runs,
    ) -> Result<(), NoMemory> {
        if !can_slide_some(update.scene.prices) {
            return Ok(());
        }
        let mut room = Room {
            looks: Vec::new(alloc),
            later: Vec::new(alloc),
        };
        let mut begun = 0;
        for _ in 0..update.scene.rows {
            if begun >= runs.len() {
                return Ok(());
            }
            begun = self.slide_row(update, shift, begun, runs, &mut room)?;
        }
        Ok(())
    }

    // Slides the characters of the row whose runs begin with this number if that is worth it. Returns where the runs of
    // the next row begin.
    fn slide_row(
        &mut self,
        update: &Update<'_>,
        shift: Option<Shift>,
        begun: usize,
        runs: &mut Runs,
        room: &mut Room,
    ) -> Result<usize, NoMemory> {
        let scene = &update.scene;
        let (row, after) = runs_end(runs.as_slice(), begun);
        let Some(looks) = update.shown_row(shift, row) else {
            return Ok(after);
        };
        let shown = RowRuns {
            row,
            looks,
            cells: scene.cells(row),
            runs: runs.as_slice().get(begun..after).unwrap_or(&[]),
        };
        let slide = slide_of(update, self, &shown, &mut room.looks)?;
        let Some(slide) = slide else {
            return Ok(after);
        };
        self.come_to(scene, row, slide.column)?;
        self.add(op_of(slide))?;
        slide_into(&mut room.looks, looks, slide)?;
        scene.find_again(row, (begun, after), runs, room)
    }
}

impl Scene<'_> {
    // Finds the runs of a row again, over the looks that were put together; those of later rows come after them.
    // `numbers` are those of the row's runs, up to the second. Returns where those of later rows begin.
    fn find_again(
        &self,
        row: u32,
        numbers: (usize, usize),
        runs: &mut Runs,
        room: &mut Room,
    ) -> Result<usize, NoMemory> {
        let (begun, after) = numbers;
        room.later.clear();
        if let Some(later) = runs.as_slice().get(after..) {
            room.later.extend_from_slice(later)?;
        }
        runs.truncate(begun);
        self.add_row(row, Some(&room.looks), (0, self.columns), runs)?;
        let next = runs.len();
        runs.extend_from_slice(&room.later)?;
        Ok(next)
    }
}

// The slide of a row that is worth sending, if there is one.
fn slide_of(
    update: &Update<'_>,
    draft: &Draft,
    shown: &RowRuns<'_>,
    room: &mut Vec<Look>,
) -> Result<Option<Slide>, NoMemory> {
    if !are_wide(shown, update.scene.charset) {
        return Ok(None);
    }
    let slide = cheapest_slide(update, &draft.cursor(), shown, room)?;
    Ok(if_there(update.scene.profile, slide))
}

// A slide, if the terminal has its operation.
fn if_there(profile: &Profile, slide: Option<Slide>) -> Option<Slide> {
    match slide {
        Some(slide) if profile.has(op_of(slide)) => Some(slide),
        _ => None,
    }
}

// The operation of a slide.
fn op_of(slide: Slide) -> Op {
    if slide.inserts {
        Op::InsertChars(slide.count)
    } else {
        Op::DeleteChars(slide.count)
    }
}
