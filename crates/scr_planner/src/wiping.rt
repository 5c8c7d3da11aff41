//! Erasing many lines at once, before anything is painted, where that was chosen.

use crate::cuts::Runs;
use crate::drafts::Draft;
use crate::runs::Run;
use crate::scenes::Scene;
use crate::wipings::{Wiping, cheapest_wiping};
use scr_cells::{NoMemory, Pen};
use scr_term::{Op, Spot};

impl Draft {
    // Erases many lines at once if that is worth it; the runs there are then those of a blank screen.
    pub(crate) fn wipe_if_worth(
        &mut self,
        scene: &Scene<'_>,
        runs: &mut Runs,
    ) -> Result<(), NoMemory> {
        let Some(wiping) = cheapest_wiping(scene, &self.cursor(), runs.as_slice()) else {
            return Ok(());
        };
        if !self.wipe(scene, wiping)? {
            return Ok(());
        }
        drop_from(runs, wiping.top);
        scene.add_rows(wiping.top, runs)
    }

    // Erases all rows from one on. Returns whether that was possible. Clear erases from anywhere.
    fn wipe(&mut self, scene: &Scene<'_>, wiping: Wiping) -> Result<bool, NoMemory> {
        if wiping.by != Op::Clear {
            self.reach_row(scene, wiping.top)?;
            return self.erase_below(scene, wiping.top);
        }
        self.turn_to(scene, Pen::plain())?;
        if !self.pen.is_plain() {
            return Ok(false);
        }
        self.add(Op::Clear)?;
        self.spot = Spot::At(0, 0);
        Ok(true)
    }

    // Erases the rows from `top` on, if the cursor is in its first column with a plain pen.
    pub(crate) fn erase_below(&mut self, scene: &Scene<'_>, top: u32) -> Result<bool, NoMemory> {
        let can = self.can_erase(scene.profile, top, 0, Op::EraseBelow);
        if can {
            self.add(Op::EraseBelow)?;
        }
        Ok(can)
    }
}

// Drops the runs of the rows from `top` on. The runs are by rows.
fn drop_from(runs: &mut Runs, top: u32) {
    let mut kept = 0usize;
    for run in runs.as_slice() {
        if run.row >= top {
            break;
        }
        kept = kept.saturating_add(1);
    }
    runs.truncate(kept);
}
