//! The draft of a joined repaint: what it has come to, operation by operation.
ghost use Rattle.std.specs.Prelude.{◌≡◌, ◌+◌, ◌-◌, ◌<◌, ◌≤◌, ◌++◌, ◌∷◌, [], OnOk, false, length, true};
ghost use Rattle.scr_plan.specs.Code.Joinings.{IsCounted, counted_up, run_bytes};
ghost use Rattle.scr_plan.specs.Code.Scenes.{IsScene};
ghost use Rattle.scr_term.specs.Operations.States.{spot_after};

use crate::joining::{price_of, spot_after};
use crate::scenes::Scene;
use scr_cells::{NoMemory, Pen};
use scr_term::{Op, Profile, Spot};

// A repaint in the making: its operations if they are kept, how many bytes they have, and where they lead.
#[derive(Drop)]
pub(crate) struct Draft {
    pub(crate) ops: Vec<Op>,
    pub(crate) keeps: bool,
    pub(crate) bytes: usize,
    pub(crate) spot: Spot,
    pub(crate) pen: Pen,
}

impl Draft {
    // Counts the operations from index `begun` on, which lead to this spot and pen, and drops them
    // unless they are kept.
    pub(crate) fn count(&mut self, profile: &Profile, begun: usize, spot: Spot, pen: Pen)
        requires { begun ≤ length self.old.ops.items }
        ensures { IsCounted profile.now self.old self.new begun spot pen }
    {
        let price = price_of(profile, &self.ops[begun..]);
        self.bytes = self.bytes.saturating_add(price);
        if !self.keeps {
            self.ops.truncate(begun);
        }
        self.spot = spot;
        self.pen = pen;
    }

    // Counts the characters of a row from the cursor's column to `end`.
    pub(crate) fn count_each(&mut self, scene: &Scene<'_>, row: u32, column: u32, end: u32)
        requires scene { IsScene scene.now }
        requires row { row < scene.now.picture.now.rows }
        requires column { column < end }
        requires end { end ≤ scene.now.picture.now.columns }
        ensures { self.new ≡ record self.old { bytes = counted_up (self.old.bytes + run_bytes scene.now.profile.now scene.now.picture.now row column (end - column)); spot = spot_after scene.now.profile.now.columns row (end - 1) } }
    {
        let size = scene.profile.size();
        let _picture = scene.picture.size();
        self.bytes = self
            .bytes
            .saturating_add(scene.bytes_of_run(row, column, end));
        self.spot = spot_after(row, end - 1, size.columns);
    }

    // Keeps an operation if that is asked for.
    #[inline(always)]
    pub(crate) fn keep(&mut self, op: Op) -> Result<(), NoMemory>
        ensures ops { OnOk result (self.old.keeps ≡ true → self.new.ops.items ≡ self.old.ops.items ++ op ∷ []) }
        ensures left { OnOk result (self.old.keeps ≡ false → self.new.ops.items ≡ self.old.ops.items) }
        ensures keeps { OnOk result (self.new.keeps ≡ self.old.keeps) }
        ensures bytes { OnOk result (self.new.bytes ≡ self.old.bytes) }
        ensures pen { OnOk result (self.new.pen ≡ self.old.pen) }
    {
        if self.keeps {
            self.ops.push(op)?;
        }
        Ok(())
    }
}
