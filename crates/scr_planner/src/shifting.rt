//! Shifts of rows, as they are sent: lines are deleted and inserted, or the screen scrolls.

use crate::drafts::Draft;
use crate::rows::RowChange;
use crate::scenes::{Scene, Update};
use crate::scrolls::is_scrolled;
use crate::shifts::{Shift, cheapest_shift};
use scr_cells::NoMemory;
use scr_term::{Op, Profile};
use std::alloc::Global;

impl Draft {
    // Shifts rows, if one shift saves enough.
    pub(crate) fn shift(
        &mut self,
        alloc: Global,
        update: &Update<'_>,
        changes: &[RowChange],
    ) -> Result<Option<Shift>, NoMemory> {
        let scene = &update.scene;
        let Some(shift) = cheapest_shift(alloc, update, &self.cursor(), changes)? else {
            return Ok(None);
        };
        let height = shift.end.saturating_sub(shift.top);
        if shift.count == 0 || shift.count >= height || shift.end > scene.rows {
            return Ok(None);
        }
        if is_scrolled(scene.prices, self.spot, shift, scene.rows)
            && scene.profile.has(scroll_of(shift))
        {
            self.scroll(scene, shift)?;
            return Ok(Some(shift));
        }
        if !can_move(scene.profile, shift) {
            return Ok(None);
        }
        self.shift_rows(scene, shift)?;
        Ok(Some(shift))
    }

    // Shifts all rows by a scroll.
    fn scroll(&mut self, scene: &Scene<'_>, shift: Shift) -> Result<(), NoMemory> {
        let row = if shift.up {
            scene.rows.saturating_sub(1)
        } else {
            0
        };
        self.send_in(scene, row, scroll_of(shift))
    }

    // Shifts rows. Up: lines are deleted at the block's top, and inserted above what is below it, so that nothing but
    // blank lines leaves the screen. Down: lines are deleted above what is below the block, and inserted at its top.
    fn shift_rows(&mut self, scene: &Scene<'_>, shift: Shift) -> Result<(), NoMemory> {
        let inner = shift.end.saturating_sub(shift.count);
        let is_last = shift.end >= scene.rows;
        if shift.up {
            self.send_in(scene, shift.top, Op::DeleteLines(shift.count))?;
            if is_last {
                return Ok(());
            }
            return self.send_in(scene, inner, Op::InsertLines(shift.count));
        }
        if !is_last {
            self.send_in(scene, inner, Op::DeleteLines(shift.count))?;
        }
        self.send_in(scene, shift.top, Op::InsertLines(shift.count))
    }

    // Goes to the first place of a row with a plain pen, and adds an operation there.
    fn send_in(&mut self, scene: &Scene<'_>, row: u32, op: Op) -> Result<(), NoMemory> {
        self.come_to(scene, row, 0)?;
        self.add(op)
    }
}

// Whether the terminal can delete and insert the lines of a shift.
fn can_move(profile: &Profile, shift: Shift) -> bool {
    profile.has(Op::DeleteLines(shift.count)) && profile.has(Op::InsertLines(shift.count))
}

// The scroll of a shift of all rows.
fn scroll_of(shift: Shift) -> Op {
    if shift.up {
        Op::ScrollUp(shift.count)
    } else {
        Op::ScrollDown(shift.count)
    }
}
