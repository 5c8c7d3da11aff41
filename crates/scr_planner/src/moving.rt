//! Moving what is on the screen already: a shift of rows, then slides of rows' characters, and the runs of what they
//! leave to be painted.

use crate::cuts::{FEW_RUNS, Runs};
use crate::drafts::Draft;
use crate::rows::RowChange;
use crate::samples::Worth;
use crate::scenes::Update;
use crate::shifts::{Shift, can_shift_some};
use scr_cells::NoMemory;
use std::alloc::Global;

impl Draft {
    // Moves rows and characters that the screen shows elsewhere, if that is worth it. Returns the runs of what differs
    // then.
    pub(crate) fn move_what_stays(
        &mut self,
        alloc: Global,
        update: &Update<'_>,
        changes: &[RowChange],
    ) -> Result<Runs, NoMemory> {
        let mut runs = Runs::new(alloc);
        if changes.len() > FEW_RUNS {
            runs.reserve(changes.len())?;
        }
        let shift = self.shift_if_worth(alloc, update, changes, &mut runs)?;
        self.slide_rows(alloc, update, shift, &mut runs)?;
        Ok(runs)
    }

    // Shifts rows, if that is worth it, and finds the runs of what differs then.
    fn shift_if_worth(
        &mut self,
        alloc: Global,
        update: &Update<'_>,
        changes: &[RowChange],
        runs: &mut Runs,
    ) -> Result<Option<Shift>, NoMemory> {
        let Some(found) = update.find_until_worth(changes, runs)? else {
            return Ok(None);
        };
        let shift = self.shift(alloc, update, changes)?;
        match shift {
            Some(shift) => {
                runs.clear();
                update.find_shifted(shift, changes, runs)?;
            }
            None => update.find_in_each(changes.get(found..).unwrap_or(&[]), runs)?,
        }
        Ok(shift)
    }
}

impl Update<'_> {
    // Finds the runs of rows that differ from the top, until they cost so much that a search for rows that moved is
    // worth it. Returns of how many rows; `None` where no search is, and the runs of all rows are found.
    fn find_until_worth(
        &self,
        changes: &[RowChange],
        runs: &mut Runs,
    ) -> Result<Option<usize>, NoMemory> {
        if changes.len() < 2 || !can_shift_some(self.scene.prices) {
            self.find_in_each(changes, runs)?;
            return Ok(None);
        }
        let mut worth = Worth::of(&self.scene);
        let mut found = 0usize;
        for change in changes {
            self.find_in(change, runs)?;
            found = found.saturating_add(1);
            if worth.add_row(runs.as_slice()) {
                return Ok(Some(found));
            }
        }
        Ok(None)
    }

    // Finds the runs of what differs once rows were shifted.
    fn find_shifted(
        &self,
        shift: Shift,
        changes: &[RowChange],
        runs: &mut Runs,
    ) -> Result<(), NoMemory> {
        for change in changes {
            if change.row < shift.top {
                self.find_in(change, runs)?;
            }
        }
        for row in shift.top..shift.end {
            let looks = self.shown_row(Some(shift), row);
            self.scene
                .add_row(row, looks, (0, self.scene.columns), runs)?;
        }
        for change in changes {
            if change.row >= shift.end {
                self.find_in(change, runs)?;
            }
        }
        Ok(())
    }

    // Finds the runs of rows that differ.
    fn find_in_each(&self, changes: &[RowChange], runs: &mut Runs) -> Result<(), NoMemory> {
        for change in changes {
            self.find_in(change, runs)?;
        }
        Ok(())
    }

    // Finds the runs of a row that differs.
    fn find_in(&self, change: &RowChange, runs: &mut Runs) -> Result<(), NoMemory> {
        let looks = Some(self.looks(change.row));
        self.scene
            .add_from(change.row, looks, (change.start, change.end), runs)
    }
}
