//! Which columns of the rows that are known an update looks at, and which rows differ there.
ghost use Rattle.std.specs.Prelude.{◌≡◌, ◌<◌, ◌≤◌, [], IfSome, None, OnOk, true};
ghost use Rattle.scr_virtual.specs.Ranges.{IsRange};
ghost use Rattle.scr_memory.specs.Memories.{is_known, is_known_row};
ghost use Rattle.scr_plan.specs.Code.Planning.{AreChanges, AreNoneByOutside, IsChange, IsSameRow, range_by};
ghost use Rattle.scr_plan.specs.Code.Scenes.{IsScene, IsUpdate};
ghost use Rattle.scr_plan.specs.Repaints.{IsSizeOf};

use crate::scenes::{Scene, Update};
use scr_cells::NoMemory;
use scr_memory::Memory;
use scr_planner::RowChange;
use scr_virtual::Virtual;
use smallvec::SmallVec;

// Which columns of a known row are looked at.
#[derive(Clone, Copy)]
pub(crate) enum Looked {
    // The columns that may have changed.
    Changed,
    // The columns that may look different.
    Altered,
}

impl Looked {
    // The first and the last of these columns in a row; `None` if there are none.
    pub(crate) fn in_row(self, wanted: &Virtual, row: u32) -> Option<(u32, u32)>
        requires { row < wanted.now.picture.rows }
        ensures value { result ≡ range_by self wanted.now row }
        ensures inside { IfSome result (IsRange wanted.now.picture.columns) }
    {
        match self {
            Looked::Changed => wanted.changed(row),
            Looked::Altered => wanted.altered(row),
        }
    }

    // The first row that has any of these columns, and the end of the rows that do.
    pub(crate) fn rows(self, wanted: &Virtual) -> (u32, u32)
        ensures order { result.0 ≤ result.1 }
        ensures end { result.1 ≤ wanted.now.picture.rows }
        ensures others { AreNoneByOutside self wanted.now result.0 result.1 }
    {
        match self {
            Looked::Changed => (0, wanted.size().rows),
            Looked::Altered => wanted.altered_rows(),
        }
    }
}

// The rows that differ, from the top: as many as a usual update has take no allocation.
pub(crate) type Changes = SmallVec<RowChange, FEW_ROWS>;

// How many rows differ in a usual update.
const FEW_ROWS: usize = 4;

impl Scene<'_> {
    // Finds the rows that differ from what is remembered, whatever may have changed.
    pub(crate) fn find_all(&self, memory: &Memory, changes: &mut Changes) -> Result<(), NoMemory>
        requires scene { IsScene self.now }
        requires size { IsSizeOf self.now.picture.now memory.now }
        requires known { is_known memory.now ≡ true }
        requires none { changes.old.items ≡ [] }
        ensures { OnOk result (AreChanges self.now.profile.now self.now.picture.now memory.now changes.new.items self.now.picture.now.rows) }
    {
        let size = self.picture.size();
        for row in 0..size.rows {
            if let Some(change) = self.change_of(memory, row) {
                changes.push(change)?;
            }
        }
        Ok(())
    }

    // How a row differs from what is known of it, if it does.
    fn change_of(&self, memory: &Memory, row: u32) -> Option<RowChange>
        requires scene { IsScene self.now }
        requires size { IsSizeOf self.now.picture.now memory.now }
        requires row { row < self.now.picture.now.rows }
        requires known { is_known_row memory.now row ≡ true }
        ensures none { result ≡ None → IsSameRow self.now.profile.now self.now.picture.now memory.now row }
        ensures row { IfSome result (λ change. change.row ≡ row) }
        ensures some { IfSome result (IsChange self.now.profile.now self.now.picture.now memory.now) }
    {
        let end = self.picture.size().columns;
        let line = self.line(row, Some(memory.looks(row)));
        let start = self.unlike_from(&line, 0, end);
        if start < end {
            Some(RowChange { row, start, end })
        } else {
            None
        }
    }
}

impl Update<'_> {
    // Finds the rows that differ from what is remembered.
    pub(crate) fn find_changes(&self, changes: &mut Changes) -> Result<(), NoMemory>
        requires update { IsUpdate self.now }
        requires known { is_known self.now.memory.now ≡ true }
        requires none { changes.old.items ≡ [] }
        ensures { OnOk result (AreChanges self.now.scene.profile.now self.now.wanted.now.picture self.now.memory.now changes.new.items self.now.wanted.now.picture.rows) }
    {
        let _size = self.wanted.size();
        let (first, end) = self.by.rows(self.wanted);
        for row in first..end {
            if let Some(change) = self.change_in(row) {
                changes.push(change)?;
            }
        }
        Ok(())
    }

    // How a row differs from what is known of it, if it does.
    fn change_in(&self, row: u32) -> Option<RowChange>
        requires update { IsUpdate self.now }
        requires row { row < self.now.wanted.now.picture.rows }
        requires known { is_known_row self.now.memory.now row ≡ true }
        ensures none { result ≡ None → IsSameRow self.now.scene.profile.now self.now.wanted.now.picture self.now.memory.now row }
        ensures row { IfSome result (λ change. change.row ≡ row) }
        ensures some { IfSome result (IsChange self.now.scene.profile.now self.now.wanted.now.picture self.now.memory.now) }
    {
        let _size = self.wanted.size();
        let (from, last) = self.by.in_row(self.wanted, row)?;
        let line = self.scene.line(row, Some(self.memory.looks(row)));
        let end = last + 1;
        let start = self.scene.unlike_from(&line, from, end);
        if start >= end {
            return None;
        }
        Some(RowChange { row, start, end })
    }
}
