//! Comparing what a tried plan leads to with the picture: in the columns that are marked, and for the cursor.
ghost use Rattle.std.specs.Prelude.{ℕ, ◌≡◌, ◌+◌, ◌-◌, ◌^◌, ◌<◌, ◌≤◌, ◌==◌, ◌&&◌, All, IfSome, OnErr, OnOk, false, length, true};
ghost use Rattle.scr_cells.specs.Grids.{grid_at};
ghost use Rattle.scr_cells.specs.LookViews.{blank};
ghost use Rattle.scr_memory.specs.Memories.{is_known};
ghost use Rattle.scr_plan.specs.Checks.{IsAlike, IsUnlike, IsWithin, MissesSome, ShowsMarked, ShowsMarkedIn, ShowsUnmarked};
ghost use Rattle.scr_plan.specs.Code.Planning.{range_by};
ghost use Rattle.scr_plan.specs.Code.Scenes.{IsScene, IsUpdate};
ghost use Rattle.scr_plan.specs.Scratch.{look_at};
ghost use Rattle.scr_term.specs.declared.operations.operation.Spot.TheVariants.{At};
ghost use Rattle.scr_term.specs.Operations.Texts.{all_bytes, has};
ghost use Rattle.scr_terminal.specs.Marks.{HasAdded};
ghost use Rattle.scr_virtual.specs.Ranges.{in_range};

use crate::checking::NotAPlan;
use crate::joining::price_of;
use crate::scenes::{Scene, Update};
use scr_memory::{Memory, Spare};
use scr_term::{Op, Profile, Spot};

impl Update<'_> {
    // Marks the columns that are looked at.
    pub(crate) fn mark_changes(&self, spare: &mut Spare)
        requires update { IsUpdate self.now }
        requires known { is_known self.now.memory.now ≡ true }
        requires rows { spare.old.memory.rows ≡ self.now.memory.now.rows }
        requires columns { spare.old.memory.columns ≡ self.now.memory.now.columns }
        ensures memory { spare.new.memory ≡ spare.old.memory }
        ensures shown { ShowsUnmarked self.now.scene.profile.now self.now.memory.now self.now.wanted.now spare.new.marks }
    {
        let _wanted = self.wanted.size();
        let _memory = self.memory.size();
        let _spare = spare.memory();
        let (first, end) = self.by.rows(self.wanted);
        for row in first..end {
            self.mark_row(spare, row);
        }
    }

    // Marks the columns of a row that are looked at.
    fn mark_row(&self, spare: &mut Spare, row: u32)
        requires row { row < self.now.wanted.now.picture.rows }
        requires rows { spare.old.memory.rows ≡ self.now.wanted.now.picture.rows }
        requires columns { spare.old.memory.columns ≡ self.now.wanted.now.picture.columns }
        ensures memory { spare.new.memory ≡ spare.old.memory }
        ensures high { spare.new.marks.rows ≡ spare.old.marks.rows }
        ensures marks { HasAdded (λ r c. r == row && in_range (range_by self.now.by self.now.wanted.now row) c) spare.old.marks spare.new.marks }
    {
        let _wanted = self.wanted.size();
        let _before = spare.memory();
        match self.by.in_row(self.wanted, row) {
            Some((from, last)) => spare.mark(row, from, last + 1),
            None => {}
        }
        let _after = spare.memory();
    }
}

impl Scene<'_> {
    // Compares what was tried with the picture, in marked places and for the cursor, and the bytes with the bound.
    pub(crate) fn compare(
        &self,
        spare: &Spare,
        ops: &[Op],
        bound: usize,
        is_counted: bool,
    ) -> Result<(), NotAPlan>
        requires scene { IsScene self.now }
        requires counted { IsWithin self.now.profile.now ops.now bound is_counted }
        requires rows { spare.now.memory.rows ≡ self.now.picture.now.rows }
        requires columns { spare.now.memory.columns ≡ self.now.picture.now.columns }
        ensures alike { OnOk result (IsAlike self.now.profile.now self.now.picture.now bound ops.now spare.now) }
        ensures unlike { OnErr result (IsUnlike self.now.profile.now self.now.picture.now bound ops.now spare.now) }
    {
        if !is_within(self.profile, ops, bound, is_counted) {
            return Err(NotAPlan::Dear);
        }
        if !self.is_shown_by(spare) {
            return Err(NotAPlan::Unlike);
        }
        if !self.is_placed_by(spare) {
            return Err(NotAPlan::Unlike);
        }
        Ok(())
    }

    // Whether what was tried shows the picture in each marked place.
    fn is_shown_by(&self, spare: &Spare) -> bool
        requires scene { IsScene self.now }
        requires rows { spare.now.memory.rows ≡ self.now.picture.now.rows }
        requires columns { spare.now.memory.columns ≡ self.now.picture.now.columns }
        ensures yes { result ≡ true → ShowsMarked self.now.profile.now spare.now self.now.picture.now }
        ensures no { result ≡ false → MissesSome self.now.profile.now spare.now self.now.picture.now }
    {
        let _picture = self.picture.size();
        let (first, end) = spare.marked_rows();
        for row in first..end {
            if !self.is_marked_shown(spare, row) {
                return false;
            }
        }
        true
    }

    // Whether what was tried shows the picture in the marked columns of a row.
    fn is_marked_shown(&self, spare: &Spare, row: u32) -> bool
        requires scene { IsScene self.now }
        requires rows { spare.now.memory.rows ≡ self.now.picture.now.rows }
        requires columns { spare.now.memory.columns ≡ self.now.picture.now.columns }
        requires row { row < self.now.picture.now.rows }
        ensures yes { result ≡ true → ShowsMarkedIn self.now.profile.now spare.now self.now.picture.now row }
        ensures no { result ≡ false → MissesSome self.now.profile.now spare.now self.now.picture.now }
    {
        let (from, end) = spare.marked_columns(row);
        if from >= end {
            return true;
        }
        self.is_part_shown(spare.memory(), row, from, end)
    }

    // Whether columns `from..end` of a row show the picture.
    fn is_part_shown(&self, tried: &Memory, row: u32, from: u32, end: u32) -> bool
        requires scene { IsScene self.now }
        requires rows { tried.now.rows ≡ self.now.picture.now.rows }
        requires columns { tried.now.columns ≡ self.now.picture.now.columns }
        requires row { row < self.now.picture.now.rows }
        requires from { from ≤ end }
        requires end { end ≤ self.now.picture.now.columns }
        ensures yes { result ≡ true → (c : ℕ) → from ≤ c → c < end → grid_at blank tried.now.state.grid row c ≡ look_at self.now.profile.now self.now.picture.now (row, c) }
        ensures no { result ≡ false → (c : ℕ) × (c < self.now.picture.now.columns) × (grid_at blank tried.now.state.grid row c ≡ look_at self.now.profile.now self.now.picture.now (row, c) → ⊥) }
    {
        let line = self.line(row, Some(tried.looks(row)));
        self.unlike_from(&line, from, end) >= end
    }

    // Whether the cursor is where it is wanted.
    fn is_placed_by(&self, spare: &Spare) -> bool
        ensures yes { result ≡ true → IfSome self.now.picture.now.wish (λ wish. spare.now.memory.state.spot ≡ At wish.0 wish.1) }
        ensures no { result ≡ false → IfSome self.now.picture.now.wish (λ wish. spare.now.memory.state.spot ≡ At wish.0 wish.1) → ⊥ }
    {
        match self.picture.wish() {
            Some((row, column)) => spare.memory().remembered_spot() == Spot::At(row, column),
            None => true,
        }
    }
}

// Whether operations have no more bytes than a bound, where the terminal has them all; they are counted unless that was
// done before.
fn is_within(profile: &Profile, ops: &[Op], bound: usize, is_counted: bool) -> bool
    requires counted { IsWithin profile.now ops.now bound is_counted }
    ensures yes { result ≡ true → All (λ op. has profile.now op ≡ true) ops.now → length (all_bytes profile.now ops.now) ≤ bound }
    ensures no { result ≡ false → bound < 2 ^ 64 - 1 → All (λ op. has profile.now op ≡ true) ops.now → length (all_bytes profile.now ops.now) ≤ bound → ⊥ }
{
    is_counted || bound < usize::MAX && price_of(profile, ops) <= bound
}
