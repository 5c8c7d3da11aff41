//! The joined repaint of what differs from what is remembered, and of what differs from a blank
//! screen.
ghost use Rattle.std.specs.Prelude.{◌≡◌, ◌≢◌, ◌≤◌, ◌⊎◌, ◌&&◌, ◌++◌, None, IfOk, IfSome, OnOk, false, filter, length, true};
ghost use Rattle.std.specs.List.{flat_map};
ghost use Rattle.scr_cells.specs.PenViews.{is_plain_pen};
ghost use Rattle.scr_term.specs.declared.operations.capability.Capability.TheVariants.{Sgr0};
ghost use Rattle.scr_term.specs.Operations.Profiles.{abilities, is_there};
ghost use Rattle.scr_term.specs.Operations.States.{IsShownPen};
ghost use Rattle.scr_term.specs.Operations.Texts.{all_bytes};
ghost use Rattle.scr_plan.specs.Code.Joinings.{Continues, CountsAtMost, counted_up, joined_at};
ghost use Rattle.scr_plan.specs.Code.Planning.{AreChanges, IsChange};
ghost use Rattle.scr_plan.specs.Code.Scenes.{IsScene, IsUpdate};
ghost use Rattle.scr_plan.specs.Repaints.{IsSizeOf, anew_of, cleared, differing, differs, is_none_left, joined_of, joined_places};
ghost use Rattle.scr_plan.specs.Scratch.{Fits, places_cursor, resets, row_places};
ghost use Rattle.scr_memory.specs.Memories.{is_known, is_placed};

use crate::drafts::Draft;
use crate::joining::price_of;
use crate::looked::Changes;
use crate::painting::Painter;
use crate::plans::may_be;
use crate::scenes::{Scene, Update};
use scr_cells::{NoMemory, Picture, Size};
use scr_memory::Memory;
use scr_planner::RowChange;
use scr_term::{Op, Ops, Profile, blank_laws, profiles_have, run_laws};
use std::alloc::Global;

// Room for the operations that lead to a place: those of a repaint that is only counted are not kept.
const FEW_OPERATIONS: usize = 16;

impl Draft {
    // Adds what paints each place that differs from what is known of it, then what places the
    // cursor. It stops early once there are more bytes than the limit, if there is one.
    pub(crate) fn join_changes(
        &mut self,
        scene: &Scene<'_>,
        memory: &Memory,
        changes: &[RowChange],
        limit: Option<usize>,
    ) -> Result<(), NoMemory>
        requires scene { IsScene scene.now }
        requires size { IsSizeOf scene.now.picture.now memory.now }
        requires known { is_known memory.now ≡ true }
        requires changes { AreChanges scene.now.profile.now scene.now.picture.now memory.now changes.now scene.now.picture.now.rows }
        ensures all { OnOk result (limit ≡ None → Continues scene.now.profile.now self.old self.new (joined_places scene.now.profile.now scene.now.picture.now memory.now ++ resets scene.now.profile.now ++ places_cursor scene.now.picture.now.wish)) }
        ensures most { OnOk result (CountsAtMost scene.now.profile.now self.old self.new (joined_places scene.now.profile.now scene.now.picture.now memory.now ++ resets scene.now.profile.now ++ places_cursor scene.now.picture.now.wish)) }
    {
        run_laws();
        let _size = scene.picture.size();
        for change in changes {
            if self.is_above(limit) {
                return Ok(());
            }
            self.join_change(scene, memory, change)?;
        }
        self.finish(scene)
    }

    // Whether there are more bytes than a limit, if there is one.
    fn is_above(&self, limit: Option<usize>) -> bool
        ensures { result ≡ true → limit ≢ None }
    {
        match limit {
            Some(limit) => self.bytes > limit,
            None => false,
        }
    }

    // Adds what paints each place of a row that differs from what is known of it.
    fn join_change(
        &mut self,
        scene: &Scene<'_>,
        memory: &Memory,
        change: &RowChange,
    ) -> Result<(), NoMemory>
        requires scene { IsScene scene.now }
        requires size { IsSizeOf scene.now.picture.now memory.now }
        requires known { is_known memory.now ≡ true }
        requires change { IsChange scene.now.profile.now scene.now.picture.now memory.now change.now }
        ensures { OnOk result (Continues scene.now.profile.now self.old self.new (flat_map (joined_at scene.now.profile.now scene.now.picture.now memory.now) (filter (differs scene.now.profile.now scene.now.picture.now memory.now) (row_places scene.now.picture.now.columns change.now.row)))) }
    {
        let _size = scene.picture.size();
        let looks = Some(memory.looks(change.row));
        self.join_row(scene, change.row, looks, change.start, change.end)
    }

    // Adds what paints each place that is not blank, then what places the cursor.
    pub(crate) fn join_all(&mut self, scene: &Scene<'_>) -> Result<(), NoMemory>
        requires scene { IsScene scene.now }
        ensures { OnOk result (Continues scene.now.profile.now self.old self.new (joined_places scene.now.profile.now scene.now.picture.now (cleared scene.now.picture.now) ++ resets scene.now.profile.now ++ places_cursor scene.now.picture.now.wish)) }
    {
        let size = scene.picture.size();
        for row in 0..size.rows {
            self.join_row(scene, row, None, 0, size.columns)?;
        }
        self.finish(scene)
    }

    // Turns attributes off, and moves the cursor to where the picture wants it.
    fn finish(&mut self, scene: &Scene<'_>) -> Result<(), NoMemory>
        requires scene { IsScene scene.now }
        ensures { OnOk result (Continues scene.now.profile.now self.old self.new (resets scene.now.profile.now ++ places_cursor scene.now.picture.now.wish)) }
    {
        let _size = scene.picture.size();
        self.reset(scene)?;
        self.place_cursor(scene, scene.picture.wish())
    }
}

// The number of bytes of what clears the screen, and the joined repaint of it.
pub(crate) fn bytes_anew(alloc: Global, scene: &Scene<'_>) -> Result<usize, NoMemory>
    requires scene { IsScene scene.now }
    ensures { IfOk result (λ bytes. bytes ≤ length (all_bytes scene.now.profile.now (anew_of scene.now.profile.now scene.now.picture.now))) }
{
    run_laws();
    blank_laws();
    profiles_have();
    let _size = scene.profile.size();
    let mut ops = Vec::with_capacity(alloc, FEW_OPERATIONS)?;
    scene.painter.reset(&mut ops)?;
    ops.push(Op::Clear)?;
    let cleared = price_of(scene.profile, &ops);
    let mut joining = Draft::on_blanks(scene.profile, ops, false);
    joining.join_all(scene)?;
    Ok(cleared.saturating_add(joining.bytes))
}

// What clears the screen, and the joined repaint of it.
pub(crate) fn joined_anew(alloc: Global, scene: &Scene<'_>) -> Result<Ops, NoMemory>
    requires scene { IsScene scene.now }
    ensures { IfOk result (λ ops. ops ≡ anew_of scene.now.profile.now scene.now.picture.now) }
{
    let mut ops = Vec::with_capacity(alloc, room_of(scene.picture.size()))?;
    scene.painter.reset(&mut ops)?;
    ops.push(Op::Clear)?;
    let mut joining = Draft::on_blanks(scene.profile, ops, true);
    joining.join_all(scene)?;
    Ok(Ops(joining.ops))
}

// The number of bytes of the joined repaint, and the operations, which are as they were: behind
// them each part of the repaint is counted. If the number is above the limit, it may be any one
// between the two.
#[inline(never)]
pub(crate) fn bytes_of_joined(
    update: &Update<'_>,
    changes: &[RowChange],
    ops: Vec<Op>,
    limit: usize,
) -> Result<(usize, Vec<Op>), NoMemory>
    requires update { IsUpdate update.now }
    requires known { is_known update.now.memory.now ≡ true }
    requires changes { AreChanges update.now.scene.profile.now update.now.wanted.now.picture update.now.memory.now changes.now update.now.wanted.now.picture.rows }
    requires pen { (is_there update.now.scene.profile.now Sgr0 ≡ true) ⊎ (is_plain_pen update.now.memory.now.state.pen ≡ true) }
    requires some { (is_none_left (differing update.now.scene.profile.now update.now.wanted.now.picture update.now.memory.now) && is_placed update.now.memory.now update.now.wanted.now.picture.wish) ≡ false }
    ensures bytes { IfOk result (λ counted. counted.0 ≤ counted_up (length (all_bytes update.now.scene.profile.now (joined_of update.now.scene.profile.now update.now.memory.now update.now.wanted.now.picture)))) }
    ensures ops { IfOk result (λ counted. counted.1.items ≡ ops.items) }
{
    let mut joining = Draft::on_remembered(&update.scene, update.memory, ops, false)?;
    joining.join_changes(&update.scene, update.memory, changes, Some(limit))?;
    Ok((joining.bytes, joining.ops))
}

/// The joined repaint, which brings a terminal to a picture: what paints each place that differs from what is
/// remembered, row by row. A plan that paints only what differs has no more bytes (curs_refresh(3X), doupdate()).
///
/// - If the left neighbour of a place differs too and is seen with the same pen, the place is its character alone.
/// - The rest of a line is erased if that takes no more bytes than places differ there.
/// - Operations that change nothing are left out.
/// - There are no operations if no place differs and the cursor is where it is wanted.
///
/// `None` if not all is known of the terminal, or if the profile's terminal cannot have the remembered pen. Picture and
/// memory have the profile's size. Fails only when memory runs out.
pub fn joined(
    alloc: Global,
    profile: &Profile,
    memory: &Memory,
    picture: &Picture,
) -> Result<Option<Ops>, NoMemory>
    requires fits { Fits profile.now picture.now }
    requires size { IsSizeOf picture.now memory.now }
    ensures ops { IfOk result (λ found. IfSome found (λ ops. ops ≡ joined_of profile.now memory.now picture.now)) }
    ensures none { IfOk result (λ found. found ≡ None → (is_known memory.now ≡ false) ⊎ (IsShownPen (abilities profile.now) memory.now.state.pen → ⊥)) }
{
    profiles_have();
    let _profile = profile.size();
    let _memory = memory.size();
    let _picture = picture.size();
    if !memory.known() || !may_be(profile, memory) {
        return Ok(None);
    }
    let scene = Scene {
        painter: Painter::of(profile),
        profile,
        picture,
    };
    Ok(Some(joined_on(alloc, &scene, memory)?))
}

// The joined repaint of a scene, where all is known.
pub(crate) fn joined_on(alloc: Global, scene: &Scene<'_>, memory: &Memory) -> Result<Ops, NoMemory>
    requires scene { IsScene scene.now }
    requires size { IsSizeOf scene.now.picture.now memory.now }
    requires known { is_known memory.now ≡ true }
    requires pen { (is_there scene.now.profile.now Sgr0 ≡ true) ⊎ (is_plain_pen memory.now.state.pen ≡ true) }
    ensures { IfOk result (λ ops. ops ≡ joined_of scene.now.profile.now memory.now scene.now.picture.now) }
{
    profiles_have();
    let _profile = scene.profile.size();
    let _memory = memory.size();
    let _picture = scene.picture.size();
    let mut changes = Changes::new(alloc);
    scene.find_all(memory, &mut changes)?;
    if is_shown(scene, memory, changes.as_slice()) {
        return Ok(Ops(Vec::new(alloc)));
    }
    joined_from(alloc, scene, memory, changes.as_slice())
}

// Whether no row differs, and the cursor is where it is wanted.
fn is_shown(scene: &Scene<'_>, memory: &Memory, changes: &[RowChange]) -> bool
    requires changes { AreChanges scene.now.profile.now scene.now.picture.now memory.now changes.now scene.now.picture.now.rows }
    ensures { result ≡ (is_none_left (differing scene.now.profile.now scene.now.picture.now memory.now) && is_placed memory.now scene.now.picture.now.wish) }
{
    changes.is_empty() && memory.is_placed(scene.picture.wish())
}

// The joined repaint of an update, where something has to be done.
#[inline(never)]
pub(crate) fn joined_by(
    alloc: Global,
    update: &Update<'_>,
    changes: &[RowChange],
) -> Result<Ops, NoMemory>
    requires update { IsUpdate update.now }
    requires known { is_known update.now.memory.now ≡ true }
    requires changes { AreChanges update.now.scene.profile.now update.now.wanted.now.picture update.now.memory.now changes.now update.now.wanted.now.picture.rows }
    requires pen { (is_there update.now.scene.profile.now Sgr0 ≡ true) ⊎ (is_plain_pen update.now.memory.now.state.pen ≡ true) }
    requires some { (is_none_left (differing update.now.scene.profile.now update.now.wanted.now.picture update.now.memory.now) && is_placed update.now.memory.now update.now.wanted.now.picture.wish) ≡ false }
    ensures { IfOk result (λ ops. ops ≡ joined_of update.now.scene.profile.now update.now.memory.now update.now.wanted.now.picture) }
{
    joined_from(alloc, &update.scene, update.memory, changes)
}

// The joined repaint of a scene, where something has to be done.
fn joined_from(
    alloc: Global,
    scene: &Scene<'_>,
    memory: &Memory,
    changes: &[RowChange],
) -> Result<Ops, NoMemory>
    requires scene { IsScene scene.now }
    requires size { IsSizeOf scene.now.picture.now memory.now }
    requires known { is_known memory.now ≡ true }
    requires changes { AreChanges scene.now.profile.now scene.now.picture.now memory.now changes.now scene.now.picture.now.rows }
    requires pen { (is_there scene.now.profile.now Sgr0 ≡ true) ⊎ (is_plain_pen memory.now.state.pen ≡ true) }
    requires some { (is_none_left (differing scene.now.profile.now scene.now.picture.now memory.now) && is_placed memory.now scene.now.picture.now.wish) ≡ false }
    ensures { IfOk result (λ ops. ops ≡ joined_of scene.now.profile.now memory.now scene.now.picture.now) }
{
    let ops = Vec::with_capacity(alloc, room_of(scene.picture.size()))?;
    let mut joining = Draft::on_remembered(scene, memory, ops, true)?;
    joining.join_changes(scene, memory, changes, None)?;
    Ok(Ops(joining.ops))
}

// Room for the operations that a line usually takes: its characters, and what leads to them. With
// it the lists of most updates do not grow.
pub(crate) fn room_of(size: Size) -> usize {
    size.columns as usize + 12
}
