//! Plans that are checked on a spare terminal before they are sent. The definitions are in `specs/Checks.antt`.
ghost use Rattle.std.specs.Prelude.{◌≡◌, ◌<◌, ◌≤◌, ◌-◌, ◌^◌, ◌&&◌, not, IfErr, IfOk, false, true};
ghost use Rattle.scr_term.specs.Operations.Profiles.{abilities};
ghost use Rattle.scr_term.specs.Operations.States.{IsShownPen};
ghost use Rattle.scr_memory.specs.Memories.{is_known, is_placed};
ghost use Rattle.scr_memory.specs.Spares.{IsReady};
ghost use Rattle.scr_plan.specs.Checks.{IsAhead, IsLed};
ghost use Rattle.scr_plan.specs.Code.Planning.{AreChanges};
ghost use Rattle.scr_plan.specs.Code.Scenes.{IsUpdate};
ghost use Rattle.scr_plan.specs.Plans.{IsPlan};
ghost use Rattle.scr_plan.specs.Repaints.{IsSizeOf, IsUpToDate, differing, is_none_left};
ghost use Rattle.scr_plan.specs.Scratch.{Fits};

use crate::joined_changes::{bytes_anew, bytes_of_joined, joined_by};
use crate::joining::price_of;
use crate::looked::{Changes, Looked};
use crate::painting::Painter;
use crate::plan_laws::{joined_is_cheap, plans_are_made};
use crate::plans::{sure_anew, wants_changes_alone};
use crate::scenes::{Scene, Update};
use scr_cells::{Look, NoMemory, grid_laws};
use scr_memory::{Memory, Spare, known_memories, memory_runs, spare_laws};
use scr_planner::{RowChange, short_anew, short_changes, short_partly};
use scr_term::{Op, Ops, Profile, profiles_have, run_laws};
use scr_virtual::Virtual;
use std::alloc::Global;

/// Plans an update like `plan_altered`, and tries the plan on a spare, which shows what is remembered. Where all is
/// known, the short plan is sent only if the check lets it through, otherwise the joined repaint. The spare is ahead by
/// the plan then, so that `Memory::take` follows it by copying what changed; if there are no operations, it is as it
/// was. If memory runs out, it shows what is remembered.
///
/// Picture, memory and spare have the profile's size, the profile's terminal can have the remembered pen, and a known
/// row shows the picture except in the columns that may look different. Fails only when memory runs out.
pub fn plan_checked(
    alloc: Global,
    profile: &Profile,
    memory: &Memory,
    wanted: &Virtual,
    spare: &mut Spare,
) -> Result<Ops, NoMemory>
    requires fits { Fits profile.now wanted.now.picture }
    requires size { IsSizeOf wanted.now.picture memory.now }
    requires same { IsUpToDate profile.now memory.now wanted.now }
    requires pen { IsShownPen (abilities profile.now) memory.now.state.pen }
    requires ready { IsReady memory.now spare.old }
    ensures plan { IfOk result (IsPlan profile.now memory.now wanted.now) }
    ensures led { IfOk result (λ ops. IsLed profile.now memory.now ops spare.new) }
    ensures back { IfErr result (λ _. IsReady memory.now spare.new) }
{
    let _profile = profile.size();
    let _wanted = wanted.size();
    let _memory = memory.size();
    let scene = Scene {
        painter: Painter::of(profile),
        profile,
        picture: wanted.picture(),
    };
    let update = Update {
        scene,
        memory,
        wanted,
        by: Looked::Altered,
    };
    checked(alloc, &update, spare)
}

// The plan of an update, tried on the spare, which is ahead by it then.
pub(crate) fn checked(
    alloc: Global,
    update: &Update<'_>,
    spare: &mut Spare,
) -> Result<Ops, NoMemory>
    requires update { IsUpdate update.now }
    requires pen { IsShownPen (abilities update.now.scene.profile.now) update.now.memory.now.state.pen }
    requires ready { IsReady update.now.memory.now spare.old }
    ensures plan { IfOk result (IsPlan update.now.scene.profile.now update.now.memory.now update.now.wanted.now) }
    ensures led { IfOk result (λ ops. IsLed update.now.scene.profile.now update.now.memory.now ops spare.new) }
    ensures back { IfErr result (λ _. IsReady update.now.memory.now spare.new) }
{
    if wants_changes_alone(update.memory, update.wanted) {
        return changes_checked(alloc, update, spare);
    }
    anew_checked(alloc, update, spare)
}

// The plan where all is known: nothing, or what paints the rows that differ.
fn changes_checked(alloc: Global, update: &Update<'_>, spare: &mut Spare) -> Result<Ops, NoMemory>
    requires update { IsUpdate update.now }
    requires due { (is_known update.now.memory.now && not update.now.wanted.now.repaint) ≡ true }
    requires known { is_known update.now.memory.now ≡ true }
    requires pen { IsShownPen (abilities update.now.scene.profile.now) update.now.memory.now.state.pen }
    requires ready { IsReady update.now.memory.now spare.old }
    ensures plan { IfOk result (IsPlan update.now.scene.profile.now update.now.memory.now update.now.wanted.now) }
    ensures led { IfOk result (λ ops. IsLed update.now.scene.profile.now update.now.memory.now ops spare.new) }
    ensures back { IfErr result (λ _. IsReady update.now.memory.now spare.new) }
{
    plans_are_made();
    joined_is_cheap();
    let _profile = update.scene.profile.size();
    let _memory = update.memory.size();
    let _wanted = update.wanted.size();
    let mut changes = Changes::new(alloc);
    update.find_changes(&mut changes)?;
    if is_nothing_left(update, changes.as_slice()) {
        return Ok(Ops(Vec::new(alloc)));
    }
    paint_checked(alloc, update, changes.as_slice(), spare)
}

// Paints the rows that differ by the short plan, if the check lets it through, or by the joined repaint.
fn paint_checked(
    alloc: Global,
    update: &Update<'_>,
    changes: &[RowChange],
    spare: &mut Spare,
) -> Result<Ops, NoMemory>
    requires update { IsUpdate update.now }
    requires due { (is_known update.now.memory.now && not update.now.wanted.now.repaint) ≡ true }
    requires known { is_known update.now.memory.now ≡ true }
    requires changes { AreChanges update.now.scene.profile.now update.now.wanted.now.picture update.now.memory.now changes.now update.now.wanted.now.picture.rows }
    requires some { (is_none_left (differing update.now.scene.profile.now update.now.wanted.now.picture update.now.memory.now) && is_placed update.now.memory.now update.now.wanted.now.picture.wish) ≡ false }
    requires pen { IsShownPen (abilities update.now.scene.profile.now) update.now.memory.now.state.pen }
    requires ready { IsReady update.now.memory.now spare.old }
    ensures plan { IfOk result (IsPlan update.now.scene.profile.now update.now.memory.now update.now.wanted.now) }
    ensures led { IfOk result (λ ops. IsLed update.now.scene.profile.now update.now.memory.now ops spare.new) }
    ensures back { IfErr result (λ _. IsReady update.now.memory.now spare.new) }
{
    profiles_have();
    let _profile = update.scene.profile.size();
    let _memory = update.memory.size();
    let _wanted = update.wanted.size();
    let scene = &update.scene;
    let short = short_changes(alloc, scene.profile, update.memory, scene.picture, changes)?;
    let count = price_of(scene.profile, &short.0);
    let (bytes, ops) = bytes_of_joined(update, changes, short.0, count)?;
    if is_worth(count, bytes) && update.check(spare, &ops, bytes, true).is_ok() {
        return Ok(Ops(ops));
    }
    joined_led(alloc, update, changes, spare)
}

// The joined repaint, with the spare ahead by it.
#[inline(never)]
fn joined_led(
    alloc: Global,
    update: &Update<'_>,
    changes: &[RowChange],
    spare: &mut Spare,
) -> Result<Ops, NoMemory>
    requires update { IsUpdate update.now }
    requires due { (is_known update.now.memory.now && not update.now.wanted.now.repaint) ≡ true }
    requires known { is_known update.now.memory.now ≡ true }
    requires changes { AreChanges update.now.scene.profile.now update.now.wanted.now.picture update.now.memory.now changes.now update.now.wanted.now.picture.rows }
    requires some { (is_none_left (differing update.now.scene.profile.now update.now.wanted.now.picture update.now.memory.now) && is_placed update.now.memory.now update.now.wanted.now.picture.wish) ≡ false }
    requires pen { IsShownPen (abilities update.now.scene.profile.now) update.now.memory.now.state.pen }
    requires ready { IsReady update.now.memory.now spare.old }
    ensures plan { IfOk result (IsPlan update.now.scene.profile.now update.now.memory.now update.now.wanted.now) }
    ensures led { IfOk result (λ ops. IsLed update.now.scene.profile.now update.now.memory.now ops spare.new) }
    ensures back { IfErr result (λ _. IsReady update.now.memory.now spare.new) }
{
    plans_are_made();
    joined_is_cheap();
    known_memories();
    profiles_have();
    grid_laws::<Look>();
    let _profile = update.scene.profile.size();
    let _memory = update.memory.size();
    let _wanted = update.wanted.size();
    let ops = joined_by(alloc, update, changes)?;
    update.lead(spare, &ops.0);
    Ok(ops)
}

// The plan if not all is known, or the whole screen is to be painted anew: a short plan, if the check lets it through,
// or what clears the screen and the joined repaint of it.
#[inline(never)]
fn anew_checked(alloc: Global, update: &Update<'_>, spare: &mut Spare) -> Result<Ops, NoMemory>
    requires update { IsUpdate update.now }
    requires due { (is_known update.now.memory.now && not update.now.wanted.now.repaint) ≡ false }
    requires pen { IsShownPen (abilities update.now.scene.profile.now) update.now.memory.now.state.pen }
    requires ready { IsReady update.now.memory.now spare.old }
    ensures plan { IfOk result (IsPlan update.now.scene.profile.now update.now.memory.now update.now.wanted.now) }
    ensures led { IfOk result (λ ops. IsLed update.now.scene.profile.now update.now.memory.now ops spare.new) }
    ensures back { IfErr result (λ _. IsReady update.now.memory.now spare.new) }
{
    joined_is_cheap();
    let _profile = update.scene.profile.size();
    let _memory = update.memory.size();
    let _wanted = update.wanted.size();
    let bytes = bytes_anew(alloc, &update.scene)?;
    let short = short_if_unknown(alloc, update, bytes)?;
    let count = price_of(update.scene.profile, &short.0);
    if is_worth(count, bytes) && update.check(spare, &short.0, bytes, true).is_ok() {
        return Ok(short);
    }
    anew_led(alloc, update, spare)
}

// A short plan if not all is known, or the whole screen is to be painted anew: that of a cleared screen, or one that
// leaves the rows that are known, if it has no more bytes than that, and than so many.
fn short_if_unknown(alloc: Global, update: &Update<'_>, most: usize) -> Result<Ops, NoMemory> {
    let (profile, picture) = (update.scene.profile, update.scene.picture);
    let whole = short_anew(alloc, profile, picture)?;
    if update.wanted.repaint() {
        return Ok(whole);
    }
    match short_partly(alloc, profile, update.memory, picture)? {
        Some(part) if price_of(profile, &part.0) <= price_of(profile, &whole.0).min(most) => {
            Ok(part)
        }
        _ => Ok(whole),
    }
}

// What clears the screen, and the joined repaint of it, with the spare ahead by them.
#[inline(never)]
fn anew_led(alloc: Global, update: &Update<'_>, spare: &mut Spare) -> Result<Ops, NoMemory>
    requires update { IsUpdate update.now }
    requires due { (is_known update.now.memory.now && not update.now.wanted.now.repaint) ≡ false }
    requires pen { IsShownPen (abilities update.now.scene.profile.now) update.now.memory.now.state.pen }
    requires ready { IsReady update.now.memory.now spare.old }
    ensures plan { IfOk result (IsPlan update.now.scene.profile.now update.now.memory.now update.now.wanted.now) }
    ensures led { IfOk result (λ ops. IsLed update.now.scene.profile.now update.now.memory.now ops spare.new) }
    ensures back { IfErr result (λ _. IsReady update.now.memory.now spare.new) }
{
    let ops = sure_anew(alloc, update)?;
    update.lead(spare, &ops.0);
    Ok(ops)
}

// Whether so many bytes are no more than others, and these were counted exactly.
fn is_worth(count: usize, bytes: usize) -> bool
    ensures less { result ≡ true → count ≤ bytes }
    ensures exact { result ≡ true → bytes < 2 ^ 64 - 1 }
{
    count <= bytes && bytes < usize::MAX
}

// Whether no row differs, and the cursor is where it is wanted.
fn is_nothing_left(update: &Update<'_>, changes: &[RowChange]) -> bool
    requires changes { AreChanges update.now.scene.profile.now update.now.wanted.now.picture update.now.memory.now changes.now update.now.wanted.now.picture.rows }
    ensures { result ≡ (is_none_left (differing update.now.scene.profile.now update.now.wanted.now.picture update.now.memory.now) && is_placed update.now.memory.now update.now.wanted.now.picture.wish) }
{
    let _wanted = update.wanted.size();
    let _memory = update.memory.size();
    changes.is_empty() && update.memory.is_placed(update.wanted.picture().wish())
}

impl Update<'_> {
    // Leads the spare ahead by a plan.
    fn lead(&self, spare: &mut Spare, ops: &[Op])
        requires update { IsUpdate self.now }
        requires plan { IsPlan self.now.scene.profile.now self.now.memory.now self.now.wanted.now ops.now }
        requires pen { IsShownPen (abilities self.now.scene.profile.now) self.now.memory.now.state.pen }
        requires ready { IsReady self.now.memory.now spare.old }
        ensures { IsAhead self.now.scene.profile.now self.now.memory.now ops.now spare.new }
    {
        run_laws();
        memory_runs();
        spare_laws();
        let _profile = self.scene.profile.size();
        let _memory = self.memory.size();
        let _wanted = self.wanted.size();
        spare.begin(self.memory);
        let _begun = spare.memory();
        let _defined = spare.run(self.scene.profile, ops);
    }
}
