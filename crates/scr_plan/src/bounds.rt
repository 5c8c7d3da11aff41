//! How many bytes an update sends at most, and the check of operations that have no more.
ghost use Rattle.std.specs.Prelude.{◌≡◌, ◌-◌, ◌^◌, IfOk, IsErrOf, OnOk, length, min};
ghost use Rattle.scr_term.specs.Operations.Profiles.{abilities};
ghost use Rattle.scr_term.specs.Operations.Texts.{all_bytes};
ghost use Rattle.scr_memory.specs.Memories.{MayBe};
ghost use Rattle.scr_memory.specs.Spares.{IsReady};
ghost use Rattle.scr_plan.specs.Checks.{IsUnlikely};
ghost use Rattle.scr_plan.specs.Plans.{IsPlan, bound_of};
ghost use Rattle.scr_plan.specs.Repaints.{IsSizeOf, IsUpToDate};
ghost use Rattle.scr_plan.specs.Scratch.{Fits};

use crate::checking::{CheckFault, NotAPlan, check};
use crate::joined_changes::joined_on;
use crate::joining::price_of;
use crate::painting::{Painter, scratch};
use crate::plan_laws::joined_shows;
use crate::plans::wants_changes_alone;
use crate::scenes::Scene;
use crate::scratch_laws::scratch_shows;
use scr_cells::NoMemory;
use scr_memory::{Memory, Spare, spare_laws};
use scr_term::{Op, Profile, blank_laws, profiles_have, run_laws};
use scr_virtual::Virtual;
use std::alloc::Global;

/// How many bytes an update sends at most: as many as the joined repaint, if all is known and no repaint of the whole screen
/// is requested, and otherwise as many as `scratch`; at most the greatest number.
///
/// Picture and memory have the profile's size, and what is remembered is possible on the profile's terminal. Fails only when
/// memory runs out.
pub fn bound(
    alloc: Global,
    profile: &Profile,
    memory: &Memory,
    wanted: &Virtual,
) -> Result<usize, NoMemory>
    requires fits { Fits profile.now wanted.now.picture }
    requires size { IsSizeOf wanted.now.picture memory.now }
    requires possible { MayBe (abilities profile.now) memory.now }
    ensures { IfOk result (λ bytes. bytes ≡ min (length (all_bytes profile.now (bound_of profile.now memory.now wanted.now))) (2 ^ 64 - 1)) }
{
    run_laws();
    blank_laws();
    scratch_shows();
    joined_shows();
    profiles_have();
    let _profile = profile.size();
    let _memory = memory.size();
    let _wanted = wanted.size();
    if wants_changes_alone(memory, wanted) {
        let scene = Scene {
            painter: Painter::of(profile),
            profile,
            picture: wanted.picture(),
        };
        let ops = joined_on(alloc, &scene, memory)?;
        return Ok(price_of(profile, &ops.0));
    }
    let ops = scratch(alloc, profile, wanted.picture())?;
    Ok(price_of(profile, &ops.0))
}

/// Whether operations could be sent as an update: whether they are a plan, with no more bytes than the update may have
/// (`check`, with `bound`). The spare shows what is remembered before and after.
///
/// Refused: with `NotAPlan` and the reason; with `NoMemory`.
pub fn check_whole(
    alloc: Global,
    profile: &Profile,
    memory: &Memory,
    wanted: &Virtual,
    spare: &mut Spare,
    ops: &[Op],
) -> Result<(), CheckFault>
    requires fits { Fits profile.now wanted.now.picture }
    requires size { IsSizeOf wanted.now.picture memory.now }
    requires possible { MayBe (abilities profile.now) memory.now }
    requires same { IsUpToDate profile.now memory.now wanted.now }
    requires ready { IsReady memory.now spare.old }
    ensures plan { OnOk result (IsPlan profile.now memory.now wanted.now ops.now) }
    ensures exact { (fault : NotAPlan) → IsErrOf result (CheckFault.NotAPlan fault) → IsUnlikely profile.now memory.now wanted.now ops.now }
    ensures ready { IsReady memory.now spare.new }
{
    spare_laws();
    let _profile = profile.size();
    let _memory = memory.size();
    let _wanted = wanted.size();
    let most = bound(alloc, profile, memory, wanted)?;
    let checked = check(profile, memory, wanted, spare, ops, most);
    spare.back(memory);
    match checked {
        Ok(()) => Ok(()),
        Err(fault) => Err(CheckFault::NotAPlan(fault)),
    }
}
