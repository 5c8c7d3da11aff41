//! Planning an update: which operations it sends. Definitions: `specs/Plans.antt`, `specs/Repaints.antt`.
ghost use Rattle.std.specs.Prelude.{◌≡◌, ◌==◌, ◌&&◌, ◌||◌, not, IfOk, bit_and, false, true};
ghost use Rattle.std.specs.Option.{is_none};
ghost use Rattle.scr_term.specs.Operations.Profiles.{abilities, has_colours, shown_set};
ghost use Rattle.scr_term.specs.Operations.States.{IsShownPen};
ghost use Rattle.scr_virtual.specs.VirtualViews.{range_at};
ghost use Rattle.scr_plan.specs.Code.Planning.{range_by};
ghost use Rattle.scr_memory.specs.Memories.{is_known};
ghost use Rattle.scr_plan.specs.Plans.{IsPlan};
ghost use Rattle.scr_plan.specs.Repaints.{IsSizeOf, IsUpToDate, ShowsOutside};
ghost use Rattle.scr_plan.specs.Scratch.{Fits};
ghost use Rattle.scr_plan.specs.Code.Scenes.{IsUpdate};

use crate::checked_plans::checked;
use crate::joined_changes::joined_anew;
use crate::looked::Looked;
use crate::painting::Painter;
use crate::plan_laws::plans_are_made;
use crate::scenes::{Scene, Update};
use scr_cells::{NoMemory, Pen};
use scr_memory::{Memory, Spare};
use scr_term::{Ops, Profile};
use scr_virtual::Virtual;
use std::alloc::Global;

/// Plans an update: operations that bring a terminal from what is remembered of it to the picture,
/// in few bytes (curs_refresh(3X), doupdate()).
///
/// From every state that agrees with what is remembered, the operations show the picture. All is
/// known after them, if the remembered state is one that the profile's terminal can be in. They
/// have no more bytes than `scratch`. If all is known and the screen is not to be painted anew,
/// they have no more than the joined repaint, and none if no place differs and the cursor is where
/// it is wanted.
///
/// Picture and memory have the profile's size, and a known row shows the picture except in the
/// columns that may have changed (`Virtual::changed`). Fails only when memory runs out.
pub fn plan(
    alloc: Global,
    profile: &Profile,
    memory: &Memory,
    wanted: &Virtual,
) -> Result<Ops, NoMemory>
    requires fits { Fits profile.now wanted.now.picture }
    requires size { IsSizeOf wanted.now.picture memory.now }
    requires same { ShowsOutside range_at profile.now memory.now wanted.now }
    ensures { IfOk result (IsPlan profile.now memory.now wanted.now) }
{
    plan_by(alloc, profile, memory, wanted, Looked::Changed)
}

/// Plans an update like `plan`, but a known row shows the picture except in the columns that may
/// look different (`Virtual::altered`). Only these are looked at, so the work of an update is in
/// proportion to what looks different.
pub fn plan_altered(
    alloc: Global,
    profile: &Profile,
    memory: &Memory,
    wanted: &Virtual,
) -> Result<Ops, NoMemory>
    requires fits { Fits profile.now wanted.now.picture }
    requires size { IsSizeOf wanted.now.picture memory.now }
    requires same { IsUpToDate profile.now memory.now wanted.now }
    ensures { IfOk result (IsPlan profile.now memory.now wanted.now) }
{
    plan_by(alloc, profile, memory, wanted, Looked::Altered)
}

// Plans an update; a known row shows the picture except in these columns. The plan is tried on a spare of its own.
fn plan_by(
    alloc: Global,
    profile: &Profile,
    memory: &Memory,
    wanted: &Virtual,
    by: Looked,
) -> Result<Ops, NoMemory>
    requires fits { Fits profile.now wanted.now.picture }
    requires size { IsSizeOf wanted.now.picture memory.now }
    requires same { ShowsOutside (range_by by) profile.now memory.now wanted.now }
    ensures { IfOk result (IsPlan profile.now memory.now wanted.now) }
{
    let _profile = profile.size();
    let _wanted = wanted.size();
    let _memory = memory.size();
    let scene = Scene {
        painter: Painter::of(profile),
        profile,
        picture: wanted.picture(),
    };
    let update = Update {
        scene,
        memory,
        wanted,
        by,
    };
    if !may_be(profile, memory) {
        return unlikely(alloc, &update);
    }
    let mut spare = Spare::of(alloc, memory)?;
    checked(alloc, &update, &mut spare)
}

// The plan where no terminal of the profile can have the remembered pen: nothing, if all is known.
fn unlikely(alloc: Global, update: &Update<'_>) -> Result<Ops, NoMemory>
    requires update { IsUpdate update.now }
    requires pen { IsShownPen (abilities update.now.scene.profile.now) update.now.memory.now.state.pen → ⊥ }
    ensures { IfOk result (IsPlan update.now.scene.profile.now update.now.memory.now update.now.wanted.now) }
{
    if wants_changes_alone(update.memory, update.wanted) {
        return nothing(alloc, update);
    }
    sure_anew(alloc, update)
}

// What clears the screen, and the joined repaint of it: the plan that needs no check if not all is known, or the whole
// screen is to be painted anew.
pub(crate) fn sure_anew(alloc: Global, update: &Update<'_>) -> Result<Ops, NoMemory>
    requires update { IsUpdate update.now }
    requires due { (is_known update.now.memory.now && not update.now.wanted.now.repaint) ≡ false }
    ensures { IfOk result (IsPlan update.now.scene.profile.now update.now.memory.now update.now.wanted.now) }
{
    plans_are_made();
    let _profile = update.scene.profile.size();
    let _memory = update.memory.size();
    let _wanted = update.wanted.size();
    joined_anew(alloc, &update.scene)
}

// No operations, where all is known and no terminal of the profile can have the remembered pen.
fn nothing(alloc: Global, update: &Update<'_>) -> Result<Ops, NoMemory>
    requires due { (is_known update.now.memory.now && not update.now.wanted.now.repaint) ≡ true }
    requires pen { IsShownPen (abilities update.now.scene.profile.now) update.now.memory.now.state.pen → ⊥ }
    ensures { IfOk result (IsPlan update.now.scene.profile.now update.now.memory.now update.now.wanted.now) }
{
    let _profile = update.scene.profile.size();
    let _memory = update.memory.size();
    let _wanted = update.wanted.size();
    Ok(Ops(Vec::new(alloc)))
}

// Whether only what differs is to be painted: all is known, and no repaint of the whole screen was
// asked for.
pub(crate) fn wants_changes_alone(memory: &Memory, wanted: &Virtual) -> bool
    ensures value { result ≡ is_known memory.now && not wanted.now.repaint }
    ensures known { result ≡ true → is_known memory.now ≡ true }
{
    memory.known() && !wanted.repaint()
}

// Whether a terminal of the profile can have the remembered pen: attributes that it shows, and
// colours only if it shows them.
pub(crate) fn may_be(profile: &Profile, memory: &Memory) -> bool
    ensures yes { result ≡ true → IsShownPen (abilities profile.now) memory.now.state.pen }
    ensures no { result ≡ false → IsShownPen (abilities profile.now) memory.now.state.pen → ⊥ }
{
    let _memory = memory.size();
    let pen = memory.remembered_pen();
    shows_attributes(profile, pen) && shows_colours(profile, pen)
}

// Whether a terminal shows the attributes of a pen.
fn shows_attributes(profile: &Profile, pen: Pen) -> bool
    ensures { result ≡ (bit_and (shown_set profile.now) pen.attrs == pen.attrs) }
{
    profile.shows().0 & pen.attrs().0 == pen.attrs().0
}

// Whether a terminal shows the colours of a pen.
fn shows_colours(profile: &Profile, pen: Pen) -> bool
    ensures { result ≡ (has_colours profile.now || (is_none pen.foreground && is_none pen.background)) }
{
    profile.colours() || (pen.foreground().is_none() && pen.background().is_none())
}
