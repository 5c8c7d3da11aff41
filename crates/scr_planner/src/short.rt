//! The short plan: what differs is found as runs, many lines may be erased at once, and the runs are painted.

use crate::cuts::{Runs, room_for};
use crate::drafts::Draft;
use crate::rows::RowChange;
use crate::scenes::{Scene, Update};
use crate::unknown_rows::is_clearing_best;
use scr_cells::{NoMemory, Pen, Picture};
use scr_memory::Memory;
use scr_term::{Op, Ops, Profile, Spot};
use std::alloc::Global;

// Room for the operations that usually lead to a place: whoever counts another plan behind these operations needs no
// more.
const FEW_OPERATIONS: usize = 16;

/// The short plan of the rows that differ from what is remembered. Fails only when memory runs out.
#[inline(never)]
pub fn short_changes(
    alloc: Global,
    profile: &Profile,
    memory: &Memory,
    picture: &Picture,
    changes: &[RowChange],
) -> Result<Ops, NoMemory> {
    let update = Update {
        scene: Scene::new(profile, picture),
        memory,
    };
    let scene = &update.scene;
    let mut draft = Draft {
        ops: Vec::new(alloc),
        spot: memory.remembered_spot(),
        pen: memory.remembered_pen(),
    };
    let mut runs = draft.move_what_stays(alloc, &update, changes)?;
    let moved = !draft.ops.is_empty();
    let room = room_for(runs.as_slice()).saturating_add(FEW_OPERATIONS);
    draft.ops.reserve(room)?;
    draft.wipe_if_worth(scene, &mut runs)?;
    draft.paint_all(alloc, scene, &mut runs, moved)?;
    Ok(Ops(draft.ops))
}

/// The short plan of a screen of which nothing is known: what clears it, and what paints it then. Fails only when
/// memory runs out.
pub fn short_anew(alloc: Global, profile: &Profile, picture: &Picture) -> Result<Ops, NoMemory> {
    let scene = Scene::new(profile, picture);
    let mut runs = Runs::new(alloc);
    scene.add_rows(0, &mut runs)?;
    let mut draft = Draft::from_home(Vec::with_capacity(alloc, room_for(runs.as_slice()))?);
    draft.reset(&scene)?;
    draft.add(Op::Clear)?;
    draft.paint_all(alloc, &scene, &mut runs, false)?;
    Ok(Ops(draft.ops))
}

/// The short plan of a screen of which some rows are not known: these are erased and painted, and of the others what
/// differs is painted. `None` if the terminal cannot erase a line, or if clearing the screen is surely no dearer. Fails
/// only when memory runs out.
pub fn short_partly(
    alloc: Global,
    profile: &Profile,
    memory: &Memory,
    picture: &Picture,
) -> Result<Option<Ops>, NoMemory> {
    if is_clearing_best(profile, memory) {
        return Ok(None);
    }
    let update = Update {
        scene: Scene::new(profile, picture),
        memory,
    };
    let scene = &update.scene;
    let room = scene.columns as usize + 12;
    let mut draft = Draft::from_home(Vec::with_capacity(alloc, room)?);
    if !draft.wipe_unknown(&update)? {
        return Ok(None);
    }
    let mut runs = Runs::new(alloc);
    update.find_unsettled(&mut runs)?;
    draft.paint_all(alloc, scene, &mut runs, false)?;
    Ok(Some(Ops(draft.ops)))
}

impl Draft {
    // A plan whose operations are added to these, with the cursor in the first place of the screen and a plain pen.
    fn from_home(ops: Vec<Op>) -> Draft {
        Draft {
            ops,
            spot: Spot::At(0, 0),
            pen: Pen::plain(),
        }
    }
}
