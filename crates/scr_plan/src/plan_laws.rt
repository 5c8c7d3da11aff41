//! Laws of painting what differs, as contracts of functions that do nothing.
ghost use Rattle.scr_plan.specs.Plans.{PlanIsCheap, PlansAreMade, PlansAreRemembered, UpToDateLaws};
ghost use Rattle.scr_plan.specs.Repaints.{JoinedIsCheap, JoinedShows, PlainShows};

use crate::scratch_laws::{place_is_painted, scratch_is_bounded, scratch_shows};
use scr_cells::{Look, grid_laws};
use scr_memory::{known_memories, memory_runs};
use scr_term::{blank_laws, profiles_have, run_laws};

/// If attributes are turned off and the screen is cleared, all is known after whatever is sent
/// next, whatever was known before. So it is after scratch (curs_refresh(3X), doupdate()).
pub fn plans_are_remembered()
    ensures { PlansAreRemembered }
{
    run_laws();
    profiles_have();
    memory_runs();
    scratch_shows();
}

/// From every state that agrees with what is remembered of the terminal, the plain repaint is
/// defined and shows the picture (curs_refresh(3X)).
pub fn plain_shows()
    ensures { PlainShows }
{
    place_is_painted();
    run_laws();
    profiles_have();
    grid_laws::<Look>();
}

/// If all is known, the joined repaint is defined from each state that agrees with what is
/// remembered, and shows the picture. What paints the screen anew is defined from every state of
/// the profile, and shows the picture too (curs_refresh(3X)).
pub fn joined_shows()
    ensures { JoinedShows }
{
    known_memories();
    place_is_painted();
    run_laws();
    blank_laws();
    profiles_have();
    grid_laws::<Look>();
}

/// The joined repaint has no more bytes than the plain one, and the plain one no more than scratch.
/// What paints the screen anew has no more than scratch. The joined repaint is empty if no place
/// differs and the cursor is where it is wanted.
pub fn joined_is_cheap()
    ensures { JoinedIsCheap }
{
    run_laws();
}

/// If all is known and the screen is not to be painted anew, a plan has no more bytes than the
/// plain repaint, and none if no place differs and the cursor is where it is wanted.
pub fn plan_is_cheap()
    ensures { PlanIsCheap }
{
    joined_is_cheap();
}

/// The sure repaint is a plan, and a plan is all that an update needs: from every state that agrees
/// with what is remembered it shows the picture, all is known after it, and it is short and cheap
/// (curs_refresh(3X), doupdate()).
pub fn plans_are_made()
    ensures { PlansAreMade }
{
    joined_shows();
    joined_is_cheap();
    plans_are_remembered();
    scratch_is_bounded();
    memory_runs();
}

/// A known row shows the picture, except in the columns that may look different. This stays true
/// from call to call, and after an update that ends well it is true in every column.
pub fn up_to_date_laws()
    ensures { UpToDateLaws }
{
    memory_runs();
}
