//! Laws of painting from scratch, as contracts of functions that do nothing.
ghost use Rattle.scr_plan.specs.Scratch.{PlaceIsPainted, ScratchIsBounded, ScratchShows, ScratchBytesShow};

use scr_cells::{Look, grid_laws};
use scr_term::{bytes_act_as_their_operations, ecma48_laws, profiles_have, run_laws};

/// From every state of a profile, the operations that paint one place are defined. Then the place
/// has its look and no other has changed, the cursor is right after it, and the pen is the look's.
pub fn place_is_painted()
    ensures { PlaceIsPainted }
{
    run_laws();
    profiles_have();
}

/// From every state of a profile, the operations of `scratch` are defined and show the picture
/// (curs_refresh(3X)).
pub fn scratch_shows()
    ensures { ScratchShows }
{
    place_is_painted();
    run_laws();
    profiles_have();
    grid_laws::<Look>();
}

/// Scratch has at most twelve operations for each place, plus four.
pub fn scratch_is_bounded()
    ensures { ScratchIsBounded }
{}

/// On the bundled ECMA-48 entry, from the negative of every state of its profile, the bytes of
/// `scratch` are defined as a text and show the negative of the painted picture, with the cursor
/// where it is wanted. (The negative has reverse in place of standout.)
pub fn scratch_bytes_show()
    ensures { ScratchBytesShow }
{
    scratch_shows();
    ecma48_laws();
    bytes_act_as_their_operations();
}
