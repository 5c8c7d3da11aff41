//! Laws of operations and their bytes, for the crates above, as contracts of functions that do
//! nothing.
ghost use Rattle.scr_term.specs.Operations.Bundled.{BundledIsEcma48};
ghost use Rattle.scr_term.specs.Operations.Ecma48.{Ecma48Laws};
ghost use Rattle.scr_term.specs.Operations.Larger.{MovesRefuseNothing};
ghost use Rattle.scr_term.specs.Operations.Defined.{DefinedLaws};
ghost use Rattle.scr_term.specs.Operations.Laws.{BlankLaws, BytesActAsTheirOperation, BytesActAsTheirOperations, LookGridLaws, ProfilesHave, RunLaws, ShownPenLaws, StepsKeepStates};

use scr_cells::character_laws;
use ti_caps::moves_are_left_out;
use ti_param::{increment_adds_one, number_writes_decimal};

/// What every profile has: it moves the cursor anywhere, clears the screen and writes the shown form
/// of every character. If it has `sgr0` it can reset; it can turn on each attribute and set each colour that
/// it shows. Without `sgr0` it shows none.
pub fn profiles_have()
    ensures { ProfilesHave }
{
    character_laws();
}

/// A step leads from a state of a profile to a state of the same profile.
pub fn steps_keep_states()
    ensures { StepsKeepStates }
{}

/// On the bundled ECMA-48 entry, the bytes of an operation do to the negative of a state what its
/// step does to the state, wherever the step is defined. (The negative has reverse in place of
/// standout, since both look alike there.)
pub fn bytes_act_as_their_operation()
    ensures { BytesActAsTheirOperation }
{
    number_writes_decimal();
    increment_adds_one();
}

/// The same for operations one after another.
pub fn bytes_act_as_their_operations()
    ensures { BytesActAsTheirOperations }
{
    bytes_act_as_their_operation();
}

/// The profile of the bundled ECMA-48 entry is determined by its size and its charset, and shows every attribute
/// and colours.
pub fn ecma48_laws()
    ensures { Ecma48Laws }
{}

/// Every profile that is admitted from the bundled entry, with or without a given size, is an
/// `IsEcma48`: the laws of bytes hold for it.
pub fn bundled_is_ecma48()
    ensures { BundledIsEcma48 }
{}

/// An entry without the texts that insert, delete or scroll (`Entry::without_moves`) is refused as it is with them,
/// and its profile has no operation that does so.
pub fn moves_refuse_nothing()
    ensures { MovesRefuseNothing }
{
    moves_are_left_out();
}

/// Runs of operations can be joined, also if the first is undefined, and so can their bytes. A run
/// leads from a state of a profile to a state of the same profile, and has only operations that the
/// profile has. What writes the shown form of a character sends a byte at least.
pub fn run_laws()
    ensures { RunLaws }
{
    character_laws();
}

/// A blank screen with no attribute on is a state of each profile, and its own negative.
pub fn blank_laws()
    ensures { BlankLaws }
{}

/// A blank grid is a grid of looks, and it stays one where a place changes, places become blank, or
/// rows and places move.
pub fn look_grid_laws()
    ensures { LookGridLaws }
{}

/// The plain pen is shown by each terminal, also with attributes that are shown. A pen that is
/// shown is a pen, and a profile turns on attributes that it knows.
pub fn shown_pen_laws()
    ensures { ShownPenLaws }
{}

/// Whether an operation is defined depends on the cursor's position and the pen, not on what the
/// screen shows. For `Home`, `Move` and `Clear` the pen alone decides; `Reset` is defined from every
/// state, or from none.
pub fn defined_laws()
    ensures { DefinedLaws }
{}
