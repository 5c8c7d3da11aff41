//! A law of characters that are repeated, as the contract of a function that does nothing.
ghost use Rattle.scr_terminal.specs.Characters.{RepeatsAreCharacters};

use scr_term::look_grid_laws;

/// A character that is repeated is that character as many times.
pub fn repeats_are_characters()
    ensures { RepeatsAreCharacters }
{
    look_grid_laws();
}
