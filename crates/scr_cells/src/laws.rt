//! Laws about the words of `specs/`, for the crates above: functions that do nothing, whose contracts are the laws.
ghost use Rattle.std.specs.Prelude.{◌≡◌, map};
ghost use Rattle.scr_cells.specs.Attributes.{all_attributes, every_attribute};
ghost use Rattle.scr_cells.specs.Characters.{CharacterLaws};
ghost use Rattle.scr_cells.specs.Grids.{GridLaws};

use crate::Attrs;

/// The laws of grids: what the words of `Grid`'s contracts say of each place.
pub fn grid_laws<T: Copy>()
    ensures { GridLaws T }
{}

/// The laws of characters: those below 128 are those of ASCII, each fits 16 bits and is a `char`, and a character of
/// ASCII stands for each. The shown form of a character is one, and of those below 128 it is themselves.
pub fn character_laws()
    ensures { CharacterLaws }
{}

/// `Attrs::EACH` lists the attributes in the order in which they are sent to a terminal, and `Attrs::EVERY` has them
/// all (X/Open Curses Issue 7, 'Attributes').
pub fn attribute_laws()
    ensures each { map (λ attribute. attribute.0) Attrs.EACH ≡ all_attributes }
    ensures every { Attrs.EVERY.0 ≡ every_attribute }
{}
