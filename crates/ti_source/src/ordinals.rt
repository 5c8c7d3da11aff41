//! Ordinals: the number of a capability among those of all kinds.

ghost use Rattle.std.specs.Prelude.{◌≡◌, ◌<◌};
ghost use Rattle.ti_caps.specs.Slots.{positions_of};
ghost use Rattle.ti_source.specs.Code.FirstFields.{ordinal};

use ti_caps::{Kind, MOST_FLAGS, MOST_NUMBERS, MOST_TEXTS, Slot};

/// The number of positions of all kinds.
pub(crate) const CAPABILITIES: usize = MOST_FLAGS + MOST_NUMBERS + MOST_TEXTS;

/// The number of positions of a kind.
pub(crate) fn room(kind: Kind) -> u16
    ensures { result ≡ positions_of kind }
{
    match kind {
        Kind::Flag => MOST_FLAGS as u16,
        Kind::Number => MOST_NUMBERS as u16,
        Kind::Text => MOST_TEXTS as u16,
    }
}

/// The ordinal of a capability: flags come first, then numbers, then texts. A position too great
/// for its kind gets an ordinal of the next kind.
pub(crate) fn ordinal(kind: Kind, slot: Slot) -> usize
    ensures value { result ≡ ordinal kind slot.0 }
    ensures inside { slot.0 < positions_of kind → result < 640 }
{
    match kind {
        Kind::Flag => slot.0 as usize,
        Kind::Number => MOST_FLAGS + slot.0 as usize,
        Kind::Text => MOST_FLAGS + MOST_NUMBERS + slot.0 as usize,
    }
}
