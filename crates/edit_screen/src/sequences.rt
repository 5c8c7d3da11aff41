//! Sequences that are not text: an escape with `[` or `O` and what follows, as an unknown key sends, and an escape with
//! another character, which is that character typed with Alt.

use curses::Key;

/// How far such a sequence is read.
#[derive(Clone, Copy, PartialEq, Eq)]
pub(crate) enum Sequence {
    /// It has not begun.
    Outside,
    /// An escape came.
    Escape,
    /// After an escape and `[`: a control sequence (ECMA-48, 5.4), up to a byte from 64 to 126.
    Control,
    /// After an escape and `O`: one more byte.
    Single,
}

impl Sequence {
    /// Whether a key belongs to a sequence that has begun, after its escape.
    pub(crate) fn has(self, key: Key) -> bool {
        let Key::Byte(byte) = key else {
            return false;
        };
        match self {
            Sequence::Outside => false,
            Sequence::Escape | Sequence::Control | Sequence::Single => matches!(byte, 32..=126),
        }
    }

    /// How far it is read after a key.
    pub(crate) fn after(self, key: Key) -> Sequence {
        let Key::Byte(byte) = key else {
            return Sequence::Outside;
        };
        match self {
            _ if byte == 27 => Sequence::Escape,
            Sequence::Escape if byte == b'[' => Sequence::Control,
            Sequence::Escape if byte == b'O' => Sequence::Single,
            Sequence::Control if matches!(byte, 32..=63) => Sequence::Control,
            _ => Sequence::Outside,
        }
    }
}
