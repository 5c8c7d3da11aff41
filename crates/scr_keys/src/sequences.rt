//! The bytes that are characters in UTF-8.
ghost use Rattle.std.specs.Prelude.{◌∷◌, [], MatchBool};
ghost use Rattle.scr_keys.specs.Code.Sequences.{BeginNone, IsNext, Means};
ghost use Rattle.scr_keys.specs.Typing.{IsBegun};

use std::str;

/// What bytes are, all but the last of which begin the sequence of a character.
#[derive(Clone, Copy, Debug, PartialEq, Eq)]
pub(crate) enum Sequence {
    /// All bytes of this character.
    Whole(char),
    /// The beginning of a character's bytes, still.
    Begun,
    /// Neither.
    Broken,
}

/// What these bytes are (RFC 3629, section 4).
pub(crate) fn sequence_of(bytes: &[u8]) -> Sequence
    requires { IsNext bytes.now }
    ensures { Means bytes.now result }
{
    match str::from_utf8(bytes) {
        Ok(text) => match text.chars().next() {
            Some(character) => Sequence::Whole(character),
            None => Sequence::Broken,
        },
        Err(fault) if fault.error_len().is_none() => Sequence::Begun,
        Err(_) => Sequence::Broken,
    }
}

/// Whether a byte is the first of a character of two to four bytes (The Unicode Standard, table 3-7).
pub(crate) fn begins_sequence(byte: u8) -> bool
    ensures { MatchBool result (IsBegun (byte ∷ [])) (BeginNone (byte ∷ [])) }
{
    matches!(byte, 0xC2..=0xF4)
}
