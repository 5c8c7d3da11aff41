//! Parts of a line: what is shown, passed over and deleted as one. The definitions are in `specs/Parts.antt`.
ghost use Rattle.std.specs.Prelude.{◌≡◌, ◌≢◌, ◌<◌, ℕ, encode_utf8, length, MatchBool, MatchOption};
ghost use Rattle.edit_text.specs.Lines.{has_line_feed};
ghost use Rattle.edit_text.specs.Parts.{BeginsWith, EndsWith, IsBetween, IsFirstPart, IsLastPart, IsWithin, spelled};

use bstr::decode_utf8;
use scr_cells::is_beyond_ascii;

/// A part of a line: what is shown, passed over and deleted as one.
#[derive(Clone, Copy, Debug, PartialEq, Eq)]
pub enum TextPart {
    /// A character, with all bytes of its encoding in UTF-8. One that is read from a text is above ASCII and takes one
    /// column.
    Character(char),
    /// Any other byte: a character of ASCII, or a byte of what is no such character.
    Byte(u8),
}

impl TextPart {
    /// How many bytes it has.
    pub fn len(self) -> usize
        ensures { result ≡ length (spelled self) }
    {
        match self {
            TextPart::Character(character) => character.len_utf8(),
            TextPart::Byte(_) => 1,
        }
    }

    // Whether it is a line feed.
    pub(crate) fn is_line_feed(self) -> bool
        ensures { result ≡ has_line_feed (spelled self) }
    {
        match self {
            TextPart::Character(character) => character == '\n',
            TextPart::Byte(byte) => byte == b'\n',
        }
    }
}

/// The part that bytes begin with; `None` if there are no bytes.
pub fn first_part(bytes: &[u8]) -> Option<TextPart>
    ensures { IsFirstPart bytes.now result }
{
    let Some((&first, _)) = bytes.split_first() else {
        return None;
    };
    if first < 128 {
        return Some(TextPart::Byte(first));
    }
    match first_character(bytes) {
        Some(character) => Some(TextPart::Character(character)),
        None => Some(TextPart::Byte(first)),
    }
}

// The character above ASCII that bytes begin with, if there is one that takes one column.
fn first_character(bytes: &[u8]) -> Option<char>
    ensures { MatchOption result ((character : ℕ) → ¬ BeginsWith bytes.now character) (BeginsWith bytes.now) }
{
    let (character, _) = decode_utf8(bytes);
    let character = character?;
    if is_beyond_ascii(character) {
        Some(character)
    } else {
        None
    }
}

/// The part that bytes end with; `None` if there are no bytes.
pub fn last_part(bytes: &[u8]) -> Option<TextPart>
    ensures { IsLastPart bytes.now result }
{
    let Some((&last, _)) = bytes.split_last() else {
        return None;
    };
    if last < 128 {
        return Some(TextPart::Byte(last));
    }
    // A character above ASCII that takes one column has two bytes, or three.
    if let Some(character) = last_character(bytes, 2) {
        return Some(TextPart::Character(character));
    }
    match last_character(bytes, 3) {
        Some(character) => Some(TextPart::Character(character)),
        None => Some(TextPart::Byte(last)),
    }
}

// The character of so many bytes that bytes end with, if there is one.
fn last_character(bytes: &[u8], count: usize) -> Option<char>
    ensures { MatchOption result ((character : ℕ) → EndsWith bytes.now character → length (encode_utf8 character) ≢ count) (EndsWith bytes.now) }
{
    if bytes.len() < count {
        return None;
    }
    let Some(character) = first_character(&bytes[bytes.len() - count..]) else {
        return None;
    };
    if character.len_utf8() == count {
        Some(character)
    } else {
        None
    }
}

/// The column itself if it is between parts of a line, and else the one where the character begins that it is within.
pub(crate) fn part_start(line: &[u8], column: usize) -> usize
    ensures { IsBetween line.now column result }
{
    // A character above ASCII that takes one column has up to three bytes.
    for start in column.saturating_sub(2)..column {
        if is_within(line, start, column) {
            return start;
        }
    }
    column
}

// Whether a character begins at a column of a line, and another column is among its bytes.
fn is_within(line: &[u8], start: usize, column: usize) -> bool
    requires { start < column }
    ensures { MatchBool result (IsWithin line.now start column) (¬ IsWithin line.now start column) }
{
    if start >= line.len() {
        return false;
    }
    match first_character(&line[start..]) {
        Some(character) => column - start < character.len_utf8(),
        None => false,
    }
}
