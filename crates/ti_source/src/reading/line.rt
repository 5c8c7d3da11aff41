//! The kinds of lines of a source: comments, lines of names, lines of fields.

ghost use Rattle.std.specs.Prelude.{◌≡◌};
ghost use Rattle.std.specs.List.{after_first, before_first, list_all};
ghost use Rattle.ti_source.specs.Reading.Field.{is_blank};
ghost use Rattle.ti_source.specs.Reading.SourceLine.{begins_blank, begins_hash, is_ascii, is_comma, line_of};
ghost use Rattle.ti_source.specs.Code.Seen.{seen_or_skipped};

use crate::reading::field::is_blank;

/// A line that is not skipped, by its kind; its fields are not split yet.
#[derive(Clone, Copy)]
pub enum SourceLine<'a> {
    /// One with a byte 0, or one from 128 on.
    NonAscii,
    /// Fields that continue an entry.
    Continues(&'a [u8]),
    /// The names of an entry, and the fields after them.
    Begins(&'a [u8], &'a [u8]),
}

/// The kind of a line; `None` for a comment and a blank line, which are skipped.
pub(crate) fn line_of(bytes: &[u8]) -> Option<SourceLine<'_>>
    ensures { seen_or_skipped result ≡ line_of bytes.now }
{
    if begins_hash(bytes) || are_blank(bytes) {
        return None;
    }
    if !are_ascii(bytes) {
        return Some(SourceLine::NonAscii);
    }
    if begins_blank(bytes) {
        return Some(SourceLine::Continues(bytes));
    }
    let (names, rest) = split_names(bytes);
    Some(SourceLine::Begins(names, rest))
}

pub(crate) fn begins_hash(bytes: &[u8]) -> bool
    ensures { result ≡ begins_hash bytes.now }
{
    match bytes {
        [first, ..] => *first == b'#',
        [] => false,
    }
}

pub(crate) fn begins_blank(bytes: &[u8]) -> bool
    ensures { result ≡ begins_blank bytes.now }
{
    match bytes {
        [first, ..] => is_blank(*first),
        [] => false,
    }
}

fn are_blank(bytes: &[u8]) -> bool
    ensures { result ≡ list_all is_blank bytes.now }
{
    for b in bytes {
        if !is_blank(*b) {
            return false;
        }
    }
    true
}

fn is_ascii(b: u8) -> bool
    ensures { result ≡ is_ascii b }
{
    1 <= b && b < 128
}

fn are_ascii(bytes: &[u8]) -> bool
    ensures { result ≡ list_all is_ascii bytes.now }
{
    for b in bytes {
        if !is_ascii(*b) {
            return false;
        }
    }
    true
}

/// The names of a line, and what follows their comma.
fn split_names(bytes: &[u8]) -> (&[u8], &[u8])
    ensures names { result.0.now ≡ before_first is_comma bytes.now }
    ensures rest { result.1.now ≡ after_first is_comma bytes.now }
{
    for (i, b) in bytes.iter().enumerate() {
        if *b == b',' {
            return (&bytes[..i], &bytes[i + 1..]);
        }
    }
    (bytes, &bytes[bytes.len()..])
}
