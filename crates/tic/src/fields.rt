//! The fields of a source: the parts between commas, where a comma after `\` or `^` ends no field
//! (terminfo(5), "Preparing Descriptions").

use crate::places::{begins_entry, is_blank, line_at, names_on, without_end};
use std::alloc::AllocError;
use ti_caps::{Kind, find_name};

/// A field without the blanks around it.
#[derive(Clone, Copy)]
pub(crate) struct Field<'a> {
    pub(crate) text: &'a [u8],
    /// Its offset in the source.
    pub(crate) start: usize,
}

/// The fields of a line that are not read yet.
#[derive(Drop)]
pub(crate) struct Fields<'a> {
    rest: Option<&'a [u8]>,
    start: usize,
}

impl<'a> Fields<'a> {
    /// The fields of a line that begins at an offset. A line that begins an entry has fields after
    /// the first comma, a comment has none.
    pub(crate) fn new(line: &'a [u8], start: usize) -> Fields<'a> {
        let line = without_end(line);
        if !begins_entry(line) {
            return Fields {
                rest: if is_comment(line) { None } else { Some(line) },
                start,
            };
        }
        let names = names_on(line).len().saturating_add(1);
        Fields {
            rest: line.get(names..),
            start: start.saturating_add(names),
        }
    }

    /// The next field, which may be empty. A line has at most one more fields than bytes.
    pub(crate) fn next(&mut self) -> Option<Field<'a>> {
        let (field, after) = cut_field(self.rest?);
        let start = self.start;
        self.rest = after;
        self.start = start.saturating_add(field.len()).saturating_add(1);
        let text = without_lead(field);
        let lead = field.len().saturating_sub(text.len());
        Some(Field {
            text: without_trail(text),
            start: start.saturating_add(lead),
        })
    }
}

/// The name that a field uses, if it is a `use=`.
pub(crate) fn used_by(field: &[u8]) -> Option<&[u8]> {
    match field {
        [b'u', b's', b'e', b'=', name @ ..] => Some(name),
        _ => None,
    }
}

/// Adds the offsets of a line's uses. The line begins at an offset.
pub(crate) fn add_uses(line: &[u8], start: usize, uses: &mut Vec<usize>) -> Result<(), AllocError> {
    let mut fields = Fields::new(line, start);
    for _ in 0..=line.len() {
        let Some(field) = fields.next() else {
            break;
        };
        if used_by(field.text).is_some() {
            uses.push(field.start)?;
        }
    }
    Ok(())
}

/// The field that begins at an offset, where there is no blank.
pub(crate) fn field_at(source: &[u8], start: usize) -> Field<'_> {
    let (field, _) = cut_field(line_at(source, start));
    Field {
        text: without_trail(field),
        start,
    }
}

/// The field that has the byte at an offset, on a line that begins at `start`. `None` for a blank
/// around a field, and for a byte of names.
pub(crate) fn field_with(line: &[u8], start: usize, offset: usize) -> Option<Field<'_>> {
    let mut fields = Fields::new(line, start);
    for _ in 0..=line.len() {
        let field = fields.next()?;
        if field.start.saturating_add(field.text.len()) > offset {
            return if field.start <= offset {
                Some(field)
            } else {
                None
            };
        }
    }
    None
}

/// The first field of a line that is not empty. The line begins at `start`.
pub(crate) fn first_field(line: &[u8], start: usize) -> Option<Field<'_>> {
    let mut fields = Fields::new(line, start);
    for _ in 0..=line.len() {
        let field = fields.next()?;
        if !field.text.is_empty() {
            return Some(field);
        }
    }
    None
}

/// The first field of a line that has a bad number: one that gives it to a capability of the table,
/// or else, since that error comes first, to another one. The line begins at `start`.
pub(crate) fn bad_number(line: &[u8], start: usize) -> Option<Field<'_>> {
    let mut other = None;
    let mut fields = Fields::new(line, start);
    for _ in 0..=line.len() {
        let Some(field) = fields.next() else {
            break;
        };
        if has_bad_number(field.text) {
            return Some(field);
        }
        if other.is_none() && ti_extended::has_bad_number(field.text) {
            other = Some(field);
        }
    }
    other
}

// Whether a field gives a numeric capability of the table what is no number.
fn has_bad_number(field: &[u8]) -> bool {
    let name = name_of(field);
    match field.get(name.len()..) {
        Some([b'#', value @ ..]) => {
            matches!(find_name(name), Some((Kind::Number, _))) && !is_number(value)
        }
        _ => false,
    }
}

// Whether a text is a number: decimal, octal after a 0, or hexadecimal after `0x`.
fn is_number(text: &[u8]) -> bool {
    match text {
        [b'0'] => true,
        [b'0', b'x' | b'X', digits @ ..] => {
            !digits.is_empty() && digits.iter().all(|b| b.is_ascii_hexdigit())
        }
        [b'0', digits @ ..] => digits.iter().all(|b| (b'0'..=b'7').contains(b)),
        digits => !digits.is_empty() && digits.iter().all(|b| b.is_ascii_digit()),
    }
}

/// The first two words of a field that are likely to be fields of their own, with a comma missing
/// between them: all its words have the names of capabilities, or are uses.
pub(crate) fn unseparated(field: &[u8]) -> Option<(&[u8], &[u8])> {
    let mut first = None;
    let mut second = None;
    for word in field.split(|b| is_blank(*b)) {
        if word.is_empty() {
            continue;
        }
        if !is_known(word) {
            return None;
        }
        if first.is_none() {
            first = Some(word);
        } else if second.is_none() {
            second = Some(word);
        }
    }
    Some((first?, second?))
}

fn is_known(word: &[u8]) -> bool {
    let name = name_of(word);
    name == b"use".as_slice() || find_name(name).is_some()
}

// The name of a field.
fn name_of(field: &[u8]) -> &[u8] {
    let end = field
        .iter()
        .position(|b| *b == b'#' || *b == b'=' || *b == b'@')
        .unwrap_or(field.len());
    field.get(..end).unwrap_or(field)
}

// The first field of a text, and what follows its comma if there is one.
fn cut_field(text: &[u8]) -> (&[u8], Option<&[u8]>) {
    let mut is_escaped = false;
    for (i, b) in text.iter().enumerate() {
        if *b == b',' && !is_escaped {
            return (&text[..i], Some(&text[i + 1..]));
        }
        is_escaped = !is_escaped && (*b == b'\\' || *b == b'^');
    }
    (text, None)
}

fn without_lead(text: &[u8]) -> &[u8] {
    let start = text
        .iter()
        .position(|b| !is_blank(*b))
        .unwrap_or(text.len());
    text.get(start..).unwrap_or(&[])
}

fn without_trail(text: &[u8]) -> &[u8] {
    let end = match text.iter().rposition(|b| !is_blank(*b)) {
        Some(last) => last.saturating_add(1),
        None => 0,
    };
    text.get(..end).unwrap_or(text)
}

fn is_comment(line: &[u8]) -> bool {
    matches!(line, [b'#', ..])
}
