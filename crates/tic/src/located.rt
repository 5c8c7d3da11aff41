//! Where an error of a source is, and the field or the name that it is about.

use crate::fields::{Field, bad_number, field_at, field_with, first_field};
use crate::places::{begins_entry, line_at, names_on, start_of_entry, start_of_line};
use crate::uses::{faulty_use, one_use_too_many};
use bstr::ByteSlice;
use std::alloc::{AllocError, Global};
use ti_caps::has_no_blank;
use ti_compile::{TicFault, is_file_name};
use ti_source::SourceFault;

/// Where an error is.
#[derive(Clone, Copy)]
pub(crate) struct Located<'a> {
    /// The offset of its first byte in the source.
    pub(crate) offset: usize,
    /// The field or the name that it is about, if it is about one.
    pub(crate) field: Option<&'a [u8]>,
    /// Whether its column is known and printed.
    pub(crate) has_column: bool,
}

/// Where the error of a source is that was not read, or of its entry at an index. `None` for an
/// error that is nowhere, as want of memory.
pub(crate) fn locate(
    alloc: Global,
    source: &[u8],
    fault: TicFault,
    index: usize,
) -> Result<Option<Located<'_>>, AllocError> {
    match fault {
        TicFault::Source(fault) => in_source(alloc, source, fault, index),
        TicFault::Encode(_) => Ok(whole_at(start_of_entry(source, index))),
        TicFault::BadFileName => Ok(bad_file_name(source, index)),
        TicFault::Decode(_) | TicFault::NoMemory => Ok(None),
    }
}

fn in_source(
    alloc: Global,
    source: &[u8],
    fault: SourceFault,
    index: usize,
) -> Result<Option<Located<'_>>, AllocError> {
    match fault {
        SourceFault::NotAscii(line) => Ok(not_ascii(source, line)),
        SourceFault::FieldBeforeEntry(line) => Ok(early_field(source, line)),
        SourceFault::BadNames(line) => Ok(whole_at(start_of_line(source, line))),
        SourceFault::BadNumber(line) => Ok(number_on(source, line)),
        SourceFault::DuplicateName(line) => duplicate_name(alloc, source, line),
        SourceFault::TooManyUses => Ok(use_at(source, one_use_too_many(alloc, source)?)),
        SourceFault::UnknownName | SourceFault::UseCycle => {
            Ok(use_at(source, faulty_use(alloc, source, index)?))
        }
        SourceFault::NoMemory => Ok(None),
    }
}

// An error of a whole entry, or of its names.
fn whole<'a>(offset: usize) -> Located<'a> {
    Located {
        offset,
        field: None,
        has_column: false,
    }
}

fn whole_at<'a>(offset: Option<usize>) -> Option<Located<'a>> {
    Some(whole(offset?))
}

fn of_field(field: Field<'_>) -> Located<'_> {
    Located {
        offset: field.start,
        field: Some(field.text),
        has_column: true,
    }
}

// The use at an offset.
fn use_at(source: &[u8], offset: Option<usize>) -> Option<Located<'_>> {
    let field = field_at(source, offset?);
    Some(Located {
        has_column: false,
        ..of_field(field)
    })
}

fn not_ascii(source: &[u8], number: u32) -> Option<Located<'_>> {
    let start = start_of_line(source, number)?;
    let line = line_at(source, start);
    let column = line.iter().position(|b| *b == 0 || *b >= 128)?;
    let offset = start.saturating_add(column);
    Some(Located {
        offset,
        field: field_with(line, start, offset).map(|field| field.text),
        has_column: true,
    })
}

fn early_field(source: &[u8], number: u32) -> Option<Located<'_>> {
    let start = start_of_line(source, number)?;
    match first_field(line_at(source, start), start) {
        Some(field) => Some(of_field(field)),
        None => Some(whole(start)),
    }
}

fn number_on(source: &[u8], number: u32) -> Option<Located<'_>> {
    let start = start_of_line(source, number)?;
    bad_number(line_at(source, start), start).map(of_field)
}

// The first name of an entry that cannot be a file name.
fn bad_file_name(source: &[u8], index: usize) -> Option<Located<'_>> {
    let start = start_of_entry(source, index)?;
    let names = names_on(line_at(source, start));
    for name in names.split(|b| *b == b'|') {
        if has_no_blank(name) && !is_file_name(name) {
            return Some(Located {
                field: Some(name),
                ..whole(start)
            });
        }
    }
    None
}

// The first name on a line that an earlier entry has.
fn duplicate_name(
    alloc: Global,
    source: &[u8],
    number: u32,
) -> Result<Option<Located<'_>>, AllocError> {
    let Some(start) = start_of_line(source, number) else {
        return Ok(None);
    };
    let mut names = names_at(alloc, names_on(line_at(source, start)), start)?;
    names.sort_unstable();
    let mut first: Option<(&[u8], usize)> = None;
    for line in source.get(..start).unwrap_or(&[]).lines_with_terminator() {
        if begins_entry(line) {
            first = earliest(first, first_of(&names, names_on(line)));
        }
    }
    Ok(first.map(|(text, start)| of_field(Field { text, start })))
}

// Names, each with its offset.
fn names_at(alloc: Global, names: &[u8], start: usize) -> Result<Vec<(&[u8], usize)>, AllocError> {
    let mut found = Vec::new(alloc);
    let mut start = start;
    for name in names.split(|b| *b == b'|') {
        found.push((name, start))?;
        start = start.saturating_add(name.len()).saturating_add(1);
    }
    Ok(found)
}

// The earliest of the sorted names that is a reference name of an entry with these names.
fn first_of<'a>(sorted: &[(&'a [u8], usize)], names: &[u8]) -> Option<(&'a [u8], usize)> {
    let mut first = None;
    for name in names.split(|b| *b == b'|') {
        if has_no_blank(name) {
            let at = sorted.partition_point(|wanted| wanted.0 < name);
            let found = sorted.get(at).copied().filter(|wanted| wanted.0 == name);
            first = earliest(first, found);
        }
    }
    first
}

// The one of two names that begins first.
fn earliest<'a>(
    one: Option<(&'a [u8], usize)>,
    other: Option<(&'a [u8], usize)>,
) -> Option<(&'a [u8], usize)> {
    match (one, other) {
        (Some(a), Some(b)) if b.1 < a.1 => Some(b),
        (Some(a), _) => Some(a),
        (None, other) => other,
    }
}
