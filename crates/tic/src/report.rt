//! The lines that `tic` prints.

use crate::notes::{Doubt, Warning};
use std::alloc::{AllocError, Global};
use ti_extended::SecondReading;
use ti_source::{Cause, Notes};

/// Adds the line for a warning: its line number, what is doubtful and the field's name.
pub(crate) fn add_warning(
    alloc: Global,
    warning: Warning<'_>,
    lines: &mut Vec<u8>,
) -> Result<(), AllocError> {
    let (number, word) = (warning.line, word_of(warning.doubt));
    let head = format!(in alloc; "line {number}: {word} ")?;
    add_line(head.as_bytes(), warning.name, lines)
}

/// Adds the line for an entry: its first reference name and the size of its file.
pub(crate) fn add_size(
    alloc: Global,
    name: &[u8],
    size: u16,
    lines: &mut Vec<u8>,
) -> Result<(), AllocError> {
    let digits = format!(in alloc; " {size}")?;
    add_line(name, digits.as_bytes(), lines)
}

/// Adds a message as a line.
pub(crate) fn add_message(message: &str, lines: &mut Vec<u8>) -> Result<(), AllocError> {
    add_line(message.as_bytes(), b"", lines)
}

/// Adds the lines about unknown names: first the number of fields with unknown names and the number
/// of these names, then each name with the number of its fields. The most frequent come first, and
/// equally frequent ones are in the order of their bytes. Nothing if no name is unknown.
pub(crate) fn add_unknown(
    alloc: Global,
    notes: &Notes,
    more: Option<&SecondReading<'_>>,
    lines: &mut Vec<u8>,
) -> Result<(), AllocError> {
    let names = unknown_names(alloc, notes, more)?;
    let mut counted = Vec::new(alloc);
    add_counted(&names, &mut counted)?;
    add_counts(alloc, names.len(), &counted, lines)
}

// Adds the lines about unknown names that were counted.
fn add_counts(
    alloc: Global,
    fields: usize,
    counted: &[(usize, &[u8])],
    lines: &mut Vec<u8>,
) -> Result<(), AllocError> {
    if counted.is_empty() {
        return Ok(());
    }
    add_total(alloc, fields, counted.len(), lines)?;
    for (count, name) in counted {
        add_name(alloc, *count, name, lines)?;
    }
    Ok(())
}

fn add_total(
    alloc: Global,
    fields: usize,
    names: usize,
    lines: &mut Vec<u8>,
) -> Result<(), AllocError> {
    let line = format!(in alloc; "unknown: {fields} fields of {names} names")?;
    add_line(line.as_bytes(), b"", lines)
}

fn add_name(
    alloc: Global,
    count: usize,
    name: &[u8],
    lines: &mut Vec<u8>,
) -> Result<(), AllocError> {
    let head = format!(in alloc; "unknown: {count} ")?;
    add_line(head.as_bytes(), name, lines)
}

// The names of the unknown fields, in the order of their bytes.
fn unknown_names<'a>(
    alloc: Global,
    notes: &'a Notes,
    more: Option<&SecondReading<'_>>,
) -> Result<Vec<&'a [u8]>, AllocError> {
    let mut names = Vec::new(alloc);
    for i in 0..notes.len() {
        let note = notes.at(i);
        if cause_at(note.cause, i, more) == Some(Cause::Unknown) {
            names.push(note.name)?;
        }
    }
    names.sort_unstable();
    Ok(names)
}

/// What is doubtful in the field of the note at an index, where a second reading counts if there is one.
pub(crate) fn cause_at(cause: Cause, i: usize, more: Option<&SecondReading<'_>>) -> Option<Cause> {
    match more {
        Some(more) => more.cause(i),
        None => Some(cause),
    }
}

// Adds how often each of these names occurs, the most frequent first. Equal names are neighbours in
// `names`.
fn add_counted<'a>(
    names: &[&'a [u8]],
    counted: &mut Vec<(usize, &'a [u8])>,
) -> Result<(), AllocError> {
    let mut count = 0usize;
    for (i, name) in names.iter().enumerate() {
        count = count.saturating_add(1);
        let last = match names.get(i + 1) {
            Some(next) => *next != *name,
            None => true,
        };
        if last {
            counted.push((count, *name))?;
            count = 0;
        }
    }
    counted.sort_by_key(|run| usize::MAX - run.0)
}

/// Adds what a listing leaves out: a line for the capabilities without a name and one for the bytes
/// after the string table, each only if there are any.
pub(crate) fn add_left_out(
    alloc: Global,
    unnamed: usize,
    skipped: usize,
    lines: &mut Vec<u8>,
) -> Result<(), AllocError> {
    add_count(
        alloc,
        unnamed,
        "capabilities without a name left out",
        lines,
    )?;
    add_count(alloc, skipped, "bytes skipped", lines)
}

// A line for a count, unless it is 0.
fn add_count(
    alloc: Global,
    count: usize,
    what: &str,
    lines: &mut Vec<u8>,
) -> Result<(), AllocError> {
    if count == 0 {
        return Ok(());
    }
    let line = format!(in alloc; "{count} {what}")?;
    add_line(line.as_bytes(), b"", lines)
}

// A line of two parts.
fn add_line(first: &[u8], second: &[u8], lines: &mut Vec<u8>) -> Result<(), AllocError> {
    lines.extend_from_slice(first)?;
    lines.extend_from_slice(second)?;
    lines.extend_from_slice(b"\n")
}

/// The word for what is doubtful in a field.
pub(crate) fn word_of(doubt: Doubt) -> &'static str {
    match doubt {
        Doubt::Cause(Cause::Unknown) => "unknown",
        Doubt::Cause(Cause::WrongKind) => "wrong kind",
        Doubt::Cause(Cause::TooGreat) => "too great",
        Doubt::Cause(Cause::Repeated) => "repeated",
        Doubt::Caret => "unescaped %^",
    }
}
