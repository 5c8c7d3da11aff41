//! Printing the notes on the doubtful fields of a source.

use crate::compiling::{Job, PIECE};
use crate::messages::warning_message;
use crate::places::EntryLines;
use crate::report::{add_message, add_unknown, add_warning, cause_at};
use std::alloc::AllocError;
use std::io::Write;
use ti_extended::CaretNote;
use ti_source::Cause;

/// What is doubtful in a field.
#[derive(Clone, Copy, PartialEq, Eq)]
pub(crate) enum Doubt {
    /// What is said without `-x` too.
    Cause(Cause),
    /// Its text has an unescaped `%^`.
    Caret,
}

/// A warning about a field.
#[derive(Clone, Copy)]
pub(crate) struct Warning<'a> {
    /// The line of the field, counted from 1.
    pub(crate) line: u32,
    pub(crate) doubt: Doubt,
    /// The name of the field.
    pub(crate) name: &'a [u8],
}

/// Prints the notes on doubtful fields on standard error.
pub(crate) fn tell_notes(job: &Job<'_, '_>) -> Result<(), AllocError> {
    let mut lines = Vec::new(job.rt.alloc());
    tell_all(job, &mut lines)
}

fn tell_all(job: &Job<'_, '_>, lines: &mut Vec<u8>) -> Result<(), AllocError> {
    let mut entries = EntryLines::new(job.text.bytes);
    let carets = carets_of(job);
    let mut told = 0usize;
    for i in 0..job.notes.len() {
        let next = carets.partition_point(|caret| caret.earlier <= i);
        add_carets(job, carets, told, next, &mut entries, lines)?;
        told = next;
        add_note_at(job, i, &mut entries, lines)?;
        if lines.len() >= PIECE {
            tell(job.rt, lines);
        }
    }
    add_carets(job, carets, told, carets.len(), &mut entries, lines)?;
    tell(job.rt, lines);
    if job.text.wanted.verbose {
        add_unknown(job.rt.alloc(), job.notes, job.more, lines)?;
        tell(job.rt, lines);
    }
    Ok(())
}

// The notes on texts with an unescaped `%^`.
fn carets_of<'a>(job: &Job<'a, 'a>) -> &'a [CaretNote<'a>] {
    match job.more {
        Some(more) => more.carets(),
        None => &[],
    }
}

// Adds the lines for some of these notes.
fn add_carets(
    job: &Job<'_, '_>,
    carets: &[CaretNote<'_>],
    start: usize,
    end: usize,
    entries: &mut EntryLines<'_>,
    lines: &mut Vec<u8>,
) -> Result<(), AllocError> {
    for caret in carets.get(start..end).unwrap_or(&[]) {
        let warning = Warning {
            line: caret.line,
            doubt: Doubt::Caret,
            name: caret.name,
        };
        add_one(job, warning, entries, lines)?;
    }
    Ok(())
}

// Adds the line for the note at an index. Notes are in the order of their lines.
fn add_note_at(
    job: &Job<'_, '_>,
    i: usize,
    entries: &mut EntryLines<'_>,
    lines: &mut Vec<u8>,
) -> Result<(), AllocError> {
    match note_at(job, i) {
        Some(warning) => add_one(job, warning, entries, lines),
        None => Ok(()),
    }
}

// Adds the line for a warning.
fn add_one(
    job: &Job<'_, '_>,
    warning: Warning<'_>,
    entries: &mut EntryLines<'_>,
    lines: &mut Vec<u8>,
) -> Result<(), AllocError> {
    if !job.text.wanted.verbose {
        return add_warning(job.rt.alloc(), warning, lines);
    }
    let names = entries.names_at(warning.line);
    let message = warning_message(job.rt.alloc(), job.text.file, names, warning)?;
    add_message(message.as_str(), lines)
}

// The note at an index, unless nothing is doubtful with all names known.
fn note_at<'a>(job: &Job<'a, '_>, i: usize) -> Option<Warning<'a>> {
    if i >= job.notes.len() {
        return None;
    }
    let note = job.notes.at(i);
    Some(Warning {
        line: note.line,
        doubt: Doubt::Cause(cause_at(note.cause, i, job.more)?),
        name: note.name,
    })
}

// Prints lines on standard error.
fn tell(rt: &HostRuntime, lines: &mut Vec<u8>) {
    let _ = rt.stderr().write_all(lines.as_slice());
    lines.clear();
}
