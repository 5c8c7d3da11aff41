//! The messages of `-v`: an error or a note, with the place where it is.

use crate::fields::unseparated;
use crate::located::Located;
use crate::notes::{Doubt, Warning};
use crate::places::place_at;
use crate::report::word_of;
use std::alloc::{AllocError, Global};
use ti_caps::first_name;
use ti_compile::TicFault;
use ti_source::{Cause, SourceFault};

/// Of a name or a field as many bytes are shown.
const MOST_SHOWN: usize = 60;

/// The message for an error: `FILE:LINE:COLUMN: entry NAME: FIELD: ERROR`, without the parts that
/// the error has not.
pub(crate) fn error_message(
    alloc: Global,
    file: &str,
    source: &[u8],
    located: Located<'_>,
    fault: TicFault,
) -> Result<String, AllocError> {
    let place = place_at(source, located.offset);
    let line = place.line;
    let mut message = if located.has_column {
        let column = place.column;
        format!(in alloc; "{file}:{line}:{column}: ")?
    } else {
        format!(in alloc; "{file}:{line}: ")?
    };
    add_entry(place.names, &mut message)?;
    if let Some(field) = located.field {
        add_shown(field, &mut message)?;
        message.push_str(": ")?;
    }
    add_fault(alloc, fault, &mut message)?;
    if fault_may_be_comma(fault) {
        add_hint(located.field.unwrap_or(&[]), &mut message)?;
    }
    Ok(message)
}

/// The message for a warning about a field of an entry with these names: `FILE:LINE: entry NAME:
/// DOUBT FIELD`.
pub(crate) fn warning_message(
    alloc: Global,
    file: &str,
    names: Option<&[u8]>,
    warning: Warning<'_>,
) -> Result<String, AllocError> {
    let line = warning.line;
    let mut message = format!(in alloc; "{file}:{line}: ")?;
    add_entry(names, &mut message)?;
    message.push_str(word_of(warning.doubt))?;
    message.push_str(" ")?;
    add_shown(warning.name, &mut message)?;
    if warning.doubt == Doubt::Cause(Cause::Unknown) {
        add_hint(warning.name, &mut message)?;
    }
    Ok(message)
}

fn fault_may_be_comma(fault: TicFault) -> bool {
    matches!(fault, TicFault::Source(SourceFault::BadNumber(_)))
}

// Adds an error's text without its line.
fn add_fault(alloc: Global, fault: TicFault, message: &mut String) -> Result<(), AllocError> {
    let text = format!(in alloc; "{fault}")?;
    match text.split_once(": ") {
        Some((_, text)) => message.push_str(text),
        None => message.push_str(text.as_str()),
    }
}

// Adds which entry has these names: the first of them, unless it is empty.
fn add_entry(names: Option<&[u8]>, message: &mut String) -> Result<(), AllocError> {
    let names = names.unwrap_or(&[]);
    let first = first_name(names);
    let name = if first.is_empty() { names } else { first };
    if name.is_empty() {
        return Ok(());
    }
    message.push_str("entry ")?;
    add_shown(name, message)?;
    message.push_str(": ")
}

// Adds that a comma may be missing, if the words of a field look like fields.
fn add_hint(field: &[u8], message: &mut String) -> Result<(), AllocError> {
    let Some((before, after)) = unseparated(field) else {
        return Ok(());
    };
    message.push_str(" (a comma missing between ")?;
    add_shown(before, message)?;
    message.push_str(" and ")?;
    add_shown(after, message)?;
    message.push_str("?)")
}

// Adds the beginning of a name or a field; a byte that does not print is an octal escape.
fn add_shown(text: &[u8], message: &mut String) -> Result<(), AllocError> {
    for byte in text.get(..MOST_SHOWN).unwrap_or(text) {
        add_byte(*byte, message)?;
    }
    if text.len() > MOST_SHOWN {
        message.push_str("...")?;
    }
    Ok(())
}

fn add_byte(byte: u8, message: &mut String) -> Result<(), AllocError> {
    if (32..=126).contains(&byte) {
        return message.push(char::from(byte));
    }
    message.push('\\')?;
    message.push(digit(byte / 64))?;
    message.push(digit(byte / 8 % 8))?;
    message.push(digit(byte % 8))
}

fn digit(value: u8) -> char {
    char::from(b'0'.saturating_add(value))
}
