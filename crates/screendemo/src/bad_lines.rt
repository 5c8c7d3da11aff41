//! Why a line of a script is a bad command: for what it says, or for where it stands.

use scr_cells::Size;
use screen_scripts::{Command, cut_line, parse_call_line, parse_command};
use screen_sessions::{CallFault, Reason};
use std::alloc::{AllocError, Global};
use std::fmt;
use std::fmt::{Display, Formatter};

// What is wrong with a line: its words, or its end or place.
#[derive(Clone, Copy)]
enum Wrong<'a> {
    Words(Reason<'a>),
    Other(&'static str),
}

impl<'a> Display for Wrong<'a> {
    fn fmt<W: fmt::Write>(&self, f: &mut Formatter<W>) -> fmt::Result {
        match self {
            Wrong::Words(reason) => reason.fmt(f),
            Wrong::Other(text) => f.write_str(text),
        }
    }
}

/// Why the line with this number, counted from 1, is a bad command, or no call either where lines may be calls; `None`
/// if it is none.
pub fn reason_at(
    alloc: Global,
    script: &[u8],
    number: u32,
    reads_calls: bool,
) -> Result<Option<String>, AllocError> {
    let Some(line) = line_at(script, number) else {
        return Ok(None);
    };
    let reader = Reader { alloc, reads_calls };
    match wrong_in(reader, line, number == 1)? {
        Some(wrong) => Ok(Some(format!(in alloc; "{wrong}")?)),
        None => Ok(None),
    }
}

fn line_at(script: &[u8], number: u32) -> Option<&[u8]> {
    let mut rest = script;
    for _ in 1..number {
        if rest.is_empty() {
            return None;
        }
        rest = cut_line(rest).1;
    }
    if rest.is_empty() {
        return None;
    }
    Some(cut_line(rest).0)
}

// How lines are read: as commands alone, or also as calls.
#[derive(Clone, Copy)]
struct Reader {
    alloc: Global,
    reads_calls: bool,
}

impl Reader {
    fn read<'a>(&self, line: &'a [u8]) -> Result<Command, CallFault<'a>> {
        if self.reads_calls {
            Ok(parse_call_line(self.alloc, line)?.command)
        } else {
            parse_command(self.alloc, line)
        }
    }
}

// What is wrong with a line, as it is read or for where it stands.
fn wrong_in<'a>(
    reader: Reader,
    line: &'a [u8],
    is_first: bool,
) -> Result<Option<Wrong<'a>>, AllocError> {
    match reader.read(line) {
        Ok(command) => Ok(misplaced(&command, is_first)),
        Err(CallFault::NoMemory) => Err(AllocError),
        Err(CallFault::Bad(reason)) => Ok(Some(unread(reader, line, reason)?)),
    }
}

// What is wrong with where a command stands, or with what only a run looks at.
fn misplaced<'a>(command: &Command, is_first: bool) -> Option<Wrong<'a>> {
    match command {
        Command::Size(rows, columns) if is_first => match Size::new(*rows, *columns) {
            Some(_) => None,
            None => Some(Wrong::Words(Reason::WrongSize)),
        },
        Command::Size(_, _) => Some(Wrong::Other("size after the first line")),
        _ if is_first => Some(Wrong::Other("the first line is not a size")),
        Command::Text(_, text) => match std::str::from_utf8(&text.0) {
            Ok(_) => None,
            Err(_) => Some(Wrong::Words(Reason::NotUtf8)),
        },
        _ => None,
    }
}

// What is wrong with a line that is not read: a carriage return at its end comes last.
fn unread<'a>(reader: Reader, line: &'a [u8], reason: Reason<'a>) -> Result<Wrong<'a>, AllocError> {
    match line {
        [] | [b'\r'] => Ok(Wrong::Words(Reason::Empty)),
        [before @ .., b'\r'] => match reader.read(before) {
            Ok(_) => Ok(Wrong::Other("a carriage return at the end")),
            Err(CallFault::NoMemory) => Err(AllocError),
            Err(CallFault::Bad(reason)) => Ok(Wrong::Words(reason)),
        },
        _ => Ok(Wrong::Words(reason)),
    }
}
