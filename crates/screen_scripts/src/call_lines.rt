//! Lines of a script of calls: commands, calls by the names of the screen's methods, and updates that fail.

use crate::commands::{Command, parse_command};
use screen_calls::{Call, CallFault, Reason, count_fault_of, cut_field, number};
use screen_sessions::WriterFault;
use std::alloc::Global;

/// What a line of a script of calls says.
#[derive(Drop)]
pub struct CallLine {
    /// The command.
    pub command: Command,
    /// How the writer of its update fails, if it does.
    pub fails: Option<WriterFault>,
}

/// Reads a line of a script of calls: a command (`parse_command`); or a call by the name of the screen's method
/// (`Call::parse`); or an update whose writer fails, `update_writing K` after K bytes, `update_failing` at once,
/// `update_stuck K` by accepting nothing after K bytes, `update_flushing` where it is flushed.
///
/// Refused with what is wrong with the line, and if memory runs out.
pub fn parse_call_line<'a>(alloc: Global, line: &'a [u8]) -> Result<CallLine, CallFault<'a>> {
    let fails = failing_update(line)?;
    let command = if fails.is_some() {
        Command::Make(Call::Doupdate)
    } else {
        command_or_call(alloc, line)?
    };
    Ok(CallLine { command, fails })
}

// A command, or a call by the name of the screen's method. Where a line is neither, it is a call with something wrong,
// if that has its name.
fn command_or_call<'a>(alloc: Global, line: &'a [u8]) -> Result<Command, CallFault<'a>> {
    match parse_command(alloc, line) {
        Err(CallFault::Bad(reason)) => match Call::parse(alloc, line) {
            Ok(call) => Ok(Command::Make(call)),
            Err(CallFault::Bad(Reason::Unknown(_))) => Err(CallFault::Bad(reason)),
            Err(fault) => Err(fault),
        },
        read => read,
    }
}

// How an update fails, if the line is one that does.
fn failing_update<'a>(line: &'a [u8]) -> Result<Option<WriterFault>, Reason<'a>> {
    let (word, text) = cut_field(line);
    let Some((mut fault, has_limit)) = named_fault(word) else {
        return Ok(None);
    };
    match text {
        Some(limit) if has_limit => fault.limit = number(limit)? as usize,
        None if !has_limit => {}
        _ => return Err(count_fault_of(text)),
    }
    Ok(Some(fault))
}

// The fault of an update by this name, and whether a number follows.
fn named_fault(word: &[u8]) -> Option<(WriterFault, bool)> {
    WriterFault::named(str::from_utf8(word).ok()?.strip_prefix("update")?)
}
