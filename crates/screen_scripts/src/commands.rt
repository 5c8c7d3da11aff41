//! Commands: reading a line of a script.
ghost use Rattle.std.specs.Prelude.{◌≡◌, None, Some, IfOk, IsErrOf};
ghost use Rattle.std.specs.Option.{option_copied};
ghost use Rattle.screen_scripts.specs.Commands.{addition, command_of, key_bytes, size_read, string_command, word_alone};
ghost use Rattle.screen_calls.specs.Fields.{number as number_of};
ghost use Rattle.screen_calls.specs.Reading.{IsRefused, read};

use crate::LineFault;
use screen_calls::{
    Call, CallFault, Reason, copied, count_fault_of, cut_field, field_and_text, hexadecimal_bytes,
    number, read_call,
};
use std::alloc::Global;
use ti_caps::Bytes;

/// A command: what a line of a script says.
#[derive(Drop)]
pub enum Command {
    /// `size R C`: the rows and columns of the screen, which may not be a valid size.
    Size(u32, u32),
    /// `add R C TEXT`: adds a text at a row and a column of window 0.
    Add(u32, u32, Bytes),
    /// `show`: copies window 0 to the virtual screen, and updates the terminal.
    Show,
    /// A call of the screen.
    Make(Call),
    /// `key HH ..`: bytes from the keyboard.
    Key(Bytes),
    /// `text W TEXT`: adds a text of characters to a window. One that is not UTF-8 is left for the run to refuse.
    Text(u32, Bytes),
    /// `idle`: no byte came from the keyboard for a while.
    Idle,
}

/// Reads a line of a script: a word, followed by a blank and its arguments if it has any. Beside the words here these
/// are the short names of calls (`screen_sessions::read_call`).
///
/// Refused with the first thing that is wrong with the line, and if memory runs out.
#[tactic(auto, unfolding(crate::specs::Commands::command_of))]
pub fn parse_command<'a>(alloc: Global, line: &'a [u8]) -> Result<Command, CallFault<'a>>
    ensures ok { IfOk result (λ command. command_of line.now ≡ Some command) }
    ensures bad { IsRefused result → command_of line.now ≡ None }
{
    let (word, text) = cut_field(line);
    if word == b"size".as_slice() {
        Ok(size(text)?)
    } else if word == b"add".as_slice() {
        addition(alloc, text)
    } else if word == b"text".as_slice() {
        string_command(alloc, text)
    } else if word == b"key".as_slice() {
        key_bytes(alloc, text)
    } else if word == b"show".as_slice() {
        Ok(alone(Command::Show, text)?)
    } else if word == b"idle".as_slice() {
        Ok(alone(Command::Idle, text)?)
    } else {
        Ok(Command::Make(read_call(alloc, line)?))
    }
}

/// Reads a line of a script as `parse_command` does.
///
/// Refused with [`LineFault::Bad`] if the line is not a command, with [`LineFault::NoMemory`] if
/// memory runs out.
pub fn read_command(alloc: Global, line: &[u8]) -> Result<Command, LineFault>
    ensures ok { IfOk result (λ command. command_of line.now ≡ Some command) }
    ensures bad { IsErrOf result LineFault.Bad → command_of line.now ≡ None }
{
    match parse_command(alloc, line) {
        Ok(command) => Ok(command),
        Err(CallFault::Bad(_)) => Err(LineFault::Bad),
        Err(CallFault::NoMemory) => Err(LineFault::NoMemory),
    }
}

// `size R C`.
fn size<'a>(text: Option<&'a [u8]>) -> Result<Command, Reason<'a>>
    ensures { read result ≡ size_read (option_copied text.entry) }
{
    let (rows, columns) = field_and_text(text)?;
    match cut_field(columns) {
        (columns, None) => Ok(Command::Size(extent(rows)?, extent(columns)?)),
        (_, Some(_)) => Err(count_fault_of(text)),
    }
}

// A number of rows or columns.
fn extent<'a>(field: &'a [u8]) -> Result<u32, Reason<'a>>
    ensures { read result ≡ number_of field.now }
{
    match number(field) {
        Ok(number) => Ok(number),
        Err(Reason::OutOfRange) => Err(Reason::WrongSize),
        Err(reason) => Err(reason),
    }
}

// A word with nothing behind it.
fn alone<'a>(command: Command, text: Option<&'a [u8]>) -> Result<Command, Reason<'a>>
    ensures { read result ≡ word_alone command (option_copied text.entry) }
{
    match text {
        None => Ok(command),
        Some(_) => Err(count_fault_of(text)),
    }
}

// `add R C TEXT`.
fn addition<'a>(alloc: Global, text: Option<&'a [u8]>) -> Result<Command, CallFault<'a>>
    ensures ok { IfOk result (λ command. addition (option_copied text.entry) ≡ Some command) }
    ensures bad { IsRefused result → addition (option_copied text.entry) ≡ None }
{
    let (row, rest) = field_and_text(text)?;
    let Ok((column, added)) = field_and_text(Some(rest)) else {
        return Err(CallFault::Bad(count_fault_of(text)));
    };
    let (row, column) = (number(row)?, number(column)?);
    Ok(Command::Add(row, column, copied(alloc, added)?))
}

// `text W TEXT`.
fn string_command<'a>(alloc: Global, text: Option<&'a [u8]>) -> Result<Command, CallFault<'a>>
    ensures ok { IfOk result (λ command. string_command (option_copied text.entry) ≡ Some command) }
    ensures bad { IsRefused result → string_command (option_copied text.entry) ≡ None }
{
    let (window, added) = field_and_text(text)?;
    let window = number(window)?;
    Ok(Command::Text(window, copied(alloc, added)?))
}

// `key HH ..`.
fn key_bytes<'a>(alloc: Global, text: Option<&'a [u8]>) -> Result<Command, CallFault<'a>>
    ensures ok { IfOk result (λ command. key_bytes (option_copied text.entry) ≡ Some command) }
    ensures bad { IsRefused result → key_bytes (option_copied text.entry) ≡ None }
{
    match text {
        Some(digits) => Ok(Command::Key(hexadecimal_bytes(alloc, digits)?)),
        None => Err(CallFault::Bad(Reason::WrongCount)),
    }
}
