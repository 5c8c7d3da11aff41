//! Checking a script before it is run: its bad lines, the size of its screen, and its number of
//! updates.

use scr_cells::Size;
use screen_scripts::{Command, DemoFault, LineFault, cut_line, read_command};
use screen_sessions::Call;
use std::alloc::Global;

/// The size of the screen, from the script's first line.
///
/// Refused if the line is bad, or with `NoMemory`.
pub fn first_size(alloc: Global, line: &[u8]) -> Result<Size, DemoFault> {
    size_in(alloc, line).map_err(|fault| failure_at(1, fault))
}

// The size that a line gives; `Bad` if it is not a valid size.
fn size_in(alloc: Global, line: &[u8]) -> Result<Size, LineFault> {
    let Command::Size(rows, columns) = read_command(alloc, line)? else {
        return Err(LineFault::Bad);
    };
    Size::new(rows, columns).ok_or(LineFault::Bad)
}

/// The number of updates in the lines after the first.
///
/// Refused at a bad line, by its number, or with `NoMemory`.
pub fn count_updates(alloc: Global, lines: &[u8]) -> Result<u32, DemoFault> {
    let mut rest = lines;
    let mut number: u32 = 2;
    let mut count: u32 = 0;
    while !rest.is_empty() {
        let (line, after) = cut_line(rest);
        match is_update(alloc, line) {
            Ok(true) => count = count.saturating_add(1),
            Ok(false) => {}
            Err(fault) => return Err(failure_at(number, fault)),
        }
        rest = after;
        number = number.saturating_add(1);
    }
    Ok(count)
}

// Whether a line after the first updates the terminal; `Bad` if it is not a command, is another
// `size`, or has a text that is not UTF-8.
fn is_update(alloc: Global, line: &[u8]) -> Result<bool, LineFault> {
    match read_command(alloc, line)? {
        Command::Size(_, _) => Err(LineFault::Bad),
        Command::Text(_, text) => match String::from_utf8(text.0) {
            Ok(_) => Ok(false),
            Err(_) => Err(LineFault::Bad),
        },
        Command::Show | Command::Make(Call::Doupdate) => Ok(true),
        _ => Ok(false),
    }
}

// The failure for the error of a line.
fn failure_at(number: u32, fault: LineFault) -> DemoFault {
    match fault {
        LineFault::Bad => DemoFault::BadCommand(number),
        LineFault::NoMemory => DemoFault::NoMemory,
    }
}
