//! Reading operations, one a line, in the form in which `-e` prints them.

use scr_cells::{Attrs, NoMemory};
use scr_term::{Op, Ops};
use screen_scripts::cut_line;
use std::alloc::Global;

/// Why operations were not read.
#[derive(Clone, Copy, PartialEq, Eq)]
pub enum OperationsFault {
    /// The line with this number is no operation.
    Bad(u32),
    /// Memory ran out.
    NoMemory,
}

impl From<NoMemory> for OperationsFault {
    fn from(_e: NoMemory) -> OperationsFault {
        OperationsFault::NoMemory
    }
}

/// Operations, and for each the number of its line.
#[derive(Drop)]
pub struct Listed {
    /// The operations.
    pub ops: Ops,
    /// The numbers of their lines, counted from 1.
    pub lines: Vec<u32>,
}

/// Reads operations, one a line: its name with its numbers, attributes or character, `Move(4, 9)`, `Set(underline bold)`,
/// `Put(q)`; or characters between bars, each of which is written. What stands behind an operation or before a bar is not
/// read, nor are empty lines and a last line with sums (`plan ..`), so what `-e` prints can be read.
pub fn read_operations(alloc: Global, text: &[u8]) -> Result<Listed, OperationsFault> {
    let mut listed = Listed {
        ops: Ops(Vec::new(alloc)),
        lines: Vec::new(alloc),
    };
    let mut rest = text;
    let mut number: u32 = 1;
    while !rest.is_empty() {
        let (line, after) = cut_line(rest);
        let Ok(line) = std::str::from_utf8(line) else {
            return Err(OperationsFault::Bad(number));
        };
        if !read_line(line, number, &mut listed)? {
            return Err(OperationsFault::Bad(number));
        }
        rest = after;
        number = number.saturating_add(1);
    }
    Ok(listed)
}

// Adds the operations of a line, and returns whether it is one.
fn read_line(line: &str, number: u32, listed: &mut Listed) -> Result<bool, NoMemory> {
    if line.is_empty() || line.starts_with("plan ") {
        return Ok(true);
    }
    if let Some(characters) = between_bars(line) {
        for character in characters.chars() {
            add(Op::of(character), number, listed)?;
        }
        return Ok(true);
    }
    match operation(line) {
        Some(op) => {
            add(op, number, listed)?;
            Ok(true)
        }
        None => Ok(false),
    }
}

fn add(op: Op, number: u32, listed: &mut Listed) -> Result<(), NoMemory> {
    listed.ops.0.push(op)?;
    listed.lines.push(number)?;
    Ok(())
}

// What stands between the first and the last bar of a line.
fn between_bars(line: &str) -> Option<&str> {
    let (_, rest) = line.split_once('|')?;
    rest.strip_suffix('|')
}

// The operation of a line.
fn operation(line: &str) -> Option<Op> {
    match line.split_once('(') {
        Some((name, rest)) => of_arguments(name, rest),
        None => alone(line.split(' ').next()?),
    }
}

// An operation that has only a name.
fn alone(name: &str) -> Option<Op> {
    match name {
        "Home" => Some(Op::Home),
        "Return" => Some(Op::Return),
        "Clear" => Some(Op::Clear),
        "EraseLine" => Some(Op::EraseLine),
        "EraseBelow" => Some(Op::EraseBelow),
        "Reset" => Some(Op::Reset),
        "ExitAttributes" => Some(Op::ExitAttributes),
        _ => None,
    }
}

// An operation with what stands behind its opening parenthesis.
fn of_arguments(name: &str, rest: &str) -> Option<Op> {
    match name {
        "Put" | "Write" => written(rest),
        "Repeat" => repeated(rest),
        "Enter" => Some(Op::Enter(attributes(rest)?)),
        "Set" => Some(Op::Set(attributes(rest)?)),
        "Move" => moved(rest),
        _ => counted(name, number_in(rest.split_once(')')?.0)?),
    }
}

fn written(rest: &str) -> Option<Op> {
    let mut characters = rest.chars();
    let character = characters.next()?;
    if character.is_control() || characters.next()? != ')' {
        return None;
    }
    Some(Op::of(character))
}

fn repeated(rest: &str) -> Option<Op> {
    let (character, count) = rest.split_once(", ")?;
    let &[byte] = character.as_bytes() else {
        return None;
    };
    Some(Op::Repeat(byte, number_in(count.split_once(')')?.0)?))
}

fn moved(rest: &str) -> Option<Op> {
    let (row, column) = rest.split_once(')')?.0.split_once(", ")?;
    Some(Op::Move(number_in(row)?, number_in(column)?))
}

// An operation with one number.
fn counted(name: &str, number: u32) -> Option<Op> {
    let op = match name {
        "Column" => Op::Column(number),
        "Line" => Op::Line(number),
        "Up" => Op::Up(number),
        "Down" => Op::Down(number),
        "Left" => Op::Left(number),
        "Right" => Op::Right(number),
        "UpBy" => Op::UpBy(number),
        "DownBy" => Op::DownBy(number),
        "LeftBy" => Op::LeftBy(number),
        "RightBy" => Op::RightBy(number),
        _ => return edited(name, number),
    };
    Some(op)
}

// An operation with one number that erases, inserts, deletes, scrolls or colours.
fn edited(name: &str, number: u32) -> Option<Op> {
    let op = match name {
        "EraseChars" => Op::EraseChars(number),
        "InsertLines" => Op::InsertLines(number),
        "DeleteLines" => Op::DeleteLines(number),
        "InsertChars" => Op::InsertChars(number),
        "DeleteChars" => Op::DeleteChars(number),
        "ScrollUp" => Op::ScrollUp(number),
        "ScrollDown" => Op::ScrollDown(number),
        "Fore" => Op::Fore(u8::try_from(number).ok()?),
        "Back" => Op::Back(u8::try_from(number).ok()?),
        _ => return None,
    };
    Some(op)
}

// The attributes with these names, up to the closing parenthesis.
fn attributes(rest: &str) -> Option<Attrs> {
    let mut all = Attrs(0);
    for name in rest.split_once(')')?.0.split(' ') {
        all = Attrs(all.0 | attribute(name)?.0);
    }
    Some(all)
}

fn attribute(name: &str) -> Option<Attrs> {
    match name {
        "standout" => Some(Attrs::STANDOUT),
        "underline" => Some(Attrs::UNDERLINE),
        "reverse" => Some(Attrs::REVERSE),
        "blink" => Some(Attrs::BLINK),
        "dim" => Some(Attrs::DIM),
        "bold" => Some(Attrs::BOLD),
        "invisible" => Some(Attrs::INVIS),
        _ => None,
    }
}

fn number_in(text: &str) -> Option<u32> {
    text.parse().ok()
}
