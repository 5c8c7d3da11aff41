//! Operations of a terminal, as words.

use check_harness::answers::{add_number, add_place, add_text, add_word};
use check_harness::buffers::Buffer;
use check_harness::troubles::Trouble;
use check_harness::words::Words;
use scr_cells::Attrs;
use scr_term::Op;

/// Reads an operation: `home`, `move R C`, `column C`, `line R`, `up N`, `down N`, `left N`, `right N`, `up_by N`,
/// `down_by N`, `left_by N`, `right_by N`, `return`, `clear`, `erase_line`, `erase_below`, `erase_chars N`,
/// `insert_lines N`, `delete_lines N`, `insert_chars N`, `delete_chars N`, `scroll_up N`, `scroll_down N`, `reset`,
/// `exit_attributes`, `enter A`, `set A`, `fore N`, `back N`, `put B` or `repeat B N`.
pub fn read_op(words: &mut Words<'_>) -> Result<Op, Trouble> {
    Ok(match words.name() {
        "reset" => Op::Reset,
        "exit_attributes" => Op::ExitAttributes,
        "enter" => Op::Enter(Attrs(words.byte())),
        "set" => Op::Set(Attrs(words.byte())),
        "fore" => Op::Fore(words.byte()),
        "back" => Op::Back(words.byte()),
        "put" => Op::Put(words.byte()),
        "write" => Op::Write(char::from_u32(words.number()).unwrap_or(' ')),
        "repeat" => Op::Repeat(words.byte(), words.number()),
        "home" => Op::Home,
        "return" => Op::Return,
        "clear" => Op::Clear,
        "erase_line" => Op::EraseLine,
        "erase_below" => Op::EraseBelow,
        word => return read_counted(word, words),
    })
}

// Reads an operation with a count, a row or a column.
fn read_counted(word: &str, words: &mut Words<'_>) -> Result<Op, Trouble> {
    let number = words.number();
    Ok(match word {
        "move" => Op::Move(number, words.number()),
        "column" => Op::Column(number),
        "line" => Op::Line(number),
        "up" => Op::Up(number),
        "down" => Op::Down(number),
        "left" => Op::Left(number),
        "right" => Op::Right(number),
        "up_by" => Op::UpBy(number),
        "down_by" => Op::DownBy(number),
        "left_by" => Op::LeftBy(number),
        "right_by" => Op::RightBy(number),
        "erase_chars" => Op::EraseChars(number),
        "insert_lines" => Op::InsertLines(number),
        "delete_lines" => Op::DeleteLines(number),
        "insert_chars" => Op::InsertChars(number),
        "delete_chars" => Op::DeleteChars(number),
        "scroll_up" => Op::ScrollUp(number),
        "scroll_down" => Op::ScrollDown(number),
        _ => return Err(Trouble::Bad("no operation")),
    })
}

/// Adds an operation.
pub fn add_op(op: Op, got: &mut Buffer) {
    match op {
        Op::Move(row, column) => {
            add_word("move", got);
            add_place(row, column, got)
        }
        Op::Put(byte) => {
            add_word("put", got);
            add_text(&[byte], got)
        }
        Op::Write(character) => {
            add_word("write", got);
            add_number(i64::from(u32::from(character)), got)
        }
        Op::Repeat(byte, count) => {
            add_word("repeat", got);
            add_text(&[byte], got);
            add_number(i64::from(count), got)
        }
        op => {
            let (name, number) = named(op);
            add_word(name, got);
            if let Some(number) = number {
                add_number(i64::from(number), got);
            }
        }
    }
}

// The name of an operation, and its number, if it has one.
fn named(op: Op) -> (&'static str, Option<u32>) {
    match op {
        Op::Enter(attrs) => ("enter", Some(u32::from(attrs.0))),
        Op::Set(attrs) => ("set", Some(u32::from(attrs.0))),
        Op::Fore(colour) => ("fore", Some(u32::from(colour))),
        Op::Back(colour) => ("back", Some(u32::from(colour))),
        Op::EraseChars(count) => ("erase_chars", Some(count)),
        Op::InsertLines(count) => ("insert_lines", Some(count)),
        Op::DeleteLines(count) => ("delete_lines", Some(count)),
        Op::InsertChars(count) => ("insert_chars", Some(count)),
        Op::DeleteChars(count) => ("delete_chars", Some(count)),
        Op::ScrollUp(count) => ("scroll_up", Some(count)),
        Op::ScrollDown(count) => ("scroll_down", Some(count)),
        Op::Column(column) => ("column", Some(column)),
        Op::Line(row) => ("line", Some(row)),
        Op::Up(count) => ("up", Some(count)),
        Op::Down(count) => ("down", Some(count)),
        Op::Left(count) => ("left", Some(count)),
        Op::Right(count) => ("right", Some(count)),
        Op::UpBy(count) => ("up_by", Some(count)),
        Op::DownBy(count) => ("down_by", Some(count)),
        Op::LeftBy(count) => ("left_by", Some(count)),
        Op::RightBy(count) => ("right_by", Some(count)),
        Op::Home => ("home", None),
        Op::Return => ("return", None),
        Op::Clear => ("clear", None),
        Op::EraseLine => ("erase_line", None),
        Op::EraseBelow => ("erase_below", None),
        Op::Reset => ("reset", None),
        Op::ExitAttributes => ("exit_attributes", None),
        _ => ("?", None),
    }
}
