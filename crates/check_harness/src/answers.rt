//! Answers in words, as they follow the `=` of a line.

use crate::buffers::Buffer;
use crate::texts::{write_byte, write_text};
use crate::troubles::Trouble;
use crate::words::Words;
use scr_cells::{Attrs, Cell, Look};
use std::fmt::Debug;
use std::io::Write;

/// Adds a word.
pub fn add_word(word: &str, got: &mut Buffer) {
    add_bytes(word.as_bytes(), got);
}

/// Adds a number.
pub fn add_number(number: i64, got: &mut Buffer) {
    let mut digits = itoa::Buffer::new();
    add_bytes(digits.format(number).as_bytes(), got);
}

/// Adds a count.
pub fn add_count(count: u64, got: &mut Buffer) {
    add_number(i64::try_from(count).unwrap_or(i64::MAX), got);
}

/// Adds a text.
pub fn add_text(text: &[u8], got: &mut Buffer) {
    got.push(b' ');
    write_text(text, got);
}

/// Adds the name of a refusal that tells nothing else.
pub fn add_name<F: Debug>(fault: &F, got: &mut Buffer) {
    got.push(b' ');
    let written = write!(got.vector(), "{fault:?}");
    got.check(written.is_ok());
}

/// Adds what there is, or `none`.
pub fn add_any<T: Drop, A: FnOnce(T, &mut Buffer)>(there: Option<T>, got: &mut Buffer, add: A)
    requires { A.IsAlwaysCallable add }
{
    match there {
        Some(value) => add(value, got),
        None => add_word("none", got),
    }
}

/// Adds what was made, or the name of the refusal.
pub fn add_made<T: Drop, F: Debug + Drop, A: FnOnce(T, &mut Buffer)>(
    made: Result<T, F>,
    got: &mut Buffer,
    add: A,
)
    requires { A.IsAlwaysCallable add }
{
    match made {
        Ok(value) => add(value, got),
        Err(fault) => add_name(&fault, got),
    }
}

/// Adds `yes` or `no`.
pub fn add_flag(flag: bool, got: &mut Buffer) {
    add_word(if flag { "yes" } else { "no" }, got);
}

/// Adds a row and a column, or two counts.
pub fn add_place(row: u32, column: u32, got: &mut Buffer) {
    add_number(i64::from(row), got);
    add_number(i64::from(column), got);
}

/// Adds a row and a column, or two counts, if there are any, or `none`.
pub fn add_any_place(place: Option<(u32, u32)>, got: &mut Buffer) {
    add_any(place, got, |(row, column), got| add_place(row, column, got));
}

/// Adds `Ok`, or the name of the refusal.
pub fn add_done<F: Debug + Drop>(done: Result<(), F>, got: &mut Buffer) {
    add_made(done, got, |_, got| add_word("Ok", got));
}

/// Adds what a cell holds: a byte, attributes, and the colour pair where it is not 0.
pub fn add_held(byte: u8, attrs: u8, pair: u32, got: &mut Buffer) {
    add_text(&[byte], got);
    add_number(i64::from(attrs), got);
    if pair > 0 {
        add_number(i64::from(pair), got);
    }
}

/// Adds what a cell holds.
pub fn add_cell(cell: Cell, got: &mut Buffer) {
    add_held(cell.stand_in(), cell.attrs().0, cell.pair(), got);
}

/// Adds the byte and the attributes of a look, and its foreground and background where one is not the default.
pub fn add_look(look: Look, got: &mut Buffer) {
    add_held(look.stand_in(), look.attrs().0, 0, got);
    let (foreground, background) = (look.foreground(), look.background());
    if foreground.is_some() || background.is_some() {
        add_colour(foreground, got);
        add_colour(background, got);
    }
}

/// Reads a cell: a byte, attributes, and a colour pair if there is one more word.
pub fn read_cell(words: &mut Words<'_>) -> Cell {
    let (byte, attrs) = (words.byte(), Attrs(words.byte()));
    match Cell::paired(byte, attrs, words.number_if_any()) {
        Some(cell) => cell,
        None => {
            words.fail(Trouble::Bad("no cell"));
            Cell::blank()
        }
    }
}

/// Adds a colour, or `-` for the default one.
pub fn add_colour(colour: Option<u8>, got: &mut Buffer) {
    match colour {
        Some(colour) => add_number(i64::from(colour), got),
        None => add_word("-", got),
    }
}

/// Adds the bytes of cells as a text.
pub fn add_text_of(cells: &[Cell], got: &mut Buffer) {
    got.extend(b" \"");
    for cell in cells {
        write_byte(cell.stand_in(), got);
    }
    got.push(b'"');
}

/// Adds the characters of looks as a text in UTF-8.
pub fn add_text_shown(looks: &[Look], got: &mut Buffer) {
    got.extend(b" \"");
    for look in looks {
        for byte in look.character().encode_utf8(&mut [0; 4]).as_bytes() {
            write_byte(*byte, got);
        }
    }
    got.push(b'"');
}

/// Adds the words that are wanted, each in the one form in which answers are written; `text` is room for a text.
pub fn add_wanted(wanted: &mut Words<'_>, text: &mut Buffer, got: &mut Buffer) {
    for _ in 0..u32::MAX {
        let word = wanted.peek();
        if word.is_empty() {
            break;
        }
        if word.starts_with(b"\"") {
            wanted.text(text);
            add_text(text.bytes(), got);
        } else {
            add_bytes(wanted.next(), got);
        }
    }
}

fn add_bytes(word: &[u8], got: &mut Buffer) {
    got.push(b' ');
    got.extend(word);
}
