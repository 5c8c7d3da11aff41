//! Answers of the terminfo libraries, in words.

use check_harness::answers::{add_name, add_number, add_text, add_word};
use check_harness::buffers::Buffer;
use check_harness::checking::put;
use check_harness::words::Words;
use std::fmt::Display;
use std::io::Write;
use ti_caps::{Entry, Kind, Slot, name_of};
use ti_source::Note;

/// Reads the position of a capability, 65,535 where the number is greater.
pub fn read_slot(words: &mut Words<'_>) -> Slot {
    Slot(u16::try_from(words.number()).unwrap_or(u16::MAX))
}

/// Adds what was made, or that it was refused.
pub fn add_made<T: Drop, F: Display + Drop, A: FnOnce(&T, &mut Buffer)>(
    made: Result<T, F>,
    got: &mut Buffer,
    add: A,
)
    requires { A.IsAlwaysCallable add }
{
    match made {
        Ok(made) => add(&made, got),
        Err(fault) => add_refusal(&fault, got),
    }
}

/// Adds `Ok`, or that a call was refused.
pub fn add_done<F: Display + Drop>(done: Result<(), F>, got: &mut Buffer) {
    match done {
        Ok(()) => add_word("Ok", got),
        Err(fault) => add_refusal(&fault, got),
    }
}

/// Keeps what was made, or adds that it was refused. Tells whether it was made.
pub fn keep<T: Drop, F: Display + Drop>(
    made: Result<T, F>,
    place: &mut Option<T>,
    got: &mut Buffer,
) -> bool {
    match made {
        Ok(value) => {
            put(place, Some(value));
            true
        }
        Err(fault) => {
            add_refusal(&fault, got);
            false
        }
    }
}

/// Whether memory ran out for what was added after so many bytes, which is removed then.
pub fn is_taken_back(from: usize, got: &mut Buffer) -> bool {
    let ran_out = got.bytes().ends_with(b" NoMemory");
    if ran_out {
        got.vector().truncate(from);
    }
    ran_out
}

/// Adds that a call was refused, with the text of the error, and `NoMemory` after it where memory ran out.
pub fn add_refusal<F: Display>(fault: &F, got: &mut Buffer) {
    got.extend(b" refused \"");
    let written = write!(got.vector(), "{fault}");
    got.check(written.is_ok());
    let ran_out = got.bytes().ends_with(b"\"out of memory");
    got.push(b'"');
    if ran_out {
        add_word("NoMemory", got);
    }
}

/// Adds an entry: its names, each flag by its name, each number after its name, and each text after its name, each
/// kind by position. A capability without a name has its kind and its position, as `Flag 40`, `Number 40 0` and `Text
/// 271 "x"`.
pub fn add_entry(entry: &Entry, got: &mut Buffer) {
    add_text(entry.names(), got);
    for position in 0..64u16 {
        add_flag_at(entry, Slot(position), got);
    }
    for position in 0..64u16 {
        add_number_at(entry, Slot(position), got);
    }
    for position in 0..512u16 {
        add_text_at(entry, Slot(position), got);
    }
}

/// Adds the entry that there is.
pub fn add_entry_if_any(entry: &Option<Entry>, got: &mut Buffer) {
    if let Some(entry) = entry {
        add_entry(entry, got);
    }
}

fn add_flag_at(entry: &Entry, slot: Slot, got: &mut Buffer) {
    if entry.flag(slot) {
        add_capability(Kind::Flag, slot, got);
    }
}

fn add_number_at(entry: &Entry, slot: Slot, got: &mut Buffer) {
    if let Some(number) = entry.number(slot) {
        add_capability(Kind::Number, slot, got);
        add_number(i64::from(number), got);
    }
}

fn add_text_at(entry: &Entry, slot: Slot, got: &mut Buffer) {
    if let Some(text) = entry.text(slot) {
        add_capability(Kind::Text, slot, got);
        add_text(text, got);
    }
}

// Adds the name of a capability, or its kind and position where it has none.
fn add_capability(kind: Kind, slot: Slot, got: &mut Buffer) {
    match name_of(kind, slot) {
        Some(name) => add_word(name, got),
        None => {
            add_name(&kind, got);
            add_number(i64::from(slot.0), got);
        }
    }
}

/// Adds notes: of each its line, cause and name.
pub fn add_notes(notes: &[Note], got: &mut Buffer) {
    for note in notes {
        add_note(note, got);
    }
}

/// Adds a note.
pub fn add_note(note: &Note, got: &mut Buffer) {
    add_number(i64::from(note.line), got);
    add_name(&note.cause, got);
    add_text(&note.name.0, got);
}
