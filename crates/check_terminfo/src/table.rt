//! Lines about the table of capabilities and about names.

use crate::answers::read_slot;
use check_harness::answers::{add_flag, add_name, add_number, add_text, add_word};
use check_harness::buffers::Buffer;
use check_harness::troubles::Trouble;
use check_harness::words::{CallLine, Words};
use ti_caps::{Kind, Slot, are_names, find_name, first_name, name_of};

/// The lines `find NAME`, `name-of KIND POSITION`, `table KIND POSITION NAME..`, `named KIND`, `are-names TEXT` and
/// `first-name TEXT`. Tells whether a line is one of them.
pub fn answer_of_table(line: &mut CallLine<'_>) -> bool {
    match line.name {
        "name-of" | "table" | "named" => {
            answer_of_kind(line.name, &mut line.words, &mut line.got);
        }
        "find" | "are-names" | "first-name" => {
            let text = line.text();
            answer_of_name(line.name, text.bytes(), &mut line.got);
        }
        _ => return false,
    }
    true
}

fn answer_of_name(word: &str, text: &[u8], got: &mut Buffer) {
    match word {
        "find" => find(text, got),
        "are-names" => add_flag(are_names(text), got),
        _ => add_text(first_name(text), got),
    }
}

fn find(name: &[u8], got: &mut Buffer) {
    match find_name(name) {
        Some((kind, slot)) => {
            add_name(&kind, got);
            add_number(i64::from(slot.0), got);
        }
        None => add_word("none", got),
    }
}

fn answer_of_kind(word: &str, words: &mut Words<'_>, got: &mut Buffer) {
    let kind = read_kind(words);
    match word {
        "name-of" => add_word(name_of(kind, read_slot(words)).unwrap_or("none"), got),
        "table" => add_names_from(kind, read_slot(words).0, words, got),
        _ => count_named(kind, got),
    }
}

// Adds each name that is not at its position, one after another, and then the position after the last.
fn add_names_from(kind: Kind, first: u16, words: &mut Words<'_>, got: &mut Buffer) {
    let mut position = first;
    for _ in 0..u16::MAX {
        if words.is_at_end() {
            break;
        }
        let name = words.next();
        if !is_named(kind, Slot(position), name) {
            add_text(name, got);
        }
        position = position.saturating_add(1);
    }
    add_number(i64::from(position), got);
}

// How many of the positions from 0 to 65,534 have a name.
fn count_named(kind: Kind, got: &mut Buffer) {
    let mut named = 0u16;
    for position in 0..u16::MAX {
        if name_of(kind, Slot(position)).is_some() {
            named = named.saturating_add(1);
        }
    }
    add_number(i64::from(named), got);
}

fn read_kind(words: &mut Words<'_>) -> Kind {
    match words.name() {
        "Flag" => Kind::Flag,
        "Number" => Kind::Number,
        "Text" => Kind::Text,
        _ => {
            words.fail(Trouble::Bad("no such kind"));
            Kind::Flag
        }
    }
}

// Whether a capability has a name, both ways.
fn is_named(kind: Kind, slot: Slot, name: &[u8]) -> bool {
    find_name(name) == Some((kind, slot)) && name_of(kind, slot).unwrap_or("").as_bytes() == name
}
