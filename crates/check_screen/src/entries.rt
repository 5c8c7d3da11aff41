//! Lines about a terminfo entry: what it says, and the texts that start and close a screen of it.

use crate::subjects::{Subjects, keep};
use check_harness::answers::{add_name, add_text, add_word};
use check_harness::buffers::Buffer;
use check_harness::troubles::Trouble;
use check_harness::words::{CallLine, Words};
use curses::{OpenFault, closing_text, opening_text};
use generated_sessions::change_capability;
use scr_term::ProfileFault;
use ti_caps::standard::find_name;
use ti_caps::{Bytes, CapFault, Entry, Kind, bundled, name_of};

/// The lines `entry TEXT`, `bundled`, `flag NAME`, `number NAME N`, `string NAME TEXT`, `text NAME TEXT` and `absent
/// NAME`, which make an entry and have it say something, and `opening_text` and `closing_text`. Tells whether a line is
/// one of them.
pub fn answer_of_entry(subjects: &mut Subjects, line: &mut CallLine<'_>) -> Result<bool, Trouble> {
    if matches!(line.name, "entry" | "bundled") {
        match make_entry(line)? {
            Ok(made) => keep(made, &mut subjects.entry, &mut line.got),
            Err(fault) => add_set(Err(fault), &mut line.got),
        }
        return Ok(true);
    }
    let Some(entry) = &mut subjects.entry else {
        return Ok(false);
    };
    let (alloc, words, got) = (line.alloc, &mut line.words, &mut line.got);
    match line.name {
        "flag" | "absent" => add_set(set(entry, line.name == "flag", words), got),
        "number" | "string" | "text" => add_set(change_capability(alloc, entry, words), got),
        "opening_text" => add_of_screen(&opening_text(alloc, entry), got),
        "closing_text" => add_of_screen(&closing_text(alloc, entry), got),
        _ => return Ok(false),
    }
    Ok(true)
}

// The bundled entry, or one that says nothing, with the names that a line has.
fn make_entry(line: &mut CallLine<'_>) -> Result<Result<Entry, CapFault>, Trouble> {
    if line.name == "bundled" {
        return Ok(bundled(line.alloc));
    }
    if line.words.is_at_end() {
        return Ok(Entry::new(line.alloc, b"keys"));
    }
    let names = line.text();
    names.done()?;
    Ok(Entry::new(line.alloc, names.bytes()))
}

// Has an entry the flag of the name that follows, or nothing of that name.
fn set(entry: &mut Entry, is_flag: bool, words: &mut Words<'_>) -> Result<(), CapFault> {
    match find_name(words.next()) {
        Some((Kind::Flag, slot)) => entry.set_flag(slot, is_flag),
        Some((Kind::Number, slot)) if !is_flag => entry.set_number(slot, None),
        Some((Kind::Text, slot)) if !is_flag => entry.set_text(slot, None),
        _ => {
            words.fail(Trouble::Bad("no such capability"));
            Ok(())
        }
    }
}

fn add_set(set: Result<(), CapFault>, got: &mut Buffer) {
    match set {
        Ok(()) => add_word("Ok", got),
        Err(CapFault::NoMemory) => add_word("NoMemory", got),
        Err(_) => add_word("refused", got),
    }
}

// Adds a text of an entry, or why it has none.
fn add_of_screen(made: &Result<Bytes, OpenFault>, got: &mut Buffer) {
    match made {
        Ok(text) => add_text(&text.0, got),
        Err(OpenFault::Profile(fault)) => add_profile_fault(*fault, got),
        Err(OpenFault::NoMemory) => add_word("NoMemory", got),
        Err(OpenFault::KeyTooLong(_)) => add_word("KeyTooLong", got),
    }
}

/// Adds why there is no profile, or a text of an entry cannot be run.
pub fn add_profile_fault(fault: ProfileFault, got: &mut Buffer) {
    let (word, (kind, slot)) = match fault {
        ProfileFault::Unsuitable(capability) => ("Unsuitable", capability),
        ProfileFault::Missing(capability) => ("Missing", capability),
        ProfileFault::BadString(capability) => ("BadString", capability),
        ProfileFault::LongString(capability) => ("LongString", capability),
        fault => return add_name(&fault, got),
    };
    add_word(word, got);
    add_word(name_of(kind, slot).unwrap_or("?"), got);
}
