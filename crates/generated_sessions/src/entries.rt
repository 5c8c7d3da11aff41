//! Entries of a screen: the bundled one, without some of its texts and flags, with others, and with other numbers.

use check_harness::buffers::Buffer;
use check_harness::troubles::Trouble;
use check_harness::words::Words;
use std::alloc::Global;
use ti_caps::standard::find_name;
use ti_caps::{CapFault, Entry, Kind, Slot, bundled};

/// The names and texts of the capabilities that insert and delete lines and characters, as a line has them.
pub static MOVING: &str =
    "il1 \"\\e[L\" il \"\\e[%p1%dL\" dl1 \"\\e[M\" dl \"\\e[%p1%dM\" ich \"\\e[%p1%d@\" \
    dch1 \"\\e[P\" dch \"\\e[%p1%dP\"";

/// The bundled entry without the flags and the texts that a line names, up to its `=`, and with the numbers that it
/// names and gives; a text that follows its name is used in place of the bundled one. `None` where the library
/// was refused memory.
pub fn read_entry(alloc: Global, words: &mut Words<'_>) -> Option<Entry> {
    let entry = changed_bundled(alloc, words).ok();
    words.skip();
    entry
}

fn changed_bundled(alloc: Global, words: &mut Words<'_>) -> Result<Entry, CapFault> {
    let mut entry = bundled(alloc)?;
    for _ in 0..u32::MAX {
        if words.is_at_end() {
            break;
        }
        change_capability(alloc, &mut entry, words)?;
    }
    Ok(entry)
}

/// Has an entry no flag of the name that follows, or the text or the number that comes after the name, or no text.
pub fn change_capability(
    alloc: Global,
    entry: &mut Entry,
    words: &mut Words<'_>,
) -> Result<(), CapFault> {
    match find_name(words.next()) {
        Some((Kind::Flag, slot)) => entry.set_flag(slot, false),
        Some((Kind::Text, slot)) if words.peek().starts_with(b"\"") => {
            let mut text = Buffer::new(alloc);
            words.text(&mut text);
            entry.set_text(slot, Some(text.bytes()))
        }
        Some((Kind::Text, slot)) => entry.set_text(slot, None),
        Some((Kind::Number, slot)) => set_number(entry, slot, words),
        None => {
            words.fail(Trouble::Bad("no such capability"));
            Ok(())
        }
    }
}

fn set_number(entry: &mut Entry, slot: Slot, words: &mut Words<'_>) -> Result<(), CapFault> {
    match u16::try_from(words.number()) {
        Ok(number) if number <= 32767 => entry.set_number(slot, Some(number)),
        _ => {
            words.fail(Trouble::Bad("a number is out of range"));
            Ok(())
        }
    }
}
