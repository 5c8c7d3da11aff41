//! Lines about the entry.

use crate::answers::{add_done, add_entry, add_made, keep, read_slot};
use check_harness::answers::{add_any, add_count, add_flag, add_number, add_text, add_word};
use check_harness::troubles::Trouble;
use check_harness::words::{CallLine, Words};
use ti_caps::{CapFault, Entry, Slot, bundled};
use ti_source::print;

/// The line `entry NAMES`, and those about the entry that there is. Tells whether a line is one of them.
pub fn answer_of_entry(entry: &mut Option<Entry>, line: &mut CallLine<'_>) -> bool {
    match line.name {
        "entry" => make_entry(entry, line),
        "shown" | "is-bundled" | "names" | "unnamed" | "print" | "flag" | "number" | "text" =>
            match entry {
                Some(entry) => show(entry, line),
                None => line.words.fail(Trouble::Bad("no entry")),
            },
        "set-flag" | "set-number" | "set-text" => match entry {
            Some(entry) => set(entry, line),
            None => line.words.fail(Trouble::Bad("no entry")),
        },
        "colours-first" => match entry {
            Some(entry) => {
                entry.colours_first();
                add_word("Ok", &mut line.got);
            }
            None => line.words.fail(Trouble::Bad("no entry")),
        },
        "copy" => copy(entry, line),
        _ => return false,
    }
    true
}

// Puts a copy of the entry in its place.
fn copy(entry: &mut Option<Entry>, line: &mut CallLine<'_>) {
    let made = match entry {
        Some(entry) => copy_of(entry),
        None => return line.words.fail(Trouble::Bad("no entry")),
    };
    if keep(made, entry, &mut line.got) {
        add_word("Ok", &mut line.got);
    }
}

fn copy_of(entry: &Entry) -> Result<Entry, CapFault> {
    Ok(entry.clone()?)
}

fn make_entry(entry: &mut Option<Entry>, line: &mut CallLine<'_>) {
    let text = line.text();
    if keep(Entry::new(line.alloc, text.bytes()), entry, &mut line.got) {
        add_word("Ok", &mut line.got);
    }
}

// The lines `shown`, `is-bundled`, `names`, `unnamed`, `print`, and `flag N`, `number N` and `text N`.
fn show(entry: &Entry, line: &mut CallLine<'_>) {
    let (alloc, words, got) = (line.alloc, &mut line.words, &mut line.got);
    match line.name {
        "shown" => add_entry(entry, got),
        "is-bundled" => add_made(bundled(alloc), got, |bundled, got| {
            add_flag(are_same(bundled, entry), got);
        }),
        "names" => add_text(entry.names(), got),
        "unnamed" => add_count(entry.unnamed() as u64, got),
        "print" => add_made(print(alloc, entry), got, |printed, got| {
            add_text(&printed.text.0, got);
            add_count(printed.unnamed as u64, got);
        }),
        "flag" => add_flag(entry.flag(read_slot(words)), got),
        "number" => add_any(entry.number(read_slot(words)), got, |number, got| {
            add_number(i64::from(number), got);
        }),
        _ => add_any(entry.text(read_slot(words)), got, add_text),
    }
}

// The lines `set-flag N yes`, `set-number N NUMBER` and `set-text N TEXT`; without a last word a capability becomes
// absent.
fn set(entry: &mut Entry, line: &mut CallLine<'_>) {
    let slot = read_slot(&mut line.words);
    let done = match line.name {
        "set-flag" => entry.set_flag(slot, line.words.next() == b"yes".as_slice()),
        "set-number" => set_number(entry, slot, &mut line.words),
        _ if line.words.is_at_end() => entry.set_text(slot, None),
        _ => {
            let text = line.text();
            entry.set_text(slot, Some(text.bytes()))
        }
    };
    add_done(done, &mut line.got);
}

// Sets a number, at most 32,767, or removes it.
fn set_number(entry: &mut Entry, slot: Slot, words: &mut Words<'_>) -> Result<(), CapFault> {
    if words.is_at_end() {
        return entry.set_number(slot, None);
    }
    let number = u16::try_from(words.number()).unwrap_or(u16::MAX);
    entry.set_number(slot, Some(number.min(32_767)))
}

// Whether two entries have the same names, and the same at each position.
fn are_same(one: &Entry, other: &Entry) -> bool {
    let mut same = one.names() == other.names();
    for position in 0..512u16 {
        same = same && are_same_at(one, other, Slot(position));
    }
    same
}

fn are_same_at(one: &Entry, other: &Entry, slot: Slot) -> bool {
    let are_texts = match (one.text(slot), other.text(slot)) {
        (Some(one), Some(other)) => one == other,
        (None, None) => true,
        _ => false,
    };
    are_texts && one.flag(slot) == other.flag(slot) && one.number(slot) == other.number(slot)
}
