//! Counting the flags, numbers and texts of an entry that a file holds: up to the last that is
//! present.
ghost use Rattle.std.specs.Prelude.{◌≡◌, ◌≤◌, ◌+◌, length, take, is_some, min};
ghost use Rattle.ti_caps.specs.Description.{IsDescription};
ghost use Rattle.ti_binary.specs.Canonical.{kept_flags, kept_numbers, kept_texts, table_of};

use ti_caps::{Entry, MOST_FLAGS, MOST_NUMBERS, MOST_TEXTS, Slot};

/// The number of flags up to the last that is present.
pub(crate) fn flag_count(entry: &Entry) -> u16
    requires described { IsDescription entry.now }
    ensures kept { take result entry.now.flags ≡ kept_flags entry.now }
    ensures few { result ≤ 64 }
{
    let mut count = 0;
    for slot in 0..MOST_FLAGS as u16 {
        if entry.flag(Slot(slot)) {
            count = slot + 1;
        }
    }
    count
}

/// The number of numbers up to the last that is present.
pub(crate) fn number_count(entry: &Entry) -> u16
    requires described { IsDescription entry.now }
    ensures kept { take result entry.now.numbers ≡ kept_numbers entry.now }
    ensures few { result ≤ 64 }
{
    let mut count = 0;
    for slot in 0..MOST_NUMBERS as u16 {
        if entry.number(Slot(slot)).is_some() {
            count = slot + 1;
        }
    }
    count
}

/// The number of texts up to the last that is present.
pub(crate) fn text_count(entry: &Entry) -> u16
    requires described { IsDescription entry.now }
    ensures kept { take result entry.now.texts ≡ kept_texts entry.now }
    ensures few { result ≤ 512 }
{
    let mut count = MOST_TEXTS as u16;
    while count > 0 {
        if entry.text(Slot(count - 1)).is_some() {
            return count;
        }
        count -= 1;
    }
    0
}

/// The number of bytes of the string table of the first `count` texts, at most `most`.
pub(crate) fn table_size(entry: &Entry, count: u16, most: u16) -> u16
    requires described { IsDescription entry.now }
    requires few { count ≤ 512 }
    ensures { result ≡ min (length (table_of (take count entry.now.texts))) most }
{
    let mut size = 0;
    for slot in 0..count {
        if let Some(text) = entry.text(Slot(slot)) {
            let ended = text.len().saturating_add(1 + usize::from(size));
            size = ended.min(usize::from(most)) as u16;
        }
    }
    size
}
