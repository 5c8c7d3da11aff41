//! Reading a journal, and making its changes again.

use crate::files::Seen;
use crate::history::place_after;
use crate::journals::{NO_FILE, TITLE};
use edit_text::{EditFault, Text, TextPart, TextPlace};

/// Why the changes of a journal were not all made again.
#[derive(Clone, Copy)]
pub(crate) enum Trouble {
    /// A line is no change, or not one of this text.
    Damaged,
    /// Memory ran out.
    NoMemory,
}

impl From<EditFault> for Trouble {
    fn from(fault: EditFault) -> Trouble {
        match fault {
            EditFault::NoMemory => Trouble::NoMemory,
            EditFault::OutsideText | EditFault::LineFeed => Trouble::Damaged,
        }
    }
}

/// What the file had to whose text the changes of a journal were made, and the lines after that; `None` if it is no
/// journal.
pub(crate) fn base_of(journal: &[u8]) -> Option<(Seen, &[u8])> {
    let (title, lines) = cut_at(journal, b'\n')?;
    let base = str::from_utf8(title).ok()?.strip_prefix(TITLE)?;
    if base == NO_FILE {
        return Some((Seen::NOTHING, lines));
    }
    let (length, hash) = base.split_once(' ')?;
    let seen = (length.parse::<usize>().ok()?, hash.parse::<u64>().ok()?);
    Some((Seen(Some(seen)), lines))
}

/// Makes the changes of these lines to a text. The last one may lack its end, and a piece of it that its editor was
/// killed at is left out.
pub(crate) fn replay(text: &mut Text, lines: &[u8]) -> Result<(), Trouble> {
    let mut rest = lines;
    for _ in 0..lines.len() {
        let Some((line, after)) = cut_at(rest, b'\n') else {
            break;
        };
        replay_line(text, line)?;
        rest = after;
    }
    match change_of(rest) {
        Some((b"+", place, bytes)) => insert(text, place, bytes),
        _ => Ok(()),
    }
}

fn replay_line(text: &mut Text, line: &[u8]) -> Result<(), Trouble> {
    let Some((kind, place, what)) = change_of(line) else {
        return Err(Trouble::Damaged);
    };
    match (kind, number_of(what)) {
        (b"+", _) => insert(text, place, what),
        (b"-", Some(count)) => delete(text, place, count),
        _ => Err(Trouble::Damaged),
    }
}

// What a line says: its kind, its place, and the rest.
fn change_of(line: &[u8]) -> Option<(&[u8], TextPlace, &[u8])> {
    let (kind, rest) = cut_at(line, b' ')?;
    let (line, rest) = cut_at(rest, b' ')?;
    let (column, rest) = cut_at(rest, b' ')?;
    let place = TextPlace {
        line: number_of(line)?,
        column: number_of(column)?,
    };
    Some((kind, place, rest))
}

// What is before the first such byte, and after it.
fn cut_at(bytes: &[u8], end: u8) -> Option<(&[u8], &[u8])> {
    let place = bytes.iter().position(|&byte| byte == end)?;
    Some((bytes.get(..place)?, bytes.get(place.saturating_add(1)..)?))
}

fn number_of(word: &[u8]) -> Option<usize> {
    str::from_utf8(word).ok()?.parse::<usize>().ok()
}

// Inserts bytes from a place on, which are written as in a line.
fn insert(text: &mut Text, place: TextPlace, bytes: &[u8]) -> Result<(), Trouble> {
    let mut place = place;
    let mut is_marked = false;
    for &byte in bytes {
        match unmarked(byte, is_marked)? {
            Some(byte) => {
                insert_byte(text, place, byte)?;
                place = place_after(place, TextPart::Byte(byte));
                is_marked = false;
            }
            None => is_marked = true,
        }
    }
    Ok(())
}

// What a byte of a line stands for, after a backslash or not; `None` for a backslash that marks the next.
fn unmarked(byte: u8, is_marked: bool) -> Result<Option<u8>, Trouble> {
    match (byte, is_marked) {
        (b'\\', false) => Ok(None),
        (byte, false) => Ok(Some(byte)),
        (b'n', true) => Ok(Some(b'\n')),
        (b'\\', true) => Ok(Some(b'\\')),
        _ => Err(Trouble::Damaged),
    }
}

fn insert_byte(text: &mut Text, place: TextPlace, byte: u8) -> Result<(), Trouble> {
    if byte == b'\n' {
        text.split(place)?;
    } else {
        text.insert(place, TextPart::Byte(byte))?;
    }
    Ok(())
}

// Deletes so many bytes from a place on. A character that they end within was two parts when it was changed.
fn delete(text: &mut Text, place: TextPlace, count: usize) -> Result<(), Trouble> {
    let mut left = count;
    for _ in 0..count {
        if left == 0 {
            break;
        }
        let Some(part) = text.delete(place)? else {
            return Err(Trouble::Damaged);
        };
        if part.len() > left {
            put_back(text, place, part, left)?;
        }
        left = left.saturating_sub(part.len());
    }
    Ok(())
}

// Inserts the bytes of a part from the nth on.
fn put_back(text: &mut Text, place: TextPlace, part: TextPart, from: usize) -> Result<(), Trouble> {
    let TextPart::Character(character) = part else {
        return Ok(());
    };
    let mut buffer = [0; 4];
    let bytes = character.encode_utf8(&mut buffer).as_bytes();
    let mut place = place;
    for &byte in bytes.get(from..).unwrap_or(&[]) {
        text.insert(place, TextPart::Byte(byte))?;
        place = place_after(place, TextPart::Byte(byte));
    }
    Ok(())
}
