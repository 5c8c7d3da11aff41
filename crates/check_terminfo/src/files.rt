//! Lines about compiled files.

use crate::answers::{add_entry, add_made, add_refusal};
use check_harness::answers::{add_count, add_number, add_text};
use check_harness::buffers::Buffer;
use check_harness::checking::put;
use check_harness::troubles::Trouble;
use check_harness::words::CallLine;
use std::alloc::Global;
use ti_binary::{BinFault, decode, decode_wide};
use ti_caps::{Bytes, Entry, are_names};
use ti_compile::{TicFault, list};
use ti_database::read_entry;

/// The lines `encode` and `encode-named NAMES`, which write the file of an entry. Tells whether a line is one of them.
pub fn answer_of_writing(
    entry: &Option<Entry>,
    file: &mut Vec<u8>,
    line: &mut CallLine<'_>,
) -> bool {
    if line.name != "encode" && line.name != "encode-named" {
        return false;
    }
    match entry {
        Some(entry) if line.name == "encode" => encode(line.alloc, entry, file, &mut line.got),
        Some(entry) => encode_named(entry, line),
        None => line.words.fail(Trouble::Bad("no entry")),
    }
    true
}

fn encode(alloc: Global, entry: &Entry, file: &mut Vec<u8>, got: &mut Buffer) {
    match ti_binary::encode(alloc, entry) {
        Ok(encoded) => {
            add_text(&encoded.0, got);
            put(file, encoded.0);
        }
        Err(fault) => add_refusal(&fault, got),
    }
}

fn encode_named(entry: &Entry, line: &mut CallLine<'_>) {
    let text = line.text();
    let names = text.bytes();
    if !are_names(names) {
        line.words.fail(Trouble::Bad("no names"));
        return;
    }
    let encoded = ti_binary::encode_named(line.alloc, entry, names);
    add_made(
        encoded,
        &mut line.got,
        |encoded, got| add_text(&encoded.0, got),
    );
}

/// The line `file BYTES`.
pub fn take_file(file: &mut Vec<u8>, line: &mut CallLine<'_>) {
    put(file, line.text().into_bytes());
    add_count(file.len() as u64, &mut line.got);
}

/// The lines `decode-wide`, `read-entry` and `list`, which leave all as it is. Tells whether a line is one of them.
pub fn answer_of_file(file: &[u8], line: &mut CallLine<'_>) -> bool {
    let (alloc, got) = (line.alloc, &mut line.got);
    match line.name {
        "decode-wide" => add_made(decode_wide(alloc, file), got, |decoded, got| {
            add_count(decoded.skipped as u64, got);
            add_number(i64::from(decoded.clamped), got);
            add_entry(&decoded.entry, got);
        }),
        "read-entry" => add_made(read_entry(alloc, file), got, add_entry),
        "list" => add_made(list(alloc, file), got, |listing, got| {
            add_text(&listing.text.0, got);
            add_count(listing.unnamed as u64, got);
            add_count(listing.skipped as u64, got);
        }),
        _ => return false,
    }
    true
}

/// The line `decode`, or `changed INDEX BYTE..`, which reads the file with bytes changed.
pub fn decode_changed(file: &[u8], entry: &mut Option<Entry>, line: &mut CallLine<'_>) {
    let mut text = Buffer::new(line.alloc);
    text.extend(file);
    let words = &mut line.words;
    words.check(text.done());
    for _ in 0..u32::MAX {
        if words.is_at_end() {
            break;
        }
        let (index, byte) = (words.number() as usize, words.byte());
        match text.vector().get_mut(index) {
            Some(old) => *old = byte,
            None => words.fail(Trouble::Bad("no such index in the file")),
        }
    }
    add_decoded(line.alloc, text.bytes(), entry, &mut line.got);
}

// Adds what bytes are read as, which is the entry then.
fn add_decoded(alloc: Global, bytes: &[u8], entry: &mut Option<Entry>, got: &mut Buffer) {
    match decode(alloc, bytes) {
        Ok((decoded, rest)) => {
            add_count(rest as u64, got);
            add_entry(&decoded, got);
            put(entry, Some(decoded));
        }
        Err(fault) => add_refusal(&fault, got),
    }
}

/// The lines `file-cuts`, `wide-cuts` and `file-bytes BYTE..`. Tells whether a line is one of them.
pub fn answer_of_changes(file: &[u8], line: &mut CallLine<'_>) -> bool {
    let counted = match line.name {
        "file-cuts" => count_truncated(line.alloc, file, false),
        "wide-cuts" => count_truncated(line.alloc, file, true),
        "file-bytes" => count_changed(file, line),
        _ => return false,
    };
    add_count(counted.unwrap_or(0) as u64, &mut line.got);
    line.words.check(counted.and(Ok(())));
    true
}

// How many beginnings of a file are truncated.
fn count_truncated(alloc: Global, file: &[u8], is_wide: bool) -> Result<usize, Trouble> {
    let mut count = 0usize;
    for length in 0..file.len() {
        let beginning = file.get(..length).unwrap_or(file);
        let fault = if is_wide {
            decode_wide(alloc, beginning).err()
        } else {
            decode(alloc, beginning).err()
        };
        match fault {
            Some(BinFault::Truncated) => count = count.saturating_add(1),
            Some(BinFault::NoMemory) => return Err(Trouble::NoMemory),
            _ => {}
        }
    }
    Ok(count)
}

// Sets each byte of a file in turn to each of those of a line, and counts the files that are sound.
fn count_changed(file: &[u8], line: &mut CallLine<'_>) -> Result<usize, Trouble> {
    let mut text = Buffer::new(line.alloc);
    let mut count = 0usize;
    for _ in 0..u32::MAX {
        if line.words.is_at_end() {
            break;
        }
        let byte = line.words.byte();
        for index in 0..file.len() {
            text.clear();
            text.extend(file.get(..index).unwrap_or(b""));
            text.push(byte);
            text.extend(file.get(index.saturating_add(1)..).unwrap_or(b""));
            text.done()?;
            count = count.saturating_add(usize::from(is_sound(line.alloc, text.bytes())?));
        }
    }
    Ok(count)
}

// Whether bytes are refused when they are read, or are read and written as a file that is read and written as itself.
fn is_sound(alloc: Global, bytes: &[u8]) -> Result<bool, Trouble> {
    match decode(alloc, bytes) {
        Ok((entry, _)) => is_kept(alloc, &entry),
        Err(BinFault::NoMemory) => Err(Trouble::NoMemory),
        Err(_) => Ok(true),
    }
}

// Whether an entry is written as a file that is read and written as itself.
fn is_kept(alloc: Global, entry: &Entry) -> Result<bool, Trouble> {
    match written_twice(alloc, entry) {
        Ok((file, again)) => Ok(again.0 == file.0),
        Err(TicFault::NoMemory) => Err(Trouble::NoMemory),
        Err(_) => Ok(false),
    }
}

// The file of an entry, and the file of what is read of it.
fn written_twice(alloc: Global, entry: &Entry) -> Result<(Bytes, Bytes), TicFault> {
    let file = ti_binary::encode(alloc, entry)?;
    let (again, _) = decode(alloc, &file.0)?;
    let other = ti_binary::encode(alloc, &again)?;
    Ok((file, other))
}
