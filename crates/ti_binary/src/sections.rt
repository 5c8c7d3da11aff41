//! Writing the sections of a file: flags, numbers, offsets and texts.
ghost use Rattle.std.specs.Prelude.{◌≡◌, ◌≤◌, ◌++◌, length, take, map, option_map, OnOk};
ghost use Rattle.ti_caps.specs.Description.{IsDescription, number_at, text_at};
ghost use Rattle.ti_binary.specs.Canonical.{ended, flag_byte, number_word, offset_of, offsets_from, table_of, word, words};

use byteorder::{ByteOrder, LittleEndian};
use std::alloc::AllocError;
use ti_caps::{Entry, Slot};

/// The number or offset of something absent.
const ABSENT: u16 = 0xFFFF;

/// Appends a 16-bit number, the lower byte first. Fails only when memory runs out.
pub fn put_word(n: u16, out: &mut Vec<u8>) -> Result<(), AllocError>
    ensures { OnOk result (out.new.items ≡ out.old.items ++ word n) }
{
    let mut pair = [0u8; 2];
    LittleEndian::write_u16(&mut pair, n);
    out.push(pair[0])?;
    out.push(pair[1])?;
    Ok(())
}

/// Appends the first `count` flags of an entry, one byte each.
pub(crate) fn put_flags(entry: &Entry, count: u16, out: &mut Vec<u8>) -> Result<(), AllocError>
    requires described { IsDescription entry.now }
    requires few { count ≤ 64 }
    ensures { OnOk result (out.new.items ≡ out.old.items ++ map flag_byte (take count entry.now.flags)) }
{
    for slot in 0..count {
        out.push(u8::from(entry.flag(Slot(slot))))?;
    }
    Ok(())
}

/// Appends the first `count` numbers of an entry.
pub(crate) fn put_numbers(entry: &Entry, count: u16, out: &mut Vec<u8>) -> Result<(), AllocError>
    requires described { IsDescription entry.now }
    requires few { count ≤ 64 }
    ensures { OnOk result (out.new.items ≡ out.old.items ++ words (map number_word (take count entry.now.numbers))) }
{
    for slot in 0..count {
        put_number(entry, slot, out)?;
    }
    Ok(())
}

/// Appends the offsets in the string table of the first `count` texts of an entry; the table is
/// small.
pub(crate) fn put_offsets(entry: &Entry, count: u16, out: &mut Vec<u8>) -> Result<(), AllocError>
    requires described { IsDescription entry.now }
    requires few { count ≤ 512 }
    requires small { length (table_of (take count entry.now.texts)) ≤ 4096 }
    ensures { OnOk result (out.new.items ≡ out.old.items ++ words (offsets_from 0 (take count entry.now.texts))) }
{
    let mut size: usize = 0;
    for slot in 0..count {
        let text = entry.text(Slot(slot));
        put_word(offset(size, text), out)?;
        size += ended_length(text);
    }
    Ok(())
}

/// Appends the first `count` texts of an entry, each with its NUL.
pub(crate) fn put_texts(entry: &Entry, count: u16, out: &mut Vec<u8>) -> Result<(), AllocError>
    requires described { IsDescription entry.now }
    requires few { count ≤ 512 }
    ensures { OnOk result (out.new.items ≡ out.old.items ++ table_of (take count entry.now.texts)) }
{
    for slot in 0..count {
        put_text(entry, slot, out)?;
    }
    Ok(())
}

// Appends a number of an entry, or the mark of an absent one.
fn put_number(entry: &Entry, slot: u16, out: &mut Vec<u8>) -> Result<(), AllocError>
    ensures { OnOk result (out.new.items ≡ out.old.items ++ word (number_word (number_at entry.now slot))) }
{
    put_word(entry.number(Slot(slot)).unwrap_or(ABSENT), out)
}

// Appends a text of an entry with its NUL, or nothing if it is absent.
fn put_text(entry: &Entry, slot: u16, out: &mut Vec<u8>) -> Result<(), AllocError>
    ensures { OnOk result (out.new.items ≡ out.old.items ++ ended (text_at entry.now slot)) }
{
    if let Some(text) = entry.text(Slot(slot)) {
        out.extend_from_slice(text)?;
        out.push(0)?;
    }
    Ok(())
}

// The offset of a text, if the table has `size` bytes so far.
fn offset(size: usize, text: Option<&[u8]>) -> u16
    requires { size ≤ 4096 }
    ensures { result ≡ offset_of size (option_map (λ t. t.now) text.entry) }
{
    match text {
        Some(_) => size as u16,
        None => ABSENT,
    }
}

// The number of bytes that a text and its NUL take in the table.
fn ended_length(text: Option<&[u8]>) -> usize
    requires { length (ended (option_map (λ t. t.now) text)) ≤ 4096 }
    ensures { result ≡ length (ended (option_map (λ t. t.now) text.entry)) }
{
    match text {
        Some(bytes) => bytes.len() + 1,
        None => 0,
    }
}
