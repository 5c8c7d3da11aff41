//! Lines about whole entries: those with all names of term.h, numbers up to 2,147,483,647 and extended capabilities.

use crate::answers::{add_entry, add_made, add_refusal};
use check_harness::answers::{add_count, add_flag, add_name, add_number, add_text, add_word};
use check_harness::buffers::Buffer;
use check_harness::checking::put;
use check_harness::words::CallLine;
use std::alloc::Global;
use ti_caps::Bytes;
use ti_compile::TicFault;
use ti_extended::{
    Extended, SecondReading, WholeEntry, WholeFault, WholePrinted, decode_whole, encode_whole,
    is_extended_name, print_whole,
};
use ti_source::{Notes, Source, SourceFault, read_apart, resolve};

/// The lines `whole SOURCE`, `decode-whole`, `encode-whole`, `print-whole` and `is-extended-name TEXT`. Tells whether a
/// line is one of them.
pub fn answer_of_whole(file: &mut Vec<u8>, line: &mut CallLine<'_>) -> bool {
    if matches!(line.name, "whole" | "is-extended-name") {
        let text = line.text();
        if line.name == "whole" {
            compile(line.alloc, text.bytes(), file, &mut line.got);
        } else {
            add_flag(is_extended_name(text.bytes()), &mut line.got);
        }
        return true;
    }
    let (alloc, got) = (line.alloc, &mut line.got);
    match line.name {
        "decode-whole" => add_made(decode_whole(alloc, file.as_slice()), got, add_whole),
        "encode-whole" => add_made(decode_whole(alloc, file.as_slice()), got, |whole, got| {
            add_made(encode_whole(alloc, whole), got, |bytes, got| {
                add_text(&bytes.0, got);
            });
        }),
        "print-whole" => add_made(printed(alloc, file.as_slice()), got, |printed, got| {
            add_text(&printed.text.0, got);
            add_count(printed.unnamed as u64, got);
        }),
        _ => return false,
    }
    true
}

// The source text of the whole entry of a file.
fn printed(alloc: Global, file: &[u8]) -> Result<WholePrinted, WholeFault> {
    let whole = decode_whole(alloc, file)?;
    let printed = print_whole(alloc, &whole)?;
    Ok(printed)
}

// Adds the whole file of a source's first entry, which is the file then, and the notes on the source.
fn compile(alloc: Global, source: &[u8], file: &mut Vec<u8>, got: &mut Buffer) {
    match read_apart(alloc, source) {
        Ok((read, notes)) => compile_read(alloc, source, &read, &notes, file, got),
        Err(fault) => add_refusal(&fault, got),
    }
}

// The same of a source that was read with these notes.
fn compile_read(
    alloc: Global,
    source: &[u8],
    read: &Source,
    notes: &Notes,
    file: &mut Vec<u8>,
    got: &mut Buffer,
) {
    match SecondReading::read(alloc, source, notes) {
        Ok(more) => keep_file(first_file(alloc, read, &more), notes, &more, file, got),
        Err(fault) => add_refusal(&fault, got),
    }
}

fn keep_file(
    made: Result<Bytes, TicFault>,
    notes: &Notes,
    more: &SecondReading<'_>,
    file: &mut Vec<u8>,
    got: &mut Buffer,
) {
    match made {
        Ok(bytes) => {
            add_text(&bytes.0, got);
            add_notes(notes, more, got);
            put(file, bytes.0);
        }
        Err(fault) => add_refusal(&fault, got),
    }
}

fn first_file(alloc: Global, read: &Source, more: &SecondReading<'_>) -> Result<Bytes, TicFault> {
    if read.len() == 0 {
        return Err(TicFault::Source(SourceFault::UnknownName));
    }
    let entry = resolve(alloc, read, read.name(0))?;
    let bytes = more.file(alloc, entry, 0)?;
    Ok(bytes)
}

// Adds what is still doubtful with all names known: of each field its line, the cause and its name.
fn add_notes(notes: &Notes, more: &SecondReading<'_>, got: &mut Buffer) {
    for i in 0..notes.len() {
        if let Some(cause) = more.cause(i)
            && i < notes.len()
        {
            let note = notes.at(i);
            add_number(i64::from(note.line), got);
            add_name(&cause, got);
            add_text(note.name, got);
        }
    }
}

// Adds a whole entry: its entry, each number above 32,767 after its position, and its extended capabilities.
fn add_whole(whole: &WholeEntry, got: &mut Buffer) {
    add_entry(whole.entry(), got);
    for (position, number) in whole.numbers().iter().enumerate() {
        if let Some(number) = number
            && *number > 32_767
        {
            add_word("great", got);
            add_count(position as u64, got);
            add_number(i64::from(*number), got);
        }
    }
    add_extended(whole.extended(), got);
}

// Adds extended capabilities: of each its kind, its name, and its value if it has one.
fn add_extended(extended: &Extended, got: &mut Buffer) {
    let (names, numbers, texts) = (extended.names(), extended.numbers(), extended.texts());
    let flags = names
        .len()
        .saturating_sub(numbers.len())
        .saturating_sub(texts.len());
    for (i, name) in names.iter().enumerate() {
        let value = i.saturating_sub(flags);
        if i < flags {
            add_own("flag", name, got);
        } else if let Some(number) = numbers.get(value) {
            add_own("number", name, got);
            add_number(i64::from(*number), got);
        } else if let Some(text) = texts.get(value.saturating_sub(numbers.len())) {
            add_own("text", name, got);
            add_text(&text.0, got);
        }
    }
}

fn add_own(kind: &str, name: &Bytes, got: &mut Buffer) {
    add_word(kind, got);
    add_text(&name.0, got);
}
