//! Lines about sources.

use crate::answers::{
    add_entry, add_entry_if_any, add_made, add_note, add_notes, is_taken_back, keep,
};
use check_harness::answers::{add_any, add_count, add_number, add_text, add_word};
use check_harness::buffers::{Buffer, are_same};
use check_harness::checking::put;
use check_harness::troubles::Trouble;
use check_harness::words::{CallLine, Words};
use std::alloc::Global;
use std::io::Write;
use ti_caps::{Entry, Slot};
use ti_compile::{Compiled, CompiledEntry, EntryCompiler};
use ti_source::{Resolver, Source, SourceFault};

/// The lines `source TEXT`, `chained COUNT USES LAST` and `source-cuts TEXT`, and those about the source that there is.
/// Tells whether a line is one of them.
pub fn answer_of_source(source: &mut Option<Source>, line: &mut CallLine<'_>) -> bool {
    match line.name {
        "source" => {
            let text = line.text();
            read_source(source, &text, line);
        }
        "chained" => {
            let text = chain(line);
            read_source(source, &text, line);
        }
        "source-cuts" => {
            let text = line.text();
            let added = add_beginnings(line.alloc, text.bytes(), &mut line.got);
            line.words.check(added);
        }
        "take-notes" => take_notes(source, line),
        "listed" | "notes" | "resolver" | "compiler" => match source {
            Some(source) => show(source, line),
            None => line.words.fail(Trouble::Bad("no source")),
        },
        _ => return false,
    }
    true
}

// Reads `COUNT USES LAST` and writes a source of COUNT entries, `e0`, `e1` and so on, each of which uses the next one
// USES times; the last has the field LAST.
fn chain(line: &mut CallLine<'_>) -> Buffer {
    let (count, uses) = (line.words.number(), line.words.number());
    let last = line.text();
    let mut text = Buffer::new(line.alloc);
    for index in 0..count {
        let written = write!(text.vector(), "e{index},\n\t");
        text.check(written.is_ok());
        let next = index.saturating_add(1);
        if next < count {
            write_uses(next, uses, &mut text);
        } else {
            text.extend(last.bytes());
            text.extend(b",");
        }
        text.push(b'\n');
    }
    text
}

// Writes fields that use an entry of a chain.
fn write_uses(index: u32, uses: u32, text: &mut Buffer) {
    for _ in 0..uses {
        let written = write!(text.vector(), "use=e{index}, ");
        text.check(written.is_ok());
    }
}

fn read_source(source: &mut Option<Source>, text: &Buffer, line: &mut CallLine<'_>) {
    let (words, got) = (&mut line.words, &mut line.got);
    words.check(text.done());
    if keep(ti_source::read(line.alloc, text.bytes()), source, got) {
        add_length(source, words, got);
    }
}

// Adds how many entries a source has.
fn add_length(source: &Option<Source>, words: &mut Words<'_>, got: &mut Buffer) {
    if let Some(source) = source {
        if source.is_empty() != (source.len() == 0) {
            words.fail(Trouble::Bad("is_empty and len differ"));
        }
        add_count(source.len() as u64, got);
    }
}

// Adds what each beginning of a source is read as, how many entries or the refusal, after the length of the first that
// is read so.
fn add_beginnings(alloc: Global, text: &[u8], got: &mut Buffer) -> Result<(), Trouble> {
    let mut before = Buffer::new(alloc);
    for length in 0..=text.len() {
        let mut read = Buffer::new(alloc);
        let source = ti_source::read(alloc, text.get(..length).unwrap_or(text));
        add_made(
            source,
            &mut read,
            |source, read| add_count(source.len() as u64, read),
        );
        if read.bytes().ends_with(b" NoMemory") {
            return Err(Trouble::NoMemory);
        }
        if !are_same(&read, &before)? {
            add_count(length as u64, got);
            got.extend(read.bytes());
            put(&mut before, read);
        }
    }
    Ok(())
}

fn take_notes(source: &mut Option<Source>, line: &mut CallLine<'_>) {
    match source.take() {
        Some(source) => add_notes(&source.into_notes(), &mut line.got),
        None => line.words.fail(Trouble::Bad("no source")),
    }
}

// The lines `listed`, `notes`, `resolver NAME..` and `compiler STEP..`.
fn show(source: &Source, line: &mut CallLine<'_>) {
    match line.name {
        "listed" => add_list(source, &mut line.got),
        "notes" => add_notes(source.notes(), &mut line.got),
        "resolver" => resolve_all(source, line),
        _ => compile_all(source, line),
    }
}

/// Adds the first name of each entry.
pub fn add_list(source: &Source, got: &mut Buffer) {
    for i in 0..source.len() {
        add_text(source.name(i), got);
    }
}

// Resolves all names by one resolver.
fn resolve_all(source: &Source, line: &mut CallLine<'_>) {
    let mut resolver = Resolver::new(source);
    for _ in 0..u32::MAX {
        if line.words.is_at_end() {
            break;
        }
        let text = line.text();
        resolve_next(line.alloc, &mut resolver, text.bytes(), &mut line.got);
    }
}

// Adds what a name resolves to by a resolver, which gives the same where memory was refused before.
fn resolve_next(alloc: Global, resolver: &mut Resolver<'_>, name: &[u8], got: &mut Buffer) {
    let from = got.bytes().len();
    add_made(resolver.resolve(alloc, name), got, add_entry);
    if is_taken_back(from, got) {
        add_made(resolver.resolve(alloc, name), got, add_entry);
    }
}

/// The line `resolve NAME`; what it resolves to is the entry then.
pub fn resolve(source: &Option<Source>, entry: &mut Option<Entry>, line: &mut CallLine<'_>) {
    let text = line.text();
    let Some(source) = source else {
        line.words.fail(Trouble::Bad("no source"));
        return;
    };
    let resolved = ti_source::resolve(line.alloc, source, text.bytes());
    if keep(resolved, entry, &mut line.got) {
        add_entry_if_any(entry, &mut line.got);
    }
}

// Compiles entries one after another by one compiler.
fn compile_all(source: &Source, line: &mut CallLine<'_>) {
    let mut compiler = EntryCompiler::new(source);
    for _ in 0..u32::MAX {
        if line.words.is_at_end() {
            break;
        }
        match line.words.name() {
            "next" => compile_next(line.alloc, &mut compiler, &mut line.got),
            "restart" => compiler.restart(),
            _ => line.words.fail(Trouble::Bad("no such step")),
        }
    }
}

// Adds what the next entry is compiled to. A compiler that was refused memory is where it was: it gives the same entry
// then.
fn compile_next(alloc: Global, compiler: &mut EntryCompiler<'_>, got: &mut Buffer) {
    let from = got.bytes().len();
    add_made(compiler.next_entry(alloc), got, add_next);
    if is_taken_back(from, got) {
        add_made(compiler.next_entry(alloc), got, add_next);
    }
}

// Adds what an entry is compiled to, its name, its paths and the bytes of its file, or `end` where there is none.
fn add_next(compiled: &Option<CompiledEntry>, got: &mut Buffer) {
    let Some(entry) = compiled else {
        add_word("end", got);
        return;
    };
    add_text(&entry.name.0, got);
    for path in &entry.paths.0 {
        add_text(&path.0, got);
    }
    add_text(&entry.bytes.0, got);
}

/// The lines `string TEXT`, `decimal TEXT` and `compile SOURCE`, which leave all as it is. Tells whether a line is one
/// of them.
pub fn answer_of_meaning(line: &mut CallLine<'_>) -> bool {
    match line.name {
        "string" => mean([b"t,\n\tcr=", b""], line),
        "decimal" => mean([b"t,\n\tcols#", b","], line),
        "compile" => {
            let text = line.text();
            let compiled = ti_compile::compile(line.alloc, text.bytes());
            add_made(compiled, &mut line.got, add_compiled);
        }
        _ => return false,
    }
    true
}

// What a text means between two parts of a source: the text or the number that its entry `t` has then.
fn mean(parts: [&[u8]; 2], line: &mut CallLine<'_>) {
    let text = line.text();
    let mut source = Buffer::new(line.alloc);
    source.extend(parts[0]);
    source.extend(text.bytes());
    source.extend(parts[1]);
    line.words.check(source.done());
    let made = entry_in(line.alloc, source.bytes());
    add_made(made, &mut line.got, |entry, got| {
        match entry.number(Slot(0)) {
            Some(number) => add_number(i64::from(number), got),
            None => add_any(entry.text(Slot(2)), got, add_text),
        }
    });
}

fn entry_in(alloc: Global, source: &[u8]) -> Result<Entry, SourceFault> {
    let read = ti_source::read(alloc, source)?;
    ti_source::resolve(alloc, &read, b"t")
}

// Adds each `file PATH BYTES`, each `size NAME BYTES` and each `note LINE CAUSE NAME`.
fn add_compiled(compiled: &Compiled, got: &mut Buffer) {
    for (path, bytes) in &compiled.files.0 {
        add_word("file", got);
        add_text(&path.0, got);
        add_text(&bytes.0, got);
    }
    for (name, size) in &compiled.sizes.0 {
        add_word("size", got);
        add_text(&name.0, got);
        add_count(*size as u64, got);
    }
    for note in &compiled.notes.0 {
        add_word("note", got);
        add_note(note, got);
    }
}
