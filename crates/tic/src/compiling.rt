//! Compiling a source: printing the sizes of its entries' files, or writing the files.
//!
//! The entries are compiled one by one, and for each only the size of its file is kept. Files are
//! written once all entries are known to be good. Until then they are held in memory if they are
//! few; otherwise the entries are compiled again.

use crate::failures::Failure;
use crate::input::input_of;
use crate::located::locate;
use crate::messages::error_message;
use crate::notes::tell_notes;
use crate::output::{print, write_files};
use crate::report::add_size;
use crate::whole::Compiler;
use std::alloc::{AllocError, Global};
use ti_compile::{CompiledEntry, TicFault};
use ti_extended::SecondReading;
use ti_source::{Notes, Source, read_apart};

/// Lines are written once they have this many bytes.
pub(crate) const PIECE: usize = 65_536;

/// Compiled entries are held until all are known to be good, if they take at most this many bytes
/// together.
const MOST_HELD: usize = 16_777_216;

/// What a source is compiled for.
#[derive(Clone, Copy)]
pub(crate) enum Purpose<'a> {
    /// To print the sizes of its entries' files.
    Sizes,
    /// To write the files below this folder.
    Files(&'a str),
}

/// How a source is compiled, and a compiled file listed.
#[derive(Clone, Copy)]
pub(crate) struct Wanted {
    /// More is said on standard error.
    pub(crate) verbose: bool,
    /// Every name is kept, and numbers above 32,767.
    pub(crate) extended: bool,
}

/// A text that is compiled, and the name of its file.
#[derive(Clone, Copy)]
pub(crate) struct Text<'a> {
    pub(crate) file: &'a str,
    pub(crate) bytes: &'a [u8],
    pub(crate) wanted: Wanted,
}

/// A source that is compiled.
#[derive(Clone, Copy)]
pub(crate) struct Job<'a, 't> {
    pub(crate) rt: &'a HostRuntime,
    pub(crate) text: Text<'a>,
    pub(crate) source: &'a Source,
    pub(crate) notes: &'a Notes,
    /// What the entries have besides, if every name is kept.
    pub(crate) more: Option<&'a SecondReading<'t>>,
}

/// Compiles a source.
pub(crate) fn compile<'a>(
    rt: &HostRuntime,
    purpose: Purpose<'_>,
    file: &'a str,
    wanted: Wanted,
) -> Result<(), Failure<'a>> {
    let bytes = input_of(rt, file, wanted.verbose)?;
    let text = Text {
        file,
        bytes: bytes.as_slice(),
        wanted,
    };
    compile_text(rt, purpose, text)
}

fn compile_text<'a>(
    rt: &HostRuntime,
    purpose: Purpose<'_>,
    text: Text<'_>,
) -> Result<(), Failure<'a>> {
    match read_apart(rt.alloc(), text.bytes) {
        Ok((source, notes)) => {
            let more = second_reading(rt.alloc(), text, &notes)?;
            let (source, notes, more) = (&source, &notes, more.as_ref());
            compile_source(
                &Job {
                    rt,
                    text,
                    source,
                    notes,
                    more,
                },
                purpose,
            )
        }
        Err(fault) => Err(failure_of(rt.alloc(), text, fault.into(), 0)),
    }
}

// Reads a text once more that was read with these notes, if every name is to be kept.
fn second_reading<'t, 'a>(
    alloc: Global,
    text: Text<'t>,
    notes: &Notes,
) -> Result<Option<SecondReading<'t>>, Failure<'a>> {
    if !text.wanted.extended {
        return Ok(None);
    }
    match SecondReading::read(alloc, text.bytes, notes) {
        Ok(more) => Ok(Some(more)),
        Err(fault) => Err(failure_of(alloc, text, fault.into(), 0)),
    }
}

// The failure for the error of a text, or of its entry at an index.
fn failure_of<'a>(alloc: Global, text: Text<'_>, fault: TicFault, index: usize) -> Failure<'a> {
    if text.wanted.verbose
        && let Ok(Some(message)) = located_message(alloc, text, fault, index)
    {
        return Failure::Located(message);
    }
    fault.into()
}

// The message for an error that is somewhere in a text.
fn located_message(
    alloc: Global,
    text: Text<'_>,
    fault: TicFault,
    index: usize,
) -> Result<Option<String>, AllocError> {
    match locate(alloc, text.bytes, fault, index)? {
        Some(place) => {
            let message = error_message(alloc, text.file, text.bytes, place, fault)?;
            Ok(Some(message))
        }
        None => Ok(None),
    }
}

fn compile_source<'a>(job: &Job<'_, '_>, purpose: Purpose<'_>) -> Result<(), Failure<'a>> {
    let mut compiler = Compiler::new(job.source);
    match purpose {
        Purpose::Sizes => print_sizes(job, &mut compiler),
        Purpose::Files(directory) => write_all_files(job, &mut compiler, directory),
    }
}

// Compiles the next entry, whose index is `index`.
fn next_entry<'a>(
    job: &Job<'_, '_>,
    compiler: &mut Compiler<'_>,
    index: usize,
) -> Result<Option<CompiledEntry>, Failure<'a>> {
    match compiler.next_entry(job.rt.alloc(), index, job.more) {
        Ok(entry) => Ok(entry),
        Err(fault) => Err(failure_of(job.rt.alloc(), job.text, fault, index)),
    }
}

// Prints the name of each entry of a source, and the size of its file.
fn print_sizes<'a>(job: &Job<'_, '_>, compiler: &mut Compiler<'_>) -> Result<(), Failure<'a>> {
    let mut sizes = Vec::with_capacity(job.rt.alloc(), job.source.len())?;
    add_sizes(job, compiler, &mut sizes)?;
    tell_notes(job)?;
    print_size_lines(job, sizes.as_slice())
}

// Adds the sizes of all entries' files.
fn add_sizes<'a>(
    job: &Job<'_, '_>,
    compiler: &mut Compiler<'_>,
    sizes: &mut Vec<u16>,
) -> Result<(), Failure<'a>> {
    for i in 0..job.source.len() {
        if let Some(size) = next_size(job, compiler, i)? {
            sizes.push(size)?;
        }
    }
    Ok(())
}

// The size of the next entry's file.
fn next_size<'a>(
    job: &Job<'_, '_>,
    compiler: &mut Compiler<'_>,
    index: usize,
) -> Result<Option<u16>, Failure<'a>> {
    match next_entry(job, compiler, index)? {
        Some(entry) => Ok(Some(size_of(&entry))),
        None => Ok(None),
    }
}

fn size_of(entry: &CompiledEntry) -> u16 {
    u16::try_from(entry.bytes.0.len()).unwrap_or(u16::MAX)
}

fn print_size_lines<'a>(job: &Job<'_, '_>, sizes: &[u16]) -> Result<(), Failure<'a>> {
    let mut lines = Vec::new(job.rt.alloc());
    add_size_lines(job, sizes, &mut lines)?;
    print(job.rt, lines.as_slice())
}

// Adds the lines of all sizes, and prints them as soon as there are many.
fn add_size_lines<'a>(
    job: &Job<'_, '_>,
    sizes: &[u16],
    lines: &mut Vec<u8>,
) -> Result<(), Failure<'a>> {
    for (i, size) in sizes.iter().enumerate() {
        if i < job.source.len() {
            add_size(job.rt.alloc(), job.source.name(i), *size, lines)?;
        }
        if lines.len() >= PIECE {
            print(job.rt, lines.as_slice())?;
            lines.clear();
        }
    }
    Ok(())
}

// Writes the files of a source's entries below a folder.
fn write_all_files<'a>(
    job: &Job<'_, '_>,
    compiler: &mut Compiler<'_>,
    directory: &str,
) -> Result<(), Failure<'a>> {
    let mut held = Vec::new(job.rt.alloc());
    let are_few = hold_entries(job, compiler, &mut held)?;
    tell_notes(job)?;
    if are_few {
        write_entries(job.rt, directory, held.as_slice())
    } else {
        write_again(job, compiler, directory)
    }
}

// Compiles all entries, and holds them. Answers whether they are few enough for that.
fn hold_entries<'a>(
    job: &Job<'_, '_>,
    compiler: &mut Compiler<'_>,
    held: &mut Vec<CompiledEntry>,
) -> Result<bool, Failure<'a>> {
    let mut taken = 0usize;
    for i in 0..job.source.len() {
        taken = hold_next(job, compiler, i, taken, held)?;
    }
    Ok(taken <= MOST_HELD)
}

// Compiles the next entry, and gives how many bytes are held with it.
fn hold_next<'a>(
    job: &Job<'_, '_>,
    compiler: &mut Compiler<'_>,
    index: usize,
    taken: usize,
    held: &mut Vec<CompiledEntry>,
) -> Result<usize, Failure<'a>> {
    match next_entry(job, compiler, index)? {
        Some(entry) => hold(entry, taken, held),
        None => Ok(taken),
    }
}

// Holds an entry, or drops all where they take too many bytes with it.
fn hold<'a>(
    entry: CompiledEntry,
    taken: usize,
    held: &mut Vec<CompiledEntry>,
) -> Result<usize, Failure<'a>> {
    let taken = taken.saturating_add(room_of(&entry));
    if taken > MOST_HELD {
        held.clear();
        return Ok(taken);
    }
    match held.push(entry) {
        Ok(()) => Ok(taken),
        Err(_) => Err(Failure::NoMemory),
    }
}

// About how many bytes a compiled entry takes.
fn room_of(entry: &CompiledEntry) -> usize {
    let paths = entry.paths.0.len().saturating_mul(64);
    entry
        .bytes
        .0
        .len()
        .saturating_add(paths)
        .saturating_add(192)
}

fn write_entries<'a>(
    rt: &HostRuntime,
    directory: &str,
    entries: &[CompiledEntry],
) -> Result<(), Failure<'a>> {
    for entry in entries {
        write_files(rt, directory, entry)?;
    }
    Ok(())
}

// Compiles the entries again, and writes the files of each.
fn write_again<'a>(
    job: &Job<'_, '_>,
    compiler: &mut Compiler<'_>,
    directory: &str,
) -> Result<(), Failure<'a>> {
    compiler.restart();
    for i in 0..job.source.len() {
        write_next(job, compiler, i, directory)?;
    }
    Ok(())
}

fn write_next<'a>(
    job: &Job<'_, '_>,
    compiler: &mut Compiler<'_>,
    index: usize,
    directory: &str,
) -> Result<(), Failure<'a>> {
    match next_entry(job, compiler, index)? {
        Some(entry) => write_files(job.rt, directory, &entry),
        None => Ok(()),
    }
}
