//! Lines about finding entries by the names of terminals.

use crate::answers::{add_entry, add_made};
use check_harness::answers::{add_text, add_word};
use check_harness::buffers::Buffer;
use check_harness::words::{CallLine, Words};
use std::alloc::Global;
use ti_caps::Bytes;
use ti_database::{FilePath, MemoryFiles, Variables, find_in, paths};

/// The line `store PATH BYTES ..`: files in place of those before.
pub fn store(store: &mut MemoryFiles, line: &mut CallLine<'_>) {
    store.0.clear();
    for _ in 0..u32::MAX {
        if line.words.is_at_end() {
            break;
        }
        store_file(store, line);
    }
    add_word("Ok", &mut line.got);
}

fn store_file(store: &mut MemoryFiles, line: &mut CallLine<'_>) {
    let path = FilePath(line.text().into_bytes());
    let bytes = Bytes(line.text().into_bytes());
    let pushed = store.0.push((path, bytes));
    line.got.check(pushed.is_ok());
}

/// The lines `paths NAME VARIABLE=VALUE..` and `look-up NAME VARIABLE=VALUE..`. Tells whether a line is one of them.
pub fn answer_of_database(store: &MemoryFiles, line: &mut CallLine<'_>) -> bool {
    if line.name != "paths" && line.name != "look-up" {
        return false;
    }
    let text = line.text();
    let (alloc, got) = (line.alloc, &mut line.got);
    let variables = read_variables(alloc, &mut line.words, got);
    if line.name == "paths" {
        add_made(paths(alloc, text.bytes(), &variables), got, |paths, got| {
            for path in &paths.0 {
                add_text(&path.0, got);
            }
        });
    } else {
        add_made(
            find_in(alloc, store, text.bytes(), &variables),
            got,
            add_entry,
        );
    }
    true
}

// Reads the variables that are set.
fn read_variables(alloc: Global, words: &mut Words<'_>, got: &mut Buffer) -> Variables {
    let line = *words;
    for _ in 0..u32::MAX {
        if words.is_at_end() {
            break;
        }
        let _variable = words.next();
    }
    Variables {
        terminfo: variable(alloc, line, b"TERMINFO=", got),
        home: variable(alloc, line, b"HOME=", got),
        terminfo_dirs: variable(alloc, line, b"TERMINFO_DIRS=", got),
    }
}

fn variable(alloc: Global, line: Words<'_>, name: &[u8], got: &mut Buffer) -> Option<Bytes> {
    let value = value_of(line, name)?;
    let mut bytes = Buffer::new(alloc);
    bytes.extend(value);
    got.check(bytes.done().is_ok());
    Some(Bytes(bytes.into_bytes()))
}

// What follows a name in the words of a line.
fn value_of<'a>(line: Words<'a>, name: &[u8]) -> Option<&'a [u8]> {
    let mut words = line;
    for _ in 0..u32::MAX {
        if words.is_at_end() {
            break;
        }
        let value = words.next().strip_prefix(name);
        if value.is_some() {
            return value;
        }
    }
    None
}
