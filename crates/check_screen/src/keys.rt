//! Lines about keys, which are read from a reader by itself, or from a screen.

use crate::encoded::check_texts;
use crate::subjects::{Subjects, keep};
use check_harness::answers::{add_number, add_word};
use check_harness::buffers::Buffer;
use check_harness::troubles::Trouble;
use check_harness::words::{CallLine, Words};
use curses::{OpenFault, Opening, Screen};
use scr_cells::{Charset, Size};
use scr_keys::{Key, KeyFault, KeyReader, KeySet, KeyTable, Typed, TypedItems, TypedReader};
use std::alloc::Global;
use ti_caps::{Entry, Slot};

// More keys than may wait.
const ALL: u32 = 100;

/// What keys are read from.
#[derive(Drop)]
pub enum Keyboard {
    /// A reader by itself.
    Reader(KeyReader),
    /// A screen.
    Screen(Screen),
}

impl Keyboard {
    // A byte was typed, or none for a while.
    fn take(&mut self, byte: Option<u8>) -> Result<(), KeyFault> {
        match (self, byte) {
            (Keyboard::Reader(reader), Some(byte)) => reader.byte(byte),
            (Keyboard::Reader(reader), None) => reader.idle(),
            (Keyboard::Screen(screen), Some(byte)) => screen.key_byte(byte),
            (Keyboard::Screen(screen), None) => screen.key_idle(),
        }
    }

    // The first key that waits.
    fn next(&mut self) -> Option<Key> {
        match self {
            Keyboard::Reader(reader) => reader.next(),
            Keyboard::Screen(screen) => screen.key(),
        }
    }
}

/// The lines `reader` and `screen`, which open a keyboard, `full_reader` and `full_screen`, which open one of all names
/// of term.h, and `beside` and one of these words, which opens one beside it; `byte BYTE`, `bytes TEXT`, `idle`, and `keys`, which takes all keys that wait, or has `none`; `typed`, which
/// has what is typed by what arrives; and `typed_texts`. Tells whether a line is one of them.
pub fn answer_of_keys(subjects: &mut Subjects, line: &mut CallLine<'_>) -> Result<bool, Trouble> {
    match (line.name, &subjects.entry) {
        ("reader" | "full_reader" | "screen" | "full_screen", Some(entry)) => {
            open(entry, line.name, &mut subjects.keyboard, line);
        }
        ("beside", Some(entry)) => {
            let name = line.words.name();
            open(entry, name, &mut subjects.beside, line);
        }
        ("typed", _) => add_typed(line),
        ("typed_texts", _) => check_texts(line)?,
        _ => match &mut subjects.keyboard {
            Some(keyboard) => return Ok(answer_of_keyboard(keyboard, line)),
            None => return Ok(false),
        },
    }
    Ok(true)
}

// Opens a keyboard in place of another, by the word `reader` or `full_reader`, or on a screen. A function that owns a
// keyboard takes long to prove, so there is this one alone.
fn open(entry: &Entry, name: &str, keyboard: &mut Option<Keyboard>, line: &mut CallLine<'_>) {
    let opened = match name {
        "reader" => open_reader(line.alloc, entry, KeySet::Table),
        "full_reader" => open_reader(line.alloc, entry, KeySet::All),
        "screen" => open_screen(line.alloc, entry, KeySet::Table),
        _ => open_screen(line.alloc, entry, KeySet::All),
    };
    let got = &mut line.got;
    match opened {
        Ok(opened) => keep(opened, keyboard, got),
        Err(OpenFault::Profile(_)) => add_word("Refused Profile", got),
        Err(OpenFault::KeyTooLong(slot)) => add_done(Err(KeyFault::KeyTooLong(slot)), got),
        Err(OpenFault::NoMemory) => add_done(Err(KeyFault::NoMemory), got),
    }
}

fn open_reader(alloc: Global, entry: &Entry, set: KeySet) -> Result<Keyboard, OpenFault> {
    let table = match set {
        KeySet::Table => KeyTable::of(alloc, entry),
        KeySet::All => KeyTable::of_all(alloc, entry),
    };
    match table.and_then(|table| KeyReader::new(alloc, table)) {
        Ok(reader) => Ok(Keyboard::Reader(reader)),
        Err(KeyFault::KeyTooLong(slot)) => Err(OpenFault::KeyTooLong(slot)),
        Err(_) => Err(OpenFault::NoMemory),
    }
}

fn open_screen(alloc: Global, entry: &Entry, keys: KeySet) -> Result<Keyboard, OpenFault> {
    let charset = Charset::Ascii;
    let opening = Opening {
        charset,
        keys,
        is_larger: false,
    };
    let screen = Screen::open_as(alloc, entry, Size::new(2, 5), opening)?;
    Ok(Keyboard::Screen(screen))
}

fn answer_of_keyboard(keyboard: &mut Keyboard, line: &mut CallLine<'_>) -> bool {
    match line.name {
        "byte" => add_done(keyboard.take(Some(line.words.byte())), &mut line.got),
        "bytes" => {
            let text = line.text();
            add_done(give(keyboard, text.bytes()), &mut line.got);
        }
        "idle" => add_done(keyboard.take(None), &mut line.got),
        "keys" => add_keys(keyboard, &mut line.got),
        _ => return false,
    }
    true
}

// Gives bytes to a keyboard, up to the first that is refused.
fn give(keyboard: &mut Keyboard, bytes: &[u8]) -> Result<(), KeyFault> {
    for byte in bytes {
        keyboard.take(Some(*byte))?;
    }
    Ok(())
}

// Takes all keys that wait: `Slot` and its position, or `Byte` and the byte; or `none`.
fn add_keys(keyboard: &mut Keyboard, got: &mut Buffer) {
    for taken in 0..ALL {
        let (word, number) = match keyboard.next() {
            Some(Key::Slot(slot)) => ("Slot", i64::from(slot)),
            Some(Key::Byte(byte)) => ("Byte", i64::from(byte)),
            None if taken == 0 => return add_word("none", got),
            None => return,
        };
        add_word(word, got);
        add_number(number, got);
    }
}

// Adds what is typed by what arrives at a new reader: bytes, `slot` with the position of a key, and `idle`; and how many
// bytes wait then.
fn add_typed(line: &mut CallLine<'_>) {
    let mut reader = TypedReader::new();
    for _ in 0..ALL {
        if line.words.is_at_end() {
            break;
        }
        let items = arrive(&mut reader, &mut line.words);
        add_items(items, &mut line.got);
    }
    add_word("waits", &mut line.got);
    add_number(reader.waiting().len() as i64, &mut line.got);
}

// What is typed by what the next words say.
fn arrive(reader: &mut TypedReader, words: &mut Words<'_>) -> TypedItems {
    match words.peek() {
        b"idle" => {
            let _word = words.next();
            reader.idle()
        }
        b"slot" => {
            let _word = words.next();
            reader.key(Key::Slot(u16::from(words.byte())))
        }
        _ => reader.key(Key::Byte(words.byte())),
    }
}

/// Adds what was typed: `Character` and its number, `Key` and its position, or `Byte` and the byte.
pub fn add_items(items: TypedItems, got: &mut Buffer) {
    for typed in items {
        let (word, number) = match typed {
            Typed::Character(character) => ("Character", i64::from(u32::from(character))),
            Typed::Key(slot) => ("Key", i64::from(slot)),
            Typed::Byte(byte) => ("Byte", i64::from(byte)),
        };
        add_word(word, got);
        add_number(number, got);
    }
}

// Adds `Ok`, or `Refused` and why; or `NoMemory`.
fn add_done(done: Result<(), KeyFault>, got: &mut Buffer) {
    match done {
        Ok(()) => add_word("Ok", got),
        Err(KeyFault::KeyTooLong(Slot(slot))) => {
            add_word("Refused KeyTooLong", got);
            add_number(i64::from(slot), got)
        }
        Err(KeyFault::QueueFull) => add_word("Refused QueueFull", got),
        Err(KeyFault::NoMemory) => add_word("NoMemory", got),
    }
}
