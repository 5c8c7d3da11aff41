//! What each key asks the editor to do.

use crate::history::LINE_FEED;
use crate::sequences::Sequence;
use curses::{Key, keys};
use edit_text::TextPart;

/// Where the cursor goes.
#[derive(Clone, Copy)]
pub(crate) enum Motion {
    Up,
    Down,
    Left,
    Right,
    LineStart,
    LineEnd,
    PageUp,
    PageDown,
}

/// What a key asks for.
#[derive(Clone, Copy)]
pub(crate) enum Command {
    // The key has no command.
    Unknown,
    // A line feed splits the line.
    Insert(TextPart),
    // The next byte is inserted, whatever it is.
    InsertNext,
    DeleteBefore,
    DeleteHere,
    Cut,
    Paste,
    Move(Motion),
    Find,
    FindNext,
    Undo,
    Redo,
    Cancel,
    Save,
    SaveAs,
    Quit,
    Suspend,
    Repaint,
}

/// The command of a key.
pub(crate) fn command_of(key: Key) -> Command {
    match key {
        Key::Byte(byte) => command_of_byte(byte),
        keys::UP => Command::Move(Motion::Up),
        keys::DOWN => Command::Move(Motion::Down),
        keys::LEFT => Command::Move(Motion::Left),
        keys::RIGHT => Command::Move(Motion::Right),
        keys::HOME => Command::Move(Motion::LineStart),
        keys::END => Command::Move(Motion::LineEnd),
        keys::PAGE_UP => Command::Move(Motion::PageUp),
        keys::PAGE_DOWN => Command::Move(Motion::PageDown),
        keys::BACKSPACE => Command::DeleteBefore,
        keys::DELETE => Command::DeleteHere,
        keys::ENTER => Command::Insert(LINE_FEED),
        keys::FIND => Command::Find,
        keys::UNDO => Command::Undo,
        keys::REDO => Command::Redo,
        keys::CANCEL => Command::Cancel,
        keys::SAVE => Command::Save,
        keys::EXIT => Command::Quit,
        keys::SUSPEND => Command::Suspend,
        keys::REFRESH => Command::Repaint,
        Key::Slot(_) => Command::Unknown,
    }
}

// The command of a byte: control characters have some of their own, and all other bytes are inserted.
fn command_of_byte(byte: u8) -> Command {
    match byte {
        8 | 127 => Command::DeleteBefore,
        10 | 13 => Command::Insert(LINE_FEED),
        9 | 32..=126 | 128..=255 => Command::Insert(TextPart::Byte(byte)),
        _ => command_of_control(byte ^ 64),
    }
}

// The command of a control character, by the letter that it is typed with.
fn command_of_control(letter: u8) -> Command {
    match letter {
        b'A' => Command::Move(Motion::LineStart),
        b'C' | b'G' | b'[' => Command::Cancel,
        b'D' => Command::DeleteHere,
        b'E' => Command::Move(Motion::LineEnd),
        b'F' | b'W' => Command::Find,
        b'K' => Command::Cut,
        b'L' => Command::Repaint,
        b'N' => Command::FindNext,
        b'O' => Command::SaveAs,
        b'Q' | b'X' => Command::Quit,
        b'S' => Command::Save,
        b'U' => Command::Paste,
        b'V' => Command::InsertNext,
        b'Y' => Command::Redo,
        b'Z' => Command::Suspend,
        b'_' => Command::Undo,
        _ => Command::Unknown,
    }
}

/// The command of a key that is typed after an escape, as a terminal sends a letter that is typed with Alt.
pub(crate) fn command_of_meta(before: Sequence, key: Key) -> Command {
    match key {
        Key::Byte(b'u' | b'U') if before == Sequence::Escape => Command::Undo,
        Key::Byte(b'e' | b'E') if before == Sequence::Escape => Command::Redo,
        _ => Command::Unknown,
    }
}
