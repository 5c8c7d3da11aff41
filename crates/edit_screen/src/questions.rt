//! What is typed at a question of the last row: what to look for, or a name to save under.

use curses::{Key, keys};
use edit_text::last_part;

/// What a key did that was typed at a question.
#[derive(Clone, Copy)]
pub(crate) enum Typed {
    Taken,
    Ended,
    /// It is not for the question.
    Other,
    NoMemory,
}

/// Types a key at a question whose answer so far is given.
pub(crate) fn typed_at(answer: &mut Vec<u8>, key: Key) -> Typed {
    match key {
        Key::Byte(10 | 13) | keys::ENTER => Typed::Ended,
        Key::Byte(8 | 127) | keys::BACKSPACE => {
            delete_last(answer);
            Typed::Taken
        }
        Key::Byte(byte) if byte >= 32 || byte == b'\t' => typed_bytes(answer, &[byte]),
        _ => Typed::Other,
    }
}

/// Types a character above ASCII at such a question.
pub(crate) fn typed_character_at(answer: &mut Vec<u8>, character: char) -> Typed {
    let mut bytes = [0; 4];
    typed_bytes(answer, character.encode_utf8(&mut bytes).as_bytes())
}

fn typed_bytes(answer: &mut Vec<u8>, bytes: &[u8]) -> Typed {
    match answer.extend_from_slice(bytes) {
        Ok(()) => Typed::Taken,
        Err(_) => Typed::NoMemory,
    }
}

// Deletes the last character of an answer, or its last byte that is none.
fn delete_last(answer: &mut Vec<u8>) {
    if let Some(part) = last_part(answer) {
        answer.truncate(answer.len().saturating_sub(part.len()));
    }
}
