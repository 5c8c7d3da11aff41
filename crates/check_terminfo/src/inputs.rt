//! Lines about reading an input, of readers that fail.

use crate::answers::add_made;
use check_harness::answers::{add_count, add_text, add_word};
use check_harness::troubles::Trouble;
use check_harness::words::{CallLine, Words};
use program_input::read_input;
use std::io;
use std::io::{ErrorKind, Read};

/// Gives so many bytes a read, and answers one read with an error.
#[derive(Clone, Copy)]
struct Pieces {
    left: usize,
    each: usize,
    /// How many reads come before the one that fails, and how it fails.
    fault: Option<(u32, ErrorKind)>,
}

impl Read for Pieces {
    fn read(&mut self, buffer: &mut [u8]) -> io::Result<usize> {
        if let Some((before, kind)) = self.fault {
            if before == 0 {
                self.fault = None;
                return Err(io::Error::from(kind));
            }
            self.fault = Some((before.saturating_sub(1), kind));
        }
        let count = self.left.min(self.each).min(buffer.len());
        buffer[..count].fill(b'x');
        self.left = self.left.saturating_sub(count);
        Ok(count)
    }
}

/// The lines `input COUNT EACH [BEFORE FAULT]` and `input-of TEXT`. Tells whether a line is one of them.
pub fn answer_of_input(line: &mut CallLine<'_>) -> bool {
    match line.name {
        "input" => read_pieces(line),
        "input-of" => {
            let text = line.text();
            let mut reader = text.bytes();
            add_made(
                read_input(line.alloc, &mut reader),
                &mut line.got,
                |bytes, got| add_text(bytes, got),
            );
        }
        _ => return false,
    }
    true
}

fn read_pieces(line: &mut CallLine<'_>) {
    let words = &mut line.words;
    let mut pieces = Pieces {
        left: words.number() as usize,
        each: words.number() as usize,
        fault: read_fault(words),
    };
    let read = read_input(line.alloc, &mut pieces);
    add_made(read, &mut line.got, |bytes, got| {
        for byte in bytes {
            if *byte != b'x' {
                add_word("another", got);
            }
        }
        add_count(bytes.len() as u64, got);
    });
}

// Reads how many reads come before one that is `interrupted` or `broken`, if there is one.
fn read_fault(words: &mut Words<'_>) -> Option<(u32, ErrorKind)> {
    if words.is_at_end() {
        return None;
    }
    let before = words.number();
    match words.name() {
        "interrupted" => Some((before, ErrorKind::Interrupted)),
        "broken" => Some((before, ErrorKind::BrokenPipe)),
        _ => {
            words.fail(Trouble::Bad("no such fault"));
            None
        }
    }
}
