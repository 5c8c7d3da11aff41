//! What is typed, from the keys that a screen has read.

use curses::{Screen, Typed, TypedItems, TypedReader};

/// Characters, keys and bytes, from the keys that a screen has read. A `TerminalScreen` has one; a program that gives a
/// screen its bytes by itself reads by one of its own.
#[derive(Drop)]
pub struct Keyboard {
    reader: TypedReader,
    // What the last key decided, and was not taken yet.
    items: TypedItems,
}

impl Keyboard {
    /// Nothing is typed yet.
    pub fn new() -> Keyboard {
        Keyboard {
            reader: TypedReader::new(),
            items: TypedItems::empty(),
        }
    }

    /// What is typed next, as far as the keys that are there decide it.
    pub fn next(&mut self, screen: &mut Screen) -> Option<Typed> {
        for _ in 0..usize::MAX {
            if let Some(typed) = self.items.next() {
                return Some(typed);
            }
            let key = screen.key()?;
            self.items = self.reader.key(key);
        }
        None
    }

    /// What is typed next if no more bytes follow those that wait. Call it again until it gives `None`.
    pub fn next_at_once(&mut self, screen: &mut Screen) -> Option<Typed> {
        if let Some(typed) = self.next(screen) {
            return Some(typed);
        }
        self.items = self.reader.idle();
        self.items.next()
    }
}
