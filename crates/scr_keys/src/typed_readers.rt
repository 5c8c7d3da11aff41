//! Reading what is typed: keys and bytes come in one at a time, and characters go out.
ghost use Rattle.std.specs.Prelude.{◌≡◌, ◌≤◌, ◌++◌, ◌∷◌, [], length, map};
ghost use Rattle.std.specs.Option.{option_to_list};
ghost use Rattle.scr_keys.specs.Typing.{AreTyped, CanWait, Came, Idled, came};
ghost use Rattle.scr_keys.specs.declared.keys.Key.TheVariants as keys;
ghost use Rattle.scr_keys.specs.declared.typing.Typed.TheVariants as typed;

use crate::keys::Key;
use crate::sequences::{Sequence, begins_sequence, sequence_of};
use crate::typing::{Typed, TypedItems};
use arrayvec::ArrayVec;
use std::marker::Model;
use std::mem;

/// Reads what is typed from the keys and bytes of a `KeyReader`: it joins the bytes of a character beyond ASCII in
/// UTF-8 (RFC 3629, section 3). All else it passes on as it came.
///
/// The first bytes of a character wait for the others. The caller calls `idle` where it calls that of the `KeyReader`.
/// No call allocates memory.
#[derive(Drop)]
pub struct TypedReader {
    waiting: ArrayVec<u8, 4>,
}

impl Model for TypedReader {
    ghost use Rattle.std.specs.Prelude.{ℕ, List};
    ghost use Rattle.scr_keys.specs.Typing.{CanWait};

    ghost Value = { List ℕ };

    ghost view = { λ r. r.waiting.items };

    ghost invariant = { λ r. CanWait r.waiting.items };
}

impl TypedReader {
    /// A reader that has read nothing.
    pub fn new() -> TypedReader
        ensures { result ≡ [] }
    {
        TypedReader {
            waiting: ArrayVec::new(),
        }
    }

    /// Reads a key or a byte, and gives what that decides: nothing if the byte waits for more; a character if it is the
    /// last of its bytes; otherwise the bytes that waited, one by one, and the key or the byte.
    ///
    /// X/Open Curses Issue 7, get_wch().
    pub fn key(&mut self, key: Key) -> TypedItems
        ensures { AreTyped (came self.old ++ Came key ∷ []) result self.new }
    {
        match key {
            Key::Slot(slot) => self.cut(Some(Typed::Key(slot))),
            Key::Byte(byte) => self.byte(byte),
        }
    }

    /// Tells the reader that nothing came for a while, and gives the bytes that waited, one by one. None waits then.
    pub fn idle(&mut self) -> TypedItems
        ensures typed { AreTyped (came self.old ++ Idled ∷ []) result self.new }
        ensures none { self.new ≡ [] }
    {
        self.cut(None)
    }

    /// The bytes that wait, at most three: the beginning of a character, or none.
    pub fn waiting(&self) -> &[u8]
        ensures bytes { result.now ≡ self.now }
        ensures begun { CanWait self.now }
        ensures few { length result.now ≤ 3 }
    {
        &self.waiting
    }

    // Gives the bytes that wait, and what came after them.
    fn cut(&mut self, last: Option<Typed>) -> TypedItems
        ensures items { result ≡ map (λ byte. typed.Byte byte) self.old ++ option_to_list last }
        ensures none { self.new ≡ [] }
        ensures waits { CanWait self.old }
    {
        TypedItems::of(mem::take(&mut self.waiting), last)
    }

    // Reads a byte.
    fn byte(&mut self, byte: u8) -> TypedItems
        ensures { AreTyped (came self.old ++ Came (keys.Byte byte) ∷ []) result self.new }
    {
        if self.waiting.is_empty() {
            return TypedItems::of(ArrayVec::new(), self.first(byte));
        }
        let mut bytes = mem::take(&mut self.waiting);
        bytes.push(byte);
        match sequence_of(&bytes) {
            Sequence::Whole(character) => {
                TypedItems::of(ArrayVec::new(), Some(Typed::Character(character)))
            }
            Sequence::Begun => {
                self.waiting = bytes;
                TypedItems::empty()
            }
            Sequence::Broken => {
                let _ = bytes.pop();
                TypedItems::of(bytes, self.first(byte))
            }
        }
    }

    // Reads a byte where none waits: it waits itself, or is given.
    fn first(&mut self, byte: u8) -> Option<Typed>
        requires { self.old ≡ [] }
        ensures { AreTyped (Came (keys.Byte byte) ∷ []) (option_to_list result) self.new }
    {
        if begins_sequence(byte) {
            self.waiting.push(byte);
            None
        } else {
            Some(Typed::Byte(byte))
        }
    }
}
