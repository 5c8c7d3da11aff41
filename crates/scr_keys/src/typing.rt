//! What was typed.
ghost use Rattle.std.specs.Prelude.{◌≡◌, []};

use arrayvec::ArrayVec;
use std::marker::Model;

/// What was typed: a character, a key of the terminal's entry, or a byte that belongs to neither.
#[derive(Clone, Copy, Debug, PartialEq, Eq)]
pub enum Typed {
    /// A character beyond ASCII: the two to four bytes of its UTF-8 encoding came (RFC 3629, section 3).
    Character(char),
    /// The key whose text is at this position of the table, as in `Key::Slot`.
    Key(u16),
    /// A byte of ASCII, or one that belongs to no character.
    Byte(u8),
}

/// What was typed since the last call: an iterator over at most four items, which allocates nothing.
#[derive(Drop)]
pub struct TypedItems {
    // Bytes that waited for more, and belong to no character.
    bytes: ArrayVec<u8, 4>,
    // What came last.
    last: Option<Typed>,
}

impl Model for TypedItems {
    ghost use Rattle.std.specs.Prelude.{List, ◌++◌, map};
    ghost use Rattle.std.specs.Option.{option_to_list};
    ghost use Rattle.scr_keys.specs.declared.typing.Typed.{Typed};
    ghost use Rattle.scr_keys.specs.declared.typing.Typed.TheVariants as typed;

    ghost Value = { List Typed };

    ghost view = { λ t. map (λ byte. typed.Byte byte) t.bytes.items ++ option_to_list t.last };
}

impl TypedItems {
    ghost use Rattle.std.specs.Prelude.{◌++◌, map};
    ghost use Rattle.std.specs.Option.{option_to_list};
    ghost use Rattle.scr_keys.specs.declared.typing.Typed.TheVariants as typed;

    /// Nothing.
    pub fn empty() -> TypedItems
        ensures { result ≡ [] }
    {
        TypedItems {
            bytes: ArrayVec::new(),
            last: None,
        }
    }

    // These bytes, each for itself, and what came after them.
    pub(crate) fn of(bytes: ArrayVec<u8, 4>, last: Option<Typed>) -> TypedItems
        ensures { result ≡ map (λ byte. typed.Byte byte) bytes.items ++ option_to_list last }
    {
        TypedItems { bytes, last }
    }
}

impl Iterator for TypedItems {
    ghost use Rattle.std.specs.Iterator.{YieldsFirst, item_count};

    type Item = Typed;

    ghost next_gives = { YieldsFirst (λ items. items) };

    ghost remaining = { item_count (λ items. items) };

    fn next(&mut self) -> Option<Typed> {
        match self.bytes.pop_at(0) {
            Some(byte) => Some(Typed::Byte(byte)),
            None => self.last.take(),
        }
    }
}
