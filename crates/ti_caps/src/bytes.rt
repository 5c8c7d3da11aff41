//! Strings of bytes, which contracts see as lists.

use std::marker::Model;
use std::ops::DerefSlice;

/// A string of any bytes, which contracts see as a list.
#[derive(Debug, Drop)]
pub struct Bytes(pub Vec<u8>);

impl Model for Bytes {
    ghost use Rattle.std.specs.Prelude.{List, ℕ};

    ghost Value = { List ℕ };

    ghost view = { λ b. b.0.items };
}

/// The bytes as a slice.
impl DerefSlice for Bytes {
    ghost use Rattle.std.specs.Prelude.{◌≡◌};

    type Elem = u8;

    ghost deref_gives = { λ b xs. xs ≡ b };

    fn deref(&self) -> &[u8] {
        &self.0
    }
}
