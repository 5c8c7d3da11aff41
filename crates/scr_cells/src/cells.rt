//! Cells: what a window holds in one place.
ghost use Rattle.std.specs.Prelude.{◌≡◌, ◌↔◌, ◌==◌, IsSome, IsTrue, IfSome};
ghost use Rattle.std.proofs.Common.{rules};
ghost use Rattle.std.specs.Ordering.{eq_of_both, on};
ghost use Rattle.std.specs.Cmp.Rules.{comparing};
ghost use Rattle.scr_cells.specs.CellViews.{IsCell, IsPair, blank_cell, exchanged};
ghost use Rattle.scr_cells.specs.Characters.{IsAscii, IsCharacter, stand_in};

use crate::Attrs;
use crate::characters::{is_ascii, is_character, stand_in};
use crate::differences::Packed;
use bitflags::Flags;
use std::marker::Model;

/// What a window holds in one place: a character (`is_character`), a set of attributes and the number of a colour pair
/// (X/Open Curses Issue 7, 'Characters' and 'Color'). Pair 0 means the terminal's default colours.
///
/// One `u32`: the character in bits 0 to 15, the attributes in bits 16 to 23, the pair in bits 24 to 29.
#[derive(Clone, Copy, Debug)]
pub struct Cell {
    packed: u32,
}

impl Model for Cell {
    ghost use Rattle.std.specs.Prelude.{◌+◌, ◌*◌, ◌/◌, ◌%◌};
    ghost use Rattle.scr_cells.specs.CellViews.{CellView, IsCell};

    ghost Value = { CellView };

    ghost view = { λ a. record { character = a.packed % 65536; attrs = a.packed / 65536 % 256; pair = a.packed / 16777216 } };

    ghost invariant = { λ a. IsCell (record { character = a.packed % 65536; attrs = a.packed / 65536 % 256; pair = a.packed / 16777216 }) };

    ghost inverse = { λ v. record { packed = v.pair * 16777216 + v.attrs * 65536 + v.character } };
}

impl Cell {
    /// The greatest number of a colour pair.
    pub const MOST_PAIR: u32 = 63;

    /// The cell of a byte and attributes, with pair 0; `None` if the byte is not 32 to 126.
    pub fn new(byte: u8, attrs: Attrs) -> Option<Cell>
        ensures character { IsSome result ↔ IsAscii byte }
        ensures holds { IfSome result (λ cell. cell ≡ record { character = byte; attrs = attrs.0; pair = 0 }) }
    {
        if !is_ascii(byte) {
            return None;
        }
        Some(Cell {
            packed: u32::from(attrs.0) * 65536 + u32::from(byte),
        })
    }

    /// The cell of a byte, attributes and a colour pair; `None` if the byte is not 32 to 126 or the pair is above 63
    /// (X/Open Curses Issue 7, 'Color').
    pub fn paired(byte: u8, attrs: Attrs, pair: u32) -> Option<Cell>
        ensures fits { IsSome result ↔ (IsAscii byte × IsPair pair) }
        ensures holds { IfSome result (λ cell. cell ≡ record { character = byte; attrs = attrs.0; pair = pair }) }
    {
        if !is_ascii(byte) || pair > Cell::MOST_PAIR {
            return None;
        }
        Some(Cell {
            packed: pair * 16777216 + u32::from(attrs.0) * 65536 + u32::from(byte),
        })
    }

    /// The cell of a character, attributes and a colour pair; `None` if the `char` is no character (`is_character`) or
    /// the pair is above 63.
    pub fn of(character: char, attrs: Attrs, pair: u32) -> Option<Cell>
        ensures fits { IsSome result ↔ (IsCharacter character × IsPair pair) }
        ensures holds { IfSome result (λ cell. cell ≡ record { character = character; attrs = attrs.0; pair = pair }) }
    {
        if !is_character(character) || pair > Cell::MOST_PAIR {
            return None;
        }
        Some(Cell {
            packed: pair * 16777216 + u32::from(attrs.0) * 65536 + u32::from(character),
        })
    }

    /// The cell of a byte, with the attributes and the colour pair of this one; `None` if the byte is not 32 to 126.
    pub fn with_byte(self, byte: u8) -> Option<Cell>
        ensures character { IsSome result ↔ IsAscii byte }
        ensures holds { IfSome result (λ cell. cell ≡ record { character = byte; attrs = self.attrs; pair = self.pair }) }
    {
        if !is_ascii(byte) {
            return None;
        }
        Some(Cell {
            packed: self.packed / 65536 * 65536 + u32::from(byte),
        })
    }

    /// A blank without attributes, with pair 0.
    pub fn blank() -> Cell
        ensures { result ≡ blank_cell }
    {
        Cell { packed: 32 }
    }

    /// The character.
    pub fn character(self) -> char
        ensures value { result ≡ self.character }
        ensures cell { IsCell self }
    {
        // There is one, since no character of a cell is a surrogate.
        char::from_u32(self.code()).unwrap_or(' ')
    }

    /// The code of the character.
    pub fn code(self) -> u32
        ensures value { result ≡ self.character }
        ensures cell { IsCell self }
    {
        self.packed % 65536
    }

    /// The stand-in of the character: the byte, 32 to 126, that is shown for it where the terminal has ASCII alone. A
    /// character of ASCII stands for itself.
    pub fn stand_in(self) -> u8
        ensures value { result ≡ stand_in self.character }
        ensures ascii { IsAscii result }
        ensures cell { IsCell self }
    {
        stand_in(self.code())
    }

    /// The byte of a character of ASCII; of any other its stand-in (`stand_in`), not the character itself.
    pub fn byte(self) -> u8
        ensures value { result ≡ stand_in self.character }
        ensures ascii { IsAscii result }
        ensures cell { IsCell self }
    {
        self.stand_in()
    }

    /// The attributes.
    pub fn attrs(self) -> Attrs
        ensures value { result.0 ≡ self.attrs }
        ensures cell { IsCell self }
    {
        Attrs((self.packed / 65536 % 256) as u8)
    }

    /// The number of the colour pair, 0 to 63.
    pub fn pair(self) -> u32
        ensures value { result ≡ self.pair }
        ensures cell { IsCell self }
    {
        self.packed / 16777216
    }

    /// Whether two cells have the same attributes and the same colour pair.
    pub fn has_rendition_of(self, other: Cell) -> bool
        ensures { IsTrue result ↔ ((self.attrs ≡ other.attrs) × (self.pair ≡ other.pair)) }
    {
        self.packed / 65536 == other.packed / 65536
    }

    /// The cell with a new background in place of an old one. If it has the old one's character, it gets the new one's;
    /// the same holds for the colour pair. The attributes of the old one are removed, and those of the new one added
    /// (X/Open Curses Issue 7, bkgd()).
    pub fn exchanged(self, old: Cell, new: Cell) -> Cell
        ensures { result ≡ exchanged old new self }
    {
        let shown = if self.code() == old.code() {
            self.with_character_of(old, new)
        } else {
            self
        };
        let coloured = if shown.pair() == old.pair() {
            shown.with_pair_of(old, new)
        } else {
            shown
        };
        let attrs = self.attrs().difference(old.attrs()).union(new.attrs());
        Cell {
            packed: coloured.pair() * 16777216 + u32::from(attrs.0) * 65536 + coloured.code(),
        }
    }

    // The cell with the character of a new one, if it has that of an old one. It is made by sums, which LLVM does for
    // four cells at a time.
    fn with_character_of(self, old: Cell, new: Cell) -> Cell
        requires { self.character ≡ old.character }
        ensures { result ≡ record self { character = new.character } }
    {
        Cell {
            packed: self.packed - old.packed % 65536 + new.packed % 65536,
        }
    }

    // The cell with the colour pair of a new one, if it has that of an old one.
    fn with_pair_of(self, old: Cell, new: Cell) -> Cell
        requires { self.pair ≡ old.pair }
        ensures { result ≡ record self { pair = new.pair } }
    {
        Cell {
            packed: self.packed - old.packed / 16777216 * 16777216
                + new.packed / 16777216 * 16777216,
        }
    }
}

impl PartialEq for Cell {
    ghost eq = { eq_of_both (on (λ cell. cell.character) ◌==◌) (eq_of_both (on (λ cell. cell.attrs) ◌==◌) (on (λ cell. cell.pair) ◌==◌)) };

    ghost laws = { Prim.search (comparing, rules) };

    fn eq(&self, other: &Cell) -> bool {
        self.packed == other.packed
    }
}

impl Packed for Cell {
    ghost use Rattle.std.specs.Prelude.{◌+◌, ◌*◌, ◌/◌, ◌%◌};

    ghost code = { λ cell. cell.pair * 16777216 + cell.attrs * 65536 + cell.character };

    ghost coded = { λ n. record { character = n % 65536; attrs = n / 65536 % 256; pair = n / 16777216 } };

    fn packed(self) -> u32 {
        self.packed
    }
}
