//! Charsets: which characters a terminal can be sent.
ghost use Rattle.std.specs.Prelude.{◌≡◌};
ghost use Rattle.scr_cells.specs.Characters.{IsCharacter, is_utf8, seen_character};

use crate::Cell;

/// The characters that a terminal shows, and the bytes for them.
#[derive(Clone, Copy, Debug, PartialEq, Eq)]
pub enum Charset {
    /// Those of ASCII alone, a byte each. What stands for a character is shown in its place.
    Ascii,
    /// All, in UTF-8 (RFC 3629). The terminal shows each of them in one column.
    Utf8,
}

impl Charset {
    /// Whether it is UTF-8.
    pub fn is_utf8(self) -> bool
        ensures { result ≡ is_utf8 self }
    {
        match self {
            Charset::Ascii => false,
            Charset::Utf8 => true,
        }
    }

    /// The code that the terminal shows for a cell's character: its own in UTF-8, and that of its stand-in in ASCII.
    #[inline(always)]
    #[tactic(auto, unfolding(crate::specs::Characters::seen_character))]
    pub fn seen(self, cell: Cell) -> u32
        ensures value { result ≡ seen_character self cell.character }
        ensures character { IsCharacter result }
    {
        crate::character_laws();
        match self {
            Charset::Ascii => u32::from(cell.stand_in()),
            Charset::Utf8 => cell.code(),
        }
    }
}
