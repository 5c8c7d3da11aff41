//! Looks: what a terminal shows in one place.
ghost use Rattle.std.specs.Prelude.{◌≡◌, ◌↔◌, ◌==◌, IsSome, IfSome};
ghost use Rattle.std.proofs.Common.{rules};
ghost use Rattle.std.specs.Ordering.{eq_of_both, on};
ghost use Rattle.std.specs.Cmp.Rules.{comparing};
ghost use Rattle.scr_cells.specs.Characters.{IsAscii, IsCharacter, stand_in};
ghost use Rattle.scr_cells.specs.LookViews.{IsLook, blank};
ghost use Rattle.scr_cells.specs.PenViews.{IsColour, pen_eq};

use crate::characters::stand_in;
use crate::differences::Packed;
use crate::{Attrs, Pen, is_ascii, is_character};
use std::marker::Model;

/// What a terminal shows in one place: a character (`is_character`), and the attributes and the colours that it is shown
/// with (ECMA-48, 'graphic rendition').
///
/// One `u32`: the character in bits 0 to 15, the rest as in a `Pen`.
#[derive(Clone, Copy, Debug)]
pub struct Look {
    packed: u32,
}

impl Model for Look {
    ghost use Rattle.std.specs.Prelude.{◌+◌, ◌*◌, ◌/◌, ◌%◌};
    ghost use Rattle.scr_cells.specs.LookViews.{LookView, IsLook};
    ghost use Rattle.scr_cells.specs.Code.PackedPens.{coded_pen, pen_code};

    ghost Value = { LookView };

    ghost view = { λ a. record { character = a.packed % 65536; pen = coded_pen (a.packed / 65536) } };

    ghost invariant = { λ a. IsLook (record { character = a.packed % 65536; pen = coded_pen (a.packed / 65536) }) };

    ghost inverse = { λ v. record { packed = pen_code v.pen * 65536 + v.character } };
}

impl Look {
    /// The look of a byte with attributes, a foreground and a background; `None` if the byte is not 32 to 126 or a
    /// colour is above 7. A colour that is `None` is the terminal's default.
    pub fn new(
        byte: u8,
        attrs: Attrs,
        foreground: Option<u8>,
        background: Option<u8>,
    ) -> Option<Look>
        ensures fits { IsSome result ↔ (IsAscii byte × IfSome foreground IsColour × IfSome background IsColour) }
        ensures holds { IfSome result (λ look. look ≡ record { character = byte; pen = record { attrs = attrs.0; foreground = foreground; background = background } }) }
    {
        let pen = Pen::new(attrs, foreground, background)?;
        Look::written(byte, pen)
    }

    /// The look of a byte that is written with a pen; `None` if the byte is not 32 to 126.
    pub fn written(byte: u8, pen: Pen) -> Option<Look>
        ensures character { IsSome result ↔ IsAscii byte }
        ensures holds { IfSome result (λ look. look ≡ record { character = byte; pen = pen }) }
    {
        if !is_ascii(byte) {
            return None;
        }
        Some(Look {
            packed: pen.packed + u32::from(byte),
        })
    }

    /// The look of a character that is written with a pen; `None` if the `char` is no character (`is_character`).
    pub fn of(character: char, pen: Pen) -> Option<Look>
        ensures character { IsSome result ↔ IsCharacter character }
        ensures holds { IfSome result (λ look. look ≡ record { character = character; pen = pen }) }
    {
        if !is_character(character) {
            return None;
        }
        Some(Look {
            packed: pen.packed + u32::from(character),
        })
    }

    /// A blank: character 32 without attributes, in default colours.
    pub fn blank() -> Look
        ensures { result ≡ blank }
    {
        Look { packed: 32 }
    }

    /// The character.
    pub fn character(self) -> char
        ensures value { result ≡ self.character }
        ensures look { IsLook self }
    {
        // There is one, since no character of a look is a surrogate.
        char::from_u32(self.code()).unwrap_or(' ')
    }

    /// The code of the character.
    pub fn code(self) -> u32
        ensures value { result ≡ self.character }
        ensures look { IsLook self }
    {
        self.packed % 65536
    }

    /// The stand-in of the character: the byte, 32 to 126, that is shown for it where the terminal has ASCII alone. A
    /// character of ASCII stands for itself.
    pub fn stand_in(self) -> u8
        ensures value { result ≡ stand_in self.character }
        ensures ascii { IsAscii result }
        ensures look { IsLook self }
    {
        stand_in(self.code())
    }

    /// The byte of a character of ASCII; of any other its stand-in (`stand_in`), not the character itself.
    pub fn byte(self) -> u8
        ensures value { result ≡ stand_in self.character }
        ensures ascii { IsAscii result }
        ensures look { IsLook self }
    {
        self.stand_in()
    }

    /// What the character is written with.
    pub fn pen(self) -> Pen
        ensures value { result ≡ self.pen }
        ensures look { IsLook self }
    {
        Pen {
            packed: self.packed / 65536 * 65536,
        }
    }

    /// The attributes.
    pub fn attrs(self) -> Attrs
        ensures value { result.0 ≡ self.pen.attrs }
        ensures look { IsLook self }
    {
        self.pen().attrs()
    }

    /// The colour of the character, 0 to 7; `None` if it is the default.
    pub fn foreground(self) -> Option<u8>
        ensures value { result ≡ self.pen.foreground }
        ensures look { IsLook self }
    {
        self.pen().foreground()
    }

    /// The colour of its ground, 0 to 7; `None` if it is the default.
    pub fn background(self) -> Option<u8>
        ensures value { result ≡ self.pen.background }
        ensures look { IsLook self }
    {
        self.pen().background()
    }
}

impl PartialEq for Look {
    ghost eq = { eq_of_both (on (λ look. look.character) ◌==◌) (on (λ look. look.pen) pen_eq) };

    ghost laws = { Prim.search (comparing, rules) depth 8 };

    fn eq(&self, other: &Look) -> bool {
        self.packed == other.packed
    }
}

impl Packed for Look {
    ghost use Rattle.std.specs.Prelude.{◌+◌, ◌*◌, ◌%◌, ◌/◌};
    ghost use Rattle.scr_cells.specs.Code.PackedPens.{coded_pen, pen_code};

    ghost code = { λ look. pen_code look.pen * 65536 + look.character };

    ghost coded = { λ n. record { character = n % 65536; pen = coded_pen (n / 65536) } };

    fn packed(self) -> u32 {
        self.packed
    }
}
