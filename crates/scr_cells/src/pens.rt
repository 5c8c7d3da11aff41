//! Pens: what a character is written with.
ghost use Rattle.std.specs.Prelude.{◌≡◌, ◌↔◌, ◌<◌, IsSome, IsTrue, IfSome};
ghost use Rattle.std.proofs.Common.{rules};
ghost use Rattle.std.specs.Cmp.Rules.{comparing};
ghost use Rattle.scr_cells.specs.Code.PackedPens.{coded_colour, colour_code};
ghost use Rattle.scr_cells.specs.PenViews.{IsColour, IsPen, is_plain_pen, pen_eq, plain_pen};

use crate::Attrs;
use std::marker::Model;

/// What a character is written with: a set of attributes and two colours, that of the character and that of its
/// ground (X/Open Curses Issue 7, 'Attributes' and 'Color'; ECMA-48, 'graphic rendition'). A colour is 0 to 7, in
/// the order black, red, green, yellow, blue, magenta, cyan, white, or `None`, the terminal's default.
///
/// One `u32`: the attributes in bits 16 to 23, the foreground in bits 24 to 27, the background in bits 28 to 31, each
/// colour as 1 more than it is and 0 for the default. Bits 0 to 15 are 0: a `Look` has its character there.
#[derive(Clone, Copy, Debug)]
pub struct Pen {
    pub(crate) packed: u32,
}

impl Model for Pen {
    ghost use Rattle.std.specs.Prelude.{◌≡◌, ◌*◌, ◌/◌, ◌%◌};
    ghost use Rattle.scr_cells.specs.PenViews.{PenView, IsPen};
    ghost use Rattle.scr_cells.specs.Code.PackedPens.{coded_pen, pen_code};

    ghost Value = { PenView };

    ghost view = { λ a. coded_pen (a.packed / 65536) };

    ghost invariant = { λ a. IsPen (coded_pen (a.packed / 65536)) × (a.packed % 65536 ≡ 0) };

    ghost inverse = { λ v. record { packed = pen_code v * 65536 } };
}

impl Pen {
    /// The greatest colour.
    pub const MOST: u8 = 7;

    /// The pen of these attributes, foreground and background; `None` if a colour is above 7.
    pub fn new(attrs: Attrs, foreground: Option<u8>, background: Option<u8>) -> Option<Pen>
        ensures colours { IsSome result ↔ (IfSome foreground IsColour × IfSome background IsColour) }
        ensures holds { IfSome result (λ pen. pen ≡ record { attrs = attrs.0; foreground = foreground; background = background }) }
    {
        if !is_colour(foreground) || !is_colour(background) {
            return None;
        }
        let code = code_of(background) * 4096 + code_of(foreground) * 256 + u32::from(attrs.0);
        Some(Pen {
            packed: code * 65536,
        })
    }

    /// The pen without attributes, in default colours.
    pub fn plain() -> Pen
        ensures { result ≡ plain_pen }
    {
        Pen { packed: 0 }
    }

    /// The attributes.
    pub fn attrs(self) -> Attrs
        ensures value { result.0 ≡ self.attrs }
        ensures pen { IsPen self }
    {
        Attrs((self.packed / 65536 % 256) as u8)
    }

    /// The colour of the character, 0 to 7; `None` if it is the default.
    pub fn foreground(self) -> Option<u8>
        ensures value { result ≡ self.foreground }
        ensures pen { IsPen self }
    {
        colour_of(self.packed / 16777216 % 16)
    }

    /// The colour of its ground, 0 to 7; `None` if it is the default.
    pub fn background(self) -> Option<u8>
        ensures value { result ≡ self.background }
        ensures pen { IsPen self }
    {
        colour_of(self.packed / 268435456)
    }

    /// The pen with these attributes in place of its own.
    pub fn with_attrs(self, attrs: Attrs) -> Pen
        ensures { result ≡ record self { attrs = attrs.0 } }
    {
        Pen {
            packed: self.packed / 16777216 * 16777216 + u32::from(attrs.0) * 65536,
        }
    }

    /// The pen with this foreground, 0 to 7 or the default, in place of its own.
    pub fn with_foreground(self, foreground: Option<u8>) -> Pen
        requires { IfSome foreground IsColour }
        ensures { result ≡ record self { foreground = foreground } }
    {
        Pen {
            packed: self.packed / 268435456 * 268435456
                + code_of(foreground) * 16777216
                + self.packed % 16777216,
        }
    }

    /// The pen with this background, 0 to 7 or the default, in place of its own.
    pub fn with_background(self, background: Option<u8>) -> Pen
        requires { IfSome background IsColour }
        ensures { result ≡ record self { background = background } }
    {
        Pen {
            packed: code_of(background) * 268435456 + self.packed % 268435456,
        }
    }

    /// Whether it has no attribute and default colours.
    pub fn is_plain(self) -> bool
        ensures value { result ≡ is_plain_pen self }
    {
        self.packed == 0
    }
}

// Whether this is one of the eight colours, or the default.
fn is_colour(colour: Option<u8>) -> bool
    ensures { IsTrue result ↔ IfSome colour IsColour }
{
    match colour {
        Some(colour) => colour <= Pen::MOST,
        None => true,
    }
}

// A colour as a number: 1 more than it is, and 0 for the default.
fn code_of(colour: Option<u8>) -> u32
    requires { IfSome colour IsColour }
    ensures { result ≡ colour_code colour }
{
    match colour {
        Some(colour) => u32::from(colour) + 1,
        None => 0,
    }
}

// The colour of such a number.
fn colour_of(code: u32) -> Option<u8>
    requires { code < 9 }
    ensures { result ≡ coded_colour code }
{
    if code == 0 {
        None
    } else {
        Some((code - 1) as u8)
    }
}

impl PartialEq for Pen {
    ghost eq = { pen_eq };

    ghost laws = { Prim.search (comparing, rules) };

    fn eq(&self, other: &Pen) -> bool {
        self.packed == other.packed
    }
}
