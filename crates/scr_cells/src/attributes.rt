//! Sets of video attributes.
ghost use Rattle.std.specs.Prelude.{⊤, [], ◌∷◌, codes};

use bitflags::{Flag, Flags, bitflag_items};
use std::fmt;

// The attributes by their bits, in the order in which they are sent to a terminal.
const NAMES: [(u8, &str); 7] = [
    (1, "standout"),
    (2, "underline"),
    (4, "reverse"),
    (8, "blink"),
    (16, "dim"),
    (32, "bold"),
    (64, "invisible"),
];

/// A set of video attributes (X/Open Curses Issue 7, 'Attributes'), as bits.
///
/// `bitflags::Flags` has its operations: the union of two sets is `union`, their difference `difference`, membership
/// `contains`. Bit 128 names no attribute: a set keeps it, and no terminal shows it.
#[derive(Clone, Copy, PartialEq, Eq, Debug)]
pub struct Attrs(pub u8);

impl Attrs {
    /// The seven attributes, in the order in which they are sent to a terminal.
    pub const EACH: [Attrs; 7] = [
        Attrs::STANDOUT,
        Attrs::UNDERLINE,
        Attrs::REVERSE,
        Attrs::BLINK,
        Attrs::DIM,
        Attrs::BOLD,
        Attrs::INVIS,
    ];

    /// The set of all seven.
    pub const EVERY: Attrs = Attrs(127);
}

bitflag_items! {
    impl Attrs: u8 {
        const STANDOUT = 1;
        const UNDERLINE = 2;
        const REVERSE = 4;
        const BLINK = 8;
        const DIM = 16;
        const BOLD = 32;
        const INVIS = 64;
    }
}

impl Flags for Attrs {
    type Bits = u8;

    ghost exact = { ⊤ };

    ghost table = { (codes "STANDOUT", 1) ∷ (codes "UNDERLINE", 2) ∷ (codes "REVERSE", 4)
        ∷ (codes "BLINK", 8) ∷ (codes "DIM", 16) ∷ (codes "BOLD", 32) ∷ (codes "INVIS", 64) ∷ [] };

    ghost set_of = { λ attrs. attrs.0 };

    fn flags<'a>() -> &'a [Flag<Attrs>] {
        Attrs::FLAGS
    }

    fn bits(&self) -> u8 {
        self.0
    }

    fn from_bits_retain(bits: u8) -> Attrs {
        Attrs(bits)
    }
}

/// A set is shown as the names of its attributes, with a blank between two of them.
impl fmt::Display for Attrs {
    fn fmt<W: fmt::Write>(&self, f: &mut fmt::Formatter<W>) -> fmt::Result {
        write_names(self.0, &NAMES, f)
    }
}

// Writes those of these names that are in a set.
fn write_names<W: fmt::Write>(
    set: u8,
    names: &[(u8, &str)],
    f: &mut fmt::Formatter<W>,
) -> fmt::Result {
    let mut gap = "";
    for (bit, name) in names {
        if set & bit != 0 {
            write!(f, "{gap}{name}")?;
            gap = " ";
        }
    }
    Ok(())
}
