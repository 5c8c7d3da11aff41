//! The pieces that each operation sends: characters, and texts of capabilities with their
//! parameters.
ghost use Rattle.std.specs.Prelude.{◌≡◌, ◌≤◌, ◌==◌, ◌<◌, IsTrue, pos, bit_and};
ghost use Rattle.scr_term.specs.Operations.Profiles.{entering};
ghost use Rattle.scr_term.specs.Operations.Texts.{first_piece, is_within, motion, nine, one_if_in, renditions_of, resets_colours, text, text_of_one, text_of_two};
ghost use Rattle.scr_term.specs.Code.SentPieces.{piece_of};

use crate::operations::capability::Capability;
use crate::{Op, Profile};
use bitflags::Flags;
use scr_cells::Attrs;

/// A piece of what an operation sends. Only `sgr` takes more than two numbers, so it has a variant
/// of its own to keep the type small.
#[derive(Clone, Copy)]
pub(crate) enum SentPiece {
    /// A character of ASCII.
    Byte(u8),
    /// A character that is spelled in UTF-8.
    Encoded(char),
    /// The text of a capability with two parameters; the others are 0.
    Numbers(Capability, i32, i32),
    /// The text of `sgr` for a set of attributes.
    Renditions(Attrs),
}

impl Profile {
    /// The only or first piece of an operation that is within the terminal's limits.
    #[inline(always)]
    pub(crate) fn first_piece(&self, op: Op) -> SentPiece
        requires { IsTrue (is_within self.now op) }
        ensures { piece_of result ≡ first_piece self.now op }
    {
        let _size = self.size();
        match op {
            Op::Home => text(Capability::Home),
            Op::Move(row, column) => text_of_two(Capability::Cup, row, column),
            Op::Column(column) => text_of_one(Capability::Hpa, column),
            Op::Line(row) => text_of_one(Capability::Vpa, row),
            Op::Up(count) => self.motion(Capability::Cuu1, Capability::Cuu, count),
            Op::Down(count) => self.motion(Capability::Cud1, Capability::Cud, count),
            Op::Left(count) => self.motion(Capability::Cub1, Capability::Cub, count),
            Op::Right(count) => self.motion(Capability::Cuf1, Capability::Cuf, count),
            Op::UpBy(count) => text_of_one(Capability::Cuu, count),
            Op::DownBy(count) => text_of_one(Capability::Cud, count),
            Op::LeftBy(count) => text_of_one(Capability::Cub, count),
            Op::RightBy(count) => text_of_one(Capability::Cuf, count),
            Op::Return => text(Capability::Cr),
            Op::Clear => text(Capability::Clear),
            Op::EraseLine => text(Capability::El),
            Op::EraseBelow => text(Capability::Ed),
            Op::EraseChars(count) => text_of_one(Capability::Ech, count),
            Op::InsertLines(count) => self.motion(Capability::Il1, Capability::Il, count),
            Op::DeleteLines(count) => self.motion(Capability::Dl1, Capability::Dl, count),
            Op::InsertChars(count) => text_of_one(Capability::Ich, count),
            Op::DeleteChars(count) => self.motion(Capability::Dch1, Capability::Dch, count),
            Op::ScrollUp(count) => self.motion(Capability::Ind, Capability::Indn, count),
            Op::ScrollDown(count) => self.motion(Capability::Ri, Capability::Rin, count),
            Op::Reset => text(Capability::Sgr0),
            Op::ExitAttributes => text(Capability::Sgr0),
            Op::Enter(attribute) => text(entering(attribute)),
            Op::Set(attributes) => SentPiece::Renditions(attributes),
            Op::Fore(colour) => text_of_one(Capability::Setaf, u32::from(colour)),
            Op::Back(colour) => text_of_one(Capability::Setab, u32::from(colour)),
            Op::Put(byte) => SentPiece::Byte(byte),
            Op::Write(character) => SentPiece::Encoded(character),
            Op::Repeat(byte, count) => text_of_two(Capability::Rep, u32::from(byte), count),
        }
    }

    // The text for one place or line if the terminal has it, otherwise the one with a count.
    fn motion(&self, one: Capability, many: Capability, count: u32) -> SentPiece
        requires { count ≤ 500 }
        ensures { piece_of result ≡ motion self.now one many count }
    {
        if count == 1 && self.is_there(one) {
            text(one)
        } else {
            text_of_one(many, count)
        }
    }
}

/// Whether an operation makes the colours default.
pub(crate) fn resets_colours(op: Op) -> bool
    ensures { result ≡ resets_colours op }
{
    matches!(op, Op::Reset | Op::Set(_))
}

/// The text of a capability without parameters.
pub(crate) fn text(capability: Capability) -> SentPiece
    ensures { piece_of result ≡ text capability }
{
    SentPiece::Numbers(capability, 0, 0)
}

// The text of a capability with a number.
fn text_of_one(capability: Capability, number: u32) -> SentPiece
    requires { number ≤ 500 }
    ensures { piece_of result ≡ text_of_one capability number }
{
    SentPiece::Numbers(capability, number as i32, 0)
}

// The text of a capability with two numbers.
fn text_of_two(capability: Capability, first: u32, second: u32) -> SentPiece
    requires first { first ≤ 500 }
    requires second { second ≤ 500 }
    ensures { piece_of result ≡ text_of_two capability first second }
{
    SentPiece::Numbers(capability, first as i32, second as i32)
}

/// The capability that turns on an attribute.
pub(crate) fn entering(attribute: Attrs) -> Capability
    ensures { result ≡ entering attribute.0 }
{
    match attribute {
        Attrs::STANDOUT => Capability::Smso,
        Attrs::UNDERLINE => Capability::Smul,
        Attrs::REVERSE => Capability::Rev,
        Attrs::BLINK => Capability::Blink,
        Attrs::DIM => Capability::Dim,
        Attrs::BOLD => Capability::Bold,
        _ => Capability::Invis,
    }
}

// 1 if the set has the attribute, else 0.
fn one_if_in(set: Attrs, attribute: Attrs) -> i32
    ensures { result ≡ one_if_in set.0 attribute.0 }
{
    i32::from(set.contains(attribute))
}

/// The nine parameters of `sgr`: one for each attribute in its order, and 0 for protected and
/// alternate characters.
pub(crate) fn renditions_of(attributes: Attrs) -> [i32; 9]
    ensures { result ≡ renditions_of attributes.0 }
{
    [
        one_if_in(attributes, Attrs::STANDOUT),
        one_if_in(attributes, Attrs::UNDERLINE),
        one_if_in(attributes, Attrs::REVERSE),
        one_if_in(attributes, Attrs::BLINK),
        one_if_in(attributes, Attrs::DIM),
        one_if_in(attributes, Attrs::BOLD),
        one_if_in(attributes, Attrs::INVIS),
        0,
        0,
    ]
}
