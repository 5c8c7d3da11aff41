//! The profile of a terminal: what is known of it, and which operations it has. `admission` makes a
//! profile of an entry; `pieces` says what an operation sends, and `rendering` gives its bytes and
//! their number.
ghost use Rattle.std.specs.Prelude.{◌≡◌, ◌≤◌, ◌&&◌, length};
ghost use Rattle.scr_cells.specs.Characters.{is_beyond_ascii, is_utf8};
ghost use Rattle.scr_term.specs.declared.operations.capability.Capability.TheVariants.{Sgr0};
ghost use Rattle.scr_term.specs.declared.operations.operation.Op.{Op};
ghost use Rattle.scr_term.specs.Operations.Profiles.{IsProfile, has_colours, is_shown, is_there, shown_set};
ghost use Rattle.scr_term.specs.Code.SentPieces.{piece_of};
ghost use Rattle.scr_term.specs.Operations.Texts.{bytes_of, has, is_attribute, is_count, is_repetition, is_sendable, is_within};

use crate::Op;
use crate::operations::capability::Capability;
use crate::operations::pieces::{SentPiece, entering};
use crate::operations::prices::Prices;
use bitflags::Flags;
use scr_cells::{Attrs, Charset, Size, is_ascii, is_beyond_ascii};
use std::marker::Model;
use ti_param::Program;

/// The profile of a terminal, from its terminfo entry and its size: which operations it has, their
/// texts, and which attributes and colours it shows (terminfo(5)).
#[derive(Drop)]
pub struct Profile {
    pub(crate) size: Size,
    // By the index of the capability.
    pub(crate) programs: Vec<Option<Program>>,
    pub(crate) msgr: bool,
    pub(crate) palette: bool,
    pub(crate) charset: Charset,
    pub(crate) shown: Attrs,
    pub(crate) colours: bool,
    pub(crate) longest: usize,
    pub(crate) prices: Prices,
}

impl Model for Profile {
    ghost use Rattle.scr_term.specs.Operations.Profiles.{ProfileView};
    ghost use Rattle.scr_term.specs.Code.Kept.{IsKept, profile_code};
    ghost use Rattle.ti_param.specs.Code.Trees.{tree_code};
    ghost use Rattle.ti_param.specs.contracts.tokens.Token as token;

    ghost Value = { ProfileView };

    ghost coded = { profile_code (tree_code token.the_row.coded) };

    ghost view = { λ a. record { rows = a.size.rows; columns = a.size.columns; programs = a.programs.items; msgr = a.msgr; palette = a.palette; charset = a.charset } };

    ghost invariant = { λ a. IsKept (record { rows = a.size.rows; columns = a.size.columns; programs = a.programs.items; msgr = a.msgr; palette = a.palette; charset = a.charset }) a.shown.0 a.colours a.longest };
}

impl Profile {
    /// The number of rows and columns of the screen.
    pub fn size(&self) -> Size
        ensures rows { result.rows ≡ self.now.rows }
        ensures columns { result.columns ≡ self.now.columns }
        ensures profile { IsProfile self.now }
    {
        self.size
    }

    /// The attributes that the terminal shows: those that it can turn on, if it can turn all off.
    /// All others are dropped.
    pub fn shows(&self) -> Attrs
        ensures { result.0 ≡ shown_set self.now }
    {
        self.shown
    }

    /// Whether the terminal shows colours. It does if it can set both, make both default again and
    /// turn attributes off, and has at least eight colours and 64 pairs and no attribute that
    /// excludes colours (`ncv`). If not, everything has the default colours.
    pub fn colours(&self) -> bool
        ensures { result ≡ has_colours self.now }
    {
        self.colours
    }

    /// The characters that the terminal is sent.
    pub fn charset(&self) -> Charset
        ensures { result ≡ self.now.charset }
    {
        self.charset
    }

    /// A bound on the bytes of any operation's text, at most 2,048.
    pub fn longest(&self) -> usize
        ensures prices { (op : Op) → length (bytes_of self.now op) ≤ result }
        ensures few { result ≤ 2048 }
    {
        self.longest
    }

    /// Whether the terminal has an operation: the entry has its text, its place is on the screen,
    /// its count is 1 to 500 (for `Repeat`, at least 2), its attributes and colours are shown (for
    /// `Enter`, a single attribute), its byte is 32 to 126, its character is one above ASCII
    /// (`is_character`) and the terminal is sent such in UTF-8.
    #[tactic(auto, unfolding(crate::specs::Operations::Texts::has))]
    pub fn has(&self, op: Op) -> bool
        ensures { result ≡ has self.now op }
    {
        self.is_within(op) && self.is_sendable(self.first_piece(op))
    }

    /// Whether the entry has a text for a capability.
    pub(crate) fn is_there(&self, capability: Capability) -> bool
        ensures { result ≡ is_there self.now capability }
    {
        self.programs[capability.ordinal()].is_some()
    }

    /// Whether the terminal can turn attributes off (`sgr0`). If not, it shows no attribute and no
    /// colour.
    pub fn can_reset(&self) -> bool
        ensures { result ≡ is_there self.now Sgr0 }
    {
        self.is_there(Capability::Sgr0)
    }

    /// Whether motions are defined while an attribute or a colour is on (`msgr`).
    pub fn moves_in_any_rendition(&self) -> bool
        ensures { result ≡ self.now.msgr }
    {
        self.msgr
    }

    /// Whether an operation's numbers are within the limits, its attributes and colours are shown,
    /// and its byte or its character is one that the terminal is sent.
    #[inline(always)]
    pub(crate) fn is_within(&self, op: Op) -> bool
        ensures { result ≡ is_within self.now op }
    {
        match op {
            Op::Move(row, column) => row < self.size.rows && column < self.size.columns,
            Op::Column(column) => column < self.size.columns,
            Op::Line(row) => row < self.size.rows,
            Op::Up(count)
            | Op::Down(count)
            | Op::Left(count)
            | Op::Right(count)
            | Op::UpBy(count)
            | Op::DownBy(count)
            | Op::LeftBy(count)
            | Op::RightBy(count)
            | Op::EraseChars(count)
            | Op::InsertLines(count)
            | Op::DeleteLines(count)
            | Op::InsertChars(count)
            | Op::DeleteChars(count)
            | Op::ScrollUp(count)
            | Op::ScrollDown(count) => is_count(count),
            Op::Enter(attribute) => is_attribute(attribute) && self.is_shown(attribute),
            Op::Set(attributes) => self.shown.contains(attributes),
            Op::Fore(colour) | Op::Back(colour) => colour < 8 && self.colours,
            Op::Put(byte) => is_ascii(byte),
            Op::Write(character) => self.is_written(character),
            Op::Repeat(byte, count) => is_ascii(byte) && is_repetition(count),
            Op::Home
            | Op::Return
            | Op::Clear
            | Op::EraseLine
            | Op::EraseBelow
            | Op::Reset
            | Op::ExitAttributes => true,
        }
    }

    // Whether this is a character above ASCII, and the terminal is sent such.
    fn is_written(&self, character: char) -> bool
        ensures { result ≡ (is_utf8 self.now.charset && is_beyond_ascii character) }
    {
        self.charset.is_utf8() && is_beyond_ascii(character)
    }

    // Whether an attribute can be turned on, and all can be turned off.
    fn is_shown(&self, attribute: Attrs) -> bool
        ensures { result ≡ is_shown self.now attribute.0 }
    {
        self.is_there(Capability::Sgr0) && self.is_there(entering(attribute))
    }

    /// Whether the terminal has the text of a piece.
    #[inline(always)]
    pub(crate) fn is_sendable(&self, piece: SentPiece) -> bool
        ensures { result ≡ is_sendable self.now (piece_of piece) }
    {
        match piece {
            SentPiece::Byte(_) => true,
            SentPiece::Encoded(_) => self.charset.is_utf8(),
            SentPiece::Numbers(capability, ..) => self.is_there(capability),
            SentPiece::Renditions(_) => self.is_there(Capability::Sgr),
        }
    }
}

// Whether an operation can have this count.
fn is_count(count: u32) -> bool
    ensures { result ≡ is_count count }
{
    (1..=500).contains(&count)
}

// Whether a character can be repeated this often.
fn is_repetition(count: u32) -> bool
    ensures { result ≡ is_repetition count }
{
    (2..=500).contains(&count)
}

// Whether the set has exactly one attribute.
fn is_attribute(set: Attrs) -> bool
    ensures { result ≡ is_attribute set.0 }
{
    Attrs::EACH.contains(&set)
}
