//! What a function of the C library gives: an error's number, or it and up to three numbers.
ghost use Rattle.std.specs.Prelude.{◌≡◌, ℕ};
ghost use Rattle.huttavel_c.specs.Replies.{added_reply, done_number, given_cell, made_reply, no_length, pair_reply, refused, seen_reply, touched_reply, with_cell, with_one, with_two};

use crate::faults::window_number;
use curses::{Added, Cell, Win, WinFault};

/// The number of the terminal's default colour.
pub(crate) const DEFAULT_COLOUR: u32 = u32::MAX;

/// An error's number, 0 if there is none, and what the call gives. A number that the call does not give is 0, and all
/// three are 0 if it was refused.
#[repr(C)]
#[derive(Clone, Copy)]
pub struct Reply {
    /// The error's number.
    pub fault: u32,
    /// The first number.
    pub first: u32,
    /// The second number.
    pub second: u32,
    /// The third number.
    pub third: u32,
}

/// A cell, as C has it.
#[repr(C)]
#[derive(Clone, Copy)]
pub struct GivenCell {
    /// The byte that is shown for its character where there is ASCII alone.
    pub byte: u8,
    /// The attributes.
    pub attrs: u8,
    /// The colour pair.
    pub pair: u8,
    /// The code of the character.
    pub character: u32,
}

/// An error's number, and how many bytes a text has, or how many cells were copied.
#[repr(C)]
#[derive(Clone, Copy)]
pub struct Length {
    /// The error's number.
    pub fault: u32,
    /// How many; 0 if it was refused.
    pub count: usize,
}

/// A refusal of a call that gives a length.
pub(crate) fn no_length(fault: u32) -> Length
    ensures { result ≡ no_length fault }
{
    Length { fault, count: 0 }
}

/// A refusal.
pub(crate) fn refused(fault: u32) -> Reply
    ensures { result ≡ refused fault }
{
    Reply {
        fault,
        first: 0,
        second: 0,
        third: 0,
    }
}

/// One number.
pub(crate) fn one(first: u32) -> Reply
    ensures { result ≡ with_one first }
{
    Reply {
        fault: 0,
        first,
        second: 0,
        third: 0,
    }
}

/// Two numbers.
pub(crate) fn two(pair: (u32, u32)) -> Reply
    ensures { result ≡ with_two pair }
{
    Reply {
        fault: 0,
        first: pair.0,
        second: pair.1,
        third: 0,
    }
}

/// The character of a cell, its byte, and its pair before its attributes.
pub(crate) fn three(cell: Cell) -> Reply
    ensures { result ≡ with_cell cell }
{
    Reply {
        fault: 0,
        first: cell.code(),
        second: u32::from(cell.stand_in()),
        third: cell.pair() * 256 + u32::from(cell.attrs().0),
    }
}

/// A cell, as C has it.
pub(crate) fn given(cell: Cell) -> GivenCell
    ensures { result ≡ given_cell cell }
{
    GivenCell {
        byte: cell.stand_in(),
        attrs: cell.attrs().0,
        pair: cell.pair() as u8,
        character: cell.code(),
    }
}

/// The answer of a call that has no result.
pub(crate) fn done(answer: Result<(), WinFault>) -> u32
    ensures { result ≡ done_number answer }
{
    match answer {
        Ok(()) => 0,
        Err(fault) => window_number(fault),
    }
}

/// The answer of a call that makes a window: its number.
pub(crate) fn made(answer: Result<Win, WinFault>) -> Reply
    ensures { result ≡ made_reply answer }
{
    match answer {
        Ok(win) => one(win.0),
        Err(fault) => refused(window_number(fault)),
    }
}

/// The answer of a call that adds bytes: 1 if the cursor stayed.
pub(crate) fn added(answer: Result<Added, WinFault>) -> Reply
    ensures { result ≡ added_reply answer }
{
    match answer {
        Ok(Added::Done) => one(0),
        Ok(Added::Stayed) => one(1),
        Err(fault) => refused(window_number(fault)),
    }
}

/// The answer of a call that gives two numbers.
pub(crate) fn pair(answer: Result<(u32, u32), WinFault>) -> Reply
    ensures { result ≡ pair_reply answer }
{
    match answer {
        Ok(numbers) => two(numbers),
        Err(fault) => refused(window_number(fault)),
    }
}

/// The answer of a call that reads a cell.
pub(crate) fn seen(answer: Result<Cell, WinFault>) -> Reply
    ensures { result ≡ seen_reply answer }
{
    match answer {
        Ok(cell) => three(cell),
        Err(fault) => refused(window_number(fault)),
    }
}

/// The answer of a call that says whether lines are touched: 1 if they are.
pub(crate) fn touched(answer: Result<bool, WinFault>) -> Reply
    ensures { result ≡ touched_reply answer }
{
    match answer {
        Ok(touched) => one(u32::from(touched)),
        Err(fault) => refused(window_number(fault)),
    }
}
