//! Ladders of prices: those of a text with a number, by the digits of the number.

use crate::Op;
use crate::operations::prices::FAR;

// The operations by which a text with a number is priced: one with a number of one digit, one of
// two and one of three. `hpa` and `vpa` count from 1. A motion also has one by a single place.
pub(crate) const ERASURES: [Op; 3] = [Op::EraseChars(1), Op::EraseChars(10), Op::EraseChars(100)];

pub(crate) const LINES_INSERTED: [Op; 4] = [
    Op::InsertLines(1),
    Op::InsertLines(2),
    Op::InsertLines(10),
    Op::InsertLines(100),
];

pub(crate) const LINES_DELETED: [Op; 4] = [
    Op::DeleteLines(1),
    Op::DeleteLines(2),
    Op::DeleteLines(10),
    Op::DeleteLines(100),
];

pub(crate) const CHARS_INSERTED: [Op; 3] = [
    Op::InsertChars(1),
    Op::InsertChars(10),
    Op::InsertChars(100),
];

pub(crate) const CHARS_DELETED: [Op; 4] = [
    Op::DeleteChars(1),
    Op::DeleteChars(2),
    Op::DeleteChars(10),
    Op::DeleteChars(100),
];

pub(crate) const SCROLLS_UP: [Op; 4] = [
    Op::ScrollUp(1),
    Op::ScrollUp(2),
    Op::ScrollUp(10),
    Op::ScrollUp(100),
];

pub(crate) const SCROLLS_DOWN: [Op; 4] = [
    Op::ScrollDown(1),
    Op::ScrollDown(2),
    Op::ScrollDown(10),
    Op::ScrollDown(100),
];

// Texts that send one fewer than the count have as many digits for these.
pub(crate) const REPEATS: [Op; 3] = [
    Op::Repeat(b'-', 2),
    Op::Repeat(b'-', 11),
    Op::Repeat(b'-', 101),
];

pub(crate) const COLUMNS: [Op; 3] = [Op::Column(0), Op::Column(9), Op::Column(99)];

pub(crate) const LINES: [Op; 3] = [Op::Line(0), Op::Line(9), Op::Line(99)];

pub(crate) const UPS: [Op; 4] = [Op::Up(1), Op::Up(2), Op::Up(10), Op::Up(100)];

pub(crate) const DOWNS: [Op; 4] = [Op::Down(1), Op::Down(2), Op::Down(10), Op::Down(100)];

pub(crate) const LEFTS: [Op; 4] = [Op::Left(1), Op::Left(2), Op::Left(10), Op::Left(100)];

pub(crate) const RIGHTS: [Op; 4] = [Op::Right(1), Op::Right(2), Op::Right(10), Op::Right(100)];

// The same for `cup`, in the first column and in the first row.
pub(crate) const ADDRESSED_ROWS: [Op; 3] = [Op::Move(0, 0), Op::Move(9, 0), Op::Move(99, 0)];

pub(crate) const ADDRESSED_COLUMNS: [Op; 3] = [Op::Move(0, 0), Op::Move(0, 9), Op::Move(0, 99)];

// The price of a text with a number, by the digits of the number that is sent.
#[derive(Clone, Copy)]
pub(crate) struct ByDigits {
    pub(crate) one: u32,
    pub(crate) two: u32,
    pub(crate) three: u32,
}

// The price of a motion by a count; one place can have a text of its own.
#[derive(Clone, Copy)]
pub(crate) struct Counted {
    pub(crate) one: u32,
    pub(crate) more: ByDigits,
}

impl ByDigits {
    // For a text that the terminal does not have.
    pub(crate) fn far() -> ByDigits {
        ByDigits {
            one: FAR,
            two: FAR,
            three: FAR,
        }
    }

    // The price with this number.
    #[inline(always)]
    pub(crate) fn with(self, number: u32) -> u32 {
        match number {
            0..=9 => self.one,
            10..=99 => self.two,
            _ => self.three,
        }
    }

    // The price with the next number: `cup`, `hpa` and `vpa` count from 1.
    #[inline(always)]
    pub(crate) fn with_next(self, number: u32) -> u32 {
        self.with(number.saturating_add(1))
    }
}

impl Counted {
    // The price of a motion by `count` places.
    #[inline(always)]
    pub(crate) fn by(self, count: u32) -> u32 {
        if count == 1 {
            self.one
        } else {
            self.more.with(count)
        }
    }
}
