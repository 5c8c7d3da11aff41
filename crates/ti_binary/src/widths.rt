//! How many bits the numbers of a compiled file have, and what such a number says.
ghost use Rattle.std.specs.Prelude.{◌≡◌, ◌≤◌, ◌<◌, ◌+◌, ◌*◌, length, IfSome};
ghost use Rattle.ti_binary.specs.Files.{is_clamped, magic_of, most_of, nth_number, number_said, numbers_size, wrong_magic};

use crate::faults::BinFault;
use crate::parts::word;
use byteorder::{ByteOrder, LittleEndian};
use ti_caps::MOST_NUMBER;

/// The magic number of the legacy format, octal 0432.
const MAGIC: u16 = 0o432;

/// The magic number of the format with 32-bit numbers.
const WIDE_MAGIC: u16 = 0o1036;

/// How wide the numbers in the numbers section of a compiled file are. Contracts say by it which of
/// the two formats they speak of.
#[derive(Clone, Copy, Debug, PartialEq, Eq)]
pub enum Width {
    /// 16 bits (term(5), 'Legacy Storage Format').
    Legacy,
    /// 32 bits (term(5), 'Extended Number Format').
    Wide,
}

impl Width {
    /// The magic number of such files.
    pub(crate) fn magic(self) -> u16
        ensures { result ≡ magic_of self }
    {
        match self {
            Width::Legacy => MAGIC,
            Width::Wide => WIDE_MAGIC,
        }
    }

    /// The error of a file with another magic number.
    pub(crate) fn wrong_magic(self, found: u16) -> BinFault
        ensures fault { result ≡ wrong_magic self found }
        ensures plain { result ≡ BinFault.NoMemory → ⊥ }
    {
        match self {
            Width::Legacy if found == WIDE_MAGIC => BinFault::WideNumbers,
            _ => BinFault::BadMagic,
        }
    }

    /// How many bytes so many numbers of a file take.
    pub fn size_of(self, count: usize) -> usize
        requires few { count ≤ 65535 }
        ensures size { result ≡ numbers_size self count }
        ensures small { result ≤ 4 * count }
    {
        match self {
            Width::Legacy => 2 * count,
            Width::Wide => 4 * count,
        }
    }

    /// One number of a section, the lower bytes first.
    pub fn number(self, section: &[u8], index: usize) -> u32
        requires few { index ≤ 65535 }
        requires room { numbers_size self (index + 1) ≤ length section.now }
        ensures { result ≡ nth_number self section.now index }
    {
        match self {
            Width::Legacy => u32::from(word(section, 2 * index)),
            Width::Wide => LittleEndian::read_u32(&section[4 * index..]),
        }
    }

    /// What a number says: its value, which is 32,767 for all above; `None` (absent) if it is
    /// negative.
    pub(crate) fn said(self, number: u32) -> Option<u16>
        ensures value { result ≡ number_said self number }
        ensures small { IfSome result (λ n. n ≤ 32767) }
    {
        if number <= self.most() {
            Some(number.min(u32::from(MOST_NUMBER)) as u16)
        } else {
            None
        }
    }

    /// Whether a number counts as 32,767 and is greater.
    pub(crate) fn is_clamped(self, number: u32) -> bool
        ensures { result ≡ is_clamped self number }
    {
        number <= self.most() && number > u32::from(MOST_NUMBER)
    }

    /// The greatest number that is not negative.
    pub fn most(self) -> u32
        ensures value { result ≡ most_of self }
        ensures small { result ≤ 2147483647 }
    {
        match self {
            Width::Legacy => u32::from(MOST_NUMBER),
            Width::Wide => 2_147_483_647,
        }
    }
}
