//! Numbers that look random, and are the same in each run.

use rand_core::Rng;
use rand_pcg::Pcg32;

// Which of the generator's sequences the numbers are of.
const STREAM: u64 = 54;

/// What the next numbers come from.
#[derive(Drop)]
pub struct Random {
    words: Pcg32,
}

impl Random {
    /// The numbers that follow a seed.
    pub fn new(seed: u32) -> Random {
        Random {
            words: Pcg32::new(u64::from(seed), STREAM),
        }
    }

    /// A number below a bound, 0 where the bound is 0.
    pub fn below(&mut self, bound: u32) -> u32 {
        let word = self.words.next_u32();
        if bound == 0 { 0 } else { word % bound }
    }

    /// A byte: most often a graphic character, and now and then a blank, a tab or a new line.
    pub fn byte(&mut self) -> u8 {
        match self.below(12) {
            0 => 10,
            1 => 9,
            2 | 3 => 32,
            _ => u8::try_from(self.below(94)).unwrap_or(0).saturating_add(33),
        }
    }

    /// A set of attributes, most often none.
    pub fn attributes(&mut self) -> u8 {
        match self.below(3) {
            0 => u8::try_from(self.below(128)).unwrap_or(0),
            _ => 0,
        }
    }

    /// A number up to one, most often; and now and then another, or the greatest.
    pub fn about(&mut self, most: u32) -> u32 {
        match self.below(40) {
            0 => u32::MAX,
            1 => most.saturating_add(self.below(9)),
            _ => self.below(most.saturating_add(1)),
        }
    }

    /// A count with a sign: small, and now and then the least or the greatest.
    pub fn signed(&mut self) -> i32 {
        match self.below(20) {
            0 => i32::MIN,
            1 => i32::MAX,
            2..8 => -1,
            8..14 => 1,
            _ => 2,
        }
    }

    /// A byte of any kind: most often one that is written, and now and then any other.
    pub fn any_byte(&mut self) -> u8 {
        match self.below(8) {
            0 => u8::try_from(self.below(256)).unwrap_or(0),
            1 => u8::try_from(self.below(32)).unwrap_or(0),
            _ => self.byte(),
        }
    }

    /// A colour pair: most often 0, else one of the first, and now and then one of the last or one too great.
    pub fn pair(&mut self) -> u32 {
        match self.below(16) {
            0 => self.below(4).saturating_add(62),
            1..8 => self.below(4),
            _ => 0,
        }
    }
}
