//! Pages: text that is written piece by piece.

use scr_cells::NoMemory;
use std::alloc::Global;
use std::fmt::Display;
use std::io::Write;

/// Text that is written piece by piece. If memory runs out a piece is left out, and `done` reports
/// it, so that writers need not check every time.
#[derive(Drop)]
pub struct Page {
    bytes: Vec<u8>,
    is_short: bool,
}

impl Page {
    /// An empty page.
    pub fn new(alloc: Global) -> Page {
        Page {
            bytes: Vec::new(alloc),
            is_short: false,
        }
    }

    /// The text. Fails if a piece was left out.
    pub fn done(self) -> Result<Vec<u8>, NoMemory> {
        let Page { bytes, is_short } = self;
        if is_short { Err(NoMemory) } else { Ok(bytes) }
    }

    /// The number of bytes written.
    pub fn len(&self) -> usize {
        self.bytes.len()
    }

    /// Notes that a piece was left out, unless `is_written`.
    pub fn check(&mut self, is_written: bool) {
        self.is_short = self.is_short || !is_written;
    }

    /// Writes bytes as they are.
    pub fn add(&mut self, bytes: &[u8]) {
        let added = self.bytes.extend_from_slice(bytes);
        self.check(added.is_ok());
    }

    /// Writes a value with its `Display`.
    pub fn add_value<T: Display>(&mut self, value: &T) {
        let written = write!(&mut self.bytes, "{value}");
        self.check(written.is_ok());
    }

    /// Writes a number in decimal digits, right-aligned in a column of this width.
    pub fn add_number(&mut self, number: usize, width: usize) {
        let mut digits = itoa::Buffer::new();
        let digits = digits.format(number).as_bytes();
        self.add_blanks(digits.len(), width);
        self.add(digits);
    }

    /// Writes `to - from` blanks; none if that is negative.
    pub fn add_blanks(&mut self, from: usize, to: usize) {
        for _ in from..to {
            self.add(b" ");
        }
    }

    /// Writes bytes as `tic -d` prints a string: `\E` for ESC, `^M` for a control character, `\s`
    /// for a blank (terminfo(5)).
    pub fn add_spelled(&mut self, bytes: &[u8]) {
        for byte in bytes {
            self.add_spelled_byte(*byte);
        }
    }

    // Writes one byte like that.
    fn add_spelled_byte(&mut self, byte: u8) {
        match byte {
            27 => self.add(b"\\E"),
            0..=31 => self.add(&[b'^', byte + 64]),
            127 => self.add(b"^?"),
            b' ' => self.add(b"\\s"),
            b',' | b'\\' | b'^' => self.add(&[b'\\', byte]),
            128..=255 => self.add(&[
                b'\\',
                b'0' + byte / 64,
                b'0' + byte / 8 % 8,
                b'0' + byte % 8,
            ]),
            _ => self.add(&[byte]),
        }
    }
}
