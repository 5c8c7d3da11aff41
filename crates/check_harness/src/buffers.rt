//! Bytes that are written one after the other.

use crate::troubles::Trouble;
use std::alloc::Global;
use std::mem::replace;

/// Bytes that are written one after the other: an answer in words, or all that can be seen of a state. Where memory
/// runs out some are left out, which `done` tells, so that those who write need not ask each time.
#[derive(Drop)]
pub struct Buffer {
    bytes: Vec<u8>,
    is_short: bool,
}

impl Buffer {
    /// Nothing is written yet.
    pub fn new(alloc: Global) -> Buffer {
        Buffer {
            bytes: Vec::new(alloc),
            is_short: false,
        }
    }

    /// What is written.
    pub fn bytes(&self) -> &[u8] {
        &self.bytes
    }

    /// This buffer without what is written, so that its room is used again; another takes its place.
    pub fn take(&mut self, alloc: Global) -> Buffer {
        let mut taken = replace(self, Buffer::new(alloc));
        taken.clear();
        taken
    }

    /// What is written, as a vector.
    pub fn into_bytes(self) -> Vec<u8> {
        let Buffer { bytes, is_short: _ } = self;
        bytes
    }

    /// Refuses bytes of which some are left out.
    pub fn done(&self) -> Result<(), Trouble> {
        if self.is_short {
            Err(Trouble::NoMemory)
        } else {
            Ok(())
        }
    }

    /// The vector that is written, for what appends to one itself; whether it could goes to `check`.
    pub fn vector(&mut self) -> &mut Vec<u8> {
        &mut self.bytes
    }

    /// Some bytes are left out, unless all are written.
    pub fn check(&mut self, are_written: bool) {
        self.is_short = self.is_short || !are_written;
    }

    /// Removes all.
    pub fn clear(&mut self) {
        self.bytes.clear();
        self.is_short = false;
    }

    /// Writes a byte.
    pub fn push(&mut self, byte: u8) {
        let pushed = self.bytes.push(byte);
        self.check(pushed.is_ok());
    }

    /// Writes some bytes, or none of them where memory runs out.
    pub fn extend(&mut self, bytes: &[u8]) {
        let extended = self.bytes.extend_from_slice(bytes);
        self.check(extended.is_ok());
    }
}

/// Whether two buffers hold the same. Refuses those of which some bytes are left out.
pub fn are_same(one: &Buffer, other: &Buffer) -> Result<bool, Trouble> {
    if one.is_short || other.is_short {
        return Err(Trouble::NoMemory);
    }
    Ok(one.bytes() == other.bytes())
}
