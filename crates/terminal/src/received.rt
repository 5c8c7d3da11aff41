//! What was read of the keyboard and waits to be used.
ghost use Rattle.std.specs.Prelude.{◌≡◌, ◌≢◌, ◌∷◌, [], None, Option, true, false, IfSome, List, ℕ};
ghost use Rattle.std.specs.Io.KnownBytes.{Consumes};
ghost use Rattle.terminal.specs.Inputs.{bytes_of};
ghost use Rattle.terminal.specs.Lines.{IsLineRead};

use crate::input::Input;
use crate::lines::TerminalLine;
use scr_cells::NoMemory;
use std::alloc::{AllocError, Global};
use std::io::Read;
use std::marker::Model;
use std::rt::{Clock, Files};

// How many bytes are read at a time, at most.
const PIECE: usize = 4096;

/// What was read of the keyboard and waits to be used.
#[derive(Drop)]
pub(crate) struct Received {
    piece: Vec<u8>,
    // How many of its bytes were used, and how many were read.
    used: usize,
    count: usize,
}

impl Model for Received {
    ghost use Rattle.std.specs.Prelude.{◌≤◌, ℕ, List, drop, length, take};

    ghost Value = { List ℕ };

    ghost view = { λ t. drop t.used (take t.count t.piece.items) };

    ghost invariant = { λ t. record { used : t.used ≤ t.count; count : t.count ≤ length t.piece.items } };
}

impl Received {
    /// Nothing, with room for a piece. Fails only when memory runs out.
    pub(crate) fn new(alloc: Global) -> Result<Received, NoMemory> {
        match piece(alloc) {
            Ok(piece) => Ok(Received {
                piece,
                used: 0,
                count: 0,
            }),
            Err(_) => Err(NoMemory),
        }
    }

    /// Whether nothing waits.
    pub(crate) fn is_empty(&self) -> bool
        ensures empty { result ≡ true → self.now ≡ [] }
        ensures waits { result ≡ false → self.now ≢ [] }
    {
        self.used == self.count
    }

    /// The next byte that waits.
    pub(crate) fn next(&mut self) -> Option<u8>
        ensures some { IfSome result (λ byte. self.old ≡ byte ∷ self.new) }
        ensures none { result ≡ None → self.old ≡ [] }
    {
        if self.used == self.count {
            return None;
        }
        let byte = self.piece[self.used];
        self.used += 1;
        Some(byte)
    }

    /// Reads the keyboard once, where nothing waits. What was read waits then.
    pub(crate) fn read(&mut self, rt: &HostRuntime, line: &mut TerminalLine) -> Input
        ensures ending { line.old.is_ending ≡ true → (line.new ≡ line.old) × (self.new ≡ []) × (result ≡ Input.Ended) }
        ensures reads { line.old.is_ending ≡ false
            → (before : Option (List ℕ)) × (after : Option (List ℕ)) × (piece : List ℕ)
            × IsLineRead before after piece line.old line.new result × (self.new ≡ bytes_of piece result) }
    {
        self.read_from(rt, line, &mut rt.reader())
    }

    // The same from any reader: the bytes that wait then are the next ones of it, and no others are gone from there.
    fn read_from<R: Files + Clock, T: Read>(
        &mut self,
        rt: &R,
        line: &mut TerminalLine,
        reader: &mut T,
    ) -> Input
        ensures waits { Consumes (T.remaining reader.old) (T.remaining reader.new) self.new }
        ensures ending { line.old.is_ending ≡ true → (line.new ≡ line.old) × (self.new ≡ []) × (reader.new ≡ reader.old) × (result ≡ Input.Ended) }
        ensures reads { line.old.is_ending ≡ false
            → (piece : List ℕ) × IsLineRead (T.remaining reader.old) (T.remaining reader.new) piece line.old line.new result
            × (self.new ≡ bytes_of piece result) }
    {
        let input = line.read_from(rt, reader, self.piece.as_mut_slice());
        self.used = 0;
        self.count = match input {
            Input::Bytes(count) => count,
            _ => 0,
        };
        input
    }
}

fn piece(alloc: Global) -> Result<Vec<u8>, AllocError> {
    vec![in alloc; 0; PIECE]
}
