//! The folder in which `run-on-terminal` and the program speak with each other.
ghost use Rattle.std.specs.Prelude.{◌≡◌, false, IfErr, IfOk, ltb};
ghost use Rattle.std.specs.Io.{ReadsAtMost};

use crate::sizes::{SizeMessage, told_of};
use scr_cells::NoMemory;
use std::alloc::Global;
use std::fs::File;
use std::io;
use std::io::{Read, Write};
use std::rt::Files;

/// The paths of its files.
#[derive(Drop)]
pub(crate) struct Folder {
    size: String,
    suspend: String,
    continued: String,
    terminal: String,
}

impl Folder {
    /// The folder of this path. Fails only when memory runs out.
    pub(crate) fn new(alloc: Global, path: &str) -> Result<Folder, NoMemory> {
        Ok(Folder {
            size: format!(in alloc; "{path}/size")?,
            suspend: format!(in alloc; "{path}/suspend")?,
            continued: format!(in alloc; "{path}/continued")?,
            terminal: format!(in alloc; "{path}/terminal")?,
        })
    }

    /// What its file `size` says now.
    pub(crate) fn told<R: Files>(&self, rt: &R) -> SizeMessage {
        let mut text = [0u8; 32];
        let read = read_piece(rt, self.size.as_str(), &mut text);
        told_of(read, &text)
    }

    /// The terminal, if it can be opened.
    pub(crate) fn terminal(&self, rt: &HostRuntime) -> Option<File> {
        File::options()
            .write(true)
            .open(rt, self.terminal.as_str())
            .ok()
    }

    /// Asks for suspension, and waits for the answer, which comes when the program is continued. Answers whether one
    /// came.
    pub(crate) fn suspend<R: Files>(&self, rt: &R) -> bool {
        let mut answer = [0u8; 16];
        if ask(rt, self.suspend.as_str()).is_err() {
            return false;
        }
        has_come(read_piece(rt, self.continued.as_str(), &mut answer))
    }
}

// Whether a read gave anything.
fn has_come(read: io::Result<usize>) -> bool
    ensures some { IfOk read (λ count. result ≡ ltb 0 count) }
    ensures failed { IfErr read (λ _. result ≡ false) }
{
    match read {
        Ok(count) => count > 0,
        Err(_) => false,
    }
}

// Reads a piece of a file from its beginning, by one read.
fn read_piece<R: Files>(rt: &R, path: &str, piece: &mut [u8]) -> io::Result<usize>
    ensures { ReadsAtMost result piece.new }
{
    let mut file = File::open(rt, path)?;
    file.read(piece)
}

// Writes a line into a FIFO that exists.
fn ask<R: Files>(rt: &R, path: &str) -> io::Result<()> {
    let mut file = File::options().write(true).open(rt, path)?;
    file.write_all(b"suspend\n")
}
