//! Where the screen of a program goes.

use std::fs::File;
use std::io::{self, Stdout, Write};

/// Where the screen of a program goes.
#[derive(Drop)]
pub enum TerminalOutput {
    /// To the terminal, which `run-on-terminal` hands to the program.
    Terminal(File),
    /// To the standard output, where nobody does.
    Standard(Stdout),
}

impl Write for TerminalOutput {
    fn write(&mut self, piece: &[u8]) -> io::Result<usize> {
        match self {
            TerminalOutput::Terminal(file) => file.write(piece),
            TerminalOutput::Standard(out) => out.write(piece),
        }
    }

    fn flush(&mut self) -> io::Result<()> {
        match self {
            TerminalOutput::Terminal(file) => file.flush(),
            TerminalOutput::Standard(out) => out.flush(),
        }
    }
}
