//! Why the editor ends without having done what it was asked for.

use crate::files::ReadFault;
use curses::{CapFault, NoMemory, OpenFault, UpdateFault, WinFault};
use std::alloc::{AllocError, AllocFailed};
use std::fmt::{self, Display, Formatter};
use terminal::TerminalFault;
use thiserror::Error;
use ti_database::DatabaseFault;

/// Why the editor ends without having done what it was asked for.
#[derive(Debug, Drop, Error)]
pub enum EditFailure {
    /// Memory ran out.
    NoMemory,
    /// The file cannot be read.
    File(ReadFault),
    /// `TERM` is not set, or is not text.
    NoTerm,
    /// The entry of the terminal of this name cannot be read.
    Entry(String, DatabaseFault),
    /// No screen can be opened on the entry of the terminal of this name.
    Unserved(String, OpenFault),
    /// No screen can be opened on the bundled entry.
    Screen(#[from] OpenFault),
    /// The standard input is a terminal that is not in raw mode.
    NotRaw,
    /// The terminal accepts no output.
    Output,
    /// The terminal cannot be read.
    Input,
    /// The input has ended.
    Ended,
    /// The words of the command line, or the script, are not UTF-8 text.
    NotText,
    /// This line of a script, counted from 1, is not a command.
    BadLine(u32),
}

impl Display for EditFailure {
    fn fmt<W: fmt::Write>(&self, f: &mut Formatter<W>) -> fmt::Result {
        match self {
            EditFailure::Entry(name, fault) => write!(f, "TERM={name}: {fault}"),
            EditFailure::Unserved(name, fault) => {
                write!(
                    f,
                    "TERM={name}: {fault} (set TERM to a terminal that is served, or use --bundled)"
                )
            }
            EditFailure::Screen(fault) => fault.fmt(f),
            EditFailure::BadLine(number) => write!(f, "line {number}: bad command"),
            _ => f.write_str(self.words()),
        }
    }
}

impl EditFailure {
    /// The failure that an error of the terminal is.
    pub(crate) fn of(fault: TerminalFault) -> EditFailure {
        match fault {
            TerminalFault::NoName => EditFailure::NoTerm,
            TerminalFault::Entry { name, fault } => EditFailure::Entry(name, fault),
            TerminalFault::Unserved { name, fault } => EditFailure::Unserved(name, fault),
            TerminalFault::Open(fault) => EditFailure::Screen(fault),
            TerminalFault::NotRaw => EditFailure::NotRaw,
            TerminalFault::Input => EditFailure::Input,
            TerminalFault::NoMemory
            | TerminalFault::Draw(_)
            | TerminalFault::Keys(_)
            | TerminalFault::Update(UpdateFault::NoMemory) => EditFailure::NoMemory,
            TerminalFault::Update(_) | TerminalFault::Send(_) => EditFailure::Output,
        }
    }

    // What is said of a failure that is the same each time.
    fn words(&self) -> &'static str {
        match self {
            EditFailure::NoMemory => "out of memory",
            EditFailure::File(fault) => fault.words(),
            EditFailure::NoTerm => "TERM is not set",
            EditFailure::NotRaw => "not on a raw terminal: start it with run-on-terminal edit FILE",
            EditFailure::Output => "the terminal takes no output",
            EditFailure::Input => "the terminal cannot be read",
            EditFailure::Ended => "the input has ended",
            EditFailure::NotText => "the words or the script are not UTF-8 text",
            EditFailure::Entry(_, _)
            | EditFailure::Unserved(_, _)
            | EditFailure::Screen(_)
            | EditFailure::BadLine(_) => "",
        }
    }
}

impl From<NoMemory> for EditFailure {
    fn from(_: NoMemory) -> EditFailure {
        EditFailure::NoMemory
    }
}

// No other error comes of what the editor draws.
impl From<WinFault> for EditFailure {
    fn from(_: WinFault) -> EditFailure {
        EditFailure::NoMemory
    }
}

impl From<AllocError> for EditFailure {
    fn from(_: AllocError) -> EditFailure {
        EditFailure::NoMemory
    }
}

impl<T: Drop> From<AllocFailed<T>> for EditFailure {
    fn from(_: AllocFailed<T>) -> EditFailure {
        EditFailure::NoMemory
    }
}

impl From<CapFault> for EditFailure {
    fn from(_: CapFault) -> EditFailure {
        EditFailure::NoMemory
    }
}
