//! Why a terminal cannot be used.

use curses::{KeyFault, NoMemory, OpenFault, SendFault, UpdateFault, WinFault};
use thiserror::Error;
use ti_database::DatabaseFault;

/// Why a terminal cannot be used.
#[derive(Debug, Drop, Error)]
pub enum TerminalFault {
    /// `TERM` is not set, or is not text.
    #[error("TERM does not name a terminal")]
    NoName,
    /// The entry of the terminal of this name cannot be read.
    #[error("TERM={name}: {fault}")]
    Entry {
        /// What `TERM` says.
        name: String,
        /// Why its entry cannot be read.
        fault: DatabaseFault,
    },
    /// No screen can be opened on the entry of the terminal of this name.
    #[error("TERM={name}: {fault} (set TERM to a terminal that is served)")]
    Unserved {
        /// What `TERM` says.
        name: String,
        /// Why there is no screen.
        fault: OpenFault,
    },
    /// No screen can be opened on the entry that the program supplies.
    #[error("{0}")]
    Open(#[from] OpenFault),
    /// A call that draws was refused.
    #[error("{0}")]
    Draw(#[from] WinFault),
    /// An update ended early.
    #[error("{0}")]
    Update(#[from] UpdateFault),
    /// The opening or the closing text, or one that hides or shows the cursor, could not be sent.
    #[error("{0}")]
    Send(#[from] SendFault),
    /// Memory ran out for keys.
    #[error("{0}")]
    Keys(#[from] KeyFault),
    /// The standard input is a terminal that is not in raw mode: nobody has prepared it for a full-screen program.
    #[error("not on a raw terminal: start it with run-on-terminal PROGRAM")]
    NotRaw,
    /// The keyboard or the clock cannot be read.
    #[error("read failed")]
    Input,
    /// Memory ran out.
    #[error("out of memory")]
    NoMemory,
}

impl From<NoMemory> for TerminalFault {
    fn from(_: NoMemory) -> TerminalFault {
        TerminalFault::NoMemory
    }
}
