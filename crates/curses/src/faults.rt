//! The errors of opening, updating, starting and closing a screen, and what an update that ended well has sent.
use scr_cells::NoMemory;
use scr_term::{Ops, ProfileFault};
use std::alloc::{AllocError, AllocFailed};
use std::io::ErrorKind;
use thiserror::Error;
use ti_caps::Slot;

/// Why a screen was not opened, or its opening or closing text not made.
#[derive(Clone, Copy, Debug, PartialEq, Eq, Error)]
pub enum OpenFault {
    /// The terminal's entry and size make no profile, or its opening or closing text cannot be run. The error inside is
    /// never `NoMemory`.
    #[error("{0}")]
    Profile(ProfileFault),
    /// The text of the key at this position has more than 64 bytes without its padding.
    #[error("a key's text is too long")]
    KeyTooLong(Slot),
    /// Memory ran out.
    #[error("out of memory")]
    NoMemory,
}

/// What an update that ended well has sent.
#[derive(Debug, Drop)]
pub struct Sent {
    /// The operations of its plan. The writer accepted the text of each of them whole.
    pub begun: Ops,
    /// How many bytes the writer accepted, including those that were owed before.
    pub bytes: u64,
}

/// Why an update ended early. Windows, virtual screen and requested repaints stay as they were.
#[derive(Debug, Drop, Error)]
pub enum UpdateFault {
    /// Memory ran out before anything was sent.
    #[error("out of memory")]
    NoMemory,
    /// A write failed or accepted nothing. What was not accepted of the text that it cut is *owed*: the next call that
    /// sends something sends it first.
    #[error("write failed")]
    Write {
        /// The operations whose text was tried, the last of them perhaps taken in part; none if the write of owed bytes
        /// failed.
        begun: Ops,
        /// How many bytes the writer accepted, including those that were owed before.
        sent: u64,
        /// The kind of the error that the write gave; `WriteZero` if it accepted nothing.
        kind: ErrorKind,
    },
    /// Everything was accepted, and the flush failed. Nothing is owed.
    #[error("flush failed")]
    Flush {
        /// The operations that were begun.
        begun: Ops,
        /// How many bytes the writer accepted.
        sent: u64,
        /// The kind of the error that the flush gave.
        kind: ErrorKind,
    },
}

/// Why `start` or `close` did not send everything. Windows, virtual screen and requested repaints stay as they were.
#[derive(Clone, Copy, Debug, PartialEq, Eq, Error)]
pub enum SendFault {
    /// A write failed or accepted nothing. What was not accepted of the text that it cut is owed: the next call that
    /// sends something sends it first.
    #[error("write failed")]
    Write {
        /// How many bytes the writer accepted, including those that were owed before.
        sent: u64,
        /// The kind of the error that the write gave; `WriteZero` if it accepted nothing.
        kind: ErrorKind,
    },
    /// Everything was accepted, and the flush failed. Nothing is owed.
    #[error("flush failed")]
    Flush {
        /// How many bytes the writer accepted.
        sent: u64,
        /// The kind of the error that the flush gave.
        kind: ErrorKind,
    },
}

impl From<NoMemory> for UpdateFault {
    ghost use Rattle.std.specs.Prelude.{◌≡◌};
    ghost use Rattle.curses.specs.declared.faults.UpdateFault.TheVariants as faults;

    ghost from_gives = { λ _ e. e ≡ faults.NoMemory };

    fn from(_e: NoMemory) -> UpdateFault {
        UpdateFault::NoMemory
    }
}

impl From<NoMemory> for OpenFault {
    ghost use Rattle.std.specs.Prelude.{◌≡◌};
    ghost use Rattle.curses.specs.declared.faults.OpenFault.TheVariants as faults;

    ghost from_gives = { λ _ e. e ≡ faults.NoMemory };

    fn from(_e: NoMemory) -> OpenFault {
        OpenFault::NoMemory
    }
}

impl From<AllocError> for OpenFault {
    ghost use Rattle.std.specs.Prelude.{◌≡◌};
    ghost use Rattle.curses.specs.declared.faults.OpenFault.TheVariants as faults;

    ghost from_gives = { λ _ e. e ≡ faults.NoMemory };

    fn from(_e: AllocError) -> OpenFault {
        OpenFault::NoMemory
    }
}

impl<T: Drop> From<AllocFailed<T>> for OpenFault {
    ghost use Rattle.std.specs.Prelude.{◌≡◌};
    ghost use Rattle.curses.specs.declared.faults.OpenFault.TheVariants as faults;

    ghost from_gives = { λ _ e. e ≡ faults.NoMemory };

    fn from(_e: AllocFailed<T>) -> OpenFault {
        OpenFault::NoMemory
    }
}
