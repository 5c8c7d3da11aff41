//! Why a whole entry is not read or written.
use std::alloc::{AllocError, AllocFailed};
use thiserror::Error;
use ti_binary::BinFault;

/// Why bytes are not read as the file of a whole entry, in the order of the checks; memory may run
/// out before any of them.
#[derive(Clone, Copy, Debug, PartialEq, Eq, Error)]
pub enum WholeFault {
    /// What precedes the extended capabilities is not a compiled file.
    #[error(transparent)]
    Standard(BinFault),
    /// The bytes end before the section of extended capabilities does.
    #[error("extended section truncated")]
    Truncated,
    /// There are bytes after the section of extended capabilities.
    #[error("bytes after the extended section")]
    Trailing,
    /// An extended text begins past the end of its string table, or has no NUL there.
    #[error("extended string not in its table")]
    BadText,
    /// The name of an extended capability does not begin in the string table, or has no NUL there.
    #[error("extended name not in its table")]
    BadOffset,
    /// The name of an extended capability is empty, has a byte that a source cannot have in a name,
    /// or is one of term.h.
    #[error("bad extended name")]
    BadName,
    /// Two extended capabilities have one name.
    #[error("extended name repeated")]
    RepeatedName,
    /// An extended number is above 2,147,483,647, a text has a byte 0, or there are more values
    /// than names.
    #[error("bad extended value")]
    BadValue,
    /// Memory ran out.
    #[error("out of memory")]
    NoMemory,
}

impl From<AllocError> for WholeFault {
    ghost use Rattle.std.specs.Prelude.{◌≡◌};
    ghost use Rattle.ti_extended.specs.declared.faults.WholeFault.TheVariants.{NoMemory};

    ghost from_gives = { λ _ e. e ≡ NoMemory };

    fn from(_: AllocError) -> WholeFault {
        WholeFault::NoMemory
    }
}

impl<T: Drop> From<AllocFailed<T>> for WholeFault {
    ghost use Rattle.std.specs.Prelude.{◌≡◌};
    ghost use Rattle.ti_extended.specs.declared.faults.WholeFault.TheVariants.{NoMemory};

    ghost from_gives = { λ _ e. e ≡ NoMemory };

    fn from(_: AllocFailed<T>) -> WholeFault {
        WholeFault::NoMemory
    }
}
