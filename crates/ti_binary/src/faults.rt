//! Why bytes are not a compiled file.
use std::alloc::AllocError;
use thiserror::Error;

/// Why bytes are not read as a compiled file, in the order of the checks.
#[derive(Clone, Copy, Debug, PartialEq, Eq, Error)]
pub enum BinFault {
    /// There are more than 32,768 bytes.
    #[error("too large")]
    TooLarge,
    /// The bytes end before the file does.
    #[error("truncated")]
    Truncated,
    /// The magic number is that of the format with 32-bit numbers, octal 01036, where one with
    /// 16-bit numbers is wanted.
    #[error("32-bit numbers")]
    WideNumbers,
    /// The magic number is any other.
    #[error("bad magic")]
    BadMagic,
    /// A size or a count in the header is negative or too great, or the names have no bytes.
    #[error("bad count")]
    BadCount,
    /// The names have no NUL, or are not valid for an entry.
    #[error("bad names")]
    BadNames,
    /// A text begins past the end of the string table.
    #[error("bad offset")]
    BadOffset,
    /// A text has no NUL in the string table.
    #[error("unended string")]
    Unended,
    /// Memory ran out.
    #[error("out of memory")]
    NoMemory,
}

impl From<AllocError> for BinFault {
    ghost use Rattle.std.specs.Prelude.{◌≡◌};
    ghost use Rattle.ti_binary.specs.declared.faults.BinFault.TheVariants.{NoMemory};

    ghost from_gives = { λ _ e. e ≡ NoMemory };

    fn from(_: AllocError) -> BinFault {
        BinFault::NoMemory
    }
}
