//! Why a source is refused.

use std::alloc::{AllocError, AllocFailed};
use thiserror::Error;

/// Why a source or a name of it was refused, with the line if the error is in one.
#[derive(Clone, Copy, Debug, PartialEq, Eq, Error)]
pub enum SourceFault {
    /// A byte 0, or one from 128 on, outside a comment.
    #[error("line {0}: not ASCII")]
    NotAscii(u32),
    /// A line of fields that precedes every entry.
    #[error("line {0}: field before any entry")]
    FieldBeforeEntry(u32),
    /// Names that break the rules of `Entry::new`.
    #[error("line {0}: bad names")]
    BadNames(u32),
    /// A number without digits, or with a byte that is not a digit.
    #[error("line {0}: bad number")]
    BadNumber(u32),
    /// A reference name that an earlier entry has.
    #[error("line {0}: duplicate name")]
    DuplicateName(u32),
    /// A 33rd `use=` in one entry.
    #[error("too many uses")]
    TooManyUses,
    /// A name that no entry of the source has.
    #[error("unknown name")]
    UnknownName,
    /// A `use=` that leads back to an entry on its own chain.
    #[error("use cycle")]
    UseCycle,
    /// Memory ran out.
    #[error("out of memory")]
    NoMemory,
}

impl From<AllocError> for SourceFault {
    ghost use Rattle.std.specs.Prelude.{◌≡◌};
    ghost use Rattle.ti_source.specs.declared.faults.SourceFault.TheVariants.{NoMemory};

    ghost from_gives = { λ _ e. e ≡ NoMemory };

    fn from(_e: AllocError) -> SourceFault {
        SourceFault::NoMemory
    }
}

impl<T: Drop> From<AllocFailed<T>> for SourceFault {
    ghost use Rattle.std.specs.Prelude.{◌≡◌};
    ghost use Rattle.ti_source.specs.declared.faults.SourceFault.TheVariants.{NoMemory};

    ghost from_gives = { λ _ e. e ≡ NoMemory };

    fn from(_e: AllocFailed<T>) -> SourceFault {
        SourceFault::NoMemory
    }
}
