//! Why a call on an entry was refused.

use std::alloc::{AllocError, AllocFailed};
use thiserror::Error;

/// Why a call on an entry was refused, in the order of the checks.
#[derive(Clone, Copy, Debug, PartialEq, Eq, Error)]
pub enum CapFault {
    /// The names break the rules of `Entry::new`.
    #[error("bad names")]
    BadNames,
    /// The position is too great: 64 or more for flags and numbers, 512 or more for texts.
    #[error("slot too big")]
    SlotTooBig,
    /// The text has a byte 0.
    #[error("NUL in a text")]
    NulInText,
    /// Memory ran out.
    #[error("out of memory")]
    NoMemory,
}

impl From<AllocError> for CapFault {
    ghost use Rattle.std.specs.Prelude.{◌≡◌};
    ghost use Rattle.ti_caps.specs.declared.faults.CapFault.TheVariants.{NoMemory};

    ghost from_gives = { λ _ e. e ≡ NoMemory };

    fn from(_e: AllocError) -> CapFault {
        CapFault::NoMemory
    }
}

impl<T: Drop> From<AllocFailed<T>> for CapFault {
    ghost use Rattle.std.specs.Prelude.{◌≡◌};
    ghost use Rattle.ti_caps.specs.declared.faults.CapFault.TheVariants.{NoMemory};

    ghost from_gives = { λ _ e. e ≡ NoMemory };

    fn from(_e: AllocFailed<T>) -> CapFault {
        CapFault::NoMemory
    }
}
