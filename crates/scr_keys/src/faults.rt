//! Why keys cannot be read.
use out_of_memory::NoMemory;
use std::alloc::{AllocError, AllocFailed};
use thiserror::Error;
use ti_caps::Slot;

/// Why a table of keys was not made, or a byte was not read.
#[derive(Clone, Copy, Debug, PartialEq, Eq, Error)]
pub enum KeyFault {
    /// The text of the key at this position has more than 64 bytes without its padding.
    #[error("a key's text is too long")]
    KeyTooLong(Slot),
    /// There is no room for the keys that would be queued. Nothing was read.
    #[error("too many keys wait")]
    QueueFull,
    /// Memory ran out.
    #[error("out of memory")]
    NoMemory,
}

impl From<NoMemory> for KeyFault {
    ghost use Rattle.std.specs.Prelude.{◌≡◌};
    ghost use Rattle.scr_keys.specs.declared.faults.KeyFault.TheVariants as faults;

    ghost from_gives = { λ _ e. e ≡ faults.NoMemory };

    fn from(_e: NoMemory) -> KeyFault {
        KeyFault::NoMemory
    }
}

impl From<AllocError> for KeyFault {
    ghost use Rattle.std.specs.Prelude.{◌≡◌};
    ghost use Rattle.scr_keys.specs.declared.faults.KeyFault.TheVariants as faults;

    ghost from_gives = { λ _ e. e ≡ faults.NoMemory };

    fn from(_e: AllocError) -> KeyFault {
        KeyFault::NoMemory
    }
}

impl<T: Drop> From<AllocFailed<T>> for KeyFault {
    ghost use Rattle.std.specs.Prelude.{◌≡◌};
    ghost use Rattle.scr_keys.specs.declared.faults.KeyFault.TheVariants as faults;

    ghost from_gives = { λ _ e. e ≡ faults.NoMemory };

    fn from(_e: AllocFailed<T>) -> KeyFault {
        KeyFault::NoMemory
    }
}
