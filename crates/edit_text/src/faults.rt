//! Why an edit was refused.
use std::alloc::{AllocError, AllocFailed};
use thiserror::Error;

/// Why an edit was refused, in the order of the checks. A refused edit changes nothing.
#[derive(Clone, Copy, Debug, PartialEq, Eq, Error)]
pub enum EditFault {
    /// The text has no such line, or the line no such column.
    #[error("outside the text")]
    OutsideText,
    /// A line feed is not a byte of a line; `split` begins a new line.
    #[error("a line feed inside a line")]
    LineFeed,
    /// Memory ran out.
    #[error("out of memory")]
    NoMemory,
}

impl From<AllocError> for EditFault {
    ghost use Rattle.std.specs.Prelude.{◌≡◌};
    ghost use Rattle.edit_text.specs.declared.faults.EditFault.TheVariants.{NoMemory};

    ghost from_gives = { λ _ e. e ≡ NoMemory };

    fn from(_e: AllocError) -> EditFault {
        EditFault::NoMemory
    }
}

impl From<out_of_memory::NoMemory> for EditFault {
    ghost use Rattle.std.specs.Prelude.{◌≡◌};
    ghost use Rattle.edit_text.specs.declared.faults.EditFault.TheVariants.{NoMemory};

    ghost from_gives = { λ _ e. e ≡ NoMemory };

    fn from(_e: out_of_memory::NoMemory) -> EditFault {
        EditFault::NoMemory
    }
}

impl<T: Drop> From<AllocFailed<T>> for EditFault {
    ghost use Rattle.std.specs.Prelude.{◌≡◌};
    ghost use Rattle.edit_text.specs.declared.faults.EditFault.TheVariants.{NoMemory};

    ghost from_gives = { λ _ e. e ≡ NoMemory };

    fn from(_e: AllocFailed<T>) -> EditFault {
        EditFault::NoMemory
    }
}
