//! Why a line was not checked.

use scr_cells::NoMemory;
use std::alloc::{AllocError, AllocFailed};
use thiserror::Error;

/// Why a line was not checked.
#[derive(Clone, Copy, Debug, Error)]
pub enum Trouble {
    /// An allocation of this program's own was refused.
    #[error("out of memory")]
    NoMemory,
    /// The line is not understood.
    #[error("{0}")]
    Bad(&'static str),
}

impl From<AllocError> for Trouble {
    fn from(_: AllocError) -> Trouble {
        Trouble::NoMemory
    }
}

impl<T: Drop> From<AllocFailed<T>> for Trouble {
    fn from(_: AllocFailed<T>) -> Trouble {
        Trouble::NoMemory
    }
}

impl From<NoMemory> for Trouble {
    fn from(_: NoMemory) -> Trouble {
        Trouble::NoMemory
    }
}
