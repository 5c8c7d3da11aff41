//! Why no entry is found.
use crate::file_paths::{FilePath, FilePaths};
use crate::obstacles::Obstacle;
use std::alloc::{AllocError, AllocFailed};
use thiserror::Error;
use ti_binary::BinFault;

/// Why no entry is found for a name.
#[derive(Debug, Drop, Error)]
pub enum DatabaseFault {
    /// The name is empty, is `.` or `..`, or has a `/` or a byte outside 33 to 126.
    #[error("bad terminal name")]
    BadName,
    /// There is nothing at any of these paths.
    #[error("no entry: looked at {0}")]
    NotFound(FilePaths),
    /// No file can be read, and this is the first of those that are there.
    #[error("{path}: {obstacle}")]
    Unreadable {
        /// The file.
        path: FilePath,
        /// Why it cannot be read.
        obstacle: Obstacle,
    },
    /// The first file that can be read is not a compiled entry.
    #[error("{path}: {fault}")]
    Faulty {
        /// The file.
        path: FilePath,
        /// Why it is not one.
        fault: BinFault,
    },
    /// Memory ran out.
    #[error("out of memory")]
    NoMemory,
}

impl From<AllocError> for DatabaseFault {
    ghost use Rattle.std.specs.Prelude.{◌≡◌};
    ghost use Rattle.ti_database.specs.declared.faults.DatabaseFault.TheVariants.{NoMemory};

    ghost from_gives = { λ _ e. e ≡ NoMemory };

    fn from(_: AllocError) -> DatabaseFault {
        DatabaseFault::NoMemory
    }
}

impl<T: Drop> From<AllocFailed<T>> for DatabaseFault {
    ghost use Rattle.std.specs.Prelude.{◌≡◌};
    ghost use Rattle.ti_database.specs.declared.faults.DatabaseFault.TheVariants.{NoMemory};

    ghost from_gives = { λ _ e. e ≡ NoMemory };

    fn from(_: AllocFailed<T>) -> DatabaseFault {
        DatabaseFault::NoMemory
    }
}
