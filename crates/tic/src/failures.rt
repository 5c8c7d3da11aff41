//! Why the program ends with a status other than 0.

use std::alloc::{AllocError, AllocFailed};
use thiserror::Error;
use ti_compile::TicFault;
use ti_extended::WholeFault;

/// Why the program ends with a status other than 0, with the texts that it prints.
#[derive(Debug, Drop, Error)]
pub(crate) enum Failure<'a> {
    #[error("usage error")]
    Usage,
    #[error("tic: cannot read {0}")]
    Read(&'a str),
    /// The same with `-v`: why the file cannot be read.
    #[error("{0}: {1}")]
    Unread(&'a str, &'static str),
    #[error("tic: cannot write -")]
    Output,
    #[error("tic: cannot write {0}")]
    Write(String),
    #[error("tic: {0}")]
    Fault(TicFault),
    #[error("tic: {0}")]
    Whole(WholeFault),
    /// The same with `-v`: what is wrong in a file, and where.
    #[error("{0}")]
    Located(String),
    #[error("tic: out of memory")]
    NoMemory,
}

impl Failure<'_> {
    /// 2 for a usage error, 1 for any other failure.
    pub(crate) fn status(&self) -> u8 {
        match self {
            Failure::Usage => 2,
            _ => 1,
        }
    }
}

impl From<AllocError> for Failure<'_> {
    fn from(_e: AllocError) -> Self {
        Failure::NoMemory
    }
}

impl<T: Drop> From<AllocFailed<T>> for Failure<'_> {
    fn from(_e: AllocFailed<T>) -> Self {
        Failure::NoMemory
    }
}

impl From<WholeFault> for Failure<'_> {
    fn from(fault: WholeFault) -> Self {
        match fault {
            WholeFault::NoMemory => Failure::NoMemory,
            other => Failure::Whole(other),
        }
    }
}

impl From<TicFault> for Failure<'_> {
    fn from(fault: TicFault) -> Self {
        match fault {
            TicFault::NoMemory => Failure::NoMemory,
            other => Failure::Fault(other),
        }
    }
}
