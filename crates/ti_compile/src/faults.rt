//! Why a source is not compiled, or a compiled file is not listed.

use std::alloc::{AllocError, AllocFailed};
use thiserror::Error;
use ti_binary::{BinFault, EncFault};
use ti_source::SourceFault;

/// Why a source or a file was refused. If memory ran out, the error is always `NoMemory`, never one
/// inside another error.
#[derive(Clone, Copy, Debug, PartialEq, Eq, Error)]
pub enum TicFault {
    /// The source has an error, or an entry of it does not resolve.
    #[error(transparent)]
    Source(SourceFault),
    /// An entry exceeds the limits of a compiled file.
    #[error(transparent)]
    Encode(EncFault),
    /// A reference name cannot be a file name: it contains `/`, or is `.` or `..`.
    #[error("bad file name")]
    BadFileName,
    /// The bytes are not a compiled file.
    #[error(transparent)]
    Decode(BinFault),
    /// Memory ran out.
    #[error("out of memory")]
    NoMemory,
}

impl From<AllocError> for TicFault {
    ghost use Rattle.std.specs.Prelude.{◌≡◌};
    ghost use Rattle.ti_compile.specs.declared.faults.TicFault.TheVariants.{NoMemory};

    ghost from_gives = { λ _ e. e ≡ NoMemory };

    fn from(_e: AllocError) -> TicFault {
        TicFault::NoMemory
    }
}

impl<T: Drop> From<AllocFailed<T>> for TicFault {
    ghost use Rattle.std.specs.Prelude.{◌≡◌};
    ghost use Rattle.ti_compile.specs.declared.faults.TicFault.TheVariants.{NoMemory};

    ghost from_gives = { λ _ e. e ≡ NoMemory };

    fn from(_e: AllocFailed<T>) -> TicFault {
        TicFault::NoMemory
    }
}

// `NoMemory` stays `NoMemory`; any other error is one of the source.
impl From<SourceFault> for TicFault {
    ghost use Rattle.ti_compile.specs.Faults.{of_source};
    ghost use Rattle.std.specs.Prelude.{◌≡◌};

    ghost from_gives = { λ fault e. e ≡ of_source fault };

    fn from(fault: SourceFault) -> TicFault {
        match fault {
            SourceFault::NoMemory => TicFault::NoMemory,
            other => TicFault::Source(other),
        }
    }
}

// `NoMemory` stays `NoMemory`; any other error is one of writing.
impl From<EncFault> for TicFault {
    ghost use Rattle.ti_compile.specs.Faults.{of_encoding};
    ghost use Rattle.std.specs.Prelude.{◌≡◌};

    ghost from_gives = { λ fault e. e ≡ of_encoding fault };

    fn from(fault: EncFault) -> TicFault {
        match fault {
            EncFault::NoMemory => TicFault::NoMemory,
            other => TicFault::Encode(other),
        }
    }
}

// `NoMemory` stays `NoMemory`; any other error is one of reading.
impl From<BinFault> for TicFault {
    ghost use Rattle.ti_compile.specs.Faults.{of_decoding};
    ghost use Rattle.std.specs.Prelude.{◌≡◌};

    ghost from_gives = { λ fault e. e ≡ of_decoding fault };

    fn from(fault: BinFault) -> TicFault {
        match fault {
            BinFault::NoMemory => TicFault::NoMemory,
            other => TicFault::Decode(other),
        }
    }
}
