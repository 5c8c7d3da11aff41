//! Why a line is not read as a command.
ghost use Rattle.std.specs.Prelude.{◌≡◌};

use scr_cells::NoMemory;
use thiserror::Error;

/// Why a line is not read as a command.
#[derive(Clone, Copy, Debug, PartialEq, Eq, Error)]
pub enum LineFault {
    /// The line is not a command.
    #[error("bad command")]
    Bad,
    /// Memory ran out.
    #[error("out of memory")]
    NoMemory,
}

impl From<NoMemory> for LineFault {
    ghost use Rattle.screen_scripts.specs.declared.line_faults.LineFault.TheVariants.{NoMemory as Out};

    ghost from_gives = { λ _ fault. fault ≡ Out };

    fn from(_: NoMemory) -> LineFault {
        LineFault::NoMemory
    }
}
