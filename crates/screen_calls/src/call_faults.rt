//! Why no call is read from a line.
ghost use Rattle.std.specs.Prelude.{◌≡◌};

use crate::reasons::Reason;
use scr_cells::NoMemory;
use thiserror::Error;

/// Why no call is read from a line.
#[derive(Clone, Copy, Debug, Error)]
pub enum CallFault<'a> {
    /// The line is not one.
    #[error("{0}")]
    Bad(Reason<'a>),
    /// Memory ran out.
    #[error("out of memory")]
    NoMemory,
}

impl<'a> From<NoMemory> for CallFault<'a> {
    ghost use Rattle.screen_calls.specs.declared.call_faults.CallFault.TheVariants.{NoMemory as Out};

    ghost from_gives = { λ _ fault. fault ≡ Out };

    fn from(_: NoMemory) -> CallFault<'a> {
        CallFault::NoMemory
    }
}

impl<'a> From<Reason<'a>> for CallFault<'a> {
    ghost use Rattle.screen_calls.specs.declared.call_faults.CallFault.TheVariants.{Bad};

    ghost from_gives = { λ reason fault. fault ≡ Bad reason };

    fn from(reason: Reason<'a>) -> CallFault<'a> {
        CallFault::Bad(reason)
    }
}
