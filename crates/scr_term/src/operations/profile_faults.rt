//! Why an entry makes no profile.

use thiserror::Error;
use ti_caps::{Kind, Slot, name_of};

/// Why a terminal's entry and size make no profile (terminfo(5)). A capability is given by its kind
/// and position.
#[derive(Clone, Copy, Debug, PartialEq, Eq, Error)]
pub enum ProfileFault {
    /// `hc`, `os`, `gn`, `hz`, `ul`, `xhp`, `xt`, `sam` or `xmc` is present: the terminal prints or
    /// overstrikes, or for another reason cannot show cells independently.
    #[error("unsuitable capability {}", name(.0))]
    Unsuitable((Kind, Slot)),
    /// `am` is present and `xenl` is not: a character in the last place would scroll the screen.
    #[error("am without xenl")]
    AutoMargin,
    /// `cup` or `clear` is absent, or consists of padding alone.
    #[error("missing capability {}", name(.0))]
    Missing((Kind, Slot)),
    /// `lines` or `cols` is absent, and no size is given.
    #[error("no size")]
    NoSize,
    /// The rows or the columns are not 1 to 500.
    #[error("bad size")]
    BadSize,
    /// The text of a capability is not a parameter string, or could need a stack of more than 20
    /// values.
    #[error("bad string {}", name(.0))]
    BadString((Kind, Slot)),
    /// The text of a capability could give more than 1,024 bytes.
    #[error("long string {}", name(.0))]
    LongString((Kind, Slot)),
    /// Memory ran out.
    #[error("out of memory")]
    NoMemory,
}

// The name of a capability, if the table has one.
fn name(capability: &(Kind, Slot)) -> &'static str {
    name_of(capability.0, capability.1).unwrap_or("?")
}
