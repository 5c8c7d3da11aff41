//! What calls answer: a window's number, whether a cursor could go on, and why a call was refused, in the order of
//! refusals.
use std::alloc::{AllocError, AllocFailed};
use thiserror::Error;

/// A window, by its number. The first window of a desk has 0, and each one made after it the next number. No number is
/// used again.
#[derive(Clone, Copy, Debug, PartialEq, Eq)]
pub struct Win(pub u32);

/// Whether a cursor could go on (X/Open Curses Issue 7, addch()).
#[derive(Clone, Copy, Debug, PartialEq, Eq)]
pub enum Added {
    /// The bytes were added, and a next line was there whenever one was needed.
    Done,
    /// A next line was needed and there was none, so the cursor stayed.
    Stayed,
}

/// Why a call was refused, in the order in which refusals come, unless a call names another.
#[derive(Clone, Copy, Debug, PartialEq, Eq, Error)]
pub enum WinFault {
    /// There is no window of this number.
    #[error("no such window")]
    NoWindow,
    /// The window is a pad.
    #[error("the window is a pad")]
    IsPad,
    /// The window is not a pad.
    #[error("the window is not a pad")]
    NotPad,
    /// The window is a subwindow.
    #[error("the window is a subwindow")]
    IsSub,
    /// The window has subwindows.
    #[error("the window has subwindows")]
    HasChildren,
    /// A byte that cannot be written.
    #[error("not an ASCII character")]
    NotAscii,
    /// A place outside the window.
    #[error("outside the window")]
    OutOfWindow,
    /// A rectangle that is not wholly on the screen, or is empty.
    #[error("outside the screen")]
    OffScreen,
    /// A rectangle that is not wholly in the parent, or is empty.
    #[error("outside the parent")]
    NotInParent,
    /// A region that ends before it begins, or is not inside the window.
    #[error("bad scrolling region")]
    BadRegion,
    /// The window may not scroll.
    #[error("the window does not scroll")]
    NoScroll,
    /// A pad of more than 1,000,000 cells.
    #[error("the pad is too big")]
    TooBig,
    /// There are 1,000 windows, or 4,294,967,295 were made after the first.
    #[error("too many windows")]
    TooMany,
    /// Memory ran out.
    #[error("out of memory")]
    NoMemory,
    /// A number that no colour pair has.
    #[error("bad colour pair")]
    BadPair,
    /// A number that no colour has.
    #[error("bad colour")]
    BadColour,
    /// A `char` that is no character of one column.
    #[error("not a character of one column")]
    NotOneColumn,
}

impl From<AllocError> for WinFault {
    ghost use Rattle.std.specs.Prelude.{◌≡◌};
    ghost use Rattle.scr_windows.specs.declared.faults.WinFault.TheVariants.{NoMemory};

    ghost from_gives = { λ _ e. e ≡ NoMemory };

    fn from(_e: AllocError) -> WinFault {
        WinFault::NoMemory
    }
}

impl From<scr_cells::NoMemory> for WinFault {
    ghost use Rattle.std.specs.Prelude.{◌≡◌};
    ghost use Rattle.scr_windows.specs.declared.faults.WinFault.TheVariants.{NoMemory};

    ghost from_gives = { λ _ e. e ≡ NoMemory };

    fn from(_e: scr_cells::NoMemory) -> WinFault {
        WinFault::NoMemory
    }
}

impl<T: Drop> From<AllocFailed<T>> for WinFault {
    ghost use Rattle.std.specs.Prelude.{◌≡◌};
    ghost use Rattle.scr_windows.specs.declared.faults.WinFault.TheVariants.{NoMemory};

    ghost from_gives = { λ _ e. e ≡ NoMemory };

    fn from(_e: AllocFailed<T>) -> WinFault {
        WinFault::NoMemory
    }
}
