//! The numbers of errors, as `enum huttavel_fault` has them.
ghost use Rattle.std.specs.Prelude.{◌≡◌};
ghost use Rattle.huttavel_c.specs.Entries.{param_number};
ghost use Rattle.huttavel_c.specs.Numbers.{binary_number, key_number, profile_number, send_number, update_number, window_number};

use curses::{KeyFault, ProfileFault, SendFault, UpdateFault, WinFault};
use ti_binary::BinFault;
use ti_param::ParamFault;

/// The handle is closed.
pub(crate) const CLOSED: u32 = 1;
/// The handle holds a screen already.
pub(crate) const IS_OPEN: u32 = 2;
/// Memory ran out.
pub(crate) const NO_MEMORY: u32 = 4;
/// A number that no charset has.
pub(crate) const BAD_CHARSET: u32 = 5;
/// No window is at this index.
pub(crate) const NO_WINDOW: u32 = 10;
/// A byte that no cell has.
pub(crate) const NOT_ASCII: u32 = 15;
/// A place outside the screen.
pub(crate) const OFF_SCREEN: u32 = 17;
/// A number that no colour pair has.
pub(crate) const BAD_PAIR: u32 = 23;
/// The window is not a subwindow.
pub(crate) const NO_PARENT: u32 = 25;
/// The cursor is wanted nowhere in particular.
pub(crate) const NO_CURSOR: u32 = 26;
/// A character that does not take one column.
pub(crate) const NOT_ONE_COLUMN: u32 = 27;
/// No key is queued.
pub(crate) const NO_KEY: u32 = 31;
/// Fewer bytes wait.
pub(crate) const NOT_WAITING: u32 = 33;
/// The rows or the columns are not 1 to 500.
pub(crate) const BAD_SIZE: u32 = 54;
/// A key's text is too long.
pub(crate) const KEY_TOO_LONG: u32 = 57;
/// There is no such capability.
pub(crate) const ABSENT: u32 = 58;
/// A parameter string pushes a 21st value.
pub(crate) const STACK_FULL: u32 = 59;

/// The number of a refusal of a window call.
pub(crate) fn window_number(fault: WinFault) -> u32
    ensures { result ≡ window_number fault }
{
    match fault {
        WinFault::NoWindow => NO_WINDOW,
        WinFault::IsPad => 11,
        WinFault::NotPad => 12,
        WinFault::IsSub => 13,
        WinFault::HasChildren => 14,
        WinFault::NotAscii => NOT_ASCII,
        WinFault::OutOfWindow => 16,
        WinFault::OffScreen => OFF_SCREEN,
        WinFault::NotInParent => 18,
        WinFault::BadRegion => 19,
        WinFault::NoScroll => 20,
        WinFault::TooBig => 21,
        WinFault::TooMany => 22,
        WinFault::NoMemory => NO_MEMORY,
        WinFault::BadPair => BAD_PAIR,
        WinFault::BadColour => 24,
        WinFault::NotOneColumn => NOT_ONE_COLUMN,
    }
}

/// The number of a refusal of a call about keys.
pub(crate) fn key_number(fault: KeyFault) -> u32
    ensures { result ≡ key_number fault }
{
    match fault {
        KeyFault::QueueFull => 30,
        KeyFault::KeyTooLong(_) => KEY_TOO_LONG,
        KeyFault::NoMemory => NO_MEMORY,
    }
}

/// The number of an error of an update.
pub(crate) fn update_number(fault: &UpdateFault) -> u32
    ensures { result ≡ update_number fault.now }
{
    match fault {
        UpdateFault::NoMemory => NO_MEMORY,
        UpdateFault::Write { .. } | UpdateFault::Flush { .. } => 32,
    }
}

/// The number of an error of a start or a finish.
pub(crate) fn send_number(fault: SendFault) -> u32
    ensures { result ≡ send_number fault }
{
    match fault {
        SendFault::Write { .. } | SendFault::Flush { .. } => 32,
    }
}

/// The number of an error in a compiled entry.
pub(crate) fn binary_number(fault: BinFault) -> u32
    ensures { result ≡ binary_number fault }
{
    match fault {
        BinFault::TooLarge => 40,
        BinFault::Truncated => 41,
        BinFault::WideNumbers | BinFault::BadMagic => 42,
        BinFault::BadCount => 43,
        BinFault::BadNames => 44,
        BinFault::BadOffset => 45,
        BinFault::Unended => 46,
        BinFault::NoMemory => NO_MEMORY,
    }
}

/// The number of an error in a parameter string.
pub(crate) fn param_number(fault: ParamFault) -> u32
    ensures { result ≡ param_number fault }
{
    match fault {
        ParamFault::Truncated(_) => 60,
        ParamFault::BadDirective(_) => 61,
        ParamFault::StringOperator(_) => 62,
        ParamFault::TooDeep => 63,
        ParamFault::NoMemory => NO_MEMORY,
    }
}

/// The number of an error in an entry.
pub(crate) fn profile_number(fault: ProfileFault) -> u32
    ensures { result ≡ profile_number fault }
{
    match fault {
        ProfileFault::Unsuitable(_) => 50,
        ProfileFault::AutoMargin => 51,
        ProfileFault::Missing(_) => 52,
        ProfileFault::NoSize => 53,
        ProfileFault::BadSize => BAD_SIZE,
        ProfileFault::BadString(_) => 55,
        ProfileFault::LongString(_) => 56,
        ProfileFault::NoMemory => NO_MEMORY,
    }
}
