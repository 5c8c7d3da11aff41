//! The names of errors.
ghost use Rattle.std.specs.Prelude.{◌≡◌};
ghost use Rattle.screen_scripts.specs.Stories.{fault_name as name_of_fault, key_fault_name as name_of_key_fault};

use scr_keys::KeyFault;
use scr_windows::WinFault;

/// The name of an error of a call.
pub fn fault_name(fault: WinFault) -> &'static str
    ensures { result.now ≡ name_of_fault fault }
{
    match fault {
        WinFault::NoWindow => "NoWindow",
        WinFault::IsPad => "IsPad",
        WinFault::NotPad => "NotPad",
        WinFault::IsSub => "IsSub",
        WinFault::HasChildren => "HasChildren",
        WinFault::NotAscii => "NotAscii",
        WinFault::OutOfWindow => "OutOfWindow",
        WinFault::OffScreen => "OffScreen",
        WinFault::NotInParent => "NotInParent",
        WinFault::BadRegion => "BadRegion",
        WinFault::NoScroll => "NoScroll",
        WinFault::TooBig => "TooBig",
        WinFault::TooMany => "TooMany",
        WinFault::NoMemory => "NoMemory",
        WinFault::BadPair => "BadPair",
        WinFault::BadColour => "BadColour",
        WinFault::NotOneColumn => "NotOneColumn",
    }
}

/// The name of an error of the reader of keys.
pub fn key_fault_name(fault: KeyFault) -> &'static str
    ensures { result.now ≡ name_of_key_fault fault }
{
    match fault {
        KeyFault::KeyTooLong(_) => "KeyTooLong",
        KeyFault::QueueFull => "QueueFull",
        KeyFault::NoMemory => "NoMemory",
    }
}
