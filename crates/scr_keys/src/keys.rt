//! What was pressed.

use std::fmt;
use ti_caps::standard::name_of;
use ti_caps::{Kind, Slot};

/// What was pressed: a key of the terminal's entry, or a byte.
///
/// The module `names` has a constant for each key that has a name in term.h.
#[derive(Clone, Copy, Debug, PartialEq, Eq)]
pub enum Key {
    /// The key whose text is at this position of an entry (terminfo(5), 'Function Keys').
    Slot(u16),
    /// A byte that belongs to no key.
    Byte(u8),
}

/// A key is shown as the name of its capability, or as `position N` if term.h has none. A byte is shown as its
/// character, as `^X` if that is a control character, or as a backslash and three octal digits if it is not ASCII.
impl fmt::Display for Key {
    fn fmt<W: fmt::Write>(&self, f: &mut fmt::Formatter<W>) -> fmt::Result {
        match *self {
            Key::Slot(slot) => match name_of(Kind::Text, Slot(slot)) {
                Some(name) => f.write_str(name),
                None => write!(f, "position {slot}"),
            },
            Key::Byte(byte @ 32..=126) => write!(f, "{}", char::from(byte)),
            Key::Byte(byte @ 0..=127) => write!(f, "^{}", char::from(byte ^ 64)),
            Key::Byte(byte) => write!(f, "\\{byte:03o}"),
        }
    }
}
