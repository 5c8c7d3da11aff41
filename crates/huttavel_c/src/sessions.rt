//! What an open handle holds.
use curses::{Device, Entry, Screen};
use ti_param::Vars;

/// A screen with what it made, or an entry.
#[derive(Drop)]
pub(crate) enum Kept {
    /// A screen.
    Screen(Session),
    /// An entry.
    Entry(Described),
}

/// A screen, and the bytes that it made and that the terminal has not accepted yet.
#[derive(Drop)]
pub(crate) struct Session {
    pub(crate) screen: Screen,
    pub(crate) out: Device<Vec<u8>>,
}

/// An entry, and the static variables of its parameter strings.
#[derive(Drop)]
pub(crate) struct Described {
    pub(crate) entry: Entry,
    pub(crate) vars: Vars,
}
