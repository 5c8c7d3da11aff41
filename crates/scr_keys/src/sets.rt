//! Which texts of an entry are keys.

/// Names of keys: a text of an entry is a key if one of these names, at its position, begins with `k` (terminfo(5),
/// 'Function Keys').
#[derive(Clone, Copy, Debug, PartialEq, Eq)]
pub enum KeySet {
    /// The names of the capability table (`ti_caps::name_of`).
    Table,
    /// All names of term.h (`ti_caps::standard::name_of`): those of the table, of keys with shift (`kLFT` and its
    /// kind), `kslt`, and `kmous`, which begins a report of the mouse.
    All,
}
