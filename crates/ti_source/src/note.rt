//! Notes on doubtful fields of a source.

use ti_caps::Bytes;

/// Why a field is doubtful.
#[derive(Clone, Copy, Debug, PartialEq, Eq)]
pub enum Cause {
    /// No capability has this name, or `@` is not the field's last byte.
    Unknown,
    /// The capability is of another kind.
    WrongKind,
    /// The number is above 32,767, and is read as 32,767.
    TooGreat,
    /// An earlier field of the entry is about the same capability.
    Repeated,
}

/// A note on a doubtful field, which is read as the cause says.
#[derive(Debug, Drop)]
pub struct Note {
    /// The line of the field, counted from 1; 4,294,967,295 for every line from there on.
    pub line: u32,
    /// What is doubtful.
    pub cause: Cause,
    /// The name of the field, up to its first `#`, `=` or `@`.
    pub name: Bytes,
}
