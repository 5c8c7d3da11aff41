//! Places in a text.

/// A place in a text, between two bytes of a line or at an end of it.
#[derive(Clone, Copy, Debug, PartialEq, Eq)]
pub struct TextPlace {
    /// The line, from 0.
    pub line: usize,
    /// The number of bytes of the line before the place, from 0 to the line's length.
    pub column: usize,
}
