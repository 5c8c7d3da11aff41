//! Parts of a surface.

/// A part of a surface, or of another area: the row and the column there of its first place, and how many rows and
/// columns it has.
#[derive(Clone, Copy)]
pub struct Area {
    /// The row there that is the area's row 0.
    pub top: u32,
    /// The column there that is the area's column 0.
    pub left: u32,
    /// How many rows there are.
    pub rows: u32,
    /// How many columns there are.
    pub columns: u32,
}
