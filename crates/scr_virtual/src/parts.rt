//! Parts of windows, and where they are shown.

/// A part of a window that is shown on the screen: the line and the column of the window where it begins, how many rows
/// and columns it has, and the row and the column of the screen that show its first place.
#[derive(Clone, Copy)]
pub struct ShownPart {
    /// The first line of the window that is shown.
    pub row: u32,
    /// The first column of the window that is shown.
    pub column: u32,
    /// How many lines are shown.
    pub rows: u32,
    /// How many columns are shown.
    pub columns: u32,
    /// The row of the screen that shows the first line.
    pub top: u32,
    /// The column of the screen that shows the first column.
    pub left: u32,
}
