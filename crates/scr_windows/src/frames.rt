//! What is known of a window: its frame, which no drawing changes, and what the calls set in it.
use crate::surfaces::Area;
use scr_cells::{Attrs, Cell};

/// The part of a window that no drawing changes.
#[derive(Clone, Copy)]
pub struct Frame {
    /// The window's number.
    pub number: u32,
    /// The index of its surface among the desk's.
    pub surface: usize,
    /// Its part of the surface.
    pub area: Area,
    /// The number of the window that it is a subwindow of.
    pub parent: Option<u32>,
    /// The place of its first row and column on the screen. A pad has none.
    pub origin: Option<(u32, u32)>,
}

/// What the calls set in a window.
#[derive(Clone, Copy)]
pub struct WindowState {
    /// The row and the column of the cursor.
    pub cursor: (u32, u32),
    /// The attributes that bytes are added with.
    pub attrs: Attrs,
    /// The colour pair that bytes are added with; 0 stands for the background's.
    pub pair: u32,
    /// The background.
    pub background: Cell,
    /// The first and the last row of the scrolling region.
    pub region: (u32, u32),
    /// Whether the region may scroll.
    pub scroll_ok: bool,
    /// Whether the next update is to paint the whole screen.
    pub clear_ok: bool,
    /// Whether the terminal's cursor may stay where an update leaves it.
    pub leave_ok: bool,
}

/// What a call that draws starts from.
#[derive(Clone, Copy)]
pub struct Canvas {
    /// The index of the window among the desk's.
    pub index: usize,
    /// Its part of its surface.
    pub area: Area,
    /// What the calls set in it.
    pub state: WindowState,
}
