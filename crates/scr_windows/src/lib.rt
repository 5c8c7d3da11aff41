//! The windows of a curses screen: a desk of surfaces, windows, subwindows and pads.
#![tactic(auto)]

mod calls;
mod desks;
mod drawing;
mod faults;
mod frames;
mod laws;
mod lent;
mod surfaces;
mod windows;

pub use calls::{BOX, DOUBLE_BOX, ROUND_BOX};
pub use desks::Desk;
pub use faults::{Added, Win, WinFault};
pub use laws::{
    boxes_have_characters, deleting_keeps_others, moving_changes_no_cell, resizing_keeps_others,
    subwindows_share_cells, surface_laws, windows_are_placed, writing_stays_inside,
};
pub use lent::WindowRef;
pub use surfaces::Area;
