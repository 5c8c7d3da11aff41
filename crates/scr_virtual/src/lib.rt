//! The virtual screen of curses: a picture to which windows and pads are copied, and which columns may have changed.
#![tactic(auto)]

mod laws;
mod parts;
mod ranges;
mod screens;
mod taking;

pub use laws::{outside_stays, ranges_hold_changes, sizes_stay, untouched_changes_nothing};
pub use screens::Virtual;
