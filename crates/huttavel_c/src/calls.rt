//! The calls on the windows of a screen. Where a function is for several, C says which by a number or a truth value.

mod changing;
mod characters;
mod copying;
mod making;
mod reading;
mod texts;
mod writing;

pub use characters::Border;
