//! The emulated ECMA-48 screen: which bytes make a control function, what it changes, and the laws
//! of texts.

mod controls;
mod laws;
mod parameters;
mod readings;
mod screens;

pub use laws::{one_division, pieces_do_not_matter, screens_follow_texts};
pub use screens::EcmaScreen;
