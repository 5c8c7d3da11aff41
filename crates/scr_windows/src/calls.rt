//! The calls of the desk, by kinds. Each call's definition is in the file of the same name in `specs/Calls/`, those of
//! `lines` in `Adding`.

mod adding;
mod borders;
mod copying;
mod erasing;
mod lines;
mod making;
mod moving;
mod reading;
mod removing;
mod resizing;
mod scrolling;
mod settings;
mod subwindows;
mod syncing;
mod texts;
mod touching;

pub use borders::{BOX, DOUBLE_BOX, ROUND_BOX};
