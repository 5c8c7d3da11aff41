//! The calls on the windows of a screen, by kinds. Each is passed on to the desk, and its definition is that of the
//! desk's call, in `specs/Calls/` of `scr_windows`.

mod adding;
mod borders;
mod copying;
mod erasing;
mod making;
mod moving;
mod reading;
mod removing;
mod resizing;
mod scrolling;
mod settings;
mod subwindows;
mod syncing;
mod touching;
