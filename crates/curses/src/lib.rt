//! A curses screen: windows, a virtual screen, updates that bring a terminal to it, and the keys of its keyboard.
#![tactic(auto)]

mod adapted;
mod calls;
mod checks;
mod faults;
mod keyboard;
mod opening;
mod refreshing;
mod screens;
mod sending;
mod starting;
mod texts;
mod updates;
mod writers;

pub use adapted::AdaptedEntry;
pub use faults::{OpenFault, SendFault, Sent, UpdateFault};
pub use opening::Opening;
pub use screens::Screen;
pub use starting::closing_laws;
pub use texts::{closing_text, opening_text};
pub use writers::{Counted, Device, Output};

// What a program names besides: windows, cells and keys, terminals, and the operations and errors of updates; and for a
// test without a terminal the emulated one.
pub use scr_cells::{Attrs, Cell, Charset, Look, NoMemory, Picture, Size, is_character};
pub use scr_keys::{Key, KeyFault, KeySet, Typed, TypedItems, TypedReader, names as keys};
pub use scr_plan::{CheckFault, NotAPlan};
pub use scr_term::{Op, Ops, ProfileFault, Spot};
pub use scr_terminal::{EcmaScreen, Undefined};
pub use scr_windows::{Added, BOX, DOUBLE_BOX, ROUND_BOX, Win, WinFault, WindowRef};
pub use ti_caps::{Bytes, CapFault, Entry, Kind, Slot, bundled};
