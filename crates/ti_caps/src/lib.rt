//! The capability table of terminfo(5), and entries, which say which capabilities a terminal has.
#![tactic(auto)]

mod adapted;
mod buckets;
mod bundle;
mod bytes;
mod entry;
mod faults;
mod names;
pub mod slots;
pub mod standard;
mod table;

pub use adapted::moves_are_left_out;
pub use buckets::find_name;
pub use bundle::bundled;
pub use bytes::Bytes;
pub use entry::{Entry, MOST_FLAGS, MOST_NUMBER, MOST_NUMBERS, MOST_TEXTS};
pub use faults::CapFault;
pub use names::{are_names, cut_name, first_name, has_no_blank};
pub use table::{Kind, Slot, name_of, names_stand_once};
