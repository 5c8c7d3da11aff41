//! Keys: from the bytes of a keyboard to what was pressed.
#![tactic(auto)]

mod faults;
mod firsts;
mod keys;
mod laws;
mod maps;
pub mod names;
mod readers;
mod sequences;
mod sets;
mod tables;
mod typed_readers;
mod typing;

pub use faults::KeyFault;
pub use keys::Key;
pub use laws::{
    keys_are_read, pieces_do_not_matter, typed_in_one_way, typed_in_pieces, typing_loses_nothing,
    waits_for_more,
};
pub use readers::KeyReader;
pub use sets::KeySet;
pub use tables::KeyTable;
pub use typed_readers::TypedReader;
pub use typing::{Typed, TypedItems};
