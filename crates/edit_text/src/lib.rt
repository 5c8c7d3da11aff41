//! The text of a small editor: lines of bytes, edits at a place, undo, and a search.
//!
//! A text is one line or more, a line is bytes without a line feed, and the bytes of a file are its lines joined by
//! line feeds. So a file that ends in a line feed has an empty last line, and every byte of every file is kept. What is
//! edited is a part of a line: a character of one column with all its bytes in UTF-8, or a byte that belongs to none.
#![tactic(auto)]

mod edits;
mod faults;
mod finding;
mod laws;
mod lines;
mod parts;
mod places;
mod texts;

pub use faults::EditFault;
pub use laws::{characters_are_found, edits_change_one_part, texts_read_back};
pub use out_of_memory::NoMemory;
pub use parts::{TextPart, first_part, last_part};
pub use places::TextPlace;
pub use texts::Text;
