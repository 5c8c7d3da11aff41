//! Terminfo source, as in terminfo(5): reading, resolving and printing it.
#![tactic(auto)]

mod faults;
mod note;
mod notes;
mod ordinals;
mod packed_lists;
mod printing;
mod reading;
mod resolving;
mod source;

pub use faults::SourceFault;
pub use note::{Cause, Note};
pub use notes::{NoteView, Notes};
pub use printing::printer::{
    Printed, numbers_read_back, print, printed_reads_back, push_escaped, texts_read_back,
};
pub use reading::escape::{decode, texts_are_spelled};
pub use reading::field::{Form, fields_are_cut, form_of, split_field};
pub use reading::line::SourceLine;
pub use reading::lines::Lines;
pub use reading::number::number;
pub use reading::reader::{read, read_apart};
pub use resolving::resolver::{
    Resolver, entries_pass_on, names_have_one_fault, names_resolve_once, resolve,
    resolved_names_have_no_fault,
};
pub use source::Source;
