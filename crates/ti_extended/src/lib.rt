//! Whole entries of terminfo: every name of term.h, numbers up to 2,147,483,647, and extended
//! (user-defined) capabilities (term(5), 'Extended Storage Format' and 'Extended Number Format').
#![tactic(auto)]

mod additions;
mod capabilities;
mod carets;
mod decoder;
mod distinct;
mod encoder;
mod escapes;
mod faults;
mod gathering;
mod laws;
mod numbers;
mod printing;
mod reading;
mod resolving;
mod second_reading;
mod sections;
mod whole_entry;
mod words;
mod writing;

pub use additions::has_bad_number;
pub use capabilities::{Extended, is_extended_name};
pub use carets::CaretNote;
pub use decoder::decode_whole;
pub use encoder::encode_whole;
pub use faults::WholeFault;
pub use laws::{
    entries_are_clamped, files_have_one_whole, plain_forms_are_canonical, whole_form_reads_back,
};
pub use printing::{WholePrinted, print_whole};
pub use second_reading::SecondReading;
pub use whole_entry::WholeEntry;
