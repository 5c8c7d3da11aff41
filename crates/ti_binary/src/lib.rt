//! Reading and writing compiled files of terminfo entries (term(5), 'Legacy Storage
//! Format'), and reading those with 32-bit numbers ('Extended Number Format').
#![tactic(auto)]

mod counts;
mod decoder;
mod encoder;
mod faults;
mod filler;
mod laws;
mod parts;
mod sections;
mod shapes;
mod texts;
mod widths;

pub use decoder::{Decoded, decode, decode_wide};
pub use encoder::{EncFault, encode, encode_named, encode_with_long_names};
pub use faults::BinFault;
pub use laws::{
    canonical_reads_back, files_are_not_refused, files_have_one_entry, long_names_read_back,
};
pub use parts::word;
pub use sections::put_word;
pub use texts::{before_nul, has_nul, rest_from, text_said};
pub use widths::Width;
