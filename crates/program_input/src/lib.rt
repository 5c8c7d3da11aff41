//! What programs share: reading an input whole, or its beginning, within bounds; and the version.
#![tactic(auto)]

mod inputs;
mod version;

pub use inputs::{InputFault, MOST_BYTES, MOST_READS, read_input, read_up_to};
pub use version::VERSION;
