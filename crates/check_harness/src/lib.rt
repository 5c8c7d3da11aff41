//! Scripts of calls, each with the answer or the state that is wanted: their words and texts, and the checker that
//! makes each call and compares.
#![tactic(auto)]

pub mod answers;
pub mod buffers;
pub mod checking;
pub mod random;
pub mod texts;
pub mod troubles;
pub mod words;
