//! Sessions: calls on a screen as values, lists of them with their answers, and a writer for tests that fails
//! after given counts of bytes.
#![tactic(auto)]

mod answers;
mod calls;
mod faulty;
mod sessions;

pub use answers::Answer;
pub use faulty::{Faulty, WriterFailure, WriterFault};
pub use screen_calls::{Call, CallFault, Reason};
pub use sessions::{
    Answers, Report, disturbed_rows_hold_again, make_call, make_calls, session, session_adapted,
    session_as,
};
