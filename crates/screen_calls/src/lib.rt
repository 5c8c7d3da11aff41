//! Calls of a screen as values, and as lines: a name, and what the call is given.
#![tactic(auto)]

mod call_faults;
mod calls;
mod cuts;
mod fields;
mod given;
mod named_calls;
mod parsing;
mod quoted;
mod reasons;
mod short_calls;

pub use call_faults::CallFault;
pub use calls::Call;
pub use cuts::cut_at;
pub use fields::{copied, count_fault_of, cut_field, field_and_text, hexadecimal_bytes, number};
pub use parsing::read_call;
pub use reasons::Reason;
