//! The C library: each function of `include/huttavel.h` on a handle that is there. The functions of `c/huttavel.c` call
//! these, once they have refused null pointers.
#![tactic(auto)]

mod answers;
mod calls;
mod entries;
mod faults;
mod handles;
mod held;
mod keys;
mod lending;
mod opening;
mod parts;
mod sending;
mod sessions;

pub use answers::{GivenCell, Length, Reply};
pub use calls::Border;
pub use entries::Numbers;
pub use handles::Handle;
