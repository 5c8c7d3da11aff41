//! Memory: what is remembered of a terminal between updates, and what operations make known.
#![tactic(auto)]

mod known_rows;
mod laws;
mod memories;
mod spares;

pub use laws::{known_memories, memory_laws, memory_runs};
pub use memories::Memory;
pub use spares::{Spare, spare_laws};
