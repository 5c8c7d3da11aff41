//! Screens with the terminals that they are shown on, each update compared with a plain picture of what was copied, and
//! sessions that are made up, with updates that fail or are cut after each number of their bytes.
//!
//! What an update sends goes into a writer that fails after given counts of bytes. An emulated terminal executes its
//! operations, and one that reads ECMA-48 is fed what the writer accepted, where the entry cannot insert and delete
//! lines and characters.
#![tactic(auto)]

mod answers;
mod calls;
mod cuts;
mod emulated;
mod entries;
mod made_up;
mod plain;
mod recorded;
mod repaints;
mod sessions;
mod writers;

pub use answers::{add_defined, add_spot};
pub use calls::obey;
pub use cuts::count_cuts;
pub use emulated::{Emulated, step_on};
pub use entries::{MOVING, change_capability, read_entry};
pub use made_up::scalar;
pub use plain::{is_touched, line_of};
pub use recorded::Recorded;
pub use repaints::{bytes_of, joined_on, scratch_on};
pub use sessions::{check_sessions, opening_of};
pub use writers::{read_fails, writer_that};
