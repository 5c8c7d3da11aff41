//! Finding a compiled entry by the name of its terminal (terminfo(5), 'Fetching Compiled
//! Descriptions'; term(5), 'Storage Location').
#![tactic(auto)]

mod faults;
mod file_paths;
mod folders;
mod memory;
mod names;
mod obstacles;
mod reading;
mod searching;
mod stores;
mod system;

pub use faults::DatabaseFault;
pub use file_paths::{FilePath, FilePaths, paths};
pub use folders::Variables;
pub use memory::MemoryFiles;
pub use obstacles::Obstacle;
pub use reading::read_entry;
pub use searching::{find_in, search};
pub use stores::Store;
pub use system::{find, first_folder};
