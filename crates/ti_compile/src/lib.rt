//! The work of a terminfo compiler between its input and output (tic(1), infocmp(1)). It compiles a
//! source to files under their paths, and lists a compiled file as source.
#![tactic(auto)]

mod alike;
mod compiled_entry;
mod compiler;
mod entry_compiler;
mod faults;
mod file_names;
mod laws;
mod lister;
mod written;

pub use compiled_entry::{CompiledEntry, Paths, paths_under};
pub use compiler::{Compiled, Notes, compile};
pub use entry_compiler::EntryCompiler;
pub use faults::TicFault;
pub use file_names::is_file_name;
pub use laws::{compiled_sources_have_no_fault, sources_compile_once, sources_have_one_fault};
pub use lister::{Listing, list};
pub use written::{Files, Sizes};
