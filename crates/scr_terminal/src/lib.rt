//! Two emulated terminals, with what they share: one executes operations, the other reads ECMA-48
//! texts.
#![tactic(auto)]

mod changes;
mod ecma;
mod leading;
mod marks;
mod repeating;
mod steps;
mod terminal;
mod undefined;

pub use ecma::{EcmaScreen, one_division, pieces_do_not_matter, screens_follow_texts};
pub use leading::{moved_by, turned};
pub use marks::Marks;
pub use repeating::repeats_are_characters;
pub use terminal::Terminal;
pub use undefined::Undefined;
