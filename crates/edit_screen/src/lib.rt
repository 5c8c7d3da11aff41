//! A text editor on a screen: what each key does to the text of a file, how the text is shown, and how it is saved. It
//! runs on a terminal, or by a script on an emulated one.
#![tactic(auto)]

mod answering;
mod changing;
mod commands;
mod drawing;
mod editor;
mod failures;
mod files;
mod hints;
mod history;
mod in_place;
mod journals;
mod keeping;
mod living;
mod messages;
mod moving;
mod notes;
mod opening;
mod questions;
mod recovering;
mod replaying;
mod saving;
mod scripts;
mod searching;
mod sequences;
mod shelves;
mod terminals;
mod view;

pub use curses::Charset;
pub use editor::Editor;
pub use failures::EditFailure;
pub use files::ReadFault;
pub use keeping::rescue;
pub use saving::SaveFault;
pub use scripts::edit_by_script;
pub use terminals::{Terminal, edit_on_terminal};
