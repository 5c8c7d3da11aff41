//! The terminal that a program runs on: its line as the program reads it, and a screen on it.
//!
//! A program cannot set the modes of its line, receive signals or ask for the terminal's size. `run-on-terminal` does
//! that for it, and tells it in a folder that the environment variable `TERMINAL_FOLDER` names; `docs/TERMINAL.md` says
//! what the files there say. Without such a folder everything works but changes of the size and suspension.
#![tactic(auto)]

mod cursors;
mod events;
mod faults;
mod folders;
mod input;
mod keyboards;
mod lines;
mod locales;
mod openings;
mod outputs;
mod programs;
mod received;
mod screens;
mod sizes;
mod variables;

pub use events::Event;
pub use faults::TerminalFault;
pub use input::Input;
pub use keyboards::Keyboard;
pub use lines::TerminalLine;
pub use outputs::TerminalOutput;
pub use programs::Program;
pub use screens::TerminalScreen;
