//! Runs a script of calls on cells, keys, edited texts, terminals and screens, each with the answer or the state that
//! is wanted, which it reads from the standard input. It prints how many lines agree, or the first that does not with
//! what was wanted and what was answered (status 1).
#![tactic(auto)]

mod changed;
mod dumps;
mod ecma_screens;
mod encoded;
mod entries;
mod keys;
mod operations;
mod pictures;
mod profiles;
mod repaints;
mod screens;
mod scripts;
mod shown;
mod subjects;
mod terminals;
mod texts;
mod values;
mod windows;

use check_harness::checking::check_input;
use std::process::ExitCode;
use subjects::Subjects;

fn main(rt: HostRuntime) -> ExitCode {
    check_input::<Subjects>(&rt)
}
