//! Runs a script of calls of the terminfo libraries, each with the answer that is wanted, which it reads from the
//! standard input. It prints how many lines agree, or the first that does not with what was wanted and what was
//! answered (status 1). A call that was refused memory is made once more, after a look at what it must not have changed.
#![tactic(auto)]

mod answers;
mod database;
mod entries;
mod files;
mod inputs;
mod programs;
mod sources;
mod subjects;
mod table;
mod wholes;

use check_harness::checking::check_input;
use std::process::ExitCode;
use subjects::TerminfoSubject;

fn main(rt: HostRuntime) -> ExitCode {
    check_input::<TerminfoSubject>(&rt)
}
