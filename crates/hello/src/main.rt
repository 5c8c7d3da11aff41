//! Three more programs to begin with, each in a file of its own: `hello list`, `hello clock` and `hello session`. The
//! first two run on the terminal; a word after theirs selects the bundled entry. The third needs no terminal.
#![tactic(auto)]

mod clock;
mod list;
mod session;

use anyhow::Result;
use clock::Clock;
use curses::bundled;
use list::List;
use std::process::ExitCode;
use terminal::{Program, TerminalScreen};

fn main(rt: HostRuntime) -> Result<ExitCode> {
    let words: Vec<String> = std::env::args(&rt)?.collect(rt.alloc())?;
    let is_bundled = words.len() > 2;
    match words.get(1).map_or("", |word| word.as_str()) {
        "list" => run(&rt, &mut List::default(), is_bundled)?,
        "clock" => run(&rt, &mut Clock::started(&rt)?, is_bundled)?,
        "session" => session::check(&rt)?,
        _ => {
            eprintln!(rt; "usage: hello list|clock|session [--bundled]")?;
            return Ok(ExitCode::from(2));
        }
    }
    Ok(ExitCode::SUCCESS)
}

// Runs a program on the terminal that `TERM` names, or on one of the bundled entry.
fn run<P: Program>(rt: &HostRuntime, program: &mut P, is_bundled: bool) -> Result<()> {
    let mut terminal = if is_bundled {
        TerminalScreen::open_entry(rt, bundled(rt.alloc())?)?
    } else {
        TerminalScreen::open(rt)?
    };
    Ok(terminal.run(rt, program)?)
}
