//! Runs a script that draws on a screen, and prints what a terminal shows of it. With `-r` it writes the terminal's
//! bytes instead. With `-e` it explains the script's last update: each operation that is sent with the bytes of its
//! text, and how many bytes these are, beside those of the joined repaint and of painting from scratch. With `--check`
//! it says whether given operations could be sent as that update. With `--picture` it draws the last screen as an SVG.
//! With `--calls` the lines of a file may also be calls by the names of the screen's methods, and updates that fail. With
//! `-u` the terminal speaks UTF-8. With `-v` it says why a line is not a command.
#![tactic(auto)]

mod bad_lines;
mod checking;
mod explaining;
mod failures;
mod last_update;
mod operations;
mod pages;
mod pictures;
mod pricing;
mod scripts;
mod words;

use bad_lines::reason_at;
use checking::verdict;
use explaining::explanation;
use failures::DemoFailure;
use pictures::picture;
use program_input::{InputFault, read_input};
pub use screen_scripts::{DemoFault, Output, call_refusals, refusals, run, run_as};
use std::io::Write;
use std::process::ExitCode;
use std::{fs, io};
use words::{DemoMode, Request, asked};

// The script on the standard input, or in a file; `-` stands for the standard input there.
fn script(rt: &HostRuntime, file: Option<&str>) -> Result<Vec<u8>, DemoFailure> {
    let read = match file {
        None | Some("-") => read_input(rt.alloc(), &mut rt.reader()),
        Some(file) => match fs::open(rt, file) {
            Ok(mut opened) => read_input(rt.alloc(), &mut opened),
            Err(_) => Err(InputFault::Failed),
        },
    };
    match read {
        Ok(script) => Ok(script),
        Err(InputFault::Failed) => Err(DemoFailure::Read),
        Err(InputFault::NoMemory) => Err(DemoFailure::NoMemory),
    }
}

fn demonstrate(rt: &HostRuntime) -> Result<(), DemoFailure> {
    let asked = asked(rt)?;
    perform_asked(rt, &asked)
}

// Reads the script, and does with it what is asked for.
fn perform_asked(rt: &HostRuntime, asked: &Request) -> Result<(), DemoFailure> {
    let script = script(rt, asked.calls.as_deref())?;
    match perform(rt, asked, &script) {
        Err(DemoFailure::Demo(DemoFault::BadCommand(line))) if asked.is_verbose => {
            Err(at_line(rt, &script, line, asked.calls.is_some()))
        }
        ended => ended,
    }
}

// The failure for a bad line, with the reason unless memory runs out for it.
fn at_line(rt: &HostRuntime, script: &[u8], line: u32, reads_calls: bool) -> DemoFailure {
    let fault = DemoFault::BadCommand(line);
    match reason_at(rt.alloc(), script, line, reads_calls) {
        Ok(Some(reason)) => DemoFailure::Line(fault, reason),
        Ok(None) | Err(_) => DemoFailure::Demo(fault),
    }
}

fn perform(rt: &HostRuntime, asked: &Request, script: &[u8]) -> Result<(), DemoFailure> {
    let (charset, reads_calls) = (asked.charset, asked.calls.is_some());
    let output = Output {
        charset,
        is_raw: asked.task != DemoMode::Print,
        reads_calls,
    };
    match asked.task {
        DemoMode::Print => draw(rt, output, script),
        DemoMode::Send => {
            let ended = draw(rt, output, script);
            let told = tell_refusals(rt, output, script);
            ended.and(told)
        }
        DemoMode::Explain => print(rt, explanation(rt.alloc(), charset, script)),
        DemoMode::Check => {
            let operations = self::script(rt, asked.operations.as_deref())?;
            let text = verdict(rt.alloc(), charset, script, &operations)?;
            print(rt, Ok(text))
        }
        DemoMode::Picture => print(rt, picture(rt.alloc(), output, script)),
    }
}

// Draws what a script says.
fn draw(rt: &HostRuntime, output: Output, script: &[u8]) -> Result<(), DemoFailure> {
    run_as(rt.alloc(), script, output, &mut io::writer(rt)).map_err(DemoFailure::Demo)
}

// Writes the lines of a script's refusals to standard error.
fn tell_refusals(rt: &HostRuntime, output: Output, script: &[u8]) -> Result<(), DemoFailure> {
    let lines = if output.reads_calls {
        call_refusals(rt.alloc(), script, output.charset)
    } else {
        refusals(rt.alloc(), script)
    };
    let lines = lines.map_err(|_| DemoFailure::NoMemory)?;
    rt.stderr()
        .write_all(&lines)
        .map_err(|error| DemoFailure::Demo(DemoFault::Write(error.kind())))
}

// Prints a text, if it was made.
fn print(rt: &HostRuntime, made: Result<Vec<u8>, DemoFault>) -> Result<(), DemoFailure> {
    let text = made.map_err(DemoFailure::Demo)?;
    rt.stdout()
        .write_all(&text)
        .map_err(|error| DemoFailure::Demo(DemoFault::Write(error.kind())))
}

fn main(rt: HostRuntime) -> ExitCode {
    let Err(failure) = demonstrate(&rt) else {
        return ExitCode::SUCCESS;
    };
    let _ = eprintln!(rt; "{failure}");
    ExitCode::from(failure.status())
}
