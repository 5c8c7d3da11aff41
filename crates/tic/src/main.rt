//! `tic`: compiles terminfo source, and lists compiled files (tic(1), infocmp(1)).
//!
//! `tic -c FILE` compiles FILE and prints the first name of each entry and the size of its compiled
//! file, one entry a line. `tic -o DIR FILE` writes the files below DIR, one for each name of an
//! entry, and prints nothing. `tic -d COMPILED` prints a compiled file as source. If FILE or
//! COMPILED is `-`, it is the standard input. With `-x` the names of term.h that the capability table
//! does not have, names of an entry's own and numbers above 32,767 are kept too.
//!
//! Notes on doubtful fields, and what a listing leaves out, go to standard error. An error is printed
//! there as `tic: ` and its text; with `-v` errors and notes begin with the file, the line and the
//! entry in its place, and a note says how often each unknown name occurs. The usage text goes there
//! too, which `--help` and `--version` ask for. The status is 0, 1 for an error and 2 for a usage
//! error, as these two are.
#![tactic(auto)]

mod compiling;
mod failures;
mod fields;
mod input;
mod located;
mod messages;
mod notes;
mod output;
mod places;
mod report;
mod uses;
mod whole;
mod words;

use clap::ArgMatches;
use clap::error::ErrorKind;
use compiling::{Purpose, Wanted, compile};
use failures::Failure;
use input::input_of;
use output::print;
use program_input::VERSION;
use report::add_left_out;
use std::io::Write;
use std::process::ExitCode;
use std::{env, io};
use ti_compile::{TicFault, list};
use ti_database::first_folder;
use ti_extended::{WholeEntry, WholeFault, decode_whole, print_whole};
use words::TicCommand;

fn main(rt: HostRuntime) -> ExitCode {
    let ended = match words_given(&rt) {
        Ok(words) => perform(&rt, words.as_slice()),
        Err(failure) => told(&rt, &failure),
    };
    ExitCode::from(ended)
}

// Prints why the program ends, and returns its status.
fn told(rt: &HostRuntime, failure: &Failure<'_>) -> u8 {
    let _ = eprintln!(rt; "{failure}");
    failure.status()
}

fn words_given<'a>(rt: &HostRuntime) -> Result<Vec<String>, Failure<'a>> {
    match env::args(rt) {
        Ok(words) => Ok(words.collect(rt.alloc())?),
        Err(error) if error.kind() == io::ErrorKind::OutOfMemory => Err(Failure::NoMemory),
        Err(_) => Err(Failure::Usage),
    }
}

// Does what the command line asks for, and returns the status.
fn perform(rt: &HostRuntime, words: &[String]) -> u8 {
    match format!(in rt.alloc(); "tic {VERSION}") {
        Ok(version) => perform_words(rt, version.as_str(), words),
        Err(_) => told(rt, &Failure::NoMemory),
    }
}

fn perform_words(rt: &HostRuntime, version: &str, words: &[String]) -> u8 {
    match words::matches(rt.alloc(), version, words) {
        Ok(matches) => perform_task(rt, &matches),
        Err(error) => {
            let status = refused(rt, &error);
            if words::are_operands(words) {
                tell_folder(rt);
            }
            status
        }
    }
}

// Prints why a command line is refused. A request for the usage text is one of the reasons.
fn refused(rt: &HostRuntime, error: &clap::Error) -> u8 {
    if error.kind() == ErrorKind::OutOfMemory {
        return told(rt, &Failure::NoMemory);
    }
    match format!(in rt.alloc(); "{error}") {
        Ok(text) => {
            let _ = eprint!(rt; "{}", without_advice(text.as_str()));
            2
        }
        Err(_) => told(rt, &Failure::NoMemory),
    }
}

// The last line of what is said of a bad command line.
const ADVICE: &str = "\nFor more information, try '--help'.\n";

// A text without that line: a request for help is such a command line too.
fn without_advice(text: &str) -> &str {
    text.strip_suffix(ADVICE).unwrap_or(text)
}

// Prints what `tic FILE` lacks, and the folder in which programs look first.
fn tell_folder(rt: &HostRuntime) {
    if let Ok(folder) = first_folder(rt) {
        let _ = eprintln!(rt;
            "tic: -o DIR FILE writes compiled files below DIR; programs look in {folder} first"
        );
    }
}

fn perform_task(rt: &HostRuntime, matches: &ArgMatches<'_>) -> u8 {
    let ended = match words::task_of(matches) {
        Some(task) => run(rt, task, wanted(matches)),
        None => Err(Failure::Usage),
    };
    match ended {
        Ok(()) => 0,
        Err(failure) => told(rt, &failure),
    }
}

fn wanted(matches: &ArgMatches<'_>) -> Wanted {
    Wanted {
        verbose: words::is_verbose(matches),
        extended: words::is_extended(matches),
    }
}

fn run<'a>(rt: &HostRuntime, task: TicCommand<'a>, wanted: Wanted) -> Result<(), Failure<'a>> {
    match task {
        TicCommand::Sizes(file) => compile(rt, Purpose::Sizes, file, wanted),
        TicCommand::Files(directory, file) => compile(rt, Purpose::Files(directory), file, wanted),
        TicCommand::Listing(file) if wanted.extended => print_whole_listing(
            rt,
            file,
            wanted.verbose,
        ),
        TicCommand::Listing(file) => print_listing(rt, file, wanted.verbose),
    }
}

// Prints a compiled file as source, and reports what is left out.
fn print_listing<'a>(rt: &HostRuntime, file: &'a str, verbose: bool) -> Result<(), Failure<'a>> {
    let bytes = input_of(rt, file, verbose)?;
    match list(rt.alloc(), bytes.as_slice()) {
        Ok(listing) => print_listed(
            rt,
            listing.text.0.as_slice(),
            listing.unnamed,
            listing.skipped,
        ),
        Err(fault) if verbose => Err(unlisted(rt, file, fault)),
        Err(fault) => Err(fault.into()),
    }
}

// The same with every name and with numbers above 32,767.
fn print_whole_listing<'a>(
    rt: &HostRuntime,
    file: &'a str,
    verbose: bool,
) -> Result<(), Failure<'a>> {
    let bytes = input_of(rt, file, verbose)?;
    match decode_whole(rt.alloc(), bytes.as_slice()) {
        Ok(whole) => print_whole_listed(rt, &whole),
        Err(fault) if verbose => Err(whole_unlisted(rt, file, fault)),
        Err(fault) => Err(fault.into()),
    }
}

fn print_whole_listed<'a>(rt: &HostRuntime, whole: &WholeEntry) -> Result<(), Failure<'a>> {
    let printed = print_whole(rt.alloc(), whole)?;
    print_listed(rt, printed.text.0.as_slice(), printed.unnamed, 0)
}

fn whole_unlisted<'a>(rt: &HostRuntime, file: &str, fault: WholeFault) -> Failure<'a> {
    if fault == WholeFault::NoMemory {
        return Failure::NoMemory;
    }
    match format!(in rt.alloc(); "{file}: {fault}") {
        Ok(message) => Failure::Located(message),
        Err(_) => fault.into(),
    }
}

// Why a file is not listed, with the file.
fn unlisted<'a>(rt: &HostRuntime, file: &str, fault: TicFault) -> Failure<'a> {
    if fault == TicFault::NoMemory {
        return Failure::NoMemory;
    }
    match format!(in rt.alloc(); "{file}: {fault}") {
        Ok(message) => Failure::Located(message),
        Err(_) => fault.into(),
    }
}

fn print_listed<'a>(
    rt: &HostRuntime,
    text: &[u8],
    unnamed: usize,
    skipped: usize,
) -> Result<(), Failure<'a>> {
    let mut left_out = Vec::new(rt.alloc());
    add_left_out(rt.alloc(), unnamed, skipped, &mut left_out)?;
    let printed = print(rt, text);
    let _ = rt.stderr().write_all(left_out.as_slice());
    printed
}
