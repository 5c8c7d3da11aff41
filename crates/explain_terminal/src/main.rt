//! Reads a compiled terminfo entry, and says in one line whether this library can serve the
//! terminal. `explain_terminal NAME` finds the entry by the terminal's name; without a name it reads
//! standard input, or finds the entry that `TERM` names if that is a terminal.
//!
//! The line has the size of the screen, or says that the entry has none (then 24 rows of 80 columns
//! are tried), the attributes that the terminal shows, whether it shows colours, and how long the
//! text of an operation can be; or it says why the entry makes no screen. Programs take an entry
//! with colours first, and without a last column that would scroll: where that makes a difference, a
//! second line says the same of the entry as they take it. The status is 1 if no screen can be
//! opened either way, or if the lines cannot be written. The only options are `--help` and `--version`, which answer on standard
//! output; anything else is a usage error (status 2).
#![tactic(auto)]

use clap::error::ErrorKind;
use clap::{Arg, ArgMatches, Command};
use program_input::{InputFault, VERSION, read_input};
use scr_cells::{NoMemory, Size};
use scr_term::{Profile, ProfileFault, sent_at};
use std::alloc::{AllocError, Global};
use std::env::VarError;
use std::io::IsTerminal;
use std::process::ExitCode;
use std::{env, io};
use thiserror::Error;
use ti_binary::BinFault;
use ti_caps::{Entry, Slot, slots};
use ti_database::{DatabaseFault, find, read_entry};

// Why a terminal cannot be served.
#[derive(Debug, Drop, Error)]
enum Refusal {
    #[error("read failed")]
    Read,
    #[error("{0}")]
    File(BinFault),
    #[error("{0}")]
    Database(DatabaseFault),
    #[error("TERM is not set")]
    NoTerm,
    #[error("out of memory")]
    NoMemory,
}

// What is printed about a terminal that can be served.
#[derive(Clone, Copy, PartialEq, Eq)]
struct Report {
    // `None` if the entry has no size.
    size: Option<Size>,
    attributes: u8,
    colours: bool,
    longest: usize,
}

fn report_of(profile: &Profile, size: Option<Size>) -> Report {
    Report {
        size,
        attributes: profile.shows().0,
        colours: profile.colours(),
        longest: profile.longest(),
    }
}

// The entry on standard input, or if that is a terminal, the one of the terminal that `TERM` names.
fn entry_unnamed(rt: &HostRuntime) -> Result<Entry, Refusal> {
    if rt.stdin().is_terminal() {
        entry_of_term(rt)
    } else {
        entry_read(rt)
    }
}

// An empty name counts as none.
fn entry_of_term(rt: &HostRuntime) -> Result<Entry, Refusal> {
    match env::var(rt, "TERM") {
        Ok(name) if !name.is_empty() => entry_named(rt, name.as_str()),
        Err(VarError::OutOfMemory) => Err(Refusal::NoMemory),
        _ => Err(Refusal::NoTerm),
    }
}

// The entry on standard input.
fn entry_read(rt: &HostRuntime) -> Result<Entry, Refusal> {
    match read_input(rt.alloc(), &mut rt.reader()) {
        Ok(bytes) => entry_of(rt.alloc(), &bytes),
        Err(InputFault::NoMemory) => Err(Refusal::NoMemory),
        Err(InputFault::Failed) => Err(Refusal::Read),
    }
}

fn entry_of(alloc: Global, bytes: &[u8]) -> Result<Entry, Refusal> {
    match read_entry(alloc, bytes) {
        Ok(entry) => Ok(entry),
        Err(BinFault::NoMemory) => Err(Refusal::NoMemory),
        Err(fault) => Err(Refusal::File(fault)),
    }
}

// The entry of a terminal's name.
fn entry_named(rt: &HostRuntime, name: &str) -> Result<Entry, Refusal> {
    match find(rt, name) {
        Ok(entry) => Ok(entry),
        Err(DatabaseFault::NoMemory) => Err(Refusal::NoMemory),
        Err(fault) => Err(Refusal::Database(fault)),
    }
}

// Admits an entry; one without a size on a screen of 24 rows and so many columns.
fn explain(alloc: Global, entry: &Entry, columns: u32) -> Result<Report, ProfileFault> {
    match Profile::admit(alloc, entry, None) {
        Err(ProfileFault::NoSize) => {}
        Err(fault) => return Err(fault),
        Ok(profile) => return Ok(report_of(&profile, Some(profile.size()))),
    }
    let profile = Profile::admit(alloc, entry, Size::new(24, columns))?;
    Ok(report_of(&profile, None))
}

// The names of the capabilities for a set of attributes, each as a word.
fn attribute_words(set: u8) -> [&'static str; 7] {
    if set == 0 {
        return [" no attribute", "", "", "", "", "", ""];
    }
    [
        word_of(set & 1, " smso"),
        word_of(set & 2, " smul"),
        word_of(set & 4, " rev"),
        word_of(set & 8, " blink"),
        word_of(set & 16, " dim"),
        word_of(set & 32, " bold"),
        word_of(set & 64, " invis"),
    ]
}

// The word if the bit is set, else nothing.
fn word_of(bit: u8, word: &'static str) -> &'static str {
    if bit == 0 { "" } else { word }
}

// What the command line asks for: the entry on standard input, that of a name, or a text as an
// answer.
enum Words {
    Input,
    Named(String),
    Answered(clap::Error),
    NotText,
    NoMemory,
}

fn words_given(rt: &HostRuntime) -> Words {
    match env::args(rt) {
        Ok(words) => match words.collect::<Vec<String>>(rt.alloc()) {
            Ok(words) => words_of(rt.alloc(), words.as_slice()),
            Err(_) => Words::NoMemory,
        },
        Err(error) if error.kind() == io::ErrorKind::OutOfMemory => Words::NoMemory,
        Err(_) => Words::NotText,
    }
}

fn words_of(alloc: Global, words: &[String]) -> Words {
    match matches(alloc, words) {
        Ok(matches) => match matches.get_str("name") {
            Some(name) => named(alloc, name),
            None => Words::Input,
        },
        Err(error) if error.kind() == ErrorKind::OutOfMemory => Words::NoMemory,
        Err(error) => Words::Answered(error),
    }
}

fn matches<'a>(alloc: Global, words: &'a [String]) -> Result<ArgMatches<'a>, clap::Error> {
    command(alloc)?.try_get_matches_from(words)
}

fn command<'a>(alloc: Global) -> Result<Command<'a>, AllocError> {
    let name = Arg::new(alloc, "name").value_name("NAME").help(
        "The terminal's name; without it the entry is read on the standard input, or is TERM's",
    );
    Command::new(alloc, "explain_terminal")
        .version(VERSION)
        .about("Says whether a terminal can be served, by its compiled entry")
        .arg(name)
}

fn named(alloc: Global, name: &str) -> Words {
    match String::from_str(alloc, name) {
        Ok(name) => Words::Named(name),
        Err(_) => Words::NoMemory,
    }
}

// Explains an entry, and returns the status.
fn say(rt: &HostRuntime, entry: Result<Entry, Refusal>) -> u8 {
    match entry {
        Ok(entry) => say_entry(rt, entry),
        Err(refusal) => refuse(rt, &refusal),
    }
}

// The texts that colours take.
static COLOUR_TEXTS: [Slot; 4] = [slots::SETAF, slots::SETAB, slots::OP, slots::SGR0];

// Says what an entry makes as it is, and, if that is something else, as programs take it.
fn say_entry(rt: &HostRuntime, entry: Entry) -> u8 {
    let given = explain(rt.alloc(), &entry, 80);
    let mut entry = entry;
    let columns = if entry.without_last_column() { 79 } else { 80 };
    if put_colours_first(rt.alloc(), &mut entry).is_err() {
        return refuse(rt, &Refusal::NoMemory);
    }
    let adapted = explain(rt.alloc(), &entry, columns);
    if is_short(&given) || is_short(&adapted) {
        return refuse(rt, &Refusal::NoMemory);
    }
    let status = if adapted.is_ok() { 0 } else { 1 };
    written(rt, print_both(rt, &given, &adapted), status)
}

// Puts colours before attributes, if something is sent for each text that colours take.
fn put_colours_first(alloc: Global, entry: &mut Entry) -> Result<(), NoMemory> {
    for slot in &COLOUR_TEXTS {
        if sent_at(alloc, entry, *slot)?.is_none() {
            return Ok(());
        }
    }
    entry.colours_first();
    Ok(())
}

// Whether memory ran out.
fn is_short(made: &Result<Report, ProfileFault>) -> bool {
    matches!(made, Err(ProfileFault::NoMemory))
}

fn print_both(
    rt: &HostRuntime,
    given: &Result<Report, ProfileFault>,
    adapted: &Result<Report, ProfileFault>,
) -> io::Result<()> {
    print_made(rt, given)?;
    if adapted != given {
        print!(rt; "as programs take it: ")?;
        print_made(rt, adapted)?;
    }
    Ok(())
}

fn print_made(rt: &HostRuntime, made: &Result<Report, ProfileFault>) -> io::Result<()> {
    match made {
        Ok(report) => print_report(rt, *report),
        Err(fault) => println!(rt; "refused: {fault}"),
    }
}

fn refuse(rt: &HostRuntime, refusal: &Refusal) -> u8 {
    written(rt, println!(rt; "refused: {refusal}"), 1)
}

// The status, if what was to be written is written.
fn written(rt: &HostRuntime, ended: io::Result<()>, status: u8) -> u8 {
    match ended {
        Ok(()) => status,
        Err(_) => {
            let _ = eprintln!(rt; "write failed");
            1
        }
    }
}

// Prints a usage error, or the help or the version, and returns the status.
fn answer(rt: &HostRuntime, error: &clap::Error) -> u8 {
    let status = if error.use_stderr() { 2 } else { 0 };
    written(rt, error.print(rt), status)
}

fn main(rt: HostRuntime) -> ExitCode {
    let status = match words_given(&rt) {
        Words::Input => say(&rt, entry_unnamed(&rt)),
        Words::Named(name) => say(&rt, entry_named(&rt, name.as_str())),
        Words::Answered(error) => answer(&rt, &error),
        Words::NotText => 2,
        Words::NoMemory => refuse(&rt, &Refusal::NoMemory),
    };
    ExitCode::from(status)
}

fn print_report(rt: &HostRuntime, said: Report) -> io::Result<()> {
    match said.size {
        Some(size) => print!(rt; "admitted: {} rows of {} columns", size.rows, size.columns)?,
        None => print!(rt; "admitted: no size of its own")?,
    }
    let [standout, underline, reverse, blink, dim, bold, invis] = attribute_words(said.attributes);
    print!(rt; ", shows{standout}{underline}{reverse}{blink}{dim}{bold}{invis}")?;
    let colours = if said.colours { " colours" } else { "" };
    println!(rt; "{colours}, texts of at most {} bytes", said.longest)
}
