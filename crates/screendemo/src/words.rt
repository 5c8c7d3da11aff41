//! The command line.

use crate::failures::DemoFailure;
use clap::error::ErrorKind;
use clap::{Arg, ArgAction, ArgGroup, ArgMatches, Command};
use program_input::VERSION;
use scr_cells::Charset;
use std::alloc::{AllocError, Global};
use std::env::Env;
use std::io;

// How the text of a usage error ends.
const ADVICE: &str = "\n\nFor more information, try '--help'.\n";

/// What is done with the script.
#[derive(Clone, Copy, PartialEq, Eq)]
pub enum DemoMode {
    /// The screen is printed.
    Print,
    /// The terminal's bytes are sent.
    Send,
    /// The last update is explained.
    Explain,
    /// Given operations are checked in place of the last update's.
    Check,
    /// The last screen is drawn as a picture.
    Picture,
}

/// What the command line asks for.
#[derive(Drop)]
pub struct Request {
    /// What is done with the script.
    pub task: DemoMode,
    /// The file of a script whose lines may also be calls; `None` for a script on the standard input.
    pub calls: Option<String>,
    /// The file of the operations that are checked.
    pub operations: Option<String>,
    /// The terminal's charset.
    pub charset: Charset,
    /// Whether it is said why a line is not a command.
    pub is_verbose: bool,
}

/// What the command line asks for. A request for the usage text is refused with it.
pub fn asked(rt: &HostRuntime) -> Result<Request, DemoFailure> {
    let words = words(rt)?;
    let Ok(version) = format!(in rt.alloc(); "screendemo {VERSION}") else {
        return Err(DemoFailure::NoMemory);
    };
    match asked_in(rt.alloc(), version.as_str(), words.as_slice()) {
        Ok(asked) => Ok(asked),
        Err(error) if error.kind() == ErrorKind::OutOfMemory => Err(DemoFailure::NoMemory),
        Err(error) => Err(usage_failure(rt.alloc(), &error)),
    }
}

// A usage error, without the advice at the end of its text: the option that it names is a usage error too.
fn usage_failure(alloc: Global, error: &clap::Error) -> DemoFailure {
    let Ok(text) = format!(in alloc; "{error}") else {
        return DemoFailure::NoMemory;
    };
    let usage = text.strip_suffix(ADVICE).unwrap_or(text.as_str());
    match usage.to_string(alloc) {
        Ok(usage) => DemoFailure::Words(usage),
        Err(_) => DemoFailure::NoMemory,
    }
}

fn command<'a>(alloc: Global, version: &'a str) -> Result<Command<'a>, AllocError> {
    let command = Command::new(alloc, "screendemo")
        // The usage text tells the version in its first line.
        .before_help(version)
        .about("Draws what a script on the standard input says, and prints the screen")
        .disable_version_flag(true);
    let command = tasks(alloc, command)?;
    command
        .arg(calls(alloc)?)?
        .arg(utf8(alloc))?
        .arg(verbose(alloc))?
        .arg(version_wanted(alloc))
}

// At most one of these is given.
fn tasks<'a>(alloc: Global, command: Command<'a>) -> Result<Command<'a>, AllocError> {
    let raw = Arg::new(alloc, "raw")
        .short('r')
        .action(ArgAction::SetTrue)
        .help("Sends the terminal's bytes, and writes refusals to the standard error");
    let explain = Arg::new(alloc, "explain")
        .short('e')
        .action(ArgAction::SetTrue)
        .help("Explains the last update: what is sent, and how many bytes each part takes");
    let picture = Arg::new(alloc, "picture")
        .long("picture")
        .action(ArgAction::SetTrue)
        .help("Draws the last screen as an SVG");
    let tasks = ArgGroup::new(alloc, "tasks");
    let tasks = tasks.arg("raw")?.arg("explain")?.arg("picture")?;
    let tasks = tasks.arg("check")?;
    let command = command.arg(raw)?.arg(explain)?.arg(picture)?;
    command.arg(checked(alloc))?.group(tasks)
}

fn checked<'a>(alloc: Global) -> Arg<'a> {
    Arg::new(alloc, "check")
        .long("check")
        .action(ArgAction::Set)
        .value_name("FILE")
        .help("Says whether the operations in FILE could be sent as the last update")
}

// What -e explains and --check checks is not cut by writers that fail.
fn calls<'a>(alloc: Global) -> Result<Arg<'a>, AllocError> {
    Arg::new(alloc, "calls")
        .long("calls")
        .action(ArgAction::Set)
        .value_name("FILE")
        .help("Reads the script from FILE, where lines may also be calls by the names of methods")
        .conflicts_with("explain")?
        .conflicts_with("check")
}

fn utf8<'a>(alloc: Global) -> Arg<'a> {
    Arg::new(alloc, "utf8")
        .short('u')
        .action(ArgAction::SetTrue)
        .help(
            "The terminal speaks UTF-8: characters beyond ASCII are shown, and not their stand-ins",
        )
}

fn verbose<'a>(alloc: Global) -> Arg<'a> {
    Arg::new(alloc, "verbose")
        .short('v')
        .action(ArgAction::SetTrue)
        .help("Says why a line is not a command")
}

fn version_wanted<'a>(alloc: Global) -> Arg<'a> {
    Arg::new(alloc, "version")
        .short('V')
        .long("version")
        .action(ArgAction::Help)
        .help("Print version")
}

fn asked_in(alloc: Global, version: &str, words: &[String]) -> Result<Request, clap::Error> {
    let matches = command(alloc, version)?.try_get_matches_from(words)?;
    let task = if matches.get_flag("explain") {
        DemoMode::Explain
    } else if matches.get_str("check").is_some() {
        DemoMode::Check
    } else if matches.get_flag("picture") {
        DemoMode::Picture
    } else if matches.get_flag("raw") {
        DemoMode::Send
    } else {
        DemoMode::Print
    };
    let charset = if matches.get_flag("utf8") {
        Charset::Utf8
    } else {
        Charset::Ascii
    };
    Ok(Request {
        task,
        calls: file_in(alloc, &matches, "calls")?,
        operations: file_in(alloc, &matches, "check")?,
        charset,
        is_verbose: matches.get_flag("verbose"),
    })
}

// The file that an option names.
fn file_in(
    alloc: Global,
    matches: &ArgMatches,
    option: &str,
) -> Result<Option<String>, AllocError> {
    match matches.get_str(option) {
        Some(file) => Ok(Some(file.to_string(alloc)?)),
        None => Ok(None),
    }
}

fn words(rt: &(impl Env + AllocGlobal)) -> Result<Vec<String>, DemoFailure> {
    match std::env::args(rt) {
        Ok(words) => words.collect(rt.alloc()).map_err(|_| DemoFailure::NoMemory),
        Err(error) if error.kind() == io::ErrorKind::OutOfMemory => Err(DemoFailure::NoMemory),
        Err(_) => Err(DemoFailure::NotText),
    }
}
