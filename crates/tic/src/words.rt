//! The command line of `tic`.

use clap::{Arg, ArgAction, ArgGroup, ArgMatches, Command, Error};
use std::alloc::{AllocError, Global};

/// What the command line asks for.
#[derive(Clone, Copy)]
pub(crate) enum TicCommand<'a> {
    /// Print the sizes of a source's compiled files.
    Sizes(&'a str),
    /// Write the compiled files of a source below a folder.
    Files(&'a str, &'a str),
    /// Print a compiled file as source.
    Listing(&'a str),
}

/// Parses the command line: exactly one of `-c FILE`, `-o DIR FILE` and `-d COMPILED`, and
/// optionally `-x` and `-v`. The usage text begins with the program's name and version.
pub(crate) fn matches<'a>(
    alloc: Global,
    version: &'a str,
    words: &'a [String],
) -> Result<ArgMatches<'a>, Error> {
    command(alloc, version)?.try_get_matches_from(words)
}

fn command<'a>(alloc: Global, version: &'a str) -> Result<Command<'a>, AllocError> {
    let command = Command::new(alloc, "tic")
        .before_help(version)
        .about(
            "Compiles terminfo sources, and lists compiled files; - stands for the standard input",
        )
        .disable_version_flag(true);
    arguments(alloc, command)?.group(forms(alloc)?)
}

fn arguments<'a>(alloc: Global, command: Command<'a>) -> Result<Command<'a>, AllocError> {
    command
        .arg(sizes(alloc))?
        .arg(files(alloc))?
        .arg(listing(alloc))?
        .arg(extended(alloc))?
        .arg(verbose(alloc))?
        .arg(version(alloc))
}

fn sizes<'a>(alloc: Global) -> Arg<'a> {
    Arg::new(alloc, "sizes")
        .short('c')
        .action(ArgAction::Set)
        .value_name("FILE")
        .help("Compiles a source, and prints the name and size of each entry")
}

fn files<'a>(alloc: Global) -> Arg<'a> {
    Arg::new(alloc, "files")
        .short('o')
        .action(ArgAction::Set)
        .num_args(2)
        .value_names(&["DIR", "FILE"])
        .help("Compiles a source, and writes the files below a folder")
}

fn listing<'a>(alloc: Global) -> Arg<'a> {
    Arg::new(alloc, "listing")
        .short('d')
        .action(ArgAction::Set)
        .value_name("COMPILED")
        .help("Prints a compiled file as source")
}

fn extended<'a>(alloc: Global) -> Arg<'a> {
    Arg::new(alloc, "extended")
        .short('x')
        .action(ArgAction::SetTrue)
        .help("Keeps every name, in term.h or not, and numbers up to 2147483647")
}

fn verbose<'a>(alloc: Global) -> Arg<'a> {
    Arg::new(alloc, "verbose")
        .short('v')
        .action(ArgAction::SetTrue)
        .help("Says where errors and warnings are, and how often each unknown name occurs")
}

// The usage text tells the version in its first line.
fn version<'a>(alloc: Global) -> Arg<'a> {
    Arg::new(alloc, "version")
        .short('V')
        .long("version")
        .action(ArgAction::Help)
        .help("Print version")
}

// Exactly one of the three has to be given.
fn forms<'a>(alloc: Global) -> Result<ArgGroup<'a>, AllocError> {
    let forms = ArgGroup::new(alloc, "forms").required(true);
    forms.arg("sizes")?.arg("files")?.arg("listing")
}

/// What a parsed command line asks for, if anything.
pub(crate) fn task_of<'a>(matches: &ArgMatches<'a>) -> Option<TicCommand<'a>> {
    if let Some(file) = matches.get_str("sizes") {
        return Some(TicCommand::Sizes(file));
    }
    if let Some(file) = matches.get_str("listing") {
        return Some(TicCommand::Listing(file));
    }
    match matches.get_strs("files")? {
        [directory, file] => Some(TicCommand::Files(directory, file)),
        _ => None,
    }
}

/// Whether there are words after the program's name, and none is an option.
pub(crate) fn are_operands(words: &[String]) -> bool {
    let operands = words.get(1..).unwrap_or(&[]);
    !operands.is_empty() && operands.iter().all(|word| !word.as_str().starts_with('-'))
}

/// Whether to keep every name, and numbers above 32,767.
pub(crate) fn is_extended(matches: &ArgMatches<'_>) -> bool {
    matches.get_flag("extended")
}

/// Whether to print more on standard error.
pub(crate) fn is_verbose(matches: &ArgMatches<'_>) -> bool {
    matches.get_flag("verbose")
}
