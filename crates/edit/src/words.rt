//! The command line.

use clap::{Arg, ArgAction, ArgMatches, Command, Error};
use edit_screen::{Charset, Terminal};
use program_input::VERSION;
use std::alloc::{AllocError, Global};

/// What the command line asks for.
#[derive(Clone, Copy)]
pub(crate) struct EditArguments<'a> {
    /// The file to edit.
    pub(crate) file: &'a str,
    /// The bundled entry is used, whatever `TERM` names.
    pub(crate) bundled: bool,
    /// The terminal speaks UTF-8, whatever the locale says.
    pub(crate) utf8: bool,
    /// A script of keys is read from standard input, and the emulated terminal is printed.
    pub(crate) script: bool,
    /// The line in which the cursor is at first, counted from 1.
    pub(crate) line: usize,
    /// The column at which lines that become longer are wrapped, if they are.
    pub(crate) wrap: Option<usize>,
}

impl EditArguments<'_> {
    /// The charset of the emulated terminal of a script.
    pub(crate) fn charset(&self) -> Charset {
        if self.utf8 {
            Charset::Utf8
        } else {
            Charset::Ascii
        }
    }

    /// The terminal that the editor is run on.
    pub(crate) fn terminal(&self) -> Terminal {
        Terminal {
            is_bundled: self.bundled,
            is_utf8: self.utf8,
        }
    }
}

/// The least column at which lines can be wrapped.
const LEAST_WRAP: usize = 10;

/// Takes a first word `+LINE` away, and gives the line that it asks for.
pub(crate) fn take_line(words: &mut Vec<String>) -> Option<usize> {
    let line = number_of(words.get(1)?.as_str())?;
    let _ = words.remove(1);
    Some(line)
}

// The number of a word `+NUMBER`.
fn number_of(word: &str) -> Option<usize> {
    word.strip_prefix('+')?.parse::<usize>().ok()
}

/// Parses the command line: one file, and the options.
pub(crate) fn matches<'a>(alloc: Global, words: &'a [String]) -> Result<ArgMatches<'a>, Error> {
    command(alloc)?.try_get_matches_from(words)
}

fn command<'a>(alloc: Global) -> Result<Command<'a>, AllocError> {
    Command::new(alloc, "edit")
        .version(VERSION)
        .about(
            "Edits a text file on the terminal; run it by run-on-terminal. +LINE before FILE: begins there",
        )
        .arg(bundled(alloc))?
        .arg(script(alloc))?
        .arg(utf8(alloc))?
        .arg(wrap(alloc))?
        .arg(file(alloc))
}

fn bundled<'a>(alloc: Global) -> Arg<'a> {
    Arg::new(alloc, "bundled")
        .short('b')
        .long("bundled")
        .action(ArgAction::SetTrue)
        .help("Uses the bundled ECMA-48 entry, whatever TERM names")
}

fn utf8<'a>(alloc: Global) -> Arg<'a> {
    Arg::new(alloc, "utf8")
        .short('u')
        .long("utf8")
        .action(ArgAction::SetTrue)
        .help("The terminal speaks UTF-8, whatever the locale says")
}

fn script<'a>(alloc: Global) -> Arg<'a> {
    Arg::new(alloc, "script")
        .short('s')
        .long("script")
        .action(ArgAction::SetTrue)
        .help("Reads keys from a script, and prints what an emulated terminal shows")
}

fn wrap<'a>(alloc: Global) -> Arg<'a> {
    Arg::new(alloc, "wrap")
        .short('w')
        .long("wrap")
        .action(ArgAction::Set)
        .value_name("COLUMNS")
        .help("Wraps lines that become longer than COLUMNS, at least 10")
}

fn file<'a>(alloc: Global) -> Arg<'a> {
    Arg::new(alloc, "file")
        .required(true)
        .value_name("FILE")
        .help("The file to edit")
}

/// What a parsed command line asks for; `None` if lines are to be wrapped at what is not such a column.
pub(crate) fn task_of<'a>(matches: &ArgMatches<'a>, line: usize) -> Option<EditArguments<'a>> {
    let wrap = match matches.get_str("wrap") {
        Some(columns) => Some(column_of(columns)?),
        None => None,
    };
    Some(EditArguments {
        file: matches.get_str("file")?,
        bundled: matches.get_flag("bundled"),
        utf8: matches.get_flag("utf8"),
        script: matches.get_flag("script"),
        line,
        wrap,
    })
}

// The column that a word names, if lines can be wrapped there.
fn column_of(word: &str) -> Option<usize> {
    let column = word.parse::<usize>().ok()?;
    if column < LEAST_WRAP {
        None
    } else {
        Some(column)
    }
}
