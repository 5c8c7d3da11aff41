//! `edit`: edits a text file on the terminal.
//!
//! `run-on-terminal edit FILE` opens FILE on the terminal that `TERM` names, with its entry from the machine's terminfo
//! database; with `--bundled` the bundled entry is used. A file in UTF-8 is shown and edited as its characters of one
//! column, where the terminal speaks UTF-8: the locale says so, or `--utf8` does. Every byte of a file is kept: one of
//! what is no such character is shown as `^X` or `\ooo`, and a tab as blanks. `^S` saves, `^O` saves under another name,
//! `^X` leaves, `^F` and `^N` find, `^K` cuts a line, `^U` pastes, Alt-U undoes, Alt-E does again, `^V` inserts the next
//! byte as it is, `^L` paints anew, `^Z` suspends. `edit +LINE FILE` begins in that line; with `-w 72` lines are wrapped
//! at column 72.
//!
//! With `--script` the keys come from a script on standard input, and what an emulated terminal shows is printed. The
//! status is 0, 1 for an error and 2 for a usage error.
#![tactic(auto)]

mod words;

use clap::ArgMatches;
use clap::error::ErrorKind;
use edit_screen::{EditFailure, Editor, edit_by_script, edit_on_terminal, rescue};
use std::process::ExitCode;
use std::{env, io};
use words::EditArguments;

fn main(rt: HostRuntime) -> ExitCode {
    let status = match words_given(&rt) {
        Ok(mut words) => perform(&rt, &mut words),
        Err(failure) => told(&rt, &failure),
    };
    ExitCode::from(status)
}

// Prints why the program ends, and gives its status.
fn told(rt: &HostRuntime, failure: &EditFailure) -> u8 {
    let _ = eprintln!(rt; "edit: {failure}");
    1
}

fn words_given(rt: &HostRuntime) -> Result<Vec<String>, EditFailure> {
    match env::args(rt) {
        Ok(words) => Ok(words.collect(rt.alloc())?),
        Err(error) if error.kind() == io::ErrorKind::OutOfMemory => Err(EditFailure::NoMemory),
        Err(_) => Err(EditFailure::NotText),
    }
}

// Does what the command line asks for, and gives the status.
fn perform(rt: &HostRuntime, words: &mut Vec<String>) -> u8 {
    let line = words::take_line(words);
    if line.is_some() && words.len() < 2 {
        let _ = eprintln!(rt; "edit: +LINE wants a file after it");
        return 2;
    }
    match words::matches(rt.alloc(), words.as_slice()) {
        Ok(matches) => perform_task(rt, &matches, line.unwrap_or(1)),
        Err(error) => answered(rt, &error),
    }
}

fn perform_task(rt: &HostRuntime, matches: &ArgMatches<'_>, line: usize) -> u8 {
    match words::task_of(matches, line) {
        Some(task) => run(rt, task),
        None => {
            let _ = eprintln!(rt; "edit: -w wants a number of columns, at least 10");
            2
        }
    }
}

// Prints a usage error, or the help or the version, and gives the status.
fn answered(rt: &HostRuntime, error: &clap::Error) -> u8 {
    if error.kind() == ErrorKind::OutOfMemory {
        return told(rt, &EditFailure::NoMemory);
    }
    match error.print(rt) {
        Err(_) => 1,
        Ok(()) if error.use_stderr() => 2,
        Ok(()) => 0,
    }
}

fn run(rt: &HostRuntime, task: EditArguments<'_>) -> u8 {
    match edit_file(rt, task) {
        Ok(()) => 0,
        Err(EditFailure::File(fault)) => {
            let _ = eprintln!(rt; "edit: {}: {}", task.file, fault.words());
            1
        }
        Err(failure) => told(rt, &failure),
    }
}

fn edit_file(rt: &HostRuntime, task: EditArguments<'_>) -> Result<(), EditFailure> {
    let mut editor = Editor::open(rt, task.file)?;
    editor.begin_at(task.line);
    if let Some(columns) = task.wrap {
        editor.wrap_at(columns);
    }
    edit(rt, task, &mut editor)
}

// Runs the editor, by a script or on the terminal.
fn edit(rt: &HostRuntime, task: EditArguments<'_>, editor: &mut Editor) -> Result<(), EditFailure> {
    if task.script {
        return edit_by_script(rt, task.file, task.charset(), editor);
    }
    let ended = edit_on_terminal(rt, task.file, task.terminal(), editor);
    if ended.is_err() && editor.is_changed() {
        save_lost(rt, task.file, editor);
    }
    ended
}

// Saves a text that would be lost beside the file, and says where.
fn save_lost(rt: &HostRuntime, path: &str, editor: &mut Editor) {
    match rescue(rt, path, editor) {
        Ok(name) => {
            let _ = eprintln!(rt; "edit: the changed text is in {name}");
        }
        Err(fault) => {
            let _ = eprintln!(rt; "edit: the changed text is lost: {}", fault.words());
        }
    }
}
