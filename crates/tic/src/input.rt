//! Reading the input: a file, or the standard input.

use crate::failures::Failure;
use program_input::{InputFault, MOST_BYTES, read_input};
use std::fs;
use std::io::ErrorKind;

/// The bytes of a file, or of the standard input if the file is `-`. With `verbose` an error says
/// why the file cannot be read.
pub(crate) fn input_of<'a>(
    rt: &HostRuntime,
    file: &'a str,
    verbose: bool,
) -> Result<Vec<u8>, Failure<'a>> {
    match bytes_of(rt, file) {
        Ok(bytes) => Ok(bytes),
        Err(InputFault::Failed) if verbose => Err(Failure::Unread(file, reason(rt, file))),
        Err(InputFault::Failed) => Err(Failure::Read(file)),
        Err(InputFault::NoMemory) => Err(Failure::NoMemory),
    }
}

fn bytes_of(rt: &HostRuntime, file: &str) -> Result<Vec<u8>, InputFault> {
    if file == "-" {
        return read_input(rt.alloc(), &mut rt.stdin());
    }
    match fs::open(rt, file) {
        Ok(mut opened) => read_input(rt.alloc(), &mut opened),
        Err(_) => Err(InputFault::Failed),
    }
}

// Why a file cannot be read.
fn reason(rt: &HostRuntime, file: &str) -> &'static str {
    if file == "-" {
        return UNREAD;
    }
    match fs::metadata(rt, file) {
        Ok(metadata) if metadata.is_dir() => "is a folder",
        Ok(metadata) if metadata.len() > MOST_BYTES as u64 => "more than 16,777,216 bytes",
        Ok(_) => unopened(rt, file),
        Err(error) => word_of(error.kind()),
    }
}

// Why a file of a size that may be cannot be read.
fn unopened(rt: &HostRuntime, file: &str) -> &'static str {
    match fs::open(rt, file) {
        Ok(_) => UNREAD,
        Err(error) => word_of(error.kind()),
    }
}

const UNREAD: &str = "cannot be read, or has more than 16,777,216 bytes";

fn word_of(kind: ErrorKind) -> &'static str {
    match kind {
        ErrorKind::NotFound | ErrorKind::NotADirectory => "no such file",
        ErrorKind::PermissionDenied => "permission denied",
        ErrorKind::IsADirectory => "is a folder",
        _ => UNREAD,
    }
}
