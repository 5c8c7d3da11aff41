//! What comes of a read of the keyboard, and how an ended input differs from a silent one.
ghost use Rattle.std.specs.Prelude.{◌≡◌, [], List, ℕ};
ghost use Rattle.std.specs.Duration.{as_nanos};
ghost use Rattle.std.specs.IoError.{error_kind};
ghost use Rattle.terminal.specs.Inputs.{IsWithin, bytes_of, empty_input, failed_input, heard, sudden_after};

use std::io::ErrorKind;
use std::time::Duration;

/// What came of a read of the keyboard.
#[derive(Clone, Copy, Debug, PartialEq, Eq)]
pub enum Input {
    /// So many bytes were read, at least one.
    Bytes(usize),
    /// Nothing came for as long as the line lets a read wait.
    Idle,
    /// The input has ended: a file is at its end, the terminal has hung up, or the program is asked to end.
    Ended,
    /// Nothing came, and somebody asks the program to stop, as `kill -TSTP` does: close the screen, and suspend it.
    Stop,
    /// The read failed.
    Failed,
}

/// An empty read is sudden if it ends within fewer milliseconds. On a silent line it waits for a tenth of a second.
const SUDDEN: u64 = 20;

/// After so many sudden empty reads in a row the input has ended.
const ENOUGH: u32 = 3;

/// How many sudden empty reads in a row there are after one that took this long, `ENOUGH` at most.
pub(crate) fn sudden_after(sudden: u32, took: Duration) -> u32
    ensures { result ≡ sudden_after sudden (as_nanos took) }
{
    if took < Duration::from_millis(SUDDEN) {
        sudden.saturating_add(1).min(ENOUGH)
    } else {
        0
    }
}

/// What an empty read means, where so many in a row were sudden.
pub(crate) fn empty_input(sudden: u32) -> Input
    ensures is { result ≡ empty_input sudden }
    ensures none { (piece : List ℕ) → bytes_of piece result ≡ [] }
{
    if sudden < ENOUGH {
        Input::Idle
    } else {
        Input::Ended
    }
}

/// What a read means that failed so: a signal ends one that waits.
pub(crate) fn failed_input(kind: ErrorKind) -> Input
    ensures is { result ≡ failed_input kind }
    ensures none { (piece : List ℕ) → bytes_of piece result ≡ [] }
{
    match kind {
        ErrorKind::Interrupted => Input::Idle,
        _ => Input::Failed,
    }
}

/// What a program hears of a read: where nothing came, that it is asked to end, or else to stop.
pub(crate) fn heard(is_ending: bool, is_stopping: bool, input: Input) -> Input
    ensures is { result ≡ heard is_ending is_stopping input }
    ensures bytes { (piece : List ℕ) → bytes_of piece result ≡ bytes_of piece input }
    ensures within { (piece : List ℕ) → IsWithin piece input → IsWithin piece result }
{
    match input {
        Input::Idle if is_ending => Input::Ended,
        Input::Idle if is_stopping => Input::Stop,
        _ => input,
    }
}
