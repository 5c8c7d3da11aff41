//! What calls answer, as values.
ghost use Rattle.std.specs.Prelude.{◌≡◌, true};
ghost use Rattle.screen_sessions.specs.Calls.{answered, is_told};
ghost use Rattle.screen_sessions.specs.declared.answers.Answer.TheVariants as answers;

use curses::{Sent, UpdateFault};
use scr_cells::Cell;
use scr_windows::{Added, Win, WinFault};
use std::fmt;
use std::fmt::{Debug, Display, Formatter};
use std::io::ErrorKind;

/// What a call answered.
#[derive(Debug, Drop)]
pub enum Answer {
    /// The call was made, and has no result.
    Nothing,
    /// The number of the window that was made.
    Made(Win),
    /// Bytes were added: whether the cursor could go on each time.
    Added(Added),
    /// The cell at that place.
    Seen(Cell),
    /// A row and a column, or the numbers of rows and columns.
    Pair(u32, u32),
    /// Whether the line, or any line, is touched.
    Touched(bool),
    /// The call was refused and changed nothing.
    Refused(WinFault),
    /// The update ended well. This is what it sent.
    Sent(Sent),
    /// The update ended early.
    Failed(UpdateFault),
}

/// The answer in words, as checks write it: `Ok` or what the call gives, a cell as its byte in quotation marks, its
/// attributes and its colour pair if that is not 0; the name of a refusal; of an update `Ok` and how many bytes it sent,
/// or what failed, the kind of the error, how many operations were begun, and how many bytes were sent.
impl Display for Answer {
    fn fmt<W: fmt::Write>(&self, f: &mut Formatter<W>) -> fmt::Result {
        match self {
            Answer::Nothing => f.write_str("Ok"),
            Answer::Made(win) => write!(f, "{}", win.0),
            Answer::Added(added) => show_name(added, f),
            Answer::Seen(cell) => show_cell(*cell, f),
            Answer::Pair(row, column) => write!(f, "{row} {column}"),
            Answer::Touched(touched) => f.write_str(if *touched { "yes" } else { "no" }),
            Answer::Refused(fault) => show_name(fault, f),
            Answer::Sent(sent) => write!(f, "Ok {}", sent.bytes),
            Answer::Failed(fault) => show_failure(fault, f),
        }
    }
}

// Writes a cell.
fn show_cell<W: fmt::Write>(cell: Cell, f: &mut Formatter<W>) -> fmt::Result {
    let attrs = cell.attrs().0;
    match cell.stand_in() {
        byte @ (b'"' | b'\\') => write!(f, "\"\\{}\" {attrs}", char::from(byte))?,
        byte => write!(f, "\"{}\" {attrs}", char::from(byte))?,
    }
    match cell.pair() {
        0 => Ok(()),
        pair => write!(f, " {pair}"),
    }
}

// Writes the name of a value.
fn show_name<D: Debug, W: fmt::Write>(value: &D, f: &mut Formatter<W>) -> fmt::Result {
    write!(f, "{value:?}")
}

// Writes why an update ended early.
fn show_failure<W: fmt::Write>(fault: &UpdateFault, f: &mut Formatter<W>) -> fmt::Result {
    match fault {
        UpdateFault::NoMemory => f.write_str("NoMemory"),
        UpdateFault::Write { begun, sent, kind } => {
            show_counts("Write", *kind, begun.0.len(), *sent, f)
        }
        UpdateFault::Flush { begun, sent, kind } => {
            show_counts("Flush", *kind, begun.0.len(), *sent, f)
        }
    }
}

fn show_counts<W: fmt::Write>(
    what: &str,
    kind: ErrorKind,
    begun: usize,
    sent: u64,
    f: &mut Formatter<W>,
) -> fmt::Result {
    write!(f, "{what} {kind:?} {begun} {sent}")
}

/// The answer of a call that has no result.
pub(crate) fn done_answer(got: Result<(), WinFault>) -> Answer
    ensures value { result ≡ answered (λ _. answers.Nothing) got }
    ensures told { is_told result ≡ true }
{
    match got {
        Ok(()) => Answer::Nothing,
        Err(fault) => Answer::Refused(fault),
    }
}

/// The answer of a call that makes a window.
pub(crate) fn made_answer(got: Result<Win, WinFault>) -> Answer
    ensures value { result ≡ answered (λ win. answers.Made win) got }
    ensures told { is_told result ≡ true }
{
    match got {
        Ok(win) => Answer::Made(win),
        Err(fault) => Answer::Refused(fault),
    }
}

/// The answer of a call that adds bytes.
pub(crate) fn added_answer(got: Result<Added, WinFault>) -> Answer
    ensures value { result ≡ answered (λ all. answers.Added all) got }
    ensures told { is_told result ≡ true }
{
    match got {
        Ok(all) => Answer::Added(all),
        Err(fault) => Answer::Refused(fault),
    }
}

/// The answer of a call that reads a cell.
pub(crate) fn seen_answer(got: Result<Cell, WinFault>) -> Answer
    ensures value { result ≡ answered (λ cell. answers.Seen cell) got }
    ensures told { is_told result ≡ true }
{
    match got {
        Ok(cell) => Answer::Seen(cell),
        Err(fault) => Answer::Refused(fault),
    }
}

/// The answer of a call that gives a row and a column, or the numbers of rows and columns.
pub(crate) fn pair_answer(got: Result<(u32, u32), WinFault>) -> Answer
    ensures value { result ≡ answered (λ pair. answers.Pair pair.0 pair.1) got }
    ensures told { is_told result ≡ true }
{
    match got {
        Ok(pair) => Answer::Pair(pair.0, pair.1),
        Err(fault) => Answer::Refused(fault),
    }
}

/// The answer of a call that says whether lines are touched.
pub(crate) fn touched_answer(got: Result<bool, WinFault>) -> Answer
    ensures value { result ≡ answered (λ touched. answers.Touched touched) got }
    ensures told { is_told result ≡ true }
{
    match got {
        Ok(touched) => Answer::Touched(touched),
        Err(fault) => Answer::Refused(fault),
    }
}
