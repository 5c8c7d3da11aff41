//! Answers of calls on a screen, in words.

use check_harness::answers::{add_number, add_place, add_word};
use check_harness::buffers::Buffer;
use curses::{SendFault, UpdateFault};
use scr_term::{Op, Spot};
use scr_windows::WinFault;
use screen_sessions::Answer;
use std::io::Write;

/// Adds what a call answered.
pub fn add_answer(answer: &Answer, got: &mut Buffer) {
    got.push(b' ');
    let written = write!(got.vector(), "{answer}");
    got.check(written.is_ok());
}

/// Whether a call wanted memory and got none.
pub fn ran_out(answer: &Answer) -> bool {
    matches!(
        answer,
        Answer::Refused(WinFault::NoMemory) | Answer::Failed(UpdateFault::NoMemory)
    )
}

/// The operations that an update began which answered so.
pub fn begun_by(answer: &Answer) -> &[Op] {
    match answer {
        Answer::Sent(sent) => &sent.begun.0,
        Answer::Failed(UpdateFault::Write { begun, .. } | UpdateFault::Flush { begun, .. }) =>
            &begun.0,
        _ => &[],
    }
}

/// Adds `Ok` and how many bytes were sent, or why not all were, and how many.
pub fn add_sent(sent: &Result<u64, SendFault>, got: &mut Buffer) {
    let written = match sent {
        Ok(bytes) => write!(got.vector(), " Ok {bytes}"),
        Err(SendFault::Write { sent, kind }) => write!(got.vector(), " Write {kind:?} {sent}"),
        Err(SendFault::Flush { sent, kind }) => write!(got.vector(), " Flush {kind:?} {sent}"),
    };
    got.check(written.is_ok());
}

/// Adds `Ok`, or that what was executed or read is undefined.
pub fn add_defined(is_defined: bool, got: &mut Buffer) {
    add_word(if is_defined { "Ok" } else { "Undefined" }, got);
}

/// Adds where a cursor is.
pub fn add_spot(spot: Spot, got: &mut Buffer) {
    match spot {
        Spot::At(row, column) => add_place(row, column, got),
        Spot::Margin(row) => {
            add_word("margin", got);
            add_number(i64::from(row), got)
        }
    }
}
