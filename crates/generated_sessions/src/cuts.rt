//! An update that is cut after each number of its bytes, each time in a session that makes all calls up to it anew.

use crate::answers::{add_answer, begun_by, ran_out};
use crate::emulated::Emulated;
use crate::recorded::Recorded;
use check_harness::buffers::{Buffer, are_same};
use check_harness::troubles::Trouble;
use curses::{Device, OpenFault, UpdateFault};
use scr_term::{Op, Profile};
use screen_sessions::{Answer, Call, Faulty, Report, WriterFailure};
use std::io::{ErrorKind, Write};

/// Cuts the last update of a screen after each number of its bytes, by an error and by a write that accepts nothing,
/// and at its flush, up to the first cut that does not agree; gives how many agree and how many there are, none if
/// nothing was sent. All updates up to it ended well. Each cut is made in a session that makes all calls anew, and two
/// updates after them. The error has to tell what was begun and how much was sent, and what was begun has to be sent to
/// its end; the next update is Ok, and then a terminal shows the plain picture; the last is Ok and sends nothing.
///
/// Refused if memory runs out.
pub fn count_cuts(opened: &mut Recorded) -> Result<(usize, usize), Trouble> {
    let all = match opened.last_sent().len() {
        0 => 0,
        bytes => bytes.saturating_mul(2).saturating_add(1),
    };
    let count = opened.calls.len();
    opened.calls.push(Call::Doupdate)?;
    opened.calls.push(Call::Doupdate)?;
    let agreeing = count_agreeing(opened, all);
    opened.calls.truncate(count);
    Ok((agreeing?, all))
}

fn count_agreeing(opened: &Recorded, all: usize) -> Result<usize, Trouble> {
    for number in 0..all {
        if !agrees(opened, number)? {
            return Ok(number);
        }
    }
    Ok(all)
}

/// How a cut of an update of so many bytes fails, after how many of them: number 0 and 1 before the first, and so on;
/// the last one at its flush.
pub fn cut_of(bytes: usize, number: usize) -> (usize, WriterFailure) {
    let failure = if number / 2 >= bytes {
        WriterFailure::Flush
    } else if number % 2 == 0 {
        WriterFailure::Error
    } else {
        WriterFailure::Zero
    };
    (number / 2, failure)
}

// Makes a cut.
fn agrees(opened: &Recorded, number: usize) -> Result<bool, Trouble> {
    let update = opened.last_sent().len();
    let (after, failure) = cut_of(update, number);
    let limit = opened
        .sent
        .len()
        .saturating_sub(update)
        .saturating_add(after);
    let mut device = Device::new(Faulty::new(opened.alloc, limit, failure, 1));
    match opened.call_again(&mut device) {
        Ok(report) => is_wanted(opened, failure, after, &report, device.writer.taken()),
        Err(OpenFault::NoMemory) => Err(Trouble::NoMemory),
        Err(_) => Err(Trouble::Bad("no session")),
    }
}

// Whether the last three updates answer what they have to, what was begun is sent to its end, and a terminal shows the
// picture, where the first of them is cut after so many of its bytes.
fn is_wanted(
    opened: &Recorded,
    failure: WriterFailure,
    after: usize,
    report: &Report,
    taken: &[u8],
) -> Result<bool, Trouble> {
    if report.answers.0.iter().any(lacked_memory) {
        return Err(Trouble::NoMemory);
    }
    let [.., failed, next, last] = report.answers.0.as_slice() else {
        return Ok(false);
    };
    let (begun, end) = begun_at(&opened.profile, opened.last_begun(), after);
    let start = opened.sent.len().saturating_sub(opened.last_sent().len());
    let rest = taken.len().saturating_sub(start.saturating_add(after));
    let mut wanted = Buffer::new(opened.alloc);
    let how = match failure {
        WriterFailure::Error => "Write Other",
        WriterFailure::Zero => "Write WriteZero",
        WriterFailure::Flush => "Flush Other",
    };
    let count = begun.len();
    let written = write!(wanted.vector(), " {how} {count} {after} Ok {rest} Ok 0");
    wanted.check(written.is_ok());
    let mut got = Buffer::new(opened.alloc);
    for answer in [failed, next, last] {
        add_answer(answer, &mut got);
    }
    let whole = opened.sent.get(..start.saturating_add(end));
    let is_whole = whole.is_some_and(|whole| taken.starts_with(whole));
    let are_wanted = are_same(&wanted, &got)? && begun_by(failed) == begun && is_whole;
    Ok(are_wanted && is_shown(opened, taken)?)
}

// Whether memory ran out in a call, or in the writer.
fn lacked_memory(answer: &Answer) -> bool {
    match answer {
        Answer::Failed(UpdateFault::Write { kind, .. }) => *kind == ErrorKind::OutOfMemory,
        _ => ran_out(answer),
    }
}

// The operations up to the one whose text has the byte after so many, and how many bytes they have; all where there is
// no such byte.
fn begun_at<'a>(profile: &Profile, ops: &'a [Op], after: usize) -> (&'a [Op], usize) {
    let mut end: usize = 0;
    for (place, op) in ops.iter().enumerate() {
        end = end.saturating_add(profile.cost(*op).unwrap_or(0));
        if after < end {
            return (ops.get(..place.saturating_add(1)).unwrap_or(ops), end);
        }
    }
    (ops, end)
}

// Whether a blank terminal that is fed what the writer accepted shows the plain picture.
fn is_shown(opened: &Recorded, taken: &[u8]) -> Result<bool, Trouble> {
    let mut emulated = Emulated::new(opened.alloc, &opened.profile)?;
    Ok(emulated.feed(taken) && opened.plain.is_shown(&emulated, &opened.profile))
}
