//! Lines about the scripts of the demonstration program.

use crate::subjects::Subjects;
use check_harness::answers::{add_name, add_number, add_text, add_word};
use check_harness::buffers::Buffer;
use check_harness::troubles::Trouble;
use check_harness::words::CallLine;
use generated_sessions::{add_defined, read_fails, writer_that};
use scr_cells::Charset;
use screen_scripts::{DemoFault, Output, refusals, run, run_as};
use std::io::ErrorKind;

/// The lines `run TEXT`, `run_raw TEXT`, `utf8_run TEXT`, `refusals TEXT`, `run_writing N TEXT`, `run_stuck N TEXT`,
/// `run_flushing TEXT` and `feed_run TEXT`, where the text is a script. Tells whether a line is one of them.
pub fn answer_of_script(subjects: &mut Subjects, line: &mut CallLine<'_>) -> Result<bool, Trouble> {
    let fails = match (line.name, line.name.strip_prefix("run")) {
        ("run_raw" | "utf8_run" | "refusals" | "feed_run", _) => None,
        (_, Some(end)) => match read_fails(end, &mut line.words) {
            Some(fails) => fails,
            None => return Ok(false),
        },
        _ => return Ok(false),
    };
    let text = line.text();
    if line.name == "refusals" {
        add_text(&refusals(line.alloc, text.bytes())?, &mut line.got);
        return Ok(true);
    }
    let mut out = writer_that(line.alloc, fails)?;
    let is_raw = matches!(line.name, "run_raw" | "feed_run");
    let ended = if line.name == "utf8_run" {
        let output = Output {
            charset: Charset::Utf8,
            is_raw,
            reads_calls: false,
        };
        run_as(line.alloc, text.bytes(), output, &mut out)
    } else {
        run(line.alloc, text.bytes(), is_raw, &mut out)
    };
    match &mut subjects.ecma {
        _ if line.name != "feed_run" => {
            add_text(out.taken(), &mut line.got);
            add_end(&ended, &mut line.got);
        }
        Some(screen) if ended.is_ok() => {
            add_defined(screen.feed(out.taken()).is_ok(), &mut line.got);
        }
        Some(_) => add_end(&ended, &mut line.got),
        None => return Err(Trouble::Bad("no screen")),
    }
    Ok(true)
}

// How a run ended. The growth of a vector that is written to may be refused too.
fn add_end(ended: &Result<(), DemoFault>, got: &mut Buffer) {
    match ended {
        Ok(()) => add_word("Ok", got),
        Err(DemoFault::BadCommand(line)) => {
            add_word("BadCommand", got);
            add_number(i64::from(*line), got)
        }
        Err(DemoFault::Write(ErrorKind::OutOfMemory)) => add_word("NoMemory", got),
        Err(fault) => add_name(fault, got),
    }
}
