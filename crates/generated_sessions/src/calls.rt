//! Lines that change a screen or its terminal, whether they are written or made up: calls by the names of the screen's
//! methods, with their arguments, a window by its number and a flag as 0 or 1, and updates.

use crate::answers::add_defined;
use crate::recorded::Recorded;
use crate::writers::read_fails;
use check_harness::troubles::Trouble;
use check_harness::words::CallLine;
use screen_sessions::{Call, CallFault, Reason};

/// The calls of a screen by their names, `update`, `start` and `close` with a writer that fails as the name says, and
/// `others TEXT`, which others write on the terminal. Tells whether a line is one of them.
pub fn obey(opened: &mut Recorded, line: &mut CallLine<'_>) -> Result<bool, Trouble> {
    if line.name == "others" {
        let text = line.text();
        add_defined(opened.emulated.feed(text.bytes()), &mut line.got);
        return Ok(true);
    }
    for what in ["update", "start", "close"] {
        if let Some(end) = line.name.strip_prefix(what)
            && let Some(fails) = read_fails(end, &mut line.words)
        {
            return match what {
                "update" => opened.update(fails, &mut line.got),
                _ => opened.send_end(what == "start", fails, &mut line.got),
            }
            .and(Ok(true));
        }
    }
    match Call::parse(line.alloc, line.call()) {
        Ok(call) => {
            line.words.skip();
            opened.call(call, &mut line.got).and(Ok(true))
        }
        Err(CallFault::Bad(Reason::Unknown(_))) => Ok(false),
        Err(CallFault::Bad(reason)) => Err(Trouble::Bad(reason.words())),
        Err(CallFault::NoMemory) => Err(Trouble::NoMemory),
    }
}
