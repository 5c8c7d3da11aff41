//! The writer of an update, and of the texts that start and close a screen, and how it fails.

use check_harness::troubles::Trouble;
use check_harness::words::Words;
use screen_sessions::{Faulty, WriterFault};
use std::alloc::Global;

// How many bytes a writer has room for: more than an update of a line sends.
const ROOM: usize = 8192;

/// A writer that fails so, or never. It has room for what an update sends, so that it allocates nothing while one
/// writes.
pub fn writer_that(alloc: Global, fails: Option<WriterFault>) -> Result<Faulty, Trouble> {
    let mut faults = Vec::new(alloc);
    if let Some(fault) = fails {
        faults.push(fault)?;
    }
    let room = Vec::with_capacity(alloc, ROOM)?;
    Ok(Faulty::with_faults(room, faults))
}

/// How the writer of a call fails, if it does, by what its name ends with (`WriterFault::named`), and by the number
/// that follows where one has to. `None` where the name ends with anything else.
pub fn read_fails(end: &str, words: &mut Words<'_>) -> Option<Option<WriterFault>> {
    if end.is_empty() {
        return Some(None);
    }
    let (mut fault, has_limit) = WriterFault::named(end)?;
    if has_limit {
        fault.limit = words.number() as usize;
    }
    Some(Some(fault))
}
