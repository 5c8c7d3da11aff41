//! A writer for tests, which fails after given counts of bytes. The definitions are in `specs/Faulty.antt`.
ghost use Rattle.std.specs.Prelude.{◌≡◌, ◌≤◌, ◌<◌, ◌+◌, ◌++◌, ◌⊎◌, [], OnErr, OnOk, Some, length, take, vec_capacity};
ghost use Rattle.std.specs.Io.{WritesAtMost};
ghost use Rattle.std.specs.Io.KnownBytes.{Keeps, WriteAppends};
ghost use Rattle.screen_sessions.specs.Faulty.{IsAnswered, RanOut, called, failed_once, flush_call, going_on, is_due, room_for, with_faults, write_call};

use std::alloc::{AllocError, Global};
use std::io;
use std::io::{ErrorKind, Write};
use std::marker::Model;

/// How a writer for tests fails.
#[derive(Clone, Copy, Debug, PartialEq, Eq)]
pub enum WriterFailure {
    /// A write fails with an error.
    Error,
    /// A write accepts nothing and gives 0.
    Zero,
    /// A flush fails with an error.
    Flush,
}

/// Where and how a writer for tests fails.
#[derive(Clone, Copy, Debug, PartialEq, Eq)]
pub struct WriterFault {
    /// How many bytes it has accepted in all when it fails.
    pub limit: usize,
    /// How it fails.
    pub failure: WriterFailure,
    /// The kind of its error, if it gives one.
    pub kind: ErrorKind,
}

impl WriterFault {
    /// The fault that the end of a call's name stands for, and whether the number of bytes is given that it accepts
    /// before, 0 until then: `_writing` and a number, an error of kind `BrokenPipe`; `_failing`, the same at once;
    /// `_stuck` and a number, a write that accepts nothing; `_flushing`, an error where it is flushed. `None` for any
    /// other end.
    pub fn named(end: &str) -> Option<(WriterFault, bool)> {
        let (failure, kind, has_limit) = match end {
            "_writing" => (WriterFailure::Error, ErrorKind::BrokenPipe, true),
            "_failing" => (WriterFailure::Error, ErrorKind::BrokenPipe, false),
            "_stuck" => (WriterFailure::Zero, ErrorKind::Other, true),
            "_flushing" => (WriterFailure::Flush, ErrorKind::Other, false),
            _ => return None,
        };
        let fault = WriterFault {
            limit: 0,
            failure,
            kind,
        };
        Some((fault, has_limit))
    }
}

/// A writer over memory for tests: it takes a number of bytes, then fails a number of times, and so on with each
/// further fault, and then takes everything.
///
/// A write that begins before the limit of the fault that comes next takes bytes up to the limit and no further. If there
/// is no room for its bytes and memory runs out, the error is of kind `OutOfMemory` and nothing is accepted. An update can write to it
/// through `Device`.
#[derive(Debug, Drop)]
pub struct Faulty {
    taken: Vec<u8>,
    // The fault that comes next, and how many of its failures are left.
    fault: WriterFault,
    left: usize,
    // The faults after it, each of which fails once.
    later: Vec<WriterFault>,
    calls: u64,
}

impl Model for Faulty {
    ghost use Rattle.std.specs.Prelude.{vec_capacity};
    ghost use Rattle.screen_sessions.specs.Faulty.{FaultyView};

    ghost Value = { FaultyView };

    ghost view = { λ w. record { taken = w.taken.items; room = vec_capacity w.taken; fault = w.fault; left = w.left; later = w.later.items; calls = w.calls } };
}

impl Faulty {
    /// A writer that takes `limit` bytes, and then fails in this way `times` times. Its errors are of kind `Other`.
    pub fn new(alloc: Global, limit: usize, failure: WriterFailure, times: usize) -> Faulty
        ensures { result ≡ record { taken = []; room = result.room; fault = record { limit = limit; failure = failure; kind = ErrorKind.Other }; left = times; later = []; calls = 0 } }
    {
        Faulty {
            taken: Vec::new(alloc),
            fault: WriterFault {
                limit,
                failure,
                kind: ErrorKind::Other,
            },
            left: times,
            later: Vec::new(alloc),
            calls: 0,
        }
    }

    /// A writer that has accepted these bytes so far, and fails once at each of these faults, one after another. It
    /// allocates only where the vector has no room for the bytes that it takes.
    pub fn with_faults(taken: Vec<u8>, faults: Vec<WriterFault>) -> Faulty
        ensures { result ≡ with_faults taken.items (vec_capacity taken) faults.items }
    {
        let mut writer = Faulty {
            taken,
            fault: WriterFault {
                limit: 0,
                failure: WriterFailure::Error,
                kind: ErrorKind::Other,
            },
            left: 0,
            later: faults,
            calls: 0,
        };
        writer.go_on();
        writer
    }

    /// The bytes that it has accepted so far.
    pub fn taken(&self) -> &[u8]
        ensures { result.now ≡ self.now.taken }
    {
        &self.taken
    }

    /// How often it was called, by a write or a flush. The count stays at its greatest value.
    pub fn calls(&self) -> u64
        ensures { result ≡ self.now.calls }
    {
        self.calls
    }

    // Whether it is to fail now.
    fn is_due(&self) -> bool
        ensures { result ≡ is_due self.now }
    {
        self.taken.len() >= self.fault.limit && self.left > 0
    }

    // How many of `bytes` bytes it takes when it does not fail.
    fn room_for(&self, bytes: usize) -> usize
        ensures value { result ≡ room_for self.now bytes }
        ensures few { result ≤ bytes }
    {
        if self.taken.len() < self.fault.limit {
            bytes.min(self.fault.limit - self.taken.len())
        } else {
            bytes
        }
    }

    // Takes the first bytes of a piece.
    fn take(&mut self, piece: &[u8], count: usize) -> Result<(), AllocError>
        requires { count ≤ length piece.now }
        ensures ok { OnOk result (self.new ≡ record self.old { taken = self.old.taken ++ take count piece.now; room = self.new.room }) }
        ensures err { OnErr result (self.new ≡ record self.old { room = self.new.room }) }
        ensures full { OnErr result (self.old.room < length self.old.taken + count) }
    {
        self.taken.extend_from_slice(&piece[..count])
    }

    // Counts a call.
    fn count(&mut self)
        ensures { self.new ≡ called self.old }
    {
        self.calls = self.calls.saturating_add(1);
    }

    // Uses up a failure, and gives the fault that it belongs to.
    fn fail(&mut self) -> WriterFault
        requires { 0 < self.old.left }
        ensures fault { result ≡ self.old.fault }
        ensures failed { self.new ≡ failed_once self.old }
    {
        let fault = self.fault;
        self.left -= 1;
        self.go_on();
        fault
    }

    // Goes on to the next fault, if no failure of the one before is left.
    fn go_on(&mut self)
        ensures { self.new ≡ going_on self.old }
    {
        if self.left == 0 && !self.later.is_empty() {
            self.fault = self.later.remove(0);
            self.left = 1;
        }
    }
}

impl Write for Faulty {
    ghost contents = { λ w. Some w.taken };

    fn write(&mut self, piece: &[u8]) -> io::Result<usize>
        ensures bound { WritesAtMost result piece.now }
        ensures bytes { WriteAppends (Some self.old.taken) (Some self.new.taken) result piece.now }
        ensures answered { IsAnswered self.new result (write_call self.old piece.now) ⊎ RanOut self.old self.new result (write_call self.old piece.now) }
    {
        self.count();
        if self.is_due() && self.fault.failure != WriterFailure::Flush {
            let fault = self.fail();
            return match fault.failure {
                WriterFailure::Zero => Ok(0),
                _ => Err(io::Error::from(fault.kind)),
            };
        }
        let count = self.room_for(piece.len());
        self.take(piece, count)?;
        Ok(count)
    }

    fn flush(&mut self) -> io::Result<()>
        ensures bytes { Keeps (Some self.old.taken) (Some self.new.taken) }
        ensures answered { IsAnswered self.new result (flush_call self.old) }
    {
        self.count();
        if self.is_due() && self.fault.failure == WriterFailure::Flush {
            return Err(io::Error::from(self.fail().kind));
        }
        Ok(())
    }
}
