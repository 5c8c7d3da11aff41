//! A screen whose calls and answers are kept, and the emulated terminal that its updates are sent to.

use crate::answers::{add_answer, add_sent, begun_by, ran_out};
use crate::emulated::Emulated;
use crate::plain::Plain;
use crate::repaints::{bytes_of, joined_on, scratch_on};
use crate::writers::writer_that;
use check_harness::answers::add_word;
use check_harness::buffers::{Buffer, are_same};
use check_harness::checking::put;
use check_harness::troubles::Trouble;
use curses::{Device, OpenFault, Opening, Screen, UpdateFault};
use scr_cells::{NoMemory, Size};
use scr_term::{Op, Ops, Profile, ProfileFault};
use screen_sessions::{
    Answer, Call, Faulty, Report, WriterFailure, WriterFault, make_call, make_calls, session_as,
};
use std::alloc::Global;
use ti_caps::{Entry, slots};

// What the next update may send.
#[derive(Clone, Copy)]
enum Allowed {
    // What is owed, and what paints the screen anew.
    Owed,
    // What paints the screen anew.
    Anew,
    // Only what differs.
    Differing,
}

/// A screen, its terminal, and what was called, answered and sent since it was opened.
#[derive(Drop)]
pub struct Recorded {
    pub(crate) alloc: Global,
    entry: Entry,
    opening: Opening,
    /// The screen.
    pub screen: Screen,
    /// The terminal's operations.
    pub profile: Profile,
    /// What the terminal shows.
    pub emulated: Emulated,
    // What it has to show after an update that ends well.
    pub(crate) plain: Plain,
    // Each update has a writer of its own. The device counts the failures of all.
    device: Device<Faulty>,
    pub(crate) calls: Vec<Call>,
    answers: Buffer,
    // All bytes that the writers accepted, and where they failed, after how many of these.
    pub(crate) sent: Vec<u8>,
    faults: Vec<WriterFault>,
    // Whether the last update ended well, the operations that it began, and what the next one may send.
    last_ok: bool,
    last: Ops,
    allowed: Allowed,
    /// What is wrong with the last update, if anything is.
    pub trouble: Option<&'static str>,
    /// Whether each call is made by a list of it alone.
    pub is_listed: bool,
}

impl Recorded {
    /// Opens a screen on an entry in place of another; answers why it could not. A function that owns a screen takes
    /// long to prove, so the others borrow one.
    pub fn open_into(
        alloc: Global,
        entry: Entry,
        size: Size,
        opening: Opening,
        opened: &mut Option<Recorded>,
    ) -> Result<Option<OpenFault>, Trouble> {
        let profile = match Profile::admit_as(alloc, &entry, Some(size), opening.charset) {
            Ok(profile) => profile,
            Err(ProfileFault::NoMemory) => return Ok(Some(OpenFault::NoMemory)),
            Err(fault) => return Ok(Some(OpenFault::Profile(fault))),
        };
        let (emulated, plain) = (Emulated::new(alloc, &profile)?, Plain::blank(alloc, size)?);
        let screen = match Screen::open_as(alloc, &entry, Some(size), opening) {
            Ok(screen) => screen,
            Err(fault) => return Ok(Some(fault)),
        };
        let recorded = Recorded {
            alloc,
            entry,
            opening,
            screen,
            profile,
            emulated,
            plain,
            device: Device::new(Faulty::new(alloc, 0, WriterFailure::Error, 0)),
            calls: Vec::new(alloc),
            answers: Buffer::new(alloc),
            sent: Vec::new(alloc),
            faults: Vec::new(alloc),
            last_ok: false,
            last: Ops(Vec::new(alloc)),
            allowed: Allowed::Anew,
            trouble: None,
            is_listed: false,
        };
        put(opened, Some(recorded));
        Ok(None)
    }

    /// Has the emulated terminal one column more than the screen, and so many rows more, which nothing may reach.
    pub fn enlarge(&mut self, more: u32) -> Result<(), Trouble> {
        let Size { rows, columns, .. } = self.profile.size();
        let size = Size::new(rows.saturating_add(more), columns.saturating_add(1)).ok_or(
            Trouble::Bad("no size"),
        )?;
        match Profile::admit_as(self.alloc, &self.entry, Some(size), self.opening.charset) {
            Ok(profile) => Ok(self.emulated.enlarge(self.alloc, profile)?),
            Err(_) => Err(Trouble::NoMemory),
        }
    }

    /// Makes a call other than an update, and adds what it answers.
    pub fn call(&mut self, call: Call, got: &mut Buffer) -> Result<(), Trouble> {
        if may_paint_all(&self.screen, &call) {
            self.paint_all();
        }
        self.plain.prepare(&self.screen, &call)?;
        self.calls.push(call)?;
        let answer = self.make_last(got)?;
        if matches!(answer, Answer::Nothing)
            && let Some(call) = self.calls.last()
        {
            self.plain.follow(&self.screen, call);
        }
        Ok(())
    }

    /// Updates with a writer that fails so, and adds what the update answers, and what is wrong, if anything is. Where
    /// the answer is Ok, the terminal has to show the plain picture, and where nothing is sent or memory ran out, the
    /// writer may not be called.
    pub fn update(&mut self, fails: Option<WriterFault>, got: &mut Buffer) -> Result<(), Trouble> {
        self.device.writer = writer_that(self.alloc, fails)?;
        self.calls.push(Call::Doupdate)?;
        let answer = self.make_last(got)?;
        self.last.0.clear();
        self.last.0.extend_from_slice(begun_by(&answer))?;
        self.sent.extend_from_slice(self.device.writer.taken())?;
        self.trouble = self.trouble_after(&answer);
        if let Some(words) = self.trouble {
            add_word(words, got);
        }
        match &answer {
            Answer::Sent(_) => {
                self.last_ok = true;
                self.allowed = Allowed::Differing;
            }
            answer if ran_out(answer) => {}
            _ => {
                self.last_ok = false;
                self.allowed = Allowed::Owed;
                // A session's writer fails there, too.
                if let Some(fault) = fails {
                    let limit = self.sent.len();
                    self.faults.push(WriterFault { limit, ..fault })?;
                }
            }
        }
        Ok(())
    }

    // Gives the terminal what an update sent that answered so, and tells what is wrong, if anything is.
    fn trouble_after(&mut self, answer: &Answer) -> Option<&'static str> {
        let (writer, is_ok) = (&self.device.writer, matches!(answer, Answer::Sent(_)));
        let is_silent = ran_out(answer) || is_ok && writer.taken().is_empty();
        if !self
            .emulated
            .take(&self.profile, writer.taken(), &self.last.0)
        {
            Some("and an undefined text or operation")
        } else if is_ok && !self.plain.is_shown(&self.emulated, &self.profile) {
            Some("and the terminal shows something else")
        } else if is_silent && writer.calls() > 0 {
            Some("and the writer was called")
        } else {
            None
        }
    }

    /// Starts or closes the screen with a writer that fails so, and adds what that answers. The emulated screen is fed
    /// what was sent where the entry has no text for it: others are not ECMA-48.
    pub fn send_end(
        &mut self,
        is_start: bool,
        fails: Option<WriterFault>,
        got: &mut Buffer,
    ) -> Result<(), Trouble> {
        self.paint_all();
        self.device.writer = writer_that(self.alloc, fails)?;
        let sent = if is_start {
            self.screen.start(&mut self.device)
        } else {
            self.screen.close(&mut self.device)
        };
        add_sent(&sent, got);
        if sent == Ok(0) && self.device.writer.calls() > 0 {
            add_word("and the writer was called", got);
        }
        let taken = self.device.writer.taken();
        if !has_ends(&self.entry) && !self.emulated.feed(taken) {
            add_word("and an undefined text", got);
        }
        self.sent.extend_from_slice(taken)?;
        Ok(())
    }

    /// Adds what the writer accepted, how often it failed, and whether the last update ended well.
    pub fn dump_writer(&self, bytes: &mut Buffer) {
        bytes.extend(&self.sent);
        bytes.extend(&self.device.failed_puts.to_be_bytes());
        bytes.extend(&self.device.failed_finishes.to_be_bytes());
        bytes.push(u8::from(self.last_ok));
    }

    /// Makes the calls by one session with a writer that fails where those of the updates did, and adds `agrees` where
    /// its answers, its bytes and whether its last update ended well are the same.
    pub fn add_session(&self, got: &mut Buffer) -> Result<(), Trouble> {
        let room = Vec::with_capacity(self.alloc, self.sent.len())?;
        let mut device = Device::new(Faulty::with_faults(room, self.faults.clone()?));
        match self.call_again(&mut device) {
            Ok(report) => add_word(self.compared(&report, &device)?, got),
            Err(OpenFault::NoMemory) if device.writer.calls() == 0 => add_word("NoMemory", got),
            Err(_) => add_word("no session", got),
        }
        Ok(())
    }

    /// Makes all calls again by one session.
    pub(crate) fn call_again(&self, device: &mut Device<Faulty>) -> Result<Report, OpenFault> {
        let size = Some(self.profile.size());
        session_as(
            self.alloc,
            &self.entry,
            size,
            self.opening,
            &self.calls,
            device,
        )
    }

    // Whether a session has answered and sent the same, in a word.
    fn compared(&self, report: &Report, device: &Device<Faulty>) -> Result<&'static str, Trouble> {
        let mut answers = Buffer::new(self.alloc);
        for answer in &report.answers.0 {
            if ran_out(answer) {
                return Ok("NoMemory");
            }
            add_answer(answer, &mut answers);
        }
        let agrees = are_same(&self.answers, &answers)?
            && report.last_ok == self.last_ok
            && device.writer.taken() == self.sent.as_slice()
            && device.failed_puts == self.device.failed_puts
            && device.failed_finishes == self.device.failed_finishes;
        Ok(if agrees { "agrees" } else { "differs" })
    }

    /// How many bytes the next update may send, as far as that is known: where only what differs may be sent, those of
    /// the joined repaint, else those of painting from scratch.
    pub fn most(&self) -> Result<Option<usize>, Trouble> {
        let (profile, picture) = (&self.profile, self.screen.picture());
        let ops = match self.allowed {
            Allowed::Owed => return Ok(None),
            Allowed::Anew => scratch_on(self.alloc, profile, picture)?,
            Allowed::Differing => {
                joined_on(self.alloc, profile, &self.emulated.terminal, picture)?
            }
        };
        Ok(Some(bytes_of(profile, &ops.0)))
    }

    // The next update may paint everything.
    fn paint_all(&mut self) {
        if matches!(self.allowed, Allowed::Differing) {
            self.allowed = Allowed::Anew;
        }
    }

    /// What the last update sent.
    pub fn last_sent(&self) -> &[u8] {
        self.device.writer.taken()
    }

    /// The operations that the last update began.
    pub fn last_begun(&self) -> &[Op] {
        &self.last.0
    }

    // Makes the last call of the list, by itself or by a list of it alone, adds its answer, and keeps both unless
    // memory ran out. Want of memory for the list's answers is answered as that of an update is.
    fn make_last(&mut self, got: &mut Buffer) -> Result<Answer, Trouble> {
        let (alloc, screen, device) = (self.alloc, &mut self.screen, &mut self.device);
        let before = self.calls.len().saturating_sub(1);
        let made = match self.calls.get(before..).unwrap_or(&[]) {
            [call] if !self.is_listed => Some(make_call(alloc, screen, call, device)),
            calls => match make_calls(alloc, screen, calls, device) {
                Ok(mut report) => report.answers.0.pop(),
                Err(NoMemory) => Some(Answer::Failed(UpdateFault::NoMemory)),
            },
        };
        let answer = made.ok_or(Trouble::Bad("no answer of a listed call"))?;
        add_answer(&answer, got);
        if ran_out(&answer) {
            self.calls.truncate(before);
        } else {
            add_answer(&answer, &mut self.answers);
        }
        Ok(answer)
    }
}

// Whether an entry has a text for the beginning or the end of a program's use of the screen.
fn has_ends(entry: &Entry) -> bool {
    [slots::SMCUP, slots::SMKX, slots::RMKX, slots::RMCUP]
        .iter()
        .any(|slot| entry.text(*slot).is_some())
}

// Whether an update after a call may paint more than what differs: a redrawing, or a window that wishes the whole
// screen anew.
fn may_paint_all(screen: &Screen, call: &Call) -> bool {
    match call {
        Call::RedrawWindow(_) | Call::RedrawLines(..) => true,
        Call::Noutrefresh(win) | Call::PadNoutrefresh(win, ..) => {
            screen.window(*win).is_ok_and(|window| window.clear_ok())
        }
        _ => false,
    }
}
