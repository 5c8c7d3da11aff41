//! The screen of the terminal that a program runs on.

use crate::cursors::Cursor;
use crate::events::Event;
use crate::faults::TerminalFault;
use crate::input::Input;
use crate::keyboards::Keyboard;
use crate::lines::TerminalLine;
use crate::openings::opening_on;
use crate::outputs::TerminalOutput;
use crate::received::Received;
use curses::{AdaptedEntry, Device, Key, OpenFault, Opening, Screen, Sent, Size, Typed, keys};
use std::alloc::Global;
use std::io::{BufWriter, Write};
use std::time::{Duration, Instant};
use ti_caps::slots;

// The key that asks for suspension: `^Z`, as at a shell's own line.
const SUSPEND: Event = Event::Key(Key::Byte(26));

/// The screen of the terminal that a program runs on, from its opening to its close. Its entry is taken as
/// `AdaptedEntry` says: colours come before the attributes that they exclude, and where a character in the last column
/// would scroll, the screen has one column less than the terminal.
#[derive(Drop)]
pub struct TerminalScreen {
    pub(crate) entry: AdaptedEntry,
    // How each screen on it is opened.
    pub(crate) opening: Opening,
    pub(crate) line: TerminalLine,
    pub(crate) received: Received,
    pub(crate) keyboard: Keyboard,
    // What `has_input` found to be typed.
    pub(crate) waiting: Option<Typed>,
    pub(crate) screen: Screen,
    pub(crate) out: Device<BufWriter<TerminalOutput>>,
    // Whether what was sent last went out whole, so that nothing is owed.
    pub(crate) is_whole: bool,
    // Whether it was started, and not closed since.
    pub(crate) is_started: bool,
    pub(crate) cursor: Cursor,
}

impl TerminalScreen {
    /// The screen.
    pub fn screen(&mut self) -> &mut Screen {
        &mut self.screen
    }

    /// Brings the terminal to the virtual screen. It is sent in pieces of 8,192 bytes, most updates in one.
    pub fn update(&mut self, alloc: Global) -> Result<Sent, TerminalFault> {
        let updated = self.screen.doupdate(alloc, &mut self.out);
        self.is_whole = updated.is_ok();
        match updated {
            Ok(sent) => {
                self.settle_cursor()?;
                Ok(sent)
            }
            Err(fault) => Err(TerminalFault::Update(fault)),
        }
    }

    /// Shows the cursor, as at first, or hides it, where the terminal's entry has texts for both (`cnorm` and `civis`).
    /// Answers whether it can do what is asked: false only if the cursor is to be hidden and the entry cannot. Where the
    /// cursor is so already, nothing is sent.
    ///
    /// `close` shows it again, and so does a suspension; `start` hides it if that was asked for last. If a write failed
    /// and the rest of a text is owed, or the screen is closed, the cursor follows at the next update or start.
    /// terminfo(5), 'Cursor Motions'; X/Open Curses Issue 7, curs_set().
    pub fn set_cursor(&mut self, visible: bool) -> Result<bool, TerminalFault> {
        let can = self.cursor.ask(visible);
        self.settle_cursor()?;
        Ok(can)
    }

    /// Waits for a key or a character, a resize, or the end. `^Z`, or a key of that name, is not given: it suspends the program until
    /// its user continues it, as a stop from elsewhere does.
    pub fn event(&mut self, rt: &HostRuntime) -> Result<Event, TerminalFault> {
        for _ in 0..u64::MAX {
            if let Some(event) = self.turn(rt)? {
                return Ok(event);
            }
        }
        Ok(Event::Ended)
    }

    /// Like `event`, but waits for so many tenths of a second at most, by the clock: `Idle` if nothing came. A program
    /// with a clock of its own calls it. A wait takes up to a tenth of a second longer, as a read of the keyboard does.
    pub fn event_within(&mut self, rt: &HostRuntime, tenths: u32) -> Result<Event, TerminalFault> {
        // What is there already needs no clock.
        if let Some(event) = self.typed_event(rt)? {
            return Ok(event);
        }
        let Ok(start) = Instant::now(rt) else {
            return Err(TerminalFault::Input);
        };
        let most = Duration::from_millis(u64::from(tenths) * 100);
        for _ in 0..u64::MAX {
            if let Some(event) = self.turn(rt)? {
                return Ok(event);
            }
            match start.elapsed(rt) {
                Ok(passed) if passed < most => {}
                Ok(_) => return Ok(Event::Idle),
                Err(_) => return Err(TerminalFault::Input),
            }
        }
        Ok(Event::Ended)
    }

    /// Like `event`, but gives the next byte of the keyboard as it is, `^Z` and the first byte of a key's text or of a
    /// character too, unless something was typed before it. A program calls it to have any byte typed, as after `^V` in
    /// an editor.
    pub fn byte_event(&mut self, rt: &HostRuntime) -> Result<Event, TerminalFault> {
        for _ in 0..u64::MAX {
            if let Some(event) = self.byte_turn(rt)? {
                return Ok(event);
            }
        }
        Ok(Event::Ended)
    }

    /// Whether bytes that were read wait: the next event may be there already. It reads nothing. A program that updates
    /// only where nothing waits makes one update for what is pasted, and not one for each key.
    pub fn has_input(&mut self) -> bool {
        if self.waiting.is_none() {
            self.waiting = self.keyboard.next(&mut self.screen);
        }
        self.waiting.is_some() || !self.received.is_empty()
    }

    /// Gives the terminal back: without attributes, with the cursor shown and on its last line, and out of the modes of
    /// full-screen programs. A terminal whose entry has no `rmcup` goes on showing the screen, and gets a line feed, so
    /// that what comes next has a line of its own.
    pub fn close(&mut self) -> Result<(), TerminalFault> {
        let closed = self.screen.close(&mut self.out);
        self.is_whole = closed.is_ok();
        self.cursor.set_started(false);
        match closed {
            Ok(_) => {
                self.end_last_line();
                self.settle_cursor()
            }
            Err(fault) => Err(TerminalFault::Send(fault)),
        }
    }

    // Ends the last line of a screen that stays, once.
    fn end_last_line(&mut self) {
        if self.is_started && self.entry.entry().text(slots::RMCUP).is_none() {
            let _ = self.out.writer.write_all(b"\r\n");
            let _ = self.out.writer.flush();
        }
        self.is_started = false;
    }

    /// Takes over the terminal again after a close. The next update paints all of it.
    pub fn start(&mut self) -> Result<(), TerminalFault> {
        let started = self.screen.start(&mut self.out);
        self.is_whole = started.is_ok();
        self.is_started = true;
        self.cursor.set_started(true);
        match started {
            Ok(_) => self.settle_cursor(),
            Err(fault) => Err(TerminalFault::Send(fault)),
        }
    }

    // Sends what makes the cursor as it is to be, but not into a text that a failed write has cut.
    fn settle_cursor(&mut self) -> Result<(), TerminalFault> {
        if !self.is_whole {
            return Ok(());
        }
        let settled = self.cursor.settle(&mut self.out);
        self.is_whole = settled.is_ok();
        match settled {
            Ok(()) => Ok(()),
            Err(fault) => Err(TerminalFault::Send(fault)),
        }
    }

    // What it means that this was typed.
    fn pressed(&mut self, rt: &HostRuntime, typed: Typed) -> Result<Event, TerminalFault> {
        let event = Event::of(typed);
        if event == SUSPEND || event == Event::Key(keys::SUSPEND) {
            self.suspend(rt)
        } else {
            Ok(event)
        }
    }

    // Gives the terminal back, and takes it over when the user continues the program, at the size that it has then.
    fn suspend(&mut self, rt: &HostRuntime) -> Result<Event, TerminalFault> {
        let _ = self.close();
        let _ = self.line.suspend(rt);
        let followed = self.follow_size(rt.alloc());
        let _ = self.start();
        match followed? {
            Some(event) => Ok(event),
            None => Ok(Event::Continued),
        }
    }

    // What is there already, or what one read of the keyboard gives.
    fn turn(&mut self, rt: &HostRuntime) -> Result<Option<Event>, TerminalFault> {
        if let Some(event) = self.typed_event(rt)? {
            return Ok(Some(event));
        }
        match self.received.read(rt, &mut self.line) {
            Input::Bytes(_) => self.typed_event(rt),
            other => self.other_event(rt, other),
        }
    }

    // Like `turn`, with the next byte in place of a key.
    fn byte_turn(&mut self, rt: &HostRuntime) -> Result<Option<Event>, TerminalFault> {
        if let Some(typed) = self.waiting_typed() {
            return Ok(Some(Event::of(typed)));
        }
        if let Some(byte) = self.received.next() {
            return Ok(Some(Event::Key(Key::Byte(byte))));
        }
        match self.received.read(rt, &mut self.line) {
            Input::Bytes(_) => Ok(None),
            other => self.other_event(rt, other),
        }
    }

    // What was typed by bytes that were read, the beginning of a character too.
    fn waiting_typed(&mut self) -> Option<Typed> {
        match self.waiting.take() {
            Some(typed) => Some(typed),
            None => self.keyboard.next_at_once(&mut self.screen),
        }
    }

    // What a read means that gave no bytes.
    fn other_event(
        &mut self,
        rt: &HostRuntime,
        input: Input,
    ) -> Result<Option<Event>, TerminalFault> {
        match input {
            Input::Bytes(_) => Ok(None),
            Input::Idle => self.idle(rt),
            Input::Ended => Ok(Some(Event::Ended)),
            Input::Stop => Ok(Some(self.suspend(rt)?)),
            Input::Failed => Err(TerminalFault::Input),
        }
    }

    // What it means that something is typed next, if that is there.
    fn typed_event(&mut self, rt: &HostRuntime) -> Result<Option<Event>, TerminalFault> {
        match self.next_typed()? {
            Some(typed) => Ok(Some(self.pressed(rt, typed)?)),
            None => Ok(None),
        }
    }

    // What is typed next, if it is there. A byte goes to the queue of keys only where that is empty, so there is room
    // for what comes of it.
    fn next_typed(&mut self) -> Result<Option<Typed>, TerminalFault> {
        if let Some(typed) = self.waiting.take() {
            return Ok(Some(typed));
        }
        for _ in 0..usize::MAX {
            if let Some(typed) = self.keyboard.next(&mut self.screen) {
                return Ok(Some(typed));
            }
            let Some(byte) = self.received.next() else {
                break;
            };
            if let Err(fault) = self.screen.key_byte(byte) {
                return Err(TerminalFault::Keys(fault));
            }
        }
        Ok(None)
    }

    // No byte came for a while. The size is followed where nothing is typed, since a new screen knows nothing of a key
    // whose first bytes came.
    fn idle(&mut self, rt: &HostRuntime) -> Result<Option<Event>, TerminalFault> {
        if let Err(fault) = self.screen.key_idle() {
            return Err(TerminalFault::Keys(fault));
        }
        if let Some(typed) = self.keyboard.next_at_once(&mut self.screen) {
            return Ok(Some(self.pressed(rt, typed)?));
        }
        self.follow_size(rt.alloc())
    }

    // Opens a screen on a terminal of the new size, if it has changed. What a failed write left of a text is owed by the
    // old screen alone, which then stays.
    fn follow_size(&mut self, alloc: Global) -> Result<Option<Event>, TerminalFault> {
        let Some(size) = self.line.size() else {
            return Ok(None);
        };
        if !self.is_whole || self.entry.size_on(size) == Some(self.screen.screen()) {
            return Ok(None);
        }
        match reopen(alloc, &self.entry, size, self.opening, &mut self.screen) {
            Ok(()) => Ok(Some(Event::Resized)),
            Err(fault) => Err(TerminalFault::Open(fault)),
        }
    }
}

// Opens a screen on a terminal of this size in place of another.
fn reopen(
    alloc: Global,
    entry: &AdaptedEntry,
    size: Size,
    opening: Opening,
    screen: &mut Screen,
) -> Result<(), OpenFault> {
    match entry.open(alloc, Some(size), opening_on(opening, Some(size))) {
        Ok(opened) => {
            put(screen, opened);
            Ok(())
        }
        Err(fault) => Err(fault),
    }
}

// Puts a value in the place of another: proved once, and not again where the other is as large as a screen.
fn put<T: Drop>(place: &mut T, value: T) {
    *place = value;
}
