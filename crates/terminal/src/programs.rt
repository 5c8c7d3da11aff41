//! Full-screen programs that are run to their end.

use crate::events::Event;
use crate::faults::TerminalFault;
use crate::screens::TerminalScreen;
use curses::{Screen, WinFault};

/// A full-screen program: how it draws, and what it does at an event.
pub trait Program {
    /// Draws what is to be shown, and copies the windows to the virtual screen. It is called before each update. The
    /// screen is blank at first, and again after `Resized`, with its first window alone.
    fn draw(&mut self, screen: &mut Screen) -> Result<(), WinFault>;

    /// Does what an event asks for. False ends the program; after `Ended` it ends in any case.
    fn answer(&mut self, event: Event) -> bool;

    /// How many tenths of a second it waits for an event at most, before it is given `Idle`; `None` if it has no clock.
    fn wait(&self) -> Option<u32> {
        None
    }

    /// Whether the next event is to be the next byte of the keyboard as it is, in place of a key (`byte_event`).
    fn reads_byte(&self) -> bool {
        false
    }

    /// Whether it wants the cursor to be seen. It is asked before each update; a terminal that cannot hide its cursor
    /// shows it in any case.
    fn shows_cursor(&self) -> bool {
        true
    }
}

/// How many updates may fail one after another before a program ends.
const MOST_FAILURES: u32 = 20;

impl TerminalScreen {
    /// Runs a program: it draws, the terminal is updated, and it answers an event, again and again until it ends. While
    /// keys wait that were read, nothing is drawn. After an update that failed the next one sends what is owed and shows
    /// all; it is made after the next event, or after a tenth of a second. The terminal is given back however the
    /// program ends.
    ///
    /// Refused if a call that draws is, if twenty updates fail one after another, if the input ends after an update that
    /// failed, or if the keyboard cannot be read.
    pub fn run<P: Program>(
        &mut self,
        rt: &HostRuntime,
        program: &mut P,
    ) -> Result<(), TerminalFault> {
        let ended = self.go_on(rt, program);
        let closed = self.close();
        ended?;
        closed
    }

    // Runs a program up to its end, or to an error.
    fn go_on<P: Program>(
        &mut self,
        rt: &HostRuntime,
        program: &mut P,
    ) -> Result<(), TerminalFault> {
        let mut updated: Result<(), TerminalFault> = Ok(());
        let mut failures = 0u32;
        for _ in 0..u64::MAX {
            if !self.has_input() {
                if let Err(fault) = program.draw(self.screen()) {
                    return Err(TerminalFault::Draw(fault));
                }
                updated = self.update_both(rt, program.shows_cursor());
                failures = failures_after(&updated, failures);
                if failures == MOST_FAILURES {
                    return updated;
                }
            }
            match self.awaited(rt, program, failures)? {
                Event::Idle if failures > 0 => {}
                Event::Ended => {
                    let _ = program.answer(Event::Ended);
                    return updated;
                }
                event => {
                    if !program.answer(event) {
                        return Ok(());
                    }
                }
            }
        }
        Ok(())
    }

    // Updates the cursor and the screen.
    fn update_both(&mut self, rt: &HostRuntime, shows_cursor: bool) -> Result<(), TerminalFault> {
        let _ = self.set_cursor(shows_cursor)?;
        let _ = self.update(rt.alloc())?;
        Ok(())
    }

    // Waits for an event; not for long after so many updates that failed.
    fn awaited<P: Program>(
        &mut self,
        rt: &HostRuntime,
        program: &P,
        failures: u32,
    ) -> Result<Event, TerminalFault> {
        if program.reads_byte() {
            return self.byte_event(rt);
        }
        if failures > 0 {
            return self.event_within(rt, 1);
        }
        match program.wait() {
            Some(tenths) => self.event_within(rt, tenths),
            None => self.event(rt),
        }
    }
}

// How many updates have failed one after another.
fn failures_after(updated: &Result<(), TerminalFault>, failures: u32) -> u32 {
    if updated.is_ok() {
        0
    } else {
        failures.saturating_add(1)
    }
}
