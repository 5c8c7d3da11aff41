//! Running a script of calls, in which updates may fail.

use crate::call_lines::{CallLine, parse_call_line};
use crate::commands::Command;
use crate::cuts::cut_line;
use crate::effects::Note;
use crate::line_faults::LineFault;
use crate::pressing::{note_refusal, read_bytes, take_keys};
use crate::printing::print_screen;
use crate::running::{DemoFault, flush, write_text};
use crate::showing::{print_notes, print_refusals};
use crate::stages::{Stage, open_stage};
use curses::{Device, UpdateFault};
use scr_cells::{Charset, NoMemory};
use scr_windows::{Win, WinFault};
use screen_calls::CallFault;
use screen_sessions::{Answer, Call, Faulty, WriterFault, make_call};
use std::alloc::Global;
use std::io::{ErrorKind, Write};
use ti_caps::Bytes;

// The window that exists from the beginning.
const FIRST: Win = Win(0);

/// What is told of a script of calls.
#[derive(Clone, Copy, PartialEq, Eq)]
pub(crate) enum Told {
    /// What the terminal shows after each update, which calls are refused, how updates fail, and keys.
    Screens,
    /// The bytes that the terminal accepts.
    Bytes,
    /// Which calls are refused, and how updates fail.
    Refusals,
}

/// Runs a script of calls on a terminal with this charset, and writes what is told of it. Refused as `run` is.
pub(crate) fn run_calls<W: Write>(
    alloc: Global,
    script: &[u8],
    charset: Charset,
    told: Told,
    out: &mut W,
) -> Result<(), DemoFault> {
    let mut played = Played {
        alloc,
        charset,
        told,
        scene: None,
    };
    played.run(script, out)
}

// A script of calls that is run.
#[derive(Drop)]
struct Played {
    alloc: Global,
    charset: Charset,
    told: Told,
    scene: Option<Scene>,
}

impl Played {
    // Runs as many lines as can be counted.
    fn run<W: Write>(&mut self, script: &[u8], out: &mut W) -> Result<(), DemoFault> {
        let mut rest = script;
        for number in 1..u32::MAX {
            if rest.is_empty() {
                break;
            }
            let (line, after) = cut_line(rest);
            self.write_line(number, line, out)?;
            rest = after;
        }
        flush(out)
    }

    // Executes a line and writes what it tells; if the line is bad, flushes what was written.
    fn write_line<W: Write>(
        &mut self,
        number: u32,
        line: &[u8],
        out: &mut W,
    ) -> Result<(), DemoFault> {
        match (self.execute(line), &self.scene) {
            (Ok(()), Some(scene)) => write_text(&scene.text, out),
            (Ok(()), None) => Ok(()),
            (Err(LineFault::Bad), _) => {
                flush(out)?;
                Err(DemoFault::BadCommand(number))
            }
            (Err(LineFault::NoMemory), _) => Err(DemoFault::NoMemory),
        }
    }

    // Executes a line; the first has to open the stage.
    fn execute(&mut self, line: &[u8]) -> Result<(), LineFault> {
        let CallLine { command, fails } = read_line(self.alloc, line)?;
        match &mut self.scene {
            None => {
                self.scene = Some(self.open(command)?);
                Ok(())
            }
            Some(scene) => {
                scene.text.clear();
                scene.obey(command, fails)
            }
        }
    }

    fn open(&self, command: Command) -> Result<Scene, LineFault> {
        Ok(Scene {
            alloc: self.alloc,
            told: self.told,
            stage: open_stage(self.alloc, self.charset, command)?,
            text: Vec::new(self.alloc),
        })
    }
}

fn read_line(alloc: Global, line: &[u8]) -> Result<CallLine, LineFault> {
    match parse_call_line(alloc, line) {
        Ok(read) => Ok(read),
        Err(CallFault::Bad(_)) => Err(LineFault::Bad),
        Err(CallFault::NoMemory) => Err(LineFault::NoMemory),
    }
}

// A stage, what is told of it, and what its last line told.
#[derive(Drop)]
struct Scene {
    alloc: Global,
    told: Told,
    stage: Stage,
    text: Vec<u8>,
}

impl Scene {
    // Executes a command; if it updates the terminal, with a writer that fails so.
    fn obey(&mut self, command: Command, fails: Option<WriterFault>) -> Result<(), LineFault> {
        match command {
            Command::Add(row, column, text) => self.add(row, column, text)?,
            Command::Show => {
                self.make(&Call::Noutrefresh(FIRST), None)?;
                self.make(&Call::Doupdate, None)?;
            }
            Command::Make(call) => {
                self.make(&call, fails)?;
            }
            Command::Key(bytes) => self.press(&bytes.0)?,
            Command::Text(window, text) => self.add_string(window, text)?,
            Command::Idle => self.idle()?,
            Command::Size(_, _) => return Err(LineFault::Bad),
        }
        Ok(())
    }

    // Moves the cursor of the first window, and adds a text there unless the place is refused.
    fn add(&mut self, row: u32, column: u32, text: Bytes) -> Result<(), NoMemory> {
        if self.make(&Call::MoveCursor(FIRST, row, column), None)? {
            self.make(&Call::AddText(FIRST, text), None)?;
        }
        Ok(())
    }

    // Adds a text of characters to a window.
    fn add_string(&mut self, window: u32, text: Bytes) -> Result<(), LineFault> {
        match String::from_utf8(text.0) {
            Ok(text) => {
                self.make(&Call::AddStr(Win(window), text), None)?;
                Ok(())
            }
            Err(_) => Err(LineFault::Bad),
        }
    }

    // Makes a call, an update with a writer that fails so, and tells whether it was not refused. Fails only when memory
    // runs out.
    fn make(&mut self, call: &Call, fails: Option<WriterFault>) -> Result<bool, NoMemory> {
        let mut faults = Vec::new(self.alloc);
        if let Some(fault) = fails {
            faults.push(fault)?;
        }
        let mut device = Device::new(Faulty::with_faults(Vec::new(self.alloc), faults));
        let answer = make_call(self.alloc, &mut self.stage.screen, call, &mut device);
        self.tell(&answer, device.writer.taken())
    }

    // Tells what a call answered that sent these bytes, and whether it was not refused.
    fn tell(&mut self, answer: &Answer, sent: &[u8]) -> Result<bool, NoMemory> {
        match answer {
            Answer::Refused(WinFault::NoMemory)
            | Answer::Failed(
                UpdateFault::NoMemory
                | UpdateFault::Write {
                    kind: ErrorKind::OutOfMemory,
                    ..
                },
            ) => Err(NoMemory),
            Answer::Refused(fault) => self.tell_notes(&[Note::Refused(*fault)]).and(Ok(false)),
            Answer::Sent(_) => self.tell_update(sent).and(Ok(true)),
            Answer::Failed(_) => {
                self.tell_failure(answer)?;
                self.tell_update(sent).and(Ok(true))
            }
            _ => Ok(true),
        }
    }

    // Tells how an update failed.
    fn tell_failure(&mut self, answer: &Answer) -> Result<(), NoMemory> {
        if self.told == Told::Bytes {
            return Ok(());
        }
        match writeln!(self.text, "failed {answer}") {
            Ok(()) => Ok(()),
            Err(_) => Err(NoMemory),
        }
    }

    // Gives the terminal the bytes that an update sent. After one that was cut, the next sends the rest of its text.
    fn tell_update(&mut self, sent: &[u8]) -> Result<(), NoMemory> {
        let _ = self.stage.terminal.feed(sent);
        match self.told {
            Told::Screens => print_screen(&self.stage.terminal, &mut self.text),
            Told::Bytes => Ok(self.text.extend_from_slice(sent)?),
            Told::Refusals => Ok(()),
        }
    }

    fn tell_notes(&mut self, notes: &[Note]) -> Result<(), NoMemory> {
        match self.told {
            Told::Screens => print_notes(notes, &mut self.text),
            Told::Bytes => Ok(()),
            Told::Refusals => print_refusals(notes, &mut self.text),
        }
    }

    // Gives bytes of the keyboard to the screen, then takes all keys.
    fn press(&mut self, bytes: &[u8]) -> Result<(), NoMemory> {
        let mut notes = Vec::new(self.alloc);
        read_bytes(&mut self.stage.screen, bytes, &mut notes)?;
        take_keys(&mut self.stage.screen, &mut notes)?;
        self.tell_notes(&notes)
    }

    // Tells the screen that no byte came for a while, then takes all keys.
    fn idle(&mut self) -> Result<(), NoMemory> {
        let mut notes = Vec::new(self.alloc);
        note_refusal(self.stage.screen.key_idle(), &mut notes)?;
        take_keys(&mut self.stage.screen, &mut notes)?;
        self.tell_notes(&notes)
    }
}
