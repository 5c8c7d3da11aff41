//! Scripts of keys: the editor on the emulated terminal, to test it or to show it without a terminal.
//!
//! A script has one command a line. `size R C` comes first, and again where the terminal is resized; `type TEXT` types
//! the characters of TEXT, `key HH ..` bytes of the keyboard in hexadecimal; `idle` says that none came for a while;
//! `show` prints what the terminal shows. The terminal has ASCII alone, or speaks UTF-8.

use crate::editor::{Editor, Mode};
use crate::failures::EditFailure;
use crate::living::Session;
use crate::messages::Message;
use curses::{Charset, Device, EcmaScreen, Key, KeySet, Opening, Screen, Size, bundled};
use program_input::{InputFault, read_input};
use screen_scripts::print_screen;
use std::alloc::Global;
use std::io::Write;
use terminal::{Event, Keyboard, Program};

// A line of a script.
#[derive(Clone, Copy)]
enum ScriptLine<'a> {
    Size(Size),
    Type(&'a str),
    Bytes(&'a str),
    Idle,
    Show,
}

// The lines that are still to be read, and the number of the last that was.
#[derive(Drop)]
struct Script<'a> {
    rest: &'a str,
    number: u32,
}

// The terminal: what it is fed with, what is typed on it, and what it shows.
#[derive(Drop)]
struct Emulated {
    screen: Screen,
    keyboard: Keyboard,
    out: Device<Vec<u8>>,
    terminal: EcmaScreen,
}

impl<'a> Script<'a> {
    // The next line: `None` at the end.
    fn next_line(&mut self) -> Result<Option<ScriptLine<'a>>, EditFailure> {
        if self.rest.is_empty() {
            return Ok(None);
        }
        let (line, rest) = match self.rest.split_once('\n') {
            Some(cut) => cut,
            None => (self.rest, ""),
        };
        self.rest = rest;
        self.number = self.number.saturating_add(1);
        match line_of(line) {
            Some(line) => Ok(Some(line)),
            None => Err(self.fault()),
        }
    }

    fn fault(&self) -> EditFailure {
        EditFailure::BadLine(self.number)
    }
}

// What a line says; `None` if it is not a command.
fn line_of(line: &str) -> Option<ScriptLine<'_>> {
    match line {
        "idle" => return Some(ScriptLine::Idle),
        "show" => return Some(ScriptLine::Show),
        _ => {}
    }
    let (word, words) = line.split_once(' ')?;
    match word {
        "type" => Some(ScriptLine::Type(words)),
        "key" => Some(ScriptLine::Bytes(words)),
        "size" => Some(ScriptLine::Size(size_of(words)?)),
        _ => None,
    }
}

fn size_of(words: &str) -> Option<Size> {
    let (rows, columns) = words.split_once(' ')?;
    Size::new(rows.parse::<u32>().ok()?, columns.parse::<u32>().ok()?)
}

/// Runs the editor of a file by a script from standard input, on an emulated terminal with this charset, and prints
/// what it shows. What keys ask for is done as on a terminal, but the editor is not suspended and goes on where it would
/// be left.
///
/// Refused with the number of the first line that is not a command, if the script cannot be read or is not UTF-8 text,
/// if nothing can be printed, or if memory runs out.
pub fn edit_by_script(
    rt: &HostRuntime,
    path: &str,
    charset: Charset,
    editor: &mut Editor,
) -> Result<(), EditFailure> {
    match read_input(rt.alloc(), &mut rt.reader()) {
        Ok(bytes) => run_bytes(&bytes, charset, &mut Session::new(rt, path, editor, false)),
        Err(InputFault::Failed) => Err(EditFailure::Input),
        Err(InputFault::NoMemory) => Err(EditFailure::NoMemory),
    }
}

fn run_bytes(
    script: &[u8],
    charset: Charset,
    session: &mut Session<'_>,
) -> Result<(), EditFailure> {
    match str::from_utf8(script) {
        Ok(script) => run_script(script, charset, session),
        Err(_) => Err(EditFailure::NotText),
    }
}

fn run_script(
    script: &str,
    charset: Charset,
    session: &mut Session<'_>,
) -> Result<(), EditFailure> {
    let mut script = Script {
        rest: script,
        number: 0,
    };
    let Some(ScriptLine::Size(first)) = script.next_line()? else {
        return Err(EditFailure::BadLine(1));
    };
    let mut size = Some(first);
    for _ in 0..u32::MAX {
        size = match size {
            Some(size) => play_at(size, charset, &mut script, session)?,
            None => return Ok(()),
        };
    }
    Ok(())
}

// Plays lines on a terminal of this size that the bundled entry is for, and gives the size that it is resized to.
fn play_at(
    size: Size,
    charset: Charset,
    script: &mut Script<'_>,
    session: &mut Session<'_>,
) -> Result<Option<Size>, EditFailure> {
    let mut emulated = new_terminal(session.rt.alloc(), size, charset)?;
    session.begin_screen(&mut emulated.screen);
    play(&mut emulated, script, session)
}

// A terminal of this size with nothing on it.
fn new_terminal(alloc: Global, size: Size, charset: Charset) -> Result<Emulated, EditFailure> {
    let entry = bundled(alloc)?;
    let opening = Opening {
        charset,
        keys: KeySet::All,
        is_larger: false,
    };
    let screen = Screen::open_as(alloc, &entry, Some(size), opening)?;
    let terminal = EcmaScreen::new_as(alloc, size, charset)?;
    Ok(Emulated {
        screen,
        keyboard: Keyboard::new(),
        out: Device::new(Vec::new(alloc)),
        terminal,
    })
}

fn play(
    emulated: &mut Emulated,
    script: &mut Script<'_>,
    session: &mut Session<'_>,
) -> Result<Option<Size>, EditFailure> {
    for _ in 0..u32::MAX {
        let Some(line) = script.next_line()? else {
            return Ok(None);
        };
        match line {
            ScriptLine::Size(size) => return Ok(Some(size)),
            ScriptLine::Type(text) => type_bytes(emulated, session, text.as_bytes()),
            ScriptLine::Bytes(words) => {
                if !press_bytes(emulated, session, words) {
                    return Err(script.fault());
                }
            }
            ScriptLine::Idle => pass_time(emulated, session),
            ScriptLine::Show => show(emulated, session)?,
        }
    }
    Ok(None)
}

fn type_bytes(emulated: &mut Emulated, session: &mut Session<'_>, bytes: &[u8]) {
    for &byte in bytes {
        type_byte(emulated, session, byte);
    }
}

// Types a byte: as a part of a key or of a character, or as it is where that was asked for.
fn type_byte(emulated: &mut Emulated, session: &mut Session<'_>, byte: u8) {
    if session.editor.mode == Mode::Literal {
        answer(session, Event::Key(Key::Byte(byte)));
        return;
    }
    let _ = emulated.screen.key_byte(byte);
    for _ in 0..u32::MAX {
        let Some(typed) = emulated.keyboard.next(&mut emulated.screen) else {
            return;
        };
        answer(session, Event::of(typed));
    }
}

// Types bytes in hexadecimal; answers whether all are.
fn press_bytes(emulated: &mut Emulated, session: &mut Session<'_>, words: &str) -> bool {
    for word in words.split(' ') {
        match u8::from_str_radix(word, 16) {
            Ok(byte) => type_byte(emulated, session, byte),
            Err(_) => return false,
        }
    }
    true
}

// No byte comes for a while: what waits for more of them is typed as it is.
fn pass_time(emulated: &mut Emulated, session: &mut Session<'_>) {
    let _ = emulated.screen.key_idle();
    for _ in 0..u32::MAX {
        let Some(typed) = emulated.keyboard.next_at_once(&mut emulated.screen) else {
            break;
        };
        answer(session, Event::of(typed));
    }
    session.editor.pause();
}

// Does what an event asks for. A script goes on where the editor would be left.
fn answer(session: &mut Session<'_>, event: Event) {
    if !session.answer(event) {
        session.editor.message = Message::Left;
    }
}

// Brings the terminal to what the editor shows, and prints it.
fn show(emulated: &mut Emulated, session: &mut Session<'_>) -> Result<(), EditFailure> {
    emulated.out.writer.clear();
    session.draw(&mut emulated.screen)?;
    let updated = emulated
        .screen
        .doupdate(session.rt.alloc(), &mut emulated.out);
    if updated.is_err() {
        return Err(EditFailure::NoMemory);
    }
    if emulated.terminal.feed(&emulated.out.writer).is_err() {
        return Err(EditFailure::Output);
    }
    print_terminal(session.rt, &emulated.terminal)
}

fn print_terminal(rt: &HostRuntime, terminal: &EcmaScreen) -> Result<(), EditFailure> {
    let mut lines = Vec::new(rt.alloc());
    print_screen(terminal, &mut lines)?;
    rt.stdout()
        .write_all(&lines)
        .map_err(|_| EditFailure::Output)
}
