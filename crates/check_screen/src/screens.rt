//! Lines about a screen with its terminal.

use crate::changed::check_changed;
use crate::shown::answer_of_shown;
use crate::subjects::Subjects;
use crate::windows::answer_of_windows;
use check_harness::answers::{add_count, add_name, add_word};
use check_harness::buffers::Buffer;
use check_harness::troubles::Trouble;
use check_harness::words::{CallLine, Words};
use curses::{Device, OpenFault, Screen};
use generated_sessions::{
    MOVING, Recorded, check_sessions, count_cuts, obey, opening_of, read_entry,
};
use scr_cells::Size;
use scr_windows::Win;
use screen_scripts::print_screen;
use screen_sessions::{Call, session};
use std::alloc::Global;
use ti_caps::{Bytes, Entry};

/// Makes the call of a line about a screen, and adds what it answers.
pub fn answer_of_screen(subjects: &mut Subjects, line: &mut CallLine<'_>) -> Result<(), Trouble> {
    match line.name {
        "screen" | "utf8_screen" => open(&mut subjects.opened, None, line),
        "moving" | "utf8_moving" => open(&mut subjects.opened, Some(MOVING), line),
        "drawn" => open_drawn(&mut subjects.opened, line),
        "sessions"
        | "narrow_sessions"
        | "larger_sessions"
        | "cut_sessions"
        | "utf8_sessions"
        | "utf8_cut_sessions" => check_sessions(&mut subjects.made_up, line),
        "session_script" | "utf8_session_script" => {
            check_sessions(&mut subjects.made_up, line)?;
            add_shown(&subjects.made_up, &mut line.got)
        }
        "changed" => check_changed(line),
        "refusal" => add_refusal(line),
        _ => match &mut subjects.opened {
            Some(opened) => answer_of_opened(opened, line),
            None => Err(Trouble::Bad("no screen")),
        },
    }
}

// Adds what the terminal of a made-up session shows, as `screendemo` prints it, if it reads bytes.
fn add_shown(opened: &Option<Recorded>, got: &mut Buffer) -> Result<(), Trouble> {
    if let Some(opened) = opened
        && let Some(screen) = opened.emulated.screen()
    {
        got.extend(b"The terminal shows:\n");
        print_screen(screen, got.vector())?;
    }
    Ok(())
}

// The line `screen R C NAME ..`, which opens a screen of so many rows and columns on the bundled entry without the
// texts and flags of these names; a number's name has its value after it, and that of a text that is another has this
// text. The names may be given: the line `moving R C` opens one on the bundled entry with texts that insert and delete
// lines and characters. Names that begin with `utf8` open it in UTF-8.
fn open<'a>(
    opened: &mut Option<Recorded>,
    given: Option<&'a str>,
    line: &mut CallLine<'a>,
) -> Result<(), Trouble> {
    let size = line.words.size()?;
    let mut names = match given {
        Some(names) => Words::new(names.as_bytes()),
        None => line.words,
    };
    let refusal = match read_entry(line.alloc, &mut names) {
        Some(entry) => Recorded::open_into(line.alloc, entry, size, opening_of(line.name), opened)?,
        None => Some(OpenFault::NoMemory),
    };
    add_refused(refusal, &mut line.got);
    if given.is_none() {
        line.words = names;
    }
    names.done()
}

fn add_refused(refusal: Option<OpenFault>, got: &mut Buffer) {
    match refusal {
        Some(fault) => add_name(&fault, got),
        None => add_word("Ok", got),
    }
}

// The line `drawn R C TEXT`, which opens a screen of so many rows and columns on the bundled entry, with a text in its
// first window, whose lines are untouched then and whose cursor is in the first place.
fn open_drawn(opened: &mut Option<Recorded>, line: &mut CallLine<'_>) -> Result<(), Trouble> {
    open(opened, Some(""), line)?;
    let text = line.text();
    text.done()?;
    match opened {
        Some(opened) if line.got.bytes() == b" Ok".as_slice() => {
            draw(opened, Bytes(text.into_bytes()), &mut line.got)
        }
        _ => Ok(()),
    }
}

fn draw(opened: &mut Recorded, text: Bytes, got: &mut Buffer) -> Result<(), Trouble> {
    opened.call(Call::AddText(Win(0), text), got)?;
    opened.call(Call::MoveCursor(Win(0), 0, 0), got)?;
    opened.call(Call::Untouch(Win(0)), got)?;
    got.clear();
    add_word("Ok", got);
    Ok(())
}

// The line `refusal R C NAME ..`: opens a screen and makes a session without calls, and adds why both are refused, `Ok`
// where neither is, or `differs`. Nothing may be written then.
fn add_refusal(line: &mut CallLine<'_>) -> Result<(), Trouble> {
    let size = line.words.size()?;
    match read_entry(line.alloc, &mut line.words) {
        Some(entry) => add_both(line.alloc, &entry, size, &mut line.got),
        None => line.refuse(),
    }
    Ok(())
}

fn add_both(alloc: Global, entry: &Entry, size: Size, got: &mut Buffer) {
    let opened = Screen::open(alloc, entry, Some(size)).err();
    let mut device = Device::new(Vec::new(alloc));
    let made = session(alloc, entry, Some(size), &[], &mut device).err();
    if opened == Some(OpenFault::NoMemory) || made == Some(OpenFault::NoMemory) {
        add_word("NoMemory", got);
    } else if opened != made || !device.writer.is_empty() {
        add_word("differs", got);
    } else {
        add_refused(opened, got);
    }
}

// The lines about a screen that is open. `all CALL` is a call or an update that is made by a list of it alone.
fn answer_of_opened(opened: &mut Recorded, line: &mut CallLine<'_>) -> Result<(), Trouble> {
    opened.is_listed = line.name == "all";
    if opened.is_listed {
        line.rename();
    }
    match line.name {
        "session" => opened.add_session(&mut line.got)?,
        "cuts" => add_count(count_cuts(opened)?.0 as u64, &mut line.got),
        "update_within" => update_within(opened, line)?,
        _ => {
            if !obey(opened, line)?
                && !answer_of_shown(opened, line)?
                && !answer_of_windows(&opened.screen, line)?
            {
                return Err(Trouble::Bad("no such call"));
            }
        }
    }
    Ok(())
}

// The line `update_within N`, an update that answers `Ok` alone where it ends well and sends at most N bytes.
fn update_within(opened: &mut Recorded, line: &mut CallLine<'_>) -> Result<(), Trouble> {
    let (most, got) = (line.words.number() as usize, &mut line.got);
    opened.update(None, got)?;
    let is_within = got.bytes().starts_with(b" Ok ") && opened.last_sent().len() <= most;
    if is_within && opened.trouble.is_none() {
        got.clear();
        add_word("Ok", got);
    }
    Ok(())
}
