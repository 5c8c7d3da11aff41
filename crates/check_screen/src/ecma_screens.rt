//! Lines about an emulated screen.

use crate::subjects::Subjects;
use crate::terminals::{add_at, add_colours, add_size};
use check_harness::answers::{add_flag, add_number, add_text, add_word};
use check_harness::buffers::{Buffer, are_same};
use check_harness::troubles::Trouble;
use check_harness::words::CallLine;
use generated_sessions::{add_defined, add_spot};
use scr_cells::{Look, Size};
use scr_terminal::EcmaScreen;
use screen_scripts::print_screen;

/// The lines `feed TEXT`, `after TEXT` and `undefined_after TEXT TEXT`, and those that ask. Tells whether a line is one
/// of them.
pub fn answer_of_ecma(subjects: &mut Subjects, line: &mut CallLine<'_>) -> Result<bool, Trouble> {
    let Some(screen) = &mut subjects.ecma else {
        return Ok(false);
    };
    match line.name {
        "feed" => feed(screen, line),
        "after" => add_after(screen.size(), line)?,
        "undefined_after" => add_undefined_after(screen.size(), line)?,
        _ => return ask(screen, line),
    }
    Ok(true)
}

/// Adds the lines of a screen, the attributes that are on, the colours that are set where one is not the default, and
/// whether it waits for the rest of a sequence.
pub fn print_state(screen: &EcmaScreen, text: &mut Buffer) {
    let printed = print_screen(screen, text.vector());
    text.check(printed.is_ok());
    text.extend(b"on");
    add_number(i64::from(screen.rendition().0), text);
    let colours = screen.colours();
    if colours != (None, None) {
        add_word("colours", text);
        add_colours(colours, text);
    }
    if screen.waiting() {
        add_word("waiting", text);
    }
    text.push(b'\n');
}

// The lines `screen_size`, `shown R C`, `spot`, `rendition`, `colours`, `marked`, how many places show something,
// `printed` and `state`.
fn ask(screen: &EcmaScreen, line: &mut CallLine<'_>) -> Result<bool, Trouble> {
    let (words, got) = (&mut line.words, &mut line.got);
    match line.name {
        "screen_size" => add_size(screen.size(), got),
        "shown" => add_at(row_of(screen, words.number()), words.number(), got)?,
        "spot" => add_spot(screen.spot(), got),
        "rendition" => add_number(i64::from(screen.rendition().0), got),
        "colours" => add_colours(screen.colours(), got),
        "marked" => add_number(i64::from(marked(screen)), got),
        "printed" => {
            let mut text = Vec::new(line.alloc);
            print_screen(screen, &mut text)?;
            add_text(&text, got);
        }
        "state" => {
            let mut text = Buffer::new(line.alloc);
            print_state(screen, &mut text);
            add_text(text.bytes(), got);
            text.done()?;
        }
        _ => return Ok(false),
    }
    Ok(true)
}

// The looks of a row, none where there is no such row.
fn row_of(screen: &EcmaScreen, row: u32) -> &[Look] {
    if row < screen.size().rows {
        screen.row(row)
    } else {
        &[]
    }
}

// Feeds a text, and adds whether it is defined and whether the screen waits for more.
fn feed(screen: &mut EcmaScreen, line: &mut CallLine<'_>) {
    let text = line.text();
    let fed = screen.feed(text.bytes());
    add_defined(fed.is_ok(), &mut line.got);
    if screen.waiting() {
        add_word("waiting", &mut line.got);
    }
}

// Adds the state of a blank screen of this size after a text.
fn add_after(size: Size, line: &mut CallLine<'_>) -> Result<(), Trouble> {
    let mut text = line.text();
    let mut screen = EcmaScreen::new(line.alloc, size)?;
    let fed = screen.feed(text.bytes());
    text.clear();
    print_state(&screen, &mut text);
    if fed.is_err() {
        text.extend(b"undefined\n");
    }
    add_text(text.bytes(), &mut line.got);
    text.done()
}

// Adds whether a text that is fed to a blank screen of this size after another, which is defined, is undefined, and the
// screen then stays as it was.
fn add_undefined_after(size: Size, line: &mut CallLine<'_>) -> Result<(), Trouble> {
    let (head, tail) = (line.text(), line.text());
    let (mut before, mut after) = (Buffer::new(line.alloc), Buffer::new(line.alloc));
    let mut screen = EcmaScreen::new(line.alloc, size)?;
    let first = screen.feed(head.bytes());
    print_state(&screen, &mut before);
    let second = screen.feed(tail.bytes());
    print_state(&screen, &mut after);
    let stays = are_same(&before, &after)?;
    add_flag(stays && first.is_ok() && second.is_err(), &mut line.got);
    Ok(())
}

// How many places show something other than a blank without attributes, in default colours.
fn marked(screen: &EcmaScreen) -> u32 {
    let mut count: u32 = 0;
    for row in 0..screen.size().rows {
        for look in row_of(screen, row) {
            if *look != Look::blank() {
                count = count.saturating_add(1);
            }
        }
    }
    count
}
