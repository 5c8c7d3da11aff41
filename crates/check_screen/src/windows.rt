//! Lines about the windows of a screen: which there are, and what one holds and tells.

use crate::terminals::add_size;
use check_harness::answers::{
    add_any, add_any_place, add_cell, add_flag, add_made, add_name, add_number, add_text_of,
};
use check_harness::buffers::Buffer;
use check_harness::troubles::Trouble;
use check_harness::words::{CallLine, Words};
use curses::Screen;
use generated_sessions::{is_touched, line_of};
use scr_cells::Cell;
use scr_windows::{Win, WindowRef};

/// What a window tells but for its lines, by the names of the library's calls.
pub static FIELDS: &str =
    "parent origin size cursor attrs pair background region scroll_ok clear_ok leave_ok";

/// The lines `screen_size`, `count`, `nth INDEX`, `rows W`, `touched W`, `line W R`, `codes W R`, `attributes W R` and
/// `pairs W R`, and `window W FIELD`, `window W is_touched R` and `window W line R`. Tells whether a line is one of
/// them.
pub fn answer_of_windows(screen: &Screen, line: &mut CallLine<'_>) -> Result<bool, Trouble> {
    let (words, got) = (&mut line.words, &mut line.got);
    match line.name {
        "screen_size" => add_size(screen.screen(), got),
        "count" => add_number(screen.count() as i64, got),
        "nth" => add_window(screen.nth(words.number() as usize), got),
        "rows" | "touched" => {
            let window = screen.window(Win(words.number()));
            let name = line.name;
            add_made(window, got, |window, got| add_rows(&window, name, got));
        }
        "line" | "codes" | "attributes" | "pairs" => {
            let cells = screen.line(Win(words.number()), words.number());
            let name = line.name;
            add_made(cells, got, |cells, got| add_cells(cells, name, got));
        }
        "window" => add_asked(screen, words, got)?,
        _ => return Ok(false),
    }
    Ok(true)
}

/// Adds what a window tells by a name, if it is one of `FIELDS`.
pub fn add_field(window: &WindowRef<'_>, name: &str, got: &mut Buffer) -> Result<(), Trouble> {
    match name {
        "parent" => add_window(window.parent(), got),
        "attrs" => add_number(i64::from(window.attrs().0), got),
        "pair" => add_number(i64::from(window.pair()), got),
        "background" => add_cell(window.background(), got),
        "scroll_ok" => add_flag(window.scroll_ok(), got),
        "clear_ok" => add_flag(window.clear_ok(), got),
        "leave_ok" => add_flag(window.leave_ok(), got),
        "origin" => add_any_place(window.origin(), got),
        "size" => add_any_place(Some(window.size()), got),
        "cursor" => add_any_place(Some(window.cursor()), got),
        "region" => add_any_place(Some(window.region()), got),
        _ => return Err(Trouble::Bad("no such field")),
    }
    Ok(())
}

// Adds the number of a window, if there is one.
fn add_window(win: Option<Win>, got: &mut Buffer) {
    add_any(win, got, |win, got| add_number(i64::from(win.0), got));
}

// Adds the bytes of each row of a window, or which of them are touched.
fn add_rows(window: &WindowRef<'_>, name: &str, got: &mut Buffer) {
    let (rows, _) = window.size();
    if name == "touched" {
        got.push(b' ');
    }
    for row in 0..rows {
        match name {
            "rows" => add_text_of(line_of(window, row), got),
            _ => got.push(if is_touched(window, row) { b'x' } else { b'.' }),
        }
    }
}

// Adds the bytes of a line, or the codes of the characters, the attributes or the colour pair of each of its cells.
fn add_cells(cells: &[Cell], name: &str, got: &mut Buffer) {
    if name == "line" {
        add_text_of(cells, got);
        return;
    }
    for cell in cells {
        let number = match name {
            "codes" => cell.code(),
            "pairs" => cell.pair(),
            _ => u32::from(cell.attrs().0),
        };
        add_number(i64::from(number), got);
    }
}

// Adds what a line asks of a window that is lent: a field, or what it tells of a row.
fn add_asked(screen: &Screen, words: &mut Words<'_>, got: &mut Buffer) -> Result<(), Trouble> {
    let (win, name) = (Win(words.number()), words.name());
    let row = match name {
        "is_touched" | "line" => Some(words.number()),
        _ => None,
    };
    match (screen.window(win), row) {
        (Ok(window), Some(row)) => return add_row(&window, name, row, got),
        (Ok(window), None) => return add_field(&window, name, got),
        (Err(fault), _) => add_name(&fault, got),
    }
    Ok(())
}

fn add_row(window: &WindowRef<'_>, name: &str, row: u32, got: &mut Buffer) -> Result<(), Trouble> {
    let (rows, _) = window.size();
    if row >= rows {
        return Err(Trouble::Bad("no row of the window"));
    }
    if name == "line" {
        add_text_of(window.line(row), got);
    } else {
        add_flag(window.is_touched(row), got);
    }
    Ok(())
}
