//! Drawing the editor on a screen: lines of the text, and below them what is edited and what keys do.

use crate::editor::{Editor, Mode};
use crate::hints::hints_of;
use crate::view::{
    BLANKS, column_of, cut_part, first_shown, form_of, parts_before, printable_length, width_at,
};
use curses::{Attrs, Screen, Size, Win};
use edit_text::TextPart;

/// The colours of the last row, as a pair.
const STATUS_PAIR: u32 = 1;

const BLUE: u32 = 4;

const WHITE: u32 = 7;

/// The fewest rows of a screen whose last one says what keys do.
const LEAST_WITH_HINTS: u32 = 6;

// What is left to draw of a row: the line's column that is next, columns of the text to leave out, and columns of the
// row to fill.
#[derive(Drop)]
struct Room {
    column: usize,
    skipped: usize,
    left: usize,
}

impl Room {
    // A whole row, for a text without the columns to leave out.
    fn of(columns: usize, skipped: usize) -> Room {
        Room {
            column: 0,
            skipped,
            left: columns,
        }
    }
}

/// The rows of a screen that show lines of the text: all but those below, if there are more.
pub(crate) fn text_rows(size: Size) -> u32 {
    size.rows.saturating_sub(rows_below(size)).max(1)
}

// The rows below the text: one for the file's name or a message, and on most screens one that says what keys do.
fn rows_below(size: Size) -> u32 {
    if size.rows < LEAST_WITH_HINTS { 1 } else { 2 }
}

/// Sets the colours of a screen that was opened.
pub(crate) fn prepare(screen: &mut Screen) {
    if screen.colours() {
        let _ = screen.set_pair(STATUS_PAIR, BLUE, WHITE);
    }
}

/// Draws the editor, and copies the screen's window to the virtual screen. A screen of one row shows messages in place
/// of a line.
pub(crate) fn draw(screen: &mut Screen, editor: &mut Editor) {
    let size = screen.screen();
    let rows = text_rows(size);
    editor.show_cursor();
    let columns = size.columns as usize;
    for row in 0..rows {
        draw_text_row(screen, editor, row, columns);
    }
    let (row, column) = cursor_of(editor, columns);
    let status = size.rows.saturating_sub(rows_below(size));
    let place = if rows < size.rows || editor.is_asking() || !editor.message.is_empty() {
        let end = draw_status(screen, editor, status, columns);
        if editor.is_asking() {
            (status, end)
        } else {
            (row, column)
        }
    } else {
        (row, column)
    };
    if size.rows >= LEAST_WITH_HINTS {
        draw_hints(screen, editor, status.saturating_add(1), columns);
    }
    let _ = screen.move_cursor(Win(0), place.0, place.1);
    let _ = screen.noutrefresh(Win(0));
}

// The row and the column in which the cursor is shown.
fn cursor_of(editor: &Editor, columns: usize) -> (u32, u32) {
    let column = editor.column();
    let shown = column.saturating_sub(first_shown(column, columns));
    let row = editor.cursor.line.saturating_sub(editor.top);
    (low(row), low(shown))
}

// A number of rows or columns; they are at most 500.
fn low(number: usize) -> u32 {
    u32::try_from(number).unwrap_or(0)
}

// Draws the line that a row shows. The cursor's line is shown from where the cursor is within the row.
fn draw_text_row(screen: &mut Screen, editor: &Editor, row: u32, columns: usize) {
    let line = editor.top.saturating_add(row as usize);
    let first = if line == editor.cursor.line {
        first_shown(editor.column(), columns)
    } else {
        0
    };
    let _ = screen.move_cursor(Win(0), row, 0);
    let mut room = Room::of(columns, first);
    if let Some(bytes) = editor.text.line(line) {
        draw_bytes(screen, bytes, &mut room);
    }
    if room.left > 0 {
        let _ = screen.clear_to_eol(Win(0));
    }
}

// Draws bytes from the cursor on, as far as there is room.
fn draw_bytes(screen: &mut Screen, bytes: &[u8], room: &mut Room) {
    let mut rest = bytes;
    for _ in 0..bytes.len() {
        if room.left == 0 {
            return;
        }
        let printable = printable_length(rest);
        if printable > 0 {
            draw_piece(screen, rest.get(..printable).unwrap_or(rest), room);
        }
        let Some((part, after)) = cut_part(rest.get(printable..).unwrap_or(&[])) else {
            return;
        };
        draw_part(screen, part, room);
        rest = after;
    }
}

// Draws a part that is not a printable character of ASCII, if there is room.
fn draw_part(screen: &mut Screen, part: TextPart, room: &mut Room) {
    if room.left == 0 {
        return;
    }
    match part {
        TextPart::Character(character) => draw_character(screen, character, room),
        TextPart::Byte(byte) => draw_form(screen, byte, room),
    }
}

// Draws a character above ASCII, if it is not left out. A terminal that has ASCII alone shows its stand-in.
fn draw_character(screen: &mut Screen, character: char, room: &mut Room) {
    room.column = room.column.saturating_add(1);
    if room.skipped > 0 {
        room.skipped -= 1;
        return;
    }
    let _ = screen.add_character(Win(0), character, Attrs(0));
    room.left = room.left.saturating_sub(1);
}

// Draws the form of a byte that is not printable in bold, to tell it from the same characters in the text. A tab is
// blanks.
fn draw_form(screen: &mut Screen, byte: u8, room: &mut Room) {
    let width = width_at(room.column, TextPart::Byte(byte));
    if byte == b'\t' {
        draw_piece(screen, BLANKS.get(..width).unwrap_or(&BLANKS), room);
        return;
    }
    let form = form_of(byte);
    let _ = screen.attr_on(Win(0), Attrs::BOLD);
    draw_piece(screen, form.get(..width).unwrap_or(&form), room);
    let _ = screen.attr_off(Win(0), Attrs::BOLD);
}

// Draws characters from the cursor on, without those that are left out, as far as there is room.
fn draw_piece(screen: &mut Screen, text: &[u8], room: &mut Room) {
    let skipped = room.skipped.min(text.len());
    let shown = &text[skipped..];
    let count = shown.len().min(room.left);
    let _ = screen.add_text(Win(0), &shown[..count]);
    room.skipped -= skipped;
    room.left -= count;
    room.column = room.column.saturating_add(text.len());
}

// Draws the last row, and gives the column after what it says.
fn draw_status(screen: &mut Screen, editor: &Editor, row: u32, columns: usize) -> u32 {
    let _ = screen.move_cursor(Win(0), row, 0);
    let _ = screen.attr_set(Win(0), Attrs::REVERSE);
    if screen.colours() {
        let _ = screen.color_set(Win(0), STATUS_PAIR);
    }
    let mut room = Room::of(columns, 0);
    if editor.is_asking() {
        draw_question(screen, editor, &mut room);
    } else {
        draw_state(screen, editor, &mut room);
    }
    let end = columns
        .saturating_sub(room.left)
        .min(columns.saturating_sub(1));
    for _ in 0..room.left {
        let _ = screen.add_byte(Win(0), b' ', Attrs(0));
    }
    let _ = screen.attr_set(Win(0), Attrs(0));
    let _ = screen.color_set(Win(0), 0);
    low(end)
}

// Draws what is asked, and what is typed.
fn draw_question(screen: &mut Screen, editor: &Editor, room: &mut Room) {
    let question = if editor.mode == Mode::Find {
        "find: "
    } else {
        "save as: "
    };
    draw_piece(screen, question.as_bytes(), room);
    let most = room.left.saturating_sub(1);
    draw_end(screen, &editor.answer, most, room);
}

// Draws what is said of the last key and the file's name, or else the name and where the cursor is. A star after the
// name says that the text was changed.
fn draw_state(screen: &mut Screen, editor: &Editor, room: &mut Room) {
    if !editor.message.is_empty() {
        draw_piece(screen, editor.message.beginning().as_bytes(), room);
        draw_piece(screen, editor.message.words().as_bytes(), room);
        if editor.message.names_file() {
            draw_named(screen, editor, room);
            return;
        }
        draw_piece(screen, b"  ", room);
        room.column = 0;
        draw_bytes(screen, &editor.name, room);
        draw_mark(screen, editor, room);
        return;
    }
    let half = room.left / 2;
    draw_end(screen, &editor.name, half, room);
    draw_mark(screen, editor, room);
    draw_piece(screen, b"  line ", room);
    draw_number(screen, editor.cursor.line.saturating_add(1), room);
    draw_piece(screen, b" column ", room);
    let before = parts_before(editor.line(), editor.cursor.column);
    draw_number(screen, before.saturating_add(1), room);
}

// Draws the name of the file that the message names.
fn draw_named(screen: &mut Screen, editor: &Editor, room: &mut Room) {
    room.column = 0;
    if let Some(name) = &editor.named {
        draw_bytes(screen, name.as_bytes(), room);
    }
}

// Draws the end of bytes, as much of it as some columns show.
fn draw_end(screen: &mut Screen, bytes: &[u8], columns: usize, room: &mut Room) {
    room.column = 0;
    room.skipped = column_of(bytes, bytes.len()).saturating_sub(columns);
    draw_bytes(screen, bytes, room);
    room.skipped = 0;
}

// Draws the star of a text that was changed.
fn draw_mark(screen: &mut Screen, editor: &Editor, room: &mut Room) {
    if editor.is_changed() {
        draw_piece(screen, b"*", room);
    }
}

// Draws what keys do, as much of it as the row has room for.
fn draw_hints(screen: &mut Screen, editor: &Editor, row: u32, columns: usize) {
    let _ = screen.move_cursor(Win(0), row, 0);
    let mut room = Room::of(columns, 0);
    for &(key, what) in hints_of(editor.mode) {
        let length = key.len().saturating_add(what.len());
        if length >= room.left {
            break;
        }
        let _ = screen.attr_on(Win(0), Attrs::REVERSE);
        draw_piece(screen, key.as_bytes(), &mut room);
        let _ = screen.attr_off(Win(0), Attrs::REVERSE);
        draw_piece(screen, b" ", &mut room);
        draw_piece(screen, what.as_bytes(), &mut room);
        draw_piece(screen, b"  ", &mut room);
    }
    if room.left > 0 {
        let _ = screen.clear_to_eol(Win(0));
    }
}

fn draw_number(screen: &mut Screen, number: usize, room: &mut Room) {
    let mut buffer = itoa::Buffer::new();
    draw_piece(screen, buffer.format(number).as_bytes(), room);
}
