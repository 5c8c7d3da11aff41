//! All that can be seen of an entry, a picture, and a screen with its terminal, as bytes, so that a refused call can be
//! shown to have changed nothing.

use crate::pictures::{add_wish, row_of};
use crate::terminals::{add_size, dump_looks};
use crate::windows::{FIELDS, add_field};
use check_harness::answers::{add_any, add_flag, add_number, add_text};
use check_harness::buffers::Buffer;
use generated_sessions::{Recorded, add_spot, is_touched, line_of};
use scr_cells::{Cell, Picture};
use scr_windows::WindowRef;
use ti_caps::{Entry, Slot};

/// Adds its names and what is at each position of each kind.
pub fn dump_entry(entry: &Entry, bytes: &mut Buffer) {
    add_text(entry.names(), bytes);
    for position in 0..512u16 {
        let slot = Slot(position);
        add_flag(entry.flag(slot), bytes);
        add_any(
            entry.number(slot),
            bytes,
            |number, bytes| add_number(i64::from(number), bytes),
        );
        add_any(entry.text(slot), bytes, add_text);
    }
}

/// Adds its cells, its pairs and its wish.
pub fn dump_picture(picture: &Picture, bytes: &mut Buffer) {
    for row in 0..picture.size().rows {
        dump_cells(row_of(picture, row), bytes);
    }
    for pair in 1..64 {
        let (foreground, background) = picture.pair_of(pair).unwrap_or((None, None));
        bytes.extend(&[foreground.unwrap_or(u8::MAX), background.unwrap_or(u8::MAX)]);
    }
    add_wish(picture, bytes);
}

// Adds what cells hold.
fn dump_cells(cells: &[Cell], bytes: &mut Buffer) {
    for cell in cells {
        bytes.extend(&[cell.stand_in(), cell.attrs().0]);
        bytes.push(u8::try_from(cell.pair()).unwrap_or(u8::MAX));
    }
}

/// Adds the windows, the picture, what the terminal shows, and what the writer accepted.
pub fn dump_screen(opened: &Recorded, bytes: &mut Buffer) {
    let (screen, emulated) = (&opened.screen, &opened.emulated);
    add_size(screen.screen(), bytes);
    for index in 0..screen.count() {
        if let Some(win) = screen.nth(index)
            && let Ok(window) = screen.window(win)
        {
            add_number(i64::from(win.0), bytes);
            dump_window(&window, bytes);
        }
    }
    dump_picture(screen.picture(), bytes);
    for row in 0..emulated.size().rows {
        dump_looks(emulated.row(row), bytes);
    }
    add_spot(emulated.spot(), bytes);
    opened.dump_writer(bytes);
}

// Adds what a window tells, its cells, and which of its lines are touched.
fn dump_window(window: &WindowRef<'_>, bytes: &mut Buffer) {
    for name in FIELDS.split(' ') {
        let _added = add_field(window, name, bytes);
    }
    let (rows, _) = window.size();
    for row in 0..rows {
        bytes.push(u8::from(is_touched(window, row)));
        dump_cells(line_of(window, row), bytes);
    }
}
