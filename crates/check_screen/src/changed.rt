//! Lines about the columns of each row that a copy may have changed.
ghost use Rattle.std.specs.Prelude.{◌≡◌};

use check_harness::answers::{add_any_place, add_count};
use check_harness::troubles::Trouble;
use check_harness::words::CallLine;
use generated_sessions::bytes_of;
use scr_cells::{Attrs, NoMemory, Size};
use scr_memory::Memory;
use scr_plan::{plan, up_to_date_laws};
use scr_term::{Ops, Profile};
use scr_virtual::Virtual;
use scr_windows::{Desk, Win, WinFault};
use std::alloc::Global;

/// The line `changed R C ROWS COLUMNS ROW COLUMN BYTE`: a virtual screen of R rows and C columns to which the first
/// window is copied, and which is settled then, as by an update that ends well; then a new window is copied, of so many
/// rows and columns at a row and a column, whose first place has this byte. Adds for each row of the screen the first
/// and the last column that may have changed since, and the first and the last that may look otherwise, or `none`; then
/// how many bytes a plan of the bundled entry sends where nothing is known of the terminal.
pub fn check_changed(line: &mut CallLine<'_>) -> Result<(), Trouble> {
    let size = line.words.size()?;
    let done = match Desk::new(line.alloc, size) {
        Ok(mut desk) => copy_on(&mut desk, size, line),
        Err(_) => Err(Trouble::NoMemory),
    };
    if let Err(Trouble::NoMemory) = done {
        line.refuse();
        return Ok(());
    }
    done
}

// The same with the windows of a desk, and a virtual screen of its size.
fn copy_on(desk: &mut Desk, size: Size, line: &mut CallLine<'_>) -> Result<(), Trouble> {
    let mut screen = Virtual::new(line.alloc, size)?;
    copy_both(desk, &mut screen, line)
}

// Copies the first window, settles, copies a new one, and adds what may have changed since, and how many bytes a plan
// sends.
fn copy_both(
    desk: &mut Desk,
    screen: &mut Virtual,
    line: &mut CallLine<'_>,
) -> Result<(), Trouble> {
    take(screen, desk, Win(0))?;
    screen.settle();
    let win = add_window(desk, line)?;
    take(screen, desk, win)?;
    for row in 0..screen.size().rows {
        for range in [screen.changed(row), screen.altered(row)] {
            add_any_place(range, &mut line.got);
        }
    }
    let Ok(profile) = Profile::ecma48(line.alloc, screen.size()) else {
        return Err(Trouble::NoMemory);
    };
    let ops = planned(line.alloc, &profile, screen)?;
    add_count(bytes_of(&profile, &ops.0) as u64, &mut line.got);
    Ok(())
}

// Makes the window that a line tells, with a byte in its first place.
fn add_window(desk: &mut Desk, line: &mut CallLine<'_>) -> Result<Win, Trouble> {
    let words = &mut line.words;
    let (rows, columns) = (words.number(), words.number());
    let (row, column) = (words.number(), words.number());
    match desk.new_window(line.alloc, rows, columns, row, column) {
        Ok(win) if desk.add_byte(win, words.byte(), Attrs(0)).is_ok() => Ok(win),
        Err(WinFault::NoMemory) => Err(Trouble::NoMemory),
        _ => Err(Trouble::Bad("no such window, or no byte for it")),
    }
}

// Copies a window to a screen of the same size.
fn take(screen: &mut Virtual, desk: &mut Desk, win: Win) -> Result<(), Trouble> {
    let (size, other) = (screen.size(), desk.screen());
    if size.rows != other.rows || size.columns != other.columns {
        return Err(Trouble::Bad("the screen has another size"));
    }
    match screen.take_window(desk, win) {
        Ok(()) => Ok(()),
        Err(_) => Err(Trouble::Bad("no such window")),
    }
}

// A plan on a terminal of which nothing is known.
fn planned(alloc: Global, profile: &Profile, screen: &Virtual) -> Result<Ops, NoMemory>
    requires rows { profile.now.rows ≡ screen.now.picture.rows }
    requires columns { profile.now.columns ≡ screen.now.picture.columns }
{
    let _profile = profile.size();
    let memory = Memory::unknown(alloc, screen.size())?;
    up_to_date_laws();
    plan(alloc, profile, &memory, screen)
}
