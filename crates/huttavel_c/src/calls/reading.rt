//! What is asked of windows and of the screen: each is one call of `curses::Screen`.
ghost use Rattle.std.specs.Prelude.{◌≡◌, ◌≤◌, length, if◌then◌else◌};
ghost use Rattle.scr_term.specs.Operations.Profiles.{has_colours, shown_set};
ghost use Rattle.scr_windows.specs.Calls.Reading.{cell_at_answer, line_touched_answer, nth_answer, window_answer, window_touched_answer};
ghost use Rattle.huttavel_c.specs.Asking.{Asked, reading};
ghost use Rattle.huttavel_c.specs.Families.{window_reply};
ghost use Rattle.huttavel_c.specs.Giving.{unchanged};
ghost use Rattle.huttavel_c.specs.Lending.{lent_reply, property_of_lent, setting_of_lent};
ghost use Rattle.huttavel_c.specs.Replies.{as_number, refused, seen_reply, touched_reply, with_cell, with_one, with_two};
ghost use Rattle.huttavel_c.specs.Showing.{colour_number, colours_of, cursor_reply, nth_reply, wanted_reply};

use crate::answers::{DEFAULT_COLOUR, Reply, one, pair, refused, seen, three, touched, two};
use crate::faults::{BAD_PAIR, CLOSED, NO_CURSOR, NO_PARENT, NO_WINDOW, OFF_SCREEN, window_number};
use crate::handles::Handle;
use curses::{Picture, Win, WindowRef};

// What calls have set in a window that is lent.
#[tactic(auto, unfolding(crate::specs::Lending::property_of_lent))]
fn property_of_lent(lent: &WindowRef<'_>, kind: u32) -> Reply
    ensures { result ≡ property_of_lent kind lent.now }
{
    match kind {
        0 => two((u32::from(lent.attrs().0), lent.pair())),
        1 => match lent.parent() {
            Some(window) => one(window.0),
            None => refused(NO_PARENT),
        },
        _ => two(lent.region()),
    }
}

// The settings of a window that is lent which are on or off.
#[tactic(auto, unfolding(crate::specs::Lending::setting_of_lent))]
fn setting_of_lent(lent: &WindowRef<'_>, kind: u32) -> Reply
    ensures { result ≡ setting_of_lent kind lent.now }
{
    match kind {
        0 => one(u32::from(lent.scroll_ok())),
        1 => one(u32::from(lent.clear_ok())),
        _ => one(u32::from(lent.leave_ok())),
    }
}

// The cell at a place of what is wanted.
fn cell(picture: &Picture, row: u32, column: u32) -> Reply
    ensures { result ≡ wanted_reply picture.now row column }
{
    let size = picture.size();
    if row < size.rows && column < size.columns {
        three(picture.row(row)[column as usize])
    } else {
        refused(OFF_SCREEN)
    }
}

/// The size, the cursor or the first place of a window, by its number in `enum window_question` of `held.h`. Refused:
/// CLOSED; NO_WINDOW; IS_PAD of the place.
#[unsafe(no_mangle)]
#[tactic(auto, unfolding(crate::specs::Families::window_reply))]
pub extern "C" fn huttavel_held_ask_window(handle: &mut Handle, window: u32, kind: u32) -> Reply
    ensures { Asked (λ screen. reading screen (window_reply kind window screen.desk)) unchanged (refused 1) handle.old.held.value handle.new.held.value result }
{
    handle.lend(refused(CLOSED), |session| match kind {
        0 => pair(session.screen.size(Win(window))),
        1 => pair(session.screen.cursor(Win(window))),
        _ => pair(session.screen.origin(Win(window))),
    })
}

/// The attributes and the pair that bytes are written with in a window, its parent, or its scrolling region, by its
/// number in `enum property`. Refused: CLOSED; NO_WINDOW; NO_PARENT of a window that is not a subwindow.
#[unsafe(no_mangle)]
pub extern "C" fn huttavel_held_property(handle: &mut Handle, window: u32, kind: u32) -> Reply
    ensures { Asked (λ screen. reading screen (lent_reply (property_of_lent kind) (window_answer screen.desk window))) unchanged (refused 1) handle.old.held.value handle.new.held.value result }
{
    handle.lend(refused(CLOSED), |session| {
        match session.screen.window(Win(window)) {
            Ok(lent) => property_of_lent(&lent, kind),
            Err(fault) => refused(window_number(fault)),
        }
    })
}

/// Whether a setting of a window is on, by its number in `enum on_or_off`. Refused: CLOSED; NO_WINDOW.
#[unsafe(no_mangle)]
pub extern "C" fn huttavel_held_is_on(handle: &mut Handle, window: u32, kind: u32) -> Reply
    ensures { Asked (λ screen. reading screen (lent_reply (setting_of_lent kind) (window_answer screen.desk window))) unchanged (refused 1) handle.old.held.value handle.new.held.value result }
{
    handle.lend(refused(CLOSED), |session| {
        match session.screen.window(Win(window)) {
            Ok(lent) => setting_of_lent(&lent, kind),
            Err(fault) => refused(window_number(fault)),
        }
    })
}

/// The background of a window. Refused: CLOSED; NO_WINDOW.
#[unsafe(no_mangle)]
pub extern "C" fn huttavel_held_background_of(handle: &mut Handle, window: u32) -> Reply
    ensures { Asked (λ screen. reading screen (lent_reply (λ lent. with_cell lent.window.state.background) (window_answer screen.desk window))) unchanged (refused 1) handle.old.held.value handle.new.held.value result }
{
    handle.lend(refused(CLOSED), |session| {
        match session.screen.window(Win(window)) {
            Ok(lent) => three(lent.background()),
            Err(fault) => refused(window_number(fault)),
        }
    })
}

/// The cell at a row and a column of a window, by `Screen::cell_at`. Refused: CLOSED; NO_WINDOW; OUT_OF_WINDOW.
#[unsafe(no_mangle)]
pub extern "C" fn huttavel_held_cell_at(
    handle: &mut Handle,
    window: u32,
    row: u32,
    column: u32,
) -> Reply
    ensures { Asked (λ screen. reading screen (cell_at_answer screen.desk window row column)) seen_reply (refused 1) handle.old.held.value handle.new.held.value result }
{
    handle.lend(refused(CLOSED), |session| {
        seen(session.screen.cell_at(Win(window), row, column))
    })
}

/// Whether a line is touched, by `Screen::line_touched`. Refused: CLOSED; NO_WINDOW; OUT_OF_WINDOW.
#[unsafe(no_mangle)]
pub extern "C" fn huttavel_held_line_touched(handle: &mut Handle, window: u32, row: u32) -> Reply
    ensures { Asked (λ screen. reading screen (line_touched_answer screen.desk window row)) touched_reply (refused 1) handle.old.held.value handle.new.held.value result }
{
    handle.lend(refused(CLOSED), |session| {
        touched(session.screen.line_touched(Win(window), row))
    })
}

/// Whether any line is touched, by `Screen::window_touched`. Refused: CLOSED; NO_WINDOW.
#[unsafe(no_mangle)]
pub extern "C" fn huttavel_held_window_touched(handle: &mut Handle, window: u32) -> Reply
    ensures { Asked (λ screen. reading screen (window_touched_answer screen.desk window)) touched_reply (refused 1) handle.old.held.value handle.new.held.value result }
{
    handle.lend(refused(CLOSED), |session| {
        touched(session.screen.window_touched(Win(window)))
    })
}

/// How many windows there are. Refused: CLOSED.
#[unsafe(no_mangle)]
pub extern "C" fn huttavel_held_window_count(handle: &mut Handle) -> Reply
    ensures { Asked (λ screen. reading screen (length screen.desk.windows)) with_one (refused 1) handle.old.held.value handle.new.held.value result }
{
    handle.lend(refused(CLOSED), |session| {
        one(session.screen.count() as u32)
    })
}

/// Whether the terminal shows colours, or which attributes it shows. Refused: CLOSED.
#[unsafe(no_mangle)]
pub extern "C" fn huttavel_held_shows(handle: &mut Handle, colours: bool) -> Reply
    ensures { Asked (λ screen. reading screen (if colours then as_number (has_colours screen.profile) else shown_set screen.profile)) with_one (refused 1) handle.old.held.value handle.new.held.value result }
{
    handle.lend(refused(CLOSED), |session| match colours {
        true => one(u32::from(session.screen.colours())),
        false => one(u32::from(session.screen.shows().0)),
    })
}

/// The rows and the columns of the screen. Refused: CLOSED.
#[unsafe(no_mangle)]
pub extern "C" fn huttavel_held_screen_size(handle: &mut Handle) -> Reply
    ensures { Asked (λ screen. reading screen ((screen.desk.rows, screen.desk.columns))) with_two (refused 1) handle.old.held.value handle.new.held.value result }
{
    handle.lend(refused(CLOSED), |session| {
        let size = session.screen.screen();
        two((size.rows, size.columns))
    })
}

/// The window at an index, by `Screen::nth`. Refused: CLOSED; NO_WINDOW past the last index.
#[unsafe(no_mangle)]
pub extern "C" fn huttavel_held_nth_window(handle: &mut Handle, index: u32) -> Reply
    ensures { Asked (λ screen. reading screen (nth_answer screen.desk index)) nth_reply (refused 1) handle.old.held.value handle.new.held.value result }
{
    handle.lend(refused(CLOSED), |session| {
        match session.screen.nth(index as usize) {
            Some(window) => one(window.0),
            None => refused(NO_WINDOW),
        }
    })
}

/// The colours of a pair; `DEFAULT_COLOUR` is the terminal's default. Refused: CLOSED; BAD_PAIR.
#[unsafe(no_mangle)]
pub extern "C" fn huttavel_held_pair_colours(handle: &mut Handle, pair: u32) -> Reply
    ensures { Asked (λ screen. reading screen (colours_of screen.virtual.picture.pairs pair)) unchanged (refused 1) handle.old.held.value handle.new.held.value result }
{
    handle.lend(refused(CLOSED), |session| {
        match session.screen.picture().pair_of(pair) {
            Some((foreground, background)) => {
                two((colour_number(foreground), colour_number(background)))
            }
            None => refused(BAD_PAIR),
        }
    })
}

// The number of a colour.
fn colour_number(colour: Option<u8>) -> u32
    ensures { result ≡ colour_number colour }
{
    match colour {
        Some(colour) => u32::from(colour),
        None => DEFAULT_COLOUR,
    }
}

/// The cell that the next update brings the terminal to at a place of the screen. Refused: CLOSED; OFF_SCREEN.
#[unsafe(no_mangle)]
pub extern "C" fn huttavel_held_wanted_cell(handle: &mut Handle, row: u32, column: u32) -> Reply
    ensures { Asked (λ screen. reading screen (wanted_reply screen.virtual.picture row column)) unchanged (refused 1) handle.old.held.value handle.new.held.value result }
{
    handle.lend(refused(CLOSED), |session| {
        cell(session.screen.picture(), row, column)
    })
}

/// Where the next update wants the cursor. Refused: CLOSED; NO_CURSOR if it is wanted nowhere.
#[unsafe(no_mangle)]
pub extern "C" fn huttavel_held_wanted_cursor(handle: &mut Handle) -> Reply
    ensures { Asked (λ screen. reading screen (screen.virtual.picture.wish)) cursor_reply (refused 1) handle.old.held.value handle.new.held.value result }
{
    handle.lend(refused(CLOSED), |session| {
        match session.screen.picture().wish() {
            Some(place) => two(place),
            None => refused(NO_CURSOR),
        }
    })
}
