//! Writing bytes, lines and borders, and backgrounds: each is the call of `curses::Screen` that it names.
ghost use Rattle.std.specs.Prelude.{[], ◌∷◌, ◌≡◌, if◌then◌else◌};
ghost use Rattle.scr_windows.specs.Calls.Adding.{add_byte_call, add_text_call, insert_byte_call, line_across_call, line_down_call};
ghost use Rattle.scr_windows.specs.Calls.Borders.{border_call};
ghost use Rattle.huttavel_c.specs.Asking.{Asked, on_windows};
ghost use Rattle.huttavel_c.specs.Characters.{Answers};
ghost use Rattle.huttavel_c.specs.Giving.{background_call, cell_given, unchanged, with_given};
ghost use Rattle.huttavel_c.specs.Replies.{added_reply, done_number, refused};

use crate::answers::{Reply, added, done, refused};
use crate::faults::{BAD_PAIR, CLOSED, NOT_ASCII};
use crate::handles::Handle;
use crate::sessions::Session;
use curses::{Attrs, Cell, Win};
use scr_cells::is_ascii;

// The cell of a byte, attributes and a pair, or the number of the fault that there is none.
fn cell_of(byte: u8, attrs: u8, pair: u32) -> Result<Cell, u32>
    ensures { result ≡ cell_given byte attrs pair }
{
    if !is_ascii(byte) {
        return Err(NOT_ASCII);
    }
    match Cell::paired(byte, Attrs(attrs), pair) {
        Some(cell) => Ok(cell),
        None => Err(BAD_PAIR),
    }
}

impl Session {
    // `Screen::change_background`, or `Screen::set_background`, of a cell if one is given.
    pub(crate) fn background(&mut self, window: u32, given: Result<Cell, u32>, changes: bool) -> u32
        ensures { Answers (λ screen. on_windows screen (with_given (background_call changes screen.desk window) screen.desk given)) unchanged self.old self.new result }
    {
        match (given, changes) {
            (Ok(cell), true) => done(self.screen.change_background(Win(window), cell)),
            (Ok(cell), false) => done(self.screen.set_background(Win(window), cell)),
            (Err(fault), _) => fault,
        }
    }
}

/// Adds a byte at the cursor, with attributes as bits; gives 1 if a next line was needed and there was none, else 0, by
/// `Screen::add_byte`. Refused: CLOSED; NO_WINDOW; NOT_ASCII.
#[unsafe(no_mangle)]
pub extern "C" fn huttavel_held_add_byte(
    handle: &mut Handle,
    window: u32,
    byte: u8,
    attrs: u8,
) -> Reply
    ensures { Asked (λ screen. on_windows screen (add_byte_call screen.desk window byte (record { 0 = attrs }))) added_reply (refused 1) handle.old.held.value handle.new.held.value result }
{
    handle.lend(refused(CLOSED), |session| {
        added(session.screen.add_byte(Win(window), byte, Attrs(attrs)))
    })
}

/// Adds the bytes of a text; gives 1 if a next line was needed and there was none, else 0, by `Screen::add_text`.
/// Refused: CLOSED; NO_WINDOW; NOT_ASCII.
#[unsafe(no_mangle)]
pub extern "C" fn huttavel_held_add_text(handle: &mut Handle, window: u32, text: &[u8]) -> Reply
    ensures { Asked (λ screen. on_windows screen (add_text_call screen.desk window text.now)) added_reply (refused 1) handle.old.held.value handle.new.held.value result }
{
    handle.lend(refused(CLOSED), |session| {
        added(session.screen.add_text(Win(window), text))
    })
}

/// Inserts a byte 32 to 126 at the cursor, with attributes as bits, by `Screen::insert_byte`. Refused: CLOSED;
/// NO_WINDOW; NOT_ASCII.
#[unsafe(no_mangle)]
pub extern "C" fn huttavel_held_insert_byte(
    handle: &mut Handle,
    window: u32,
    byte: u8,
    attrs: u8,
) -> u32
    ensures { Asked (λ screen. on_windows screen (insert_byte_call screen.desk window byte (record { 0 = attrs }))) done_number 1 handle.old.held.value handle.new.held.value result }
{
    handle.lend(CLOSED, |session| {
        done(session.screen.insert_byte(Win(window), byte, Attrs(attrs)))
    })
}

/// Writes a byte 32 to 126 in `n` places from the cursor down, by `Screen::line_down`, or to the right, by
/// `Screen::line_across`. Refused: CLOSED; NO_WINDOW; NOT_ASCII.
#[unsafe(no_mangle)]
pub extern "C" fn huttavel_held_line(
    handle: &mut Handle,
    window: u32,
    byte: u8,
    n: u32,
    down: bool,
) -> u32
    ensures { Asked (λ screen. on_windows screen (if down then line_down_call screen.desk window byte n else line_across_call screen.desk window byte n)) done_number 1 handle.old.held.value handle.new.held.value result }
{
    handle.lend(CLOSED, |session| match down {
        true => done(session.screen.line_down(Win(window), byte, n)),
        false => done(session.screen.line_across(Win(window), byte, n)),
    })
}

/// Writes bytes 32 to 126 along the edges and in the corners, by `Screen::border`. Refused: CLOSED; NO_WINDOW;
/// NOT_ASCII.
#[unsafe(no_mangle)]
pub extern "C" fn huttavel_held_border(
    handle: &mut Handle,
    window: u32,
    left: u8,
    right: u8,
    top: u8,
    bottom: u8,
    top_left: u8,
    top_right: u8,
    bottom_left: u8,
    bottom_right: u8,
) -> u32
    ensures { Asked (λ screen. on_windows screen (border_call screen.desk window (left ∷ right ∷ top ∷ bottom ∷ top_left ∷ top_right ∷ bottom_left ∷ bottom_right ∷ []))) done_number 1 handle.old.held.value handle.new.held.value result }
{
    handle.lend(CLOSED, |session| {
        let bytes = [
            left,
            right,
            top,
            bottom,
            top_left,
            top_right,
            bottom_left,
            bottom_right,
        ];
        done(session.screen.border(Win(window), bytes))
    })
}

/// Sets the background of a window and changes no cell, by `Screen::set_background`, or replaces the old one in every
/// cell, by `Screen::change_background`. The cell is given by its byte, its attributes as bits, and its colour pair.
/// Refused: CLOSED; NOT_ASCII if the byte is not 32 to 126; BAD_PAIR for a pair above 63; NO_WINDOW.
#[unsafe(no_mangle)]
pub extern "C" fn huttavel_held_background(
    handle: &mut Handle,
    window: u32,
    byte: u8,
    attrs: u8,
    pair: u32,
    changes: bool,
) -> u32
    ensures { Asked (λ screen. on_windows screen (with_given (background_call changes screen.desk window) screen.desk (cell_given byte attrs pair))) unchanged 1 handle.old.held.value handle.new.held.value result }
{
    let given = cell_of(byte, attrs, pair);
    handle.lend(CLOSED, |session| session.background(window, given, changes))
}
