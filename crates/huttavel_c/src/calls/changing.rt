//! Calls on windows that give nothing: each is one call of `curses::Screen`.
ghost use Rattle.std.specs.Prelude.{◌≡◌, if◌then◌else◌};
ghost use Rattle.scr_virtual.specs.Pairs.{set_pair_of_call};
ghost use Rattle.scr_windows.specs.Calls.Erasing.{clear_to_eol_call};
ghost use Rattle.scr_windows.specs.Calls.Scrolling.{delete_byte_call, insert_delete_lines_call, scroll_call};
ghost use Rattle.scr_windows.specs.Calls.Settings.{color_set_call, move_cursor_call, set_region_call};
ghost use Rattle.scr_windows.specs.Calls.Touching.{touch_all_call};
ghost use Rattle.huttavel_c.specs.Asking.{Asked, on_virtual, on_windows};
ghost use Rattle.huttavel_c.specs.Families.{number_call, setting_call, window_call};
ghost use Rattle.huttavel_c.specs.Replies.{done_number};
ghost use Rattle.huttavel_c.specs.Showing.{colour_given};

use crate::answers::{DEFAULT_COLOUR, done};
use crate::faults::CLOSED;
use crate::handles::Handle;
use curses::{Attrs, Win};

/// A call on a window with nothing more, by its number in `enum window_call` of `held.h`. Refused: CLOSED; as the call.
#[unsafe(no_mangle)]
#[tactic(auto, unfolding(crate::specs::Families::window_call))]
pub extern "C" fn huttavel_held_on_window(handle: &mut Handle, window: u32, kind: u32) -> u32
    ensures { Asked (window_call kind window) done_number 1 handle.old.held.value handle.new.held.value result }
{
    handle.lend(CLOSED, |session| match kind {
        0 => done(session.screen.delete(Win(window))),
        1 => done(session.screen.clear_to_bottom(Win(window))),
        2 => done(session.screen.erase(Win(window))),
        3 => done(session.screen.clear(Win(window))),
        4 => done(session.screen.sync_up(Win(window))),
        5 => done(session.screen.sync_down(Win(window))),
        6 => done(session.screen.noutrefresh(Win(window))),
        _ => done(session.screen.redraw_window(Win(window))),
    })
}

/// Touches all lines of a window, by `Screen::touch_window`, or untouches them, by `Screen::untouch`. Refused: CLOSED;
/// NO_WINDOW.
#[unsafe(no_mangle)]
pub extern "C" fn huttavel_held_touch(handle: &mut Handle, window: u32, touched: bool) -> u32
    ensures { Asked (λ screen. on_windows screen (touch_all_call screen.desk window touched)) done_number 1 handle.old.held.value handle.new.held.value result }
{
    handle.lend(CLOSED, |session| match touched {
        true => done(session.screen.touch_window(Win(window))),
        false => done(session.screen.untouch(Win(window))),
    })
}

/// Deletes the byte at the cursor, by `Screen::delete_byte`, or erases to the end of the line, by
/// `Screen::clear_to_eol`. Refused: CLOSED; NO_WINDOW.
#[unsafe(no_mangle)]
pub extern "C" fn huttavel_held_cut_line(handle: &mut Handle, window: u32, deletes: bool) -> u32
    ensures { Asked (λ screen. on_windows screen (if deletes then delete_byte_call screen.desk window else clear_to_eol_call screen.desk window)) done_number 1 handle.old.held.value handle.new.held.value result }
{
    handle.lend(CLOSED, |session| match deletes {
        true => done(session.screen.delete_byte(Win(window))),
        false => done(session.screen.clear_to_eol(Win(window))),
    })
}

/// Moves the cursor of a window to a row and a column of it, by `Screen::move_cursor`: called so often that it has a
/// function of its own. Refused: CLOSED; NO_WINDOW; OUT_OF_WINDOW.
#[unsafe(no_mangle)]
pub extern "C" fn huttavel_held_move_cursor(
    handle: &mut Handle,
    window: u32,
    row: u32,
    column: u32,
) -> u32
    ensures { Asked (λ screen. on_windows screen (move_cursor_call screen.desk window row column)) done_number 1 handle.old.held.value handle.new.held.value result }
{
    handle.lend(CLOSED, |session| {
        done(session.screen.move_cursor(Win(window), row, column))
    })
}

/// A call on a window with two numbers, by its number in `enum number_call`. Refused: CLOSED; as the call.
#[unsafe(no_mangle)]
#[tactic(auto, unfolding(crate::specs::Families::number_call))]
pub extern "C" fn huttavel_held_with_numbers(
    handle: &mut Handle,
    window: u32,
    first: u32,
    second: u32,
    kind: u32,
) -> u32
    ensures { Asked (number_call kind window first second) done_number 1 handle.old.held.value handle.new.held.value result }
{
    handle.lend(CLOSED, |session| {
        let (screen, win) = (&mut session.screen, Win(window));
        match kind {
            0 => done(screen.move_window(win, first, second)),
            1 => done(screen.move_derived(win, first, second)),
            2 => done(screen.touch_lines(win, first, second, true)),
            3 => done(screen.touch_lines(win, first, second, false)),
            _ => done(screen.redraw_lines(win, first, second)),
        }
    })
}

/// Sets the first and the last row of the scrolling region, by `Screen::set_region`. Refused: CLOSED; NO_WINDOW;
/// BAD_REGION.
#[unsafe(no_mangle)]
pub extern "C" fn huttavel_held_set_region(
    handle: &mut Handle,
    window: u32,
    top: u32,
    bottom: u32,
) -> u32
    ensures { Asked (λ screen. on_windows screen (set_region_call screen.desk window top bottom)) done_number 1 handle.old.held.value handle.new.held.value result }
{
    handle.lend(CLOSED, |session| {
        done(session.screen.set_region(Win(window), top, bottom))
    })
}

/// Sets the colour pair that bytes are written with, by `Screen::color_set`. Refused: CLOSED; NO_WINDOW; BAD_PAIR.
#[unsafe(no_mangle)]
pub extern "C" fn huttavel_held_color_set(handle: &mut Handle, window: u32, pair: u32) -> u32
    ensures { Asked (λ screen. on_windows screen (color_set_call screen.desk window pair)) done_number 1 handle.old.held.value handle.new.held.value result }
{
    handle.lend(CLOSED, |session| {
        done(session.screen.color_set(Win(window), pair))
    })
}

/// Sets the colours of a pair, by `Screen::set_pair_of`; the number `DEFAULT_COLOUR` stands for the terminal's default.
/// Refused: CLOSED; BAD_PAIR; BAD_COLOUR.
#[unsafe(no_mangle)]
pub extern "C" fn huttavel_held_set_pair(
    handle: &mut Handle,
    pair: u32,
    foreground: u32,
    background: u32,
) -> u32
    ensures { Asked (λ screen. on_virtual screen (set_pair_of_call screen.virtual pair (colour_given foreground) (colour_given background))) done_number 1 handle.old.held.value handle.new.held.value result }
{
    handle.lend(CLOSED, |session| {
        done(
            session
                .screen
                .set_pair_of(pair, colour_given(foreground), colour_given(background)),
        )
    })
}

// The colour that a number is given for.
fn colour_given(number: u32) -> Option<u32>
    ensures { result ≡ colour_given number }
{
    if number == DEFAULT_COLOUR {
        None
    } else {
        Some(number)
    }
}

/// A setting of a window, by its number in `enum setting_call`: attributes as bits, or 0 for off and another number for
/// on. Refused: CLOSED; NO_WINDOW.
#[unsafe(no_mangle)]
#[tactic(auto, unfolding(crate::specs::Families::setting_call))]
pub extern "C" fn huttavel_held_set(handle: &mut Handle, window: u32, bits: u8, kind: u32) -> u32
    ensures { Asked (setting_call kind window bits) done_number 1 handle.old.held.value handle.new.held.value result }
{
    handle.lend(CLOSED, |session| match kind {
        0 => done(session.screen.scroll_ok(Win(window), bits != 0)),
        1 => done(session.screen.clear_ok(Win(window), bits != 0)),
        2 => done(session.screen.leave_ok(Win(window), bits != 0)),
        3 => done(session.screen.attr_on(Win(window), Attrs(bits))),
        4 => done(session.screen.attr_off(Win(window), Attrs(bits))),
        _ => done(session.screen.attr_set(Win(window), Attrs(bits))),
    })
}

/// Inserts `n` lines at the cursor's row or deletes `-n`, by `Screen::insert_delete_lines`; or moves the lines of the
/// scrolling region up by `n` or down by `-n`, by `Screen::scroll`. Refused: CLOSED; NO_WINDOW; NO_SCROLL.
#[unsafe(no_mangle)]
pub extern "C" fn huttavel_held_move_lines(
    handle: &mut Handle,
    window: u32,
    n: i32,
    scrolls: bool,
) -> u32
    ensures { Asked (λ screen. on_windows screen (if scrolls then scroll_call screen.desk window n else insert_delete_lines_call screen.desk window n)) done_number 1 handle.old.held.value handle.new.held.value result }
{
    handle.lend(CLOSED, |session| match scrolls {
        true => done(session.screen.scroll(Win(window), n)),
        false => done(session.screen.insert_delete_lines(Win(window), n)),
    })
}
