//! Making windows, giving them another size, and copying from one to another: each is one call of `curses::Screen`.
ghost use Rattle.scr_windows.specs.Calls.Copying.{copy_call, overlay_call};
ghost use Rattle.scr_windows.specs.Calls.Resizing.{resize_window_call};
ghost use Rattle.scr_virtual.specs.Taking.{take_pad_call};
ghost use Rattle.huttavel_c.specs.Asking.{Asked, AskedForMemory, on_both, on_windows};
ghost use Rattle.huttavel_c.specs.Families.{making_call};
ghost use Rattle.huttavel_c.specs.Replies.{done_number, made_reply, refused};

use crate::answers::{Reply, done, made, refused};
use crate::faults::CLOSED;
use crate::handles::Handle;
use curses::Win;
use std::alloc::Global;

/// Makes a window by the call of this number in `enum making_call` of `held.h`, and gives the window's number. The
/// first two make one of the screen's own and take no window. Refused: CLOSED; as the call.
#[unsafe(no_mangle)]
#[tactic(auto, unfolding(crate::specs::Families::making_call))]
pub extern "C" fn huttavel_held_make(
    alloc: Global,
    handle: &mut Handle,
    window: u32,
    rows: u32,
    columns: u32,
    row: u32,
    column: u32,
    kind: u32,
) -> Reply
    ensures { AskedForMemory (making_call kind window rows columns row column) made_reply (refused 4) (refused 1) handle.old.held.value handle.new.held.value result }
{
    handle.lend(refused(CLOSED), |session| {
        let screen = &mut session.screen;
        match kind {
            0 => made(screen.new_window(alloc, rows, columns, row, column)),
            1 => made(screen.new_pad(alloc, rows, columns)),
            2 => made(screen.derive(alloc, Win(window), rows, columns, row, column)),
            3 => made(screen.sub(alloc, Win(window), rows, columns, row, column)),
            _ => made(screen.sub_pad(alloc, Win(window), rows, columns, row, column)),
        }
    })
}

/// Gives a window another size, by `Screen::resize_window`. Refused: CLOSED; NO_WINDOW; HAS_CHILDREN; OUT_OF_WINDOW;
/// OFF_SCREEN; NOT_IN_PARENT; TOO_BIG; NO_MEMORY.
#[unsafe(no_mangle)]
pub extern "C" fn huttavel_held_resize_window(
    alloc: Global,
    handle: &mut Handle,
    window: u32,
    rows: u32,
    columns: u32,
) -> u32
    ensures { AskedForMemory (λ screen. on_windows screen (resize_window_call screen.desk window rows columns)) done_number 4 1 handle.old.held.value handle.new.held.value result }
{
    handle.lend(CLOSED, |session| {
        let screen = &mut session.screen;
        done(screen.resize_window(alloc, Win(window), rows, columns))
    })
}

/// Copies cells of the source, from a row and a column on, to a rectangle of the target; with `overlay` all but blanks,
/// by `Screen::copy`. Refused: CLOSED; NO_WINDOW; OUT_OF_WINDOW; NO_MEMORY.
#[unsafe(no_mangle)]
pub extern "C" fn huttavel_held_copy(
    alloc: Global,
    handle: &mut Handle,
    source: u32,
    target: u32,
    row: u32,
    column: u32,
    top: u32,
    left: u32,
    bottom: u32,
    right: u32,
    overlay: bool,
) -> u32
    ensures { AskedForMemory (λ screen. on_windows screen (copy_call screen.desk source target row column top left bottom right overlay)) done_number 4 1 handle.old.held.value handle.new.held.value result }
{
    handle.lend(CLOSED, |session| {
        let (from, to) = (Win(source), Win(target));
        let copied = session.screen.copy(
            alloc, from, to, row, column, top, left, bottom, right, overlay,
        );
        done(copied)
    })
}

/// Copies where two windows cover the same part of the screen: all but blanks by `Screen::overlay`, or all cells by
/// `Screen::overwrite`. Refused: CLOSED; NO_WINDOW; IS_PAD; NO_MEMORY.
#[unsafe(no_mangle)]
pub extern "C" fn huttavel_held_copy_common(
    alloc: Global,
    handle: &mut Handle,
    source: u32,
    target: u32,
    overlays: bool,
) -> u32
    ensures { AskedForMemory (λ screen. on_windows screen (overlay_call screen.desk source target overlays)) done_number 4 1 handle.old.held.value handle.new.held.value result }
{
    handle.lend(CLOSED, |session| match overlays {
        true => done(session.screen.overlay(alloc, Win(source), Win(target))),
        false => done(session.screen.overwrite(alloc, Win(source), Win(target))),
    })
}

/// Copies a part of a pad, from a row and a column on, onto a rectangle of the virtual screen, by
/// `Screen::pad_noutrefresh`. Refused: CLOSED; NO_WINDOW; NOT_PAD; OFF_SCREEN; OUT_OF_WINDOW.
#[unsafe(no_mangle)]
pub extern "C" fn huttavel_held_pad_noutrefresh(
    handle: &mut Handle,
    window: u32,
    row: u32,
    column: u32,
    top: u32,
    left: u32,
    bottom: u32,
    right: u32,
) -> u32
    ensures { Asked (λ screen. on_both screen (take_pad_call screen.virtual screen.desk window row column top left bottom right)) done_number 1 handle.old.held.value handle.new.held.value result }
{
    handle.lend(CLOSED, |session| {
        let (screen, pad) = (&mut session.screen, Win(window));
        done(screen.pad_noutrefresh(pad, row, column, top, left, bottom, right))
    })
}
