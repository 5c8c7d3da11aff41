//! Making a call that is a value, by the method of its name. The definitions are in `specs/Calls.antt`.
ghost use Rattle.std.specs.Prelude.{◌≡◌, true};
ghost use Rattle.screen_sessions.specs.Calls.{OnDeskOrRefused, drawing, erasing, is_told, placing, reading, setting, writing};
ghost use Rattle.curses.specs.Forwarding.{OnDesk};

use crate::answers::{
    Answer, added_answer, done_answer, made_answer, pair_answer, seen_answer, touched_answer,
};
use curses::Screen;
use screen_calls::Call;
use std::alloc::Global;

// Calls on windows by their values. The first ones allocate memory: those that make a window or give it
// another size, and those that copy cells.
pub(crate) fn make_window_call(alloc: Global, screen: &mut Screen, call: &Call) -> Answer
    ensures made { OnDeskOrRefused screen.old screen.new result call.now }
    ensures told { is_told result ≡ true }
{
    match call {
        Call::NewWindow(rows, columns, row, column) => made_answer(screen.new_window(
            alloc, *rows, *columns, *row, *column,
        )),
        Call::NewPad(rows, columns) => made_answer(screen.new_pad(alloc, *rows, *columns)),
        Call::Derive(win, rows, columns, row, column) => made_answer(screen.derive(
            alloc, *win, *rows, *columns, *row, *column,
        )),
        Call::Sub(win, rows, columns, row, column) => made_answer(screen.sub(
            alloc, *win, *rows, *columns, *row, *column,
        )),
        Call::SubPad(win, rows, columns, row, column) => made_answer(screen.sub_pad(
            alloc, *win, *rows, *columns, *row, *column,
        )),
        Call::ResizeWindow(win, rows, columns) => done_answer(screen.resize_window(
            alloc, *win, *rows, *columns,
        )),
        Call::Copy(source, target, row, column, top, left, bottom, right, overlay) => done_answer(
            screen.copy(
                alloc, *source, *target, *row, *column, *top, *left, *bottom, *right, *overlay,
            ),
        ),
        Call::Overlay(source, target) => done_answer(screen.overlay(alloc, *source, *target)),
        Call::Overwrite(source, target) => done_answer(screen.overwrite(alloc, *source, *target)),
        _ => make_placing(screen, call),
    }
}

// Calls that delete or move a window, or touch lines.
fn make_placing(screen: &mut Screen, call: &Call) -> Answer
    ensures made { OnDesk screen.old screen.new result (placing screen.old.desk call.now) }
    ensures told { is_told result ≡ true }
{
    match call {
        Call::Delete(win) => done_answer(screen.delete(*win)),
        Call::MoveWindow(win, row, column) => done_answer(screen.move_window(*win, *row, *column)),
        Call::MoveDerived(win, row, column) => done_answer(screen.move_derived(
            *win, *row, *column,
        )),
        Call::TouchWindow(win) => done_answer(screen.touch_window(*win)),
        Call::Untouch(win) => done_answer(screen.untouch(*win)),
        Call::TouchLines(win, first, n, changed) => done_answer(screen.touch_lines(
            *win, *first, *n, *changed,
        )),
        Call::SyncUp(win) => done_answer(screen.sync_up(*win)),
        Call::SyncDown(win) => done_answer(screen.sync_down(*win)),
        _ => make_writing(screen, call),
    }
}

// Calls that write bytes of ASCII.
fn make_writing(screen: &mut Screen, call: &Call) -> Answer
    ensures made { OnDesk screen.old screen.new result (writing screen.old.desk call.now) }
    ensures told { is_told result ≡ true }
{
    match call {
        Call::AddByte(win, byte, attrs) => added_answer(screen.add_byte(*win, *byte, *attrs)),
        Call::AddText(win, text) => added_answer(screen.add_text(*win, &text.0)),
        Call::InsertByte(win, byte, attrs) => done_answer(screen.insert_byte(*win, *byte, *attrs)),
        Call::LineAcross(win, byte, n) => done_answer(screen.line_across(*win, *byte, *n)),
        Call::LineDown(win, byte, n) => done_answer(screen.line_down(*win, *byte, *n)),
        Call::Border(win, bytes) => done_answer(screen.border(*win, *bytes)),
        _ => make_drawing(screen, call),
    }
}

// Calls that write characters.
fn make_drawing(screen: &mut Screen, call: &Call) -> Answer
    ensures made { OnDesk screen.old screen.new result (drawing screen.old.desk call.now) }
    ensures told { is_told result ≡ true }
{
    match call {
        Call::AddCharacter(win, character, attrs) => {
            added_answer(screen.add_character(*win, *character, *attrs))
        }
        Call::AddStr(win, text) => added_answer(screen.add_str(*win, text.as_str())),
        Call::InsertCharacter(win, character, attrs) => {
            done_answer(screen.insert_character(*win, *character, *attrs))
        }
        Call::LineAcrossOf(win, character, n) => {
            done_answer(screen.line_across_of(*win, *character, *n))
        }
        Call::LineDownOf(win, character, n) => {
            done_answer(screen.line_down_of(*win, *character, *n))
        }
        Call::BorderOf(win, characters) => done_answer(screen.border_of(*win, *characters)),
        _ => make_erasing(screen, call),
    }
}

// Calls that erase, move what is there, or replace the background.
fn make_erasing(screen: &mut Screen, call: &Call) -> Answer
    ensures made { OnDesk screen.old screen.new result (erasing screen.old.desk call.now) }
    ensures told { is_told result ≡ true }
{
    match call {
        Call::ClearToEol(win) => done_answer(screen.clear_to_eol(*win)),
        Call::ClearToBottom(win) => done_answer(screen.clear_to_bottom(*win)),
        Call::Erase(win) => done_answer(screen.erase(*win)),
        Call::Clear(win) => done_answer(screen.clear(*win)),
        Call::DeleteByte(win) => done_answer(screen.delete_byte(*win)),
        Call::InsertDeleteLines(win, n) => done_answer(screen.insert_delete_lines(*win, *n)),
        Call::Scroll(win, n) => done_answer(screen.scroll(*win, *n)),
        Call::ChangeBackground(win, cell) => done_answer(screen.change_background(*win, *cell)),
        _ => make_setting(screen, call),
    }
}

// Calls that set something and change no cell.
fn make_setting(screen: &mut Screen, call: &Call) -> Answer
    ensures made { OnDesk screen.old screen.new result (setting screen.old.desk call.now) }
    ensures told { is_told result ≡ true }
{
    match call {
        Call::MoveCursor(win, row, column) => done_answer(screen.move_cursor(*win, *row, *column)),
        Call::SetRegion(win, top, bottom) => done_answer(screen.set_region(*win, *top, *bottom)),
        Call::ScrollOk(win, on) => done_answer(screen.scroll_ok(*win, *on)),
        Call::ClearOk(win, on) => done_answer(screen.clear_ok(*win, *on)),
        Call::LeaveOk(win, on) => done_answer(screen.leave_ok(*win, *on)),
        Call::AttrOn(win, attrs) => done_answer(screen.attr_on(*win, *attrs)),
        Call::AttrOff(win, attrs) => done_answer(screen.attr_off(*win, *attrs)),
        Call::AttrSet(win, attrs) => done_answer(screen.attr_set(*win, *attrs)),
        Call::ColorSet(win, pair) => done_answer(screen.color_set(*win, *pair)),
        Call::SetBackground(win, cell) => done_answer(screen.set_background(*win, *cell)),
        _ => make_reading(screen, call),
    }
}

// Calls that read.
fn make_reading(screen: &mut Screen, call: &Call) -> Answer
    ensures made { OnDesk screen.old screen.new result (reading screen.old.desk call.now) }
    ensures told { is_told result ≡ true }
{
    match call {
        Call::CellAt(win, row, column) => seen_answer(screen.cell_at(*win, *row, *column)),
        Call::Cursor(win) => pair_answer(screen.cursor(*win)),
        Call::Size(win) => pair_answer(screen.size(*win)),
        Call::Origin(win) => pair_answer(screen.origin(*win)),
        Call::LineTouched(win, row) => touched_answer(screen.line_touched(*win, *row)),
        Call::WindowTouched(win) => touched_answer(screen.window_touched(*win)),
        _ => Answer::Nothing,
    }
}
