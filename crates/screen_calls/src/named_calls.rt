//! Calls by the names of the screen's methods, and by short names: `Call::parse`.

use crate::call_faults::CallFault;
use crate::calls::Call;
use crate::fields::{cut_field, field_and_text, fields_after, number};
use crate::given::Given;
use crate::parsing::read_call;
use crate::quoted::quoted;
use crate::reasons::Reason;
use crate::short_calls::short_call;
use scr_windows::Win;
use std::alloc::Global;

impl Call {
    /// Reads a call from a line: the name of the screen's method, or the short one that scripts have for it, and the
    /// arguments but the allocator, separated by one blank.
    ///
    /// A window is its number, a setting 0 or 1, a byte its number or a character of ASCII in quotation marks, a
    /// character beyond ASCII its code (U+FFFD for one that is none), a colour its number or `-` for the terminal's
    /// default, a cell a byte, attributes and perhaps a colour pair. The text of `put` is the rest of the line, that of
    /// `add_text` and `add_str` is in quotation marks, where `\n`, `\t`, `\e`, `\"`, `\\` and `\xHH` stand for bytes.
    ///
    /// Refused with the first thing that is wrong with the line, and if memory runs out.
    pub fn parse<'a>(alloc: Global, line: &'a [u8]) -> Result<Call, CallFault<'a>> {
        let (name, text) = cut_field(line);
        let Ok(word) = str::from_utf8(name) else {
            return Err(CallFault::Bad(Reason::Unknown(name)));
        };
        match word {
            "put" => read_call(alloc, line),
            "add_text" => text_added(alloc, text),
            "add_str" => string_added(alloc, text),
            _ => Ok(without_text(word, fields_after(text).as_slice())?),
        }
    }
}

// `add_text W "TEXT"`.
fn text_added<'a>(alloc: Global, text: Option<&'a [u8]>) -> Result<Call, CallFault<'a>> {
    let (window, added) = field_and_text(text)?;
    let window = Win(number(window)?);
    Ok(Call::AddText(window, quoted(alloc, added)?))
}

// `add_str W "TEXT"`.
fn string_added<'a>(alloc: Global, text: Option<&'a [u8]>) -> Result<Call, CallFault<'a>> {
    let (window, added) = field_and_text(text)?;
    let window = Win(number(window)?);
    match String::from_utf8(quoted(alloc, added)?.0) {
        Ok(added) => Ok(Call::AddStr(window, added)),
        Err(_) => Err(CallFault::Bad(Reason::NotUtf8)),
    }
}

// The call by this name with these fields.
fn without_text<'a>(name: &'a str, fields: &[&'a [u8]]) -> Result<Call, Reason<'a>> {
    let mut given = Given::new(fields);
    match on_windows(name, &mut given) {
        Some(call) => given.done().and(Ok(call)),
        None => short_call(short_name(name).as_bytes(), fields),
    }
}

// The short name of a call that has one beside that of its method.
fn short_name(name: &str) -> &str {
    match name {
        "new_window" => "win",
        "new_pad" => "pad",
        "sub_pad" => "subpad",
        "resize_window" => "resize",
        "delete" => "del",
        "touch_window" => "touch",
        "noutrefresh" => "refresh",
        "pad_noutrefresh" => "padrefresh",
        "doupdate" => "update",
        "move_cursor" => "at",
        "color_set" => "color",
        "set_pair_of" => "pair",
        "scroll_ok" => "scrollok",
        _ => name,
    }
}

// Calls that move windows, touch their lines, or say what is to be drawn anew; and those after them. `None` where no
// method that has not a short name too is called so.
fn on_windows(name: &str, given: &mut Given<'_, '_>) -> Option<Call> {
    Some(match name {
        "move_window" => Call::MoveWindow(given.window(), given.number(), given.number()),
        "move_derived" => Call::MoveDerived(given.window(), given.number(), given.number()),
        "sync_up" => Call::SyncUp(given.window()),
        "sync_down" => Call::SyncDown(given.window()),
        "redraw_window" => Call::RedrawWindow(given.window()),
        "redraw_lines" => Call::RedrawLines(given.window(), given.number(), given.number()),
        "set_pair" => Call::SetPair(given.number(), given.number(), given.number()),
        _ => return on_lines(name, given),
    })
}

// Calls on lines and cells, and copies.
fn on_lines(name: &str, given: &mut Given<'_, '_>) -> Option<Call> {
    Some(match name {
        "touch_lines" => Call::TouchLines(
            given.window(),
            given.number(),
            given.number(),
            given.setting(),
        ),
        "insert_delete_lines" => Call::InsertDeleteLines(given.window(), given.integer()),
        "clear_to_eol" => Call::ClearToEol(given.window()),
        "clear_to_bottom" => Call::ClearToBottom(given.window()),
        "delete_byte" => Call::DeleteByte(given.window()),
        "change_background" => Call::ChangeBackground(given.window(), given.cell()),
        "set_background" => Call::SetBackground(given.window(), given.cell()),
        "copy" if given.count() == 9 => copied(given),
        _ => return on_bytes(name, given),
    })
}

// Two windows, six numbers and a setting.
fn copied(given: &mut Given<'_, '_>) -> Call {
    let (source, target) = (given.window(), given.window());
    let (row, column) = (given.number(), given.number());
    let (top, left) = (given.number(), given.number());
    let (bottom, right) = (given.number(), given.number());
    let overlays = given.setting();
    Call::Copy(
        source, target, row, column, top, left, bottom, right, overlays,
    )
}

// Calls that write bytes or characters.
fn on_bytes(name: &str, given: &mut Given<'_, '_>) -> Option<Call> {
    Some(match name {
        "add_byte" => Call::AddByte(given.window(), given.byte(), given.attributes()),
        "insert_byte" => Call::InsertByte(given.window(), given.byte(), given.attributes()),
        "line_across" => Call::LineAcross(given.window(), given.byte(), given.number()),
        "line_down" => Call::LineDown(given.window(), given.byte(), given.number()),
        "border" => Call::Border(given.window(), given.bytes()),
        _ => return on_characters(name, given),
    })
}

fn on_characters(name: &str, given: &mut Given<'_, '_>) -> Option<Call> {
    Some(match name {
        "add_character" => {
            Call::AddCharacter(given.window(), given.character(), given.attributes())
        }
        "insert_character" => {
            Call::InsertCharacter(given.window(), given.character(), given.attributes())
        }
        "line_across_of" => {
            Call::LineAcrossOf(given.window(), given.character(), given.number())
        }
        "line_down_of" => Call::LineDownOf(given.window(), given.character(), given.number()),
        "border_of" => Call::BorderOf(given.window(), given.characters()),
        _ => return on_settings(name, given),
    })
}

// Calls that set something.
fn on_settings(name: &str, given: &mut Given<'_, '_>) -> Option<Call> {
    Some(match name {
        "set_region" => Call::SetRegion(given.window(), given.number(), given.number()),
        "clear_ok" => Call::ClearOk(given.window(), given.setting()),
        "leave_ok" => Call::LeaveOk(given.window(), given.setting()),
        "attr_on" => Call::AttrOn(given.window(), given.attributes()),
        "attr_off" => Call::AttrOff(given.window(), given.attributes()),
        "attr_set" => Call::AttrSet(given.window(), given.attributes()),
        _ => return reading(name, given),
    })
}

// Calls that read.
fn reading(name: &str, given: &mut Given<'_, '_>) -> Option<Call> {
    Some(match name {
        "cell_at" => Call::CellAt(given.window(), given.number(), given.number()),
        "cursor" => Call::Cursor(given.window()),
        "size" => Call::Size(given.window()),
        "origin" => Call::Origin(given.window()),
        "line_touched" => Call::LineTouched(given.window(), given.number()),
        "window_touched" => Call::WindowTouched(given.window()),
        _ => return None,
    })
}
