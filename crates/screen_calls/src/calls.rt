//! Calls of a screen as values, in the groups in which they are made.
use scr_cells::{Attrs, Cell};
use scr_windows::Win;
use ti_caps::Bytes;

/// A call on a screen with what it is given, in the order of its parameters but the allocator.
// A derived `Debug` of so many variants takes as long to prove as all else in this crate.
#[derive(Drop)]
pub enum Call {
    /// [`Screen::new_window`](curses::Screen::new_window).
    NewWindow(u32, u32, u32, u32),
    /// [`Screen::new_pad`](curses::Screen::new_pad).
    NewPad(u32, u32),
    /// [`Screen::derive`](curses::Screen::derive).
    Derive(Win, u32, u32, u32, u32),
    /// [`Screen::sub`](curses::Screen::sub).
    Sub(Win, u32, u32, u32, u32),
    /// [`Screen::sub_pad`](curses::Screen::sub_pad).
    SubPad(Win, u32, u32, u32, u32),
    /// [`Screen::resize_window`](curses::Screen::resize_window).
    ResizeWindow(Win, u32, u32),
    /// [`Screen::copy`](curses::Screen::copy).
    Copy(Win, Win, u32, u32, u32, u32, u32, u32, bool),
    /// [`Screen::overlay`](curses::Screen::overlay).
    Overlay(Win, Win),
    /// [`Screen::overwrite`](curses::Screen::overwrite).
    Overwrite(Win, Win),
    /// [`Screen::delete`](curses::Screen::delete).
    Delete(Win),
    /// [`Screen::move_window`](curses::Screen::move_window).
    MoveWindow(Win, u32, u32),
    /// [`Screen::move_derived`](curses::Screen::move_derived).
    MoveDerived(Win, u32, u32),
    /// [`Screen::touch_window`](curses::Screen::touch_window).
    TouchWindow(Win),
    /// [`Screen::untouch`](curses::Screen::untouch).
    Untouch(Win),
    /// [`Screen::touch_lines`](curses::Screen::touch_lines).
    TouchLines(Win, u32, u32, bool),
    /// [`Screen::sync_up`](curses::Screen::sync_up).
    SyncUp(Win),
    /// [`Screen::sync_down`](curses::Screen::sync_down).
    SyncDown(Win),
    /// [`Screen::add_byte`](curses::Screen::add_byte).
    AddByte(Win, u8, Attrs),
    /// [`Screen::add_text`](curses::Screen::add_text).
    AddText(Win, Bytes),
    /// [`Screen::insert_byte`](curses::Screen::insert_byte).
    InsertByte(Win, u8, Attrs),
    /// [`Screen::line_across`](curses::Screen::line_across).
    LineAcross(Win, u8, u32),
    /// [`Screen::line_down`](curses::Screen::line_down).
    LineDown(Win, u8, u32),
    /// [`Screen::border`](curses::Screen::border).
    Border(Win, [u8; 8]),
    /// [`Screen::add_character`](curses::Screen::add_character).
    AddCharacter(Win, char, Attrs),
    /// [`Screen::add_str`](curses::Screen::add_str).
    AddStr(Win, String),
    /// [`Screen::insert_character`](curses::Screen::insert_character).
    InsertCharacter(Win, char, Attrs),
    /// [`Screen::line_across_of`](curses::Screen::line_across_of).
    LineAcrossOf(Win, char, u32),
    /// [`Screen::line_down_of`](curses::Screen::line_down_of).
    LineDownOf(Win, char, u32),
    /// [`Screen::border_of`](curses::Screen::border_of).
    BorderOf(Win, [char; 8]),
    /// [`Screen::clear_to_eol`](curses::Screen::clear_to_eol).
    ClearToEol(Win),
    /// [`Screen::clear_to_bottom`](curses::Screen::clear_to_bottom).
    ClearToBottom(Win),
    /// [`Screen::erase`](curses::Screen::erase).
    Erase(Win),
    /// [`Screen::clear`](curses::Screen::clear).
    Clear(Win),
    /// [`Screen::delete_byte`](curses::Screen::delete_byte).
    DeleteByte(Win),
    /// [`Screen::insert_delete_lines`](curses::Screen::insert_delete_lines).
    InsertDeleteLines(Win, i32),
    /// [`Screen::scroll`](curses::Screen::scroll).
    Scroll(Win, i32),
    /// [`Screen::change_background`](curses::Screen::change_background).
    ChangeBackground(Win, Cell),
    /// [`Screen::move_cursor`](curses::Screen::move_cursor).
    MoveCursor(Win, u32, u32),
    /// [`Screen::set_region`](curses::Screen::set_region).
    SetRegion(Win, u32, u32),
    /// [`Screen::scroll_ok`](curses::Screen::scroll_ok).
    ScrollOk(Win, bool),
    /// [`Screen::clear_ok`](curses::Screen::clear_ok).
    ClearOk(Win, bool),
    /// [`Screen::leave_ok`](curses::Screen::leave_ok).
    LeaveOk(Win, bool),
    /// [`Screen::attr_on`](curses::Screen::attr_on).
    AttrOn(Win, Attrs),
    /// [`Screen::attr_off`](curses::Screen::attr_off).
    AttrOff(Win, Attrs),
    /// [`Screen::attr_set`](curses::Screen::attr_set).
    AttrSet(Win, Attrs),
    /// [`Screen::color_set`](curses::Screen::color_set).
    ColorSet(Win, u32),
    /// [`Screen::set_background`](curses::Screen::set_background).
    SetBackground(Win, Cell),
    /// [`Screen::cell_at`](curses::Screen::cell_at).
    CellAt(Win, u32, u32),
    /// [`Screen::cursor`](curses::Screen::cursor).
    Cursor(Win),
    /// [`Screen::size`](curses::Screen::size).
    Size(Win),
    /// [`Screen::origin`](curses::Screen::origin).
    Origin(Win),
    /// [`Screen::line_touched`](curses::Screen::line_touched).
    LineTouched(Win, u32),
    /// [`Screen::window_touched`](curses::Screen::window_touched).
    WindowTouched(Win),
    /// [`Screen::redraw_window`](curses::Screen::redraw_window).
    RedrawWindow(Win),
    /// [`Screen::redraw_lines`](curses::Screen::redraw_lines).
    RedrawLines(Win, u32, u32),
    /// [`Screen::set_pair`](curses::Screen::set_pair).
    SetPair(u32, u32, u32),
    /// [`Screen::set_pair_of`](curses::Screen::set_pair_of).
    SetPairOf(u32, Option<u32>, Option<u32>),
    /// [`Screen::noutrefresh`](curses::Screen::noutrefresh).
    Noutrefresh(Win),
    /// [`Screen::pad_noutrefresh`](curses::Screen::pad_noutrefresh).
    PadNoutrefresh(Win, u32, u32, u32, u32, u32, u32),
    /// [`Screen::doupdate`](curses::Screen::doupdate).
    Doupdate,
}
