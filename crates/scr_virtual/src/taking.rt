//! Taking windows and pads onto the virtual screen. The definitions are in `specs/Taking.antt`.
ghost use Rattle.std.specs.Prelude.{ℕ, ◌≡◌, ◌+◌, ◌<◌, ◌≤◌, ◌||◌, false, length, IfOk, IfSome, Ok, Option};
ghost use Rattle.std.specs.List.{list_any};
ghost use Rattle.scr_windows.specs.Calls.Touching.{take_lines_call};
ghost use Rattle.scr_windows.specs.Changes.{index_of};
ghost use Rattle.scr_windows.specs.DeskViews.{window_at};
ghost use Rattle.scr_virtual.specs.Taking.{pad_part, part_copied, shown_place, take_pad_call, take_window_call, window_part, wish_of};
ghost use Rattle.scr_virtual.specs.Ranges.{IsRange, joined, joined_by};
ghost use Rattle.scr_virtual.specs.Code.Lines.{IsInside, IsShown, copied_lines, lent_at, line_copied, line_unlike, part_line, shown};

use crate::parts::ShownPart;
use crate::screens::Virtual;
use scr_cells::{Cell, Size, first_difference, grid_laws, last_difference};
use scr_windows::{Desk, Win, WinFault, WindowRef, windows_are_placed};

impl Virtual {
    /// Takes a window: its touched lines are copied to where it is on the screen, and become untouched. The cursor is
    /// wanted where the window's cursor is on the screen, or nowhere if `leave_ok` is set. If `clear_ok` is set, the
    /// whole screen is to be repainted, and the setting is switched off. The desk and this screen have one size.
    ///
    /// Refused: NoWindow; IsPad. curs_refresh(3X) and X/Open Curses Issue 7, wnoutrefresh().
    #[tactic(auto, unfolding(crate::specs::Taking::take_window_call))]
    pub fn take_window(&mut self, desk: &mut Desk, win: Win) -> Result<(), WinFault>
        requires rows { desk.old.rows ≡ self.old.picture.rows }
        requires columns { desk.old.columns ≡ self.old.picture.columns }
        ensures { ((self.new, desk.new), result) ≡ take_window_call self.old desk.old win.0 }
    {
        let _screen = desk.screen();
        windows_are_placed();
        grid_laws::<Cell>();
        let window = desk.window(win)?;
        let part = window_part(&window)?;
        let any = desk.window_touched(win).unwrap_or(true);
        self.copy_touched(&window, part, any);
        self.wish(&window, part);
        self.take_lines(desk, win, part);
        Ok(())
    }

    /// Takes a pad: the rectangle of the screen from `top` and `left` to `bottom` and `right`, both corners inside it,
    /// gets the cells of the pad from `row` and `column` on, touched or not. The lines of the pad that are shown become
    /// untouched. The cursor is wanted where the pad's cursor is shown, or nowhere if it is not shown or `leave_ok` is
    /// set; `clear_ok` is as in `take_window`. The desk and this screen have one size.
    ///
    /// Refused: NoWindow; NotPad; OffScreen if the corners are the wrong way round; OutOfWindow if the part shown is
    /// not wholly in the pad; OffScreen if the rectangle is not wholly on the screen. curs_pad(3X) and X/Open Curses
    /// Issue 7, pnoutrefresh().
    #[tactic(auto, unfolding(crate::specs::Taking::take_pad_call))]
    pub fn take_pad(
        &mut self,
        desk: &mut Desk,
        win: Win,
        row: u32,
        column: u32,
        top: u32,
        left: u32,
        bottom: u32,
        right: u32,
    ) -> Result<(), WinFault>
        requires rows { desk.old.rows ≡ self.old.picture.rows }
        requires columns { desk.old.columns ≡ self.old.picture.columns }
        ensures { ((self.new, desk.new), result) ≡ take_pad_call self.old desk.old win.0 row column top left bottom right }
    {
        let screen = desk.screen();
        grid_laws::<Cell>();
        let window = desk.window(win)?;
        let part = pad_part(&window, screen, row, column, top, left, bottom, right)?;
        self.show(&window, part, true);
        self.take_lines(desk, win, part);
        Ok(())
    }

    // Copies lines of a part of a window, all of them or the touched ones, and sets where the cursor is wanted.
    fn show(&mut self, window: &WindowRef, part: ShownPart, all: bool)
        requires { IsShown self.old window.now part }
        ensures { self.new ≡ shown part (copied_lines all window.now) (lent_at window.now) window.now.window.state self.old }
    {
        self.copy_lines(window, part, all);
        self.wish(window, part);
    }

    // Copies the touched lines of a part of a window. They are looked for only if there may be any.
    fn copy_touched(&mut self, window: &WindowRef, part: ShownPart, any: bool)
        requires shown { IsShown self.old window.now part }
        requires none { any ≡ false → list_any (λ mark. mark) window.now.window.touched ≡ false }
        ensures { self.new ≡ part_copied part (copied_lines false window.now) (lent_at window.now) self.old }
    {
        // What is known of this screen is said by this.
        let _screen = self.size();
        grid_laws::<Cell>();
        if any {
            self.copy_lines(window, part, false);
        }
    }

    // Sets where the cursor is wanted: where that of a window is shown in a part, if it is.
    fn wish(&mut self, window: &WindowRef, part: ShownPart)
        requires { IsShown self.old window.now part }
        ensures { self.new ≡ record self.old { picture = record self.old.picture { wish = wish_of part window.now.window.state } } }
    {
        let _screen = self.size();
        let wish = if window.leave_ok() {
            None
        } else {
            shown_at(part, window.cursor())
        };
        self.picture.set_wish(wish);
        // What holds of every picture holds of this one.
        let _size = self.picture.size();
    }

    // Copies lines of a part of a window to where it is shown.
    fn copy_lines(&mut self, window: &WindowRef, part: ShownPart, all: bool)
        requires { IsShown self.old window.now part }
        ensures { self.new ≡ part_copied part (copied_lines all window.now) (lent_at window.now) self.old }
    {
        // What is known of a window's size and of this screen is said by these.
        let _window = window.size();
        let _screen = self.size();
        grid_laws::<Cell>();
        for row in 0..part.rows {
            if is_copied(window, part.row + row, all) {
                self.copy_part_line(window, part, row);
            }
        }
    }

    // Copies a line of a part of a window to where it is shown.
    fn copy_part_line(&mut self, window: &WindowRef, part: ShownPart, row: u32)
        requires shown { IsShown self.old window.now part }
        requires row { row < part.rows }
        ensures copied { self.new ≡ line_copied (part.top + row) part.left (part_line window.now part row) self.old }
        ensures width { length (part_line window.now part row) ≡ part.columns }
    {
        // What is known of a window's size and of this screen is said by these.
        let _window = window.size();
        let _screen = self.size();
        let first = part.column as usize;
        let end = first + part.columns as usize;
        let line = window.line(part.row + row);
        self.copy_line(part.top + row, part.left, &line[first..end]);
    }

    // Copies cells to a row from a column on.
    fn copy_line(&mut self, row: u32, column: u32, cells: &[Cell])
        requires some { 1 ≤ length cells.now }
        requires row { row < self.old.picture.rows }
        requires end { column + length cells.now ≤ self.old.picture.columns }
        ensures { self.new ≡ line_copied row column cells.now self.old }
    {
        let altered = self.unlike(row, column, cells);
        self.picture.put_row(row, column, cells);
        // What holds of every picture holds of this one.
        let _size = self.picture.size();
        let last = column + (cells.len() as u32 - 1);
        self.changed.join(row, Some((column, last)));
        self.altered.join(row, altered);
    }

    // The first and the last column of a row, from `column` on, in which it has another cell than these.
    fn unlike(&self, row: u32, column: u32, cells: &[Cell]) -> Option<(u32, u32)>
        requires row { row < self.now.picture.rows }
        requires end { column + length cells.now ≤ self.now.picture.columns }
        ensures columns { IfSome result (IsRange self.now.picture.columns) }
        ensures same { (range : Option (ℕ × ℕ)) → joined result range ≡ joined_by (line_unlike row column cells.now self.now) range }
    {
        let from = column as usize;
        let there = &self.picture.row(row)[from..from + cells.len()];
        let Some(first) = first_difference(there, cells) else {
            return None;
        };
        let Some(last) = last_difference(there, cells) else {
            return None;
        };
        Some((column + first as u32, column + last as u32))
    }

    // Makes the lines of a part of a window on a desk untouched, and takes over its request to repaint.
    fn take_lines(&mut self, desk: &mut Desk, win: Win, part: ShownPart)
        ensures desk { desk.new ≡ (take_lines_call desk.old win.0 part.row part.rows).0 }
        ensures screen { (i : ℕ) → index_of desk.old win.0 ≡ Ok i → part.row + part.rows ≤ (window_at desk.old i).frame.area.rows → self.new ≡ record self.old { repaint = self.old.repaint || (window_at desk.old i).state.clear_ok } }
    {
        self.repaint |= desk.take_lines(win, part.row, part.rows).unwrap_or(false);
    }
}

// The whole of a window, at its place on the screen.
fn window_part(window: &WindowRef) -> Result<ShownPart, WinFault>
    ensures { result ≡ window_part window.now.window }
{
    let Some((top, left)) = window.origin() else {
        return Err(WinFault::IsPad);
    };
    let (rows, columns) = window.size();
    Ok(ShownPart {
        row: 0,
        column: 0,
        rows,
        columns,
        top,
        left,
    })
}

// The part of a pad that a rectangle of the screen shows.
#[tactic(auto, unfolding(crate::specs::Taking::pad_part))]
fn pad_part(
    window: &WindowRef,
    screen: Size,
    row: u32,
    column: u32,
    top: u32,
    left: u32,
    bottom: u32,
    right: u32,
) -> Result<ShownPart, WinFault>
    ensures part { result ≡ pad_part screen.rows screen.columns row column top left bottom right window.now.window }
    ensures inside { IfOk result (IsInside screen.rows screen.columns window.now) }
{
    if window.origin().is_some() {
        return Err(WinFault::NotPad);
    }
    if bottom < top || right < left {
        return Err(WinFault::OffScreen);
    }
    let (rows, columns) = window.size();
    if bottom - top >= rows
        || row >= rows - (bottom - top)
        || right - left >= columns
        || column >= columns - (right - left)
    {
        return Err(WinFault::OutOfWindow);
    }
    if bottom >= screen.rows || right >= screen.columns {
        return Err(WinFault::OffScreen);
    }
    Ok(ShownPart {
        row,
        column,
        rows: bottom + 1 - top,
        columns: right + 1 - left,
        top,
        left,
    })
}

// Whether a line of a window is copied: all are, or the touched ones.
fn is_copied(window: &WindowRef, line: u32, all: bool) -> bool
    requires { line < window.now.window.frame.area.rows }
    ensures { result ≡ copied_lines all window.now line }
{
    all || window.is_touched(line)
}

// Where a place of a window is shown, if it is in the part.
fn shown_at(part: ShownPart, place: (u32, u32)) -> Option<(u32, u32)>
    requires rows { part.top + part.rows ≤ 500 }
    requires columns { part.left + part.columns ≤ 500 }
    ensures { result ≡ shown_place part place }
{
    if place.0 < part.row || place.1 < part.column {
        return None;
    }
    let (row, column) = (place.0 - part.row, place.1 - part.column);
    if row >= part.rows || column >= part.columns {
        return None;
    }
    Some((part.top + row, part.left + column))
}
