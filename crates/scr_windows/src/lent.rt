//! A window that is lent for reading: everything that calls set in it or draw on it, found once.
//!
//! The calls that change a window are in the files of the calls. The definitions are in `specs/Lending.antt`.
ghost use Rattle.std.specs.Prelude.{◌≡◌, ◌<◌, [], false, length, option_map, slice_index_or};
ghost use Rattle.scr_windows.specs.Lending.{IsLent, lines_in};
ghost use Rattle.scr_windows.specs.Surfaces.SurfaceViews.{IsPart};
ghost use Rattle.scr_windows.specs.DeskViews.{IsWindow};

use crate::faults::Win;
use crate::surfaces::Surface;
use crate::windows::Window;
use scr_cells::{Attrs, Cell};
use std::marker::Model;

/// A window that its desk lends for reading.
///
/// Rows and columns are counted from 0, from the window's first place.
#[derive(Drop)]
pub struct WindowRef<'a> {
    window: &'a Window,
    surface: &'a Surface,
}

impl<'a> Model for WindowRef<'a> {
    ghost use Rattle.scr_windows.specs.Surfaces.SurfaceViews.{IsPart};
    ghost use Rattle.scr_windows.specs.DeskViews.{IsWindow};
    ghost use Rattle.scr_windows.specs.Lending.{LentView, lines_in};

    ghost Value = { LentView };

    ghost view = { λ a. record { window = a.window.now; lines = lines_in a.surface.now a.window.now.frame.area } };

    ghost invariant = { λ a. IsWindow a.window.now × IsPart a.surface.now a.window.now.frame.area };
}

impl<'a> WindowRef<'a> {
    // A window and the surface that it is on.
    pub(crate) fn new(window: &'a Window, surface: &'a Surface) -> WindowRef<'a>
        requires window { IsWindow window.now }
        requires part { IsPart surface.now window.now.frame.area }
        ensures { result ≡ record { window = window.now; lines = lines_in surface.now window.now.frame.area } }
    {
        WindowRef { window, surface }
    }

    /// The number of the window that this is a subwindow of; `None` if it is not a subwindow. X/Open Curses Issue 7,
    /// derwin().
    pub fn parent(&self) -> Option<Win>
        ensures { result ≡ option_map (λ number. record { 0 = number }) self.now.window.frame.parent }
    {
        match self.window.frame().parent {
            Some(number) => Some(Win(number)),
            None => None,
        }
    }

    /// The row and the column of the screen where its first place is; `None` for a pad. X/Open Curses Issue 7,
    /// getbegyx().
    pub fn origin(&self) -> Option<(u32, u32)>
        ensures { result ≡ self.now.window.frame.origin }
    {
        self.window.frame().origin
    }

    /// How many rows and columns it has. X/Open Curses Issue 7, getmaxyx().
    pub fn size(&self) -> (u32, u32)
        ensures rows { result.0 ≡ self.now.window.frame.area.rows }
        ensures columns { result.1 ≡ self.now.window.frame.area.columns }
        ensures lent { IsLent self.now }
    {
        let area = self.window.frame().area;
        (area.rows, area.columns)
    }

    /// The row and the column of its cursor. X/Open Curses Issue 7, getyx().
    pub fn cursor(&self) -> (u32, u32)
        ensures { result ≡ self.now.window.state.cursor }
    {
        self.window.state().cursor
    }

    /// The attributes that bytes are added with. X/Open Curses Issue 7, wattr_get().
    pub fn attrs(&self) -> Attrs
        ensures { result ≡ self.now.window.state.attrs }
    {
        self.window.state().attrs
    }

    /// The colour pair that bytes are added with; 0 stands for that of the background. X/Open Curses Issue 7,
    /// wattr_get().
    pub fn pair(&self) -> u32
        ensures { result ≡ self.now.window.state.pair }
    {
        self.window.state().pair
    }

    /// Its background. X/Open Curses Issue 7, getbkgd().
    pub fn background(&self) -> Cell
        ensures { result ≡ self.now.window.state.background }
    {
        self.window.state().background
    }

    /// The first and the last row of its scrolling region, both inside it. X/Open Curses Issue 7, setscrreg().
    pub fn region(&self) -> (u32, u32)
        ensures { result ≡ self.now.window.state.region }
    {
        self.window.state().region
    }

    /// Whether its region may scroll. X/Open Curses Issue 7, scrollok().
    pub fn scroll_ok(&self) -> bool
        ensures { result ≡ self.now.window.state.scroll_ok }
    {
        self.window.state().scroll_ok
    }

    /// Whether the next update that takes it repaints the whole screen. X/Open Curses Issue 7, clearok().
    pub fn clear_ok(&self) -> bool
        ensures { result ≡ self.now.window.state.clear_ok }
    {
        self.window.state().clear_ok
    }

    /// Whether the terminal's cursor may stay where an update leaves it. X/Open Curses Issue 7, leaveok().
    pub fn leave_ok(&self) -> bool
        ensures { result ≡ self.now.window.state.leave_ok }
    {
        self.window.state().leave_ok
    }

    /// Whether a line is touched; the window has this row. X/Open Curses Issue 7, is_linetouched().
    pub fn is_touched(&self, row: u32) -> bool
        requires { row < self.now.window.frame.area.rows }
        ensures { result ≡ slice_index_or self.now.window.touched row false }
    {
        self.window.is_touched(row)
    }

    /// The cells of a line from the left, as many as the window has columns; the window has this row.
    pub fn line(&self, row: u32) -> &'a [Cell]
        requires { row < self.now.window.frame.area.rows }
        ensures cells { result.now ≡ slice_index_or self.now.lines row [] }
        ensures width { length result.now ≡ self.now.window.frame.area.columns }
    {
        self.surface.line(self.window.frame().area, row)
    }
}
