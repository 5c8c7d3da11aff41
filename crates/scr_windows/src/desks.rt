//! The desk, and the small methods that its calls are made of. What is true of every desk is in `specs/DeskViews.antt`.
//!
//! The calls are in the files of their kinds: `making`, `adding`, `erasing` and the others.
ghost use Rattle.std.specs.Prelude.{◌≡◌, ◌<◌, length, IfOk, MatchResult};
ghost use Rattle.scr_windows.specs.DeskViews.{IsDesk, IsState, IsThere, window_at};
ghost use Rattle.scr_windows.specs.Code.Canvases.{IsCanvas, IsCanvasAt};
ghost use Rattle.scr_windows.specs.Changes.{index_of, with_window, marked};

use crate::faults::{Win, WinFault};
use crate::frames::{Canvas, WindowState};
use crate::surfaces::Surface;
use crate::windows::{Window, index_of_number};
use std::fmt;
use std::marker::Model;

/// The windows of a screen and the surfaces that they are on (X/Open Curses Issue 7, 'Screens, Windows and Terminals').
///
/// In every call rows and columns are counted from 0, from the window's first place unless the call says otherwise, and
/// the corners of a rectangle are both inside it. A refused call changes nothing; if several refusals hold, the first
/// that the definition names is given. A call has a line here: what it does and refuses, and its section of the
/// standard, is said at the method of `curses::Screen` of the same name, which passes it on, and defined in
/// `specs/Calls`.
#[derive(Drop)]
pub struct Desk {
    pub(crate) rows: u32,
    pub(crate) columns: u32,
    // One for each window that is not a subwindow. A window's frame holds the index of its own.
    pub(crate) surfaces: Vec<Surface>,
    // By ascending numbers.
    pub(crate) windows: Vec<Window>,
    // How many windows were made after the first.
    pub(crate) made: u32,
}

impl Model for Desk {
    ghost use Rattle.scr_windows.specs.DeskViews.{DeskView, IsDesk};

    ghost Value = { DeskView };

    ghost view = { λ a. record { rows = a.rows; columns = a.columns; surfaces = a.surfaces.items; windows = a.windows.items; made = a.made } };

    ghost invariant = { λ a. IsDesk (record { rows = a.rows; columns = a.columns; surfaces = a.surfaces.items; windows = a.windows.items; made = a.made }) };
}

/// The size of the screen and how many windows there are.
impl fmt::Debug for Desk {
    fn fmt<W: fmt::Write>(&self, f: &mut fmt::Formatter<W>) -> fmt::Result {
        write!(
            f,
            "Desk({} by {}, windows: {})",
            self.rows,
            self.columns,
            self.windows.len()
        )
    }
}

// What the calls are made of. An index is one among the desk's windows.
impl Desk {
    // The index of a window among the windows.
    pub(crate) fn index_of(&self, win: Win) -> Result<usize, WinFault>
        ensures index { result ≡ index_of self.now win.0 }
        ensures placed { IfOk result (λ i. IsThere self.now i) }
    {
        match index_of_number(&self.windows, win.0) {
            Some(index) => Ok(index),
            None => Err(WinFault::NoWindow),
        }
    }

    // The index of a window, its area and what the calls set in it.
    pub(crate) fn canvas(&self, win: Win) -> Result<Canvas, WinFault>
        ensures { MatchResult result (IsCanvas self.now win.0) (λ fault. index_of self.now win.0 ≡ Err fault) }
    {
        let index = self.index_of(win)?;
        let window = self.window_at(index);
        Ok(Canvas {
            index,
            area: window.frame().area,
            state: window.state(),
        })
    }

    // The same, of the window at an index.
    #[inline(always)]
    pub(crate) fn canvas_at(&self, index: usize) -> Canvas
        requires { index < length self.now.windows }
        ensures index { result.index ≡ index }
        ensures canvas { IsCanvasAt self.now result }
    {
        let window = self.window_at(index);
        Canvas {
            index,
            area: window.frame().area,
            state: window.state(),
        }
    }

    // The window at an index.
    pub(crate) fn window_at(&self, index: usize) -> &Window
        requires { index < length self.now.windows }
        ensures window { result.now ≡ window_at self.now index }
        ensures placed { IsThere self.now index }
    {
        &self.windows[index]
    }

    // Sets what the calls set in the window at an index.
    pub(crate) fn set_state(&mut self, index: usize, state: WindowState)
        requires here { index < length self.old.windows }
        requires state { IsState (window_at self.old index).frame state }
        ensures { self.new ≡ with_window self.old index (record (window_at self.old index) { state = state }) }
    {
        self.windows[index].set_state(state);
    }

    // Moves the cursor of the window at an index to a row and a column inside.
    #[inline(always)]
    pub(crate) fn set_cursor(&mut self, index: usize, row: u32, column: u32)
        requires here { index < length self.old.windows }
        requires row { row < (window_at self.old index).frame.area.rows }
        requires column { column < (window_at self.old index).frame.area.columns }
        ensures { self.new ≡ with_window self.old index (record (window_at self.old index) { state = record (window_at self.old index).state { cursor = (row, column) } }) }
    {
        self.windows[index].set_cursor(row, column);
    }

    // Marks lines of the window at an index.
    pub(crate) fn mark(&mut self, index: usize, first: u32, end: u32, mark: bool)
        requires here { index < length self.old.windows }
        ensures { self.new ≡ with_window self.old index (marked first end mark (window_at self.old index)) }
    {
        self.windows[index].mark(first, end, mark);
    }
}
