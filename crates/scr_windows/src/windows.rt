//! A window: its frame, its state and a mark for each line; and the search for the window of a number.
ghost use Rattle.std.specs.Prelude.{◌≡◌, ◌+◌, ◌<◌, ◌==◌, true, false, length, slice_index_or, MatchResult, ◌≤◌};
ghost use Rattle.std.specs.List.{list_any, position};
ghost use Rattle.scr_windows.specs.DeskViews.{WindowView, AreAscending, fresh_window};
ghost use Rattle.scr_windows.specs.declared.faults.WinFault.TheVariants.{NoMemory};
ghost use Rattle.scr_windows.specs.Changes.{marked, marked_lines};
ghost use Rattle.scr_windows.specs.Calls.Resizing.{nearest, resized};

use crate::faults::WinFault;
use crate::frames::{Frame, WindowState};
use crate::surfaces::Area;
use scr_cells::{Attrs, Cell};
use std::alloc::Global;
use std::marker::Model;

/// A window: a part of a surface with a cursor and settings of its own.
#[derive(Drop)]
pub struct Window {
    frame: Frame,
    state: WindowState,
    touched: Vec<bool>,
}

impl Model for Window {
    ghost use Rattle.scr_windows.specs.DeskViews.{WindowView};

    ghost Value = { WindowView };

    ghost view = { λ a. record { frame = a.frame; state = a.state; touched = a.touched.items } };
}

impl Window {
    /// A window as it is when it is made. Fails only when memory runs out.
    pub fn fresh(
        alloc: Global,
        frame: Frame,
        attrs: Attrs,
        pair: u32,
        background: Cell,
    ) -> Result<Window, WinFault>
        requires { 1 ≤ frame.area.rows }
        ensures { MatchResult result (λ window. window ≡ fresh_window frame attrs pair background) (λ fault. fault ≡ NoMemory) }
    {
        let rows = frame.area.rows;
        let mut touched = Vec::with_capacity(alloc, rows as usize)?;
        touched.resize(rows as usize, true)?;
        let state = WindowState {
            cursor: (0, 0),
            attrs,
            pair,
            background,
            region: (0, rows - 1),
            scroll_ok: false,
            clear_ok: false,
            leave_ok: false,
        };
        Ok(Window {
            frame,
            state,
            touched,
        })
    }

    /// The window with another area: the whole of it is the region, the cursor is at the nearest place inside, and
    /// every line is touched. Fails only when memory runs out.
    pub fn resized(&self, alloc: Global, area: Area) -> Result<Window, WinFault>
        requires rows { 1 ≤ area.rows }
        requires columns { 1 ≤ area.columns }
        ensures { MatchResult result (λ window. window ≡ resized area self.now) (λ fault. fault ≡ NoMemory) }
    {
        let rows = area.rows as usize;
        let mut touched = Vec::with_capacity(alloc, rows)?;
        touched.resize(rows, true)?;
        let mut frame = self.frame;
        frame.area = area;
        let mut state = self.state;
        let (row, column) = state.cursor;
        state.cursor = (nearest(area.rows, row), nearest(area.columns, column));
        state.region = (0, area.rows - 1);
        Ok(Window {
            frame,
            state,
            touched,
        })
    }

    /// The frame.
    pub fn frame(&self) -> Frame
        ensures { result ≡ self.now.frame }
    {
        self.frame
    }

    /// What the calls set.
    pub fn state(&self) -> WindowState
        ensures { result ≡ self.now.state }
    {
        self.state
    }

    /// Sets the frame.
    pub fn set_frame(&mut self, frame: Frame)
        ensures { self.new ≡ record self.old { frame = frame } }
    {
        self.frame = frame;
    }

    /// Sets what the calls set.
    pub fn set_state(&mut self, state: WindowState)
        ensures { self.new ≡ record self.old { state = state } }
    {
        self.state = state;
    }

    /// Whether a line is touched.
    pub fn is_touched(&self, row: u32) -> bool
        requires { row < length self.now.touched }
        ensures { result ≡ slice_index_or self.now.touched row false }
    {
        self.touched[row as usize]
    }

    /// Whether any line is touched.
    pub fn is_any_touched(&self) -> bool
        ensures { result ≡ list_any (λ mark. mark) self.now.touched }
    {
        is_any(&self.touched)
    }

    /// Moves the cursor to a row and a column.
    pub fn set_cursor(&mut self, row: u32, column: u32)
        ensures { self.new ≡ record self.old { state = record self.old.state { cursor = (row, column) } } }
    {
        self.state.cursor = (row, column);
    }

    /// Touches a line, if there is one at this row.
    pub fn touch_line(&mut self, row: u32)
        ensures { self.new ≡ marked row (row + 1) true self.old }
    {
        touch_one(&mut self.touched, row as usize);
    }

    /// Makes the lines `first..end` touched, or untouched.
    pub fn mark(&mut self, first: u32, end: u32, mark: bool)
        ensures { self.new ≡ marked first end mark self.old }
    {
        mark_lines(&mut self.touched, first as usize, end as usize, mark);
    }
}

/// The index of the window of a number, among windows in ascending order of their numbers.
pub fn index_of_number(windows: &[Window], number: u32) -> Option<usize>
    requires { AreAscending windows.now }
    ensures { result ≡ position (λ (w : WindowView). w.frame.number == number) windows.now }
{
    let index = windows.partition_point(|window| window.frame().number < number);
    if index < windows.len() && windows[index].frame().number == number {
        Some(index)
    } else {
        None
    }
}

// The place among so many that is nearest to this one.
fn nearest(count: u32, place: u32) -> u32
    requires { 1 ≤ count }
    ensures { result ≡ nearest count place }
{
    if place < count { place } else { count - 1 }
}

// Whether any mark is set.
fn is_any(marks: &[bool]) -> bool
    ensures { result ≡ list_any (λ mark. mark) marks.now }
{
    marks.iter().any(|mark| *mark)
}

// Marks one line, if there is one.
fn touch_one(touched: &mut [bool], line: usize)
    ensures { touched.new ≡ marked_lines line (line + 1) true touched.old }
{
    if line < touched.len() {
        touched[line] = true;
    }
}

// Sets the marks of the lines `first..end`.
fn mark_lines(touched: &mut [bool], first: usize, end: usize, mark: bool)
    ensures { touched.new ≡ marked_lines first end mark touched.old }
{
    let end = end.min(touched.len());
    for line in first.min(end)..end {
        touched[line] = mark;
    }
}
