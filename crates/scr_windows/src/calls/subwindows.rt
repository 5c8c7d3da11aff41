//! Calls that make subwindows. The definitions are in `specs/Calls/Subwindows.antt`.
ghost use Rattle.std.specs.Prelude.{◌≡◌, ◌+◌, ◌<◌, ◌≤◌, length};
ghost use Rattle.scr_windows.specs.DeskViews.{HasSameSize, window_at};
ghost use Rattle.scr_windows.specs.Changes.{Allocated};
ghost use Rattle.scr_windows.specs.Code.NewFrames.{IsChildPlace};
ghost use Rattle.scr_windows.specs.Calls.Making.{part_of};
ghost use Rattle.scr_windows.specs.Calls.Subwindows.{child_made, derived, derive_call, sub_call, sub_pad_call};

use crate::desks::Desk;
use crate::faults::{Win, WinFault};
use crate::frames::Frame;
use crate::surfaces::Area;
use crate::windows::Window;
use std::alloc::Global;

/// The greatest number of windows.
pub const MOST: usize = 1000;

impl Desk {
    /// Makes a subwindow at a row and a column of its parent; 0 rows or columns extend to the parent's end.
    #[tactic(auto, unfolding(crate::specs::Calls::Subwindows::derive_call))]
    pub fn derive(
        &mut self,
        alloc: Global,
        win: Win,
        rows: u32,
        columns: u32,
        row: u32,
        column: u32,
    ) -> Result<Win, WinFault>
        ensures call { Allocated self.old (derive_call self.old win.0 rows columns row column) (self.new, result) }
        ensures size { HasSameSize self.old self.new }
    {
        let index = self.index_of(win)?;
        self.derive_at(alloc, index, rows, columns, row, column)
    }

    /// Makes a subwindow as `derive` does, at a row and a column of the screen.
    #[tactic(auto, unfolding(crate::specs::Calls::Subwindows::sub_call))]
    pub fn sub(
        &mut self,
        alloc: Global,
        win: Win,
        rows: u32,
        columns: u32,
        row: u32,
        column: u32,
    ) -> Result<Win, WinFault>
        ensures call { Allocated self.old (sub_call self.old win.0 rows columns row column) (self.new, result) }
        ensures size { HasSameSize self.old self.new }
    {
        let index = self.index_of(win)?;
        let Some((top, left)) = self.window_at(index).frame().origin else {
            return Err(WinFault::IsPad);
        };
        if row < top || column < left {
            return Err(WinFault::NotInParent);
        }
        self.derive_at(alloc, index, rows, columns, row - top, column - left)
    }

    /// Makes a subwindow of a pad as `derive` does of a window, at a row and a column of the pad.
    #[tactic(auto, unfolding(crate::specs::Calls::Subwindows::sub_pad_call))]
    pub fn sub_pad(
        &mut self,
        alloc: Global,
        win: Win,
        rows: u32,
        columns: u32,
        row: u32,
        column: u32,
    ) -> Result<Win, WinFault>
        ensures call { Allocated self.old (sub_pad_call self.old win.0 rows columns row column) (self.new, result) }
        ensures size { HasSameSize self.old self.new }
    {
        let index = self.index_of(win)?;
        let frame = self.window_at(index).frame();
        if frame.origin.is_some() {
            return Err(WinFault::NotPad);
        }
        let Some(area) = part_of(frame.area, rows, columns, row, column) else {
            return Err(WinFault::NotInParent);
        };
        self.add_child(alloc, index, area, None)
    }

    // Makes a subwindow of the window at an index, at a row and a column of it.
    fn derive_at(
        &mut self,
        alloc: Global,
        index: usize,
        rows: u32,
        columns: u32,
        row: u32,
        column: u32,
    ) -> Result<Win, WinFault>
        requires { index < length self.old.windows }
        ensures made { Allocated self.old (derived self.old index (window_at self.old index).frame.origin rows columns row column) (self.new, result) }
        ensures size { HasSameSize self.old self.new }
    {
        let frame = self.window_at(index).frame();
        let Some(origin) = frame.origin else {
            return Err(WinFault::IsPad);
        };
        let Some(area) = part_of(frame.area, rows, columns, row, column) else {
            return Err(WinFault::NotInParent);
        };
        let origin = Some((origin.0 + row, origin.1 + column));
        self.add_child(alloc, index, area, origin)
    }

    // Makes a subwindow of the window at an index, of that part of the surface.
    fn add_child(
        &mut self,
        alloc: Global,
        index: usize,
        area: Area,
        origin: Option<(u32, u32)>,
    ) -> Result<Win, WinFault>
        requires here { index < length self.old.windows }
        requires inside { IsChildPlace self.old index area origin }
        ensures made { Allocated self.old (child_made self.old index area origin) (self.new, result) }
        ensures size { HasSameSize self.old self.new }
    {
        if self.windows.len() >= MOST || self.made == u32::MAX {
            return Err(WinFault::TooMany);
        }
        let parent = &self.windows[index];
        let (above, state) = (parent.frame(), parent.state());
        let number = self.made + 1;
        let frame = Frame {
            number,
            surface: above.surface,
            area,
            parent: Some(above.number),
            origin,
        };
        let window = Window::fresh(alloc, frame, state.attrs, state.pair, state.background)?;
        self.windows.push(window)?;
        self.made = number;
        Ok(Win(number))
    }
}

// A part of an area, from a row and a column of it on; `None` if it is empty or not wholly inside.
#[tactic(auto, unfolding(crate::specs::Calls::Making::part_of))]
pub(crate) fn part_of(area: Area, rows: u32, columns: u32, row: u32, column: u32) -> Option<Area>
    requires below { area.top + area.rows ≤ 1000000 }
    requires right { area.left + area.columns ≤ 1000000 }
    ensures { result ≡ part_of area rows columns row column }
{
    let rows = if rows == 0 {
        area.rows.saturating_sub(row)
    } else {
        rows
    };
    let columns = if columns == 0 {
        area.columns.saturating_sub(column)
    } else {
        columns
    };
    if rows == 0 || columns == 0 || row > area.rows || column > area.columns {
        return None;
    }
    if rows > area.rows - row || columns > area.columns - column {
        return None;
    }
    Some(Area {
        top: area.top + row,
        left: area.left + column,
        rows,
        columns,
    })
}
