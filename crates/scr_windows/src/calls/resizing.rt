//! The call that gives a window another size. The definition is in `specs/Calls/Resizing.antt`.
ghost use Rattle.std.specs.Prelude.{◌≡◌, ◌+◌, ◌<◌, None, Ok, Some, false, length, leb, IfOk};
ghost use Rattle.scr_windows.specs.DeskViews.{HasSameSize, window_at};
ghost use Rattle.scr_windows.specs.Changes.{Allocated};
ghost use Rattle.scr_windows.specs.Code.NewFrames.{IsRootPlace};
ghost use Rattle.scr_windows.specs.Calls.Removing.{has_children};
ghost use Rattle.scr_windows.specs.Calls.Resizing.{area_in, ends_inside, resize_window_call, root_size, sub_resized, with_root_size};

use crate::calls::making::pad_size;
use crate::calls::removing::has_children;
use crate::calls::subwindows::part_of;
use crate::desks::Desk;
use crate::faults::{Win, WinFault};
use crate::laws::surface_laws;
use crate::surfaces::Area;
use std::alloc::Global;

impl Desk {
    /// Gives a window another size. What fits stays, and the rest is its background; a subwindow changes no cell.
    #[tactic(auto, unfolding(crate::specs::Calls::Resizing::resize_window_call))]
    pub fn resize_window(
        &mut self,
        alloc: Global,
        win: Win,
        rows: u32,
        columns: u32,
    ) -> Result<(), WinFault>
        ensures call { Allocated self.old (resize_window_call self.old win.0 rows columns) (self.new, result) }
        ensures size { HasSameSize self.old self.new }
    {
        let index = self.index_of(win)?;
        if has_children(&self.windows, win.0) {
            return Err(WinFault::HasChildren);
        }
        match self.window_at(index).frame().parent {
            None => {
                let (rows, columns) = self.root_size(index, rows, columns)?;
                self.set_root_size(alloc, index, rows, columns)
            }
            Some(parent) => {
                let above = self.index_of(Win(parent))?;
                self.resize_sub(alloc, index, above, rows, columns)
            }
        }
    }

    // The size that the window at an index gets, which shares no cells.
    fn root_size(&self, index: usize, rows: u32, columns: u32) -> Result<(u32, u32), WinFault>
        requires { index < length self.now.windows }
        ensures size { result ≡ root_size self.now (window_at self.now index).frame.origin rows columns }
        ensures place { IfOk result (λ size. IsRootPlace self.now size.0 size.1 (window_at self.now index).frame.origin) }
    {
        match self.window_at(index).frame().origin {
            None => pad_size(rows, columns),
            Some(origin) => {
                let screen = self.screen_area();
                match part_of(screen, rows, columns, origin.0, origin.1) {
                    None => Err(WinFault::OffScreen),
                    Some(area) => Ok((area.rows, area.columns)),
                }
            }
        }
    }

    // Gives the window at an index, which shares no cells, this size.
    fn set_root_size(
        &mut self,
        alloc: Global,
        index: usize,
        rows: u32,
        columns: u32,
    ) -> Result<(), WinFault>
        requires here { index < length self.old.windows }
        requires root { (window_at self.old index).frame.parent ≡ None }
        requires alone { has_children (window_at self.old index).frame.number self.old.windows ≡ false }
        requires place { IsRootPlace self.old rows columns (window_at self.old index).frame.origin }
        ensures { Allocated self.old (with_root_size self.old index rows columns, Ok tt) (self.new, result) }
    {
        let area = Area {
            top: 0,
            left: 0,
            rows,
            columns,
        };
        surface_laws();
        let window = &self.windows[index];
        let (frame, state) = (window.frame(), window.state());
        let window = window.resized(alloc, area)?;
        let surface = self.surfaces[frame.surface].resized(
            alloc,
            frame.area,
            rows,
            columns,
            state.background,
        )?;
        self.surfaces[frame.surface] = surface;
        self.windows[index] = window;
        Ok(())
    }

    // Gives the subwindow at an index another size inside the window at the index of its parent.
    fn resize_sub(
        &mut self,
        alloc: Global,
        index: usize,
        above: usize,
        rows: u32,
        columns: u32,
    ) -> Result<(), WinFault>
        requires here { index < length self.old.windows }
        requires parent { (window_at self.old index).frame.parent ≡ Some (window_at self.old above).frame.number }
        requires there { above < length self.old.windows }
        requires alone { has_children (window_at self.old index).frame.number self.old.windows ≡ false }
        ensures resized { Allocated self.old (sub_resized self.old index (window_at self.old above).frame (area_in (window_at self.old index).frame (window_at self.old above).frame rows columns)) (self.new, result) }
        ensures size { HasSameSize self.old self.new }
    {
        let frame = self.window_at(index).frame();
        let parent = self.window_at(above).frame();
        let row = frame.area.top.saturating_sub(parent.area.top);
        let column = frame.area.left.saturating_sub(parent.area.left);
        let Some(area) = part_of(parent.area, rows, columns, row, column) else {
            return Err(WinFault::NotInParent);
        };
        if !ends_inside(frame.origin, area, parent.origin, parent.area) {
            return Err(WinFault::NotInParent);
        }
        let window = self.windows[index].resized(alloc, area)?;
        self.windows[index] = window;
        Ok(())
    }
}

// Whether on the screen an area, from one place on, ends inside another, from its place on.
fn ends_inside(
    place: Option<(u32, u32)>,
    area: Area,
    above: Option<(u32, u32)>,
    within: Area,
) -> bool
    ensures { result ≡ ends_inside place area above within }
{
    match (place, above) {
        (Some(place), Some(above)) => {
            ends_before(place.0, area.rows, above.0, within.rows)
                && ends_before(place.1, area.columns, above.1, within.columns)
        }
        _ => true,
    }
}

// Whether so many rows or columns, from one on, end at the end of others at most.
fn ends_before(first: u32, count: u32, start: u32, len: u32) -> bool
    ensures { result ≡ leb (first + count) (start + len) }
{
    first as u64 + count as u64 <= start as u64 + len as u64
}
