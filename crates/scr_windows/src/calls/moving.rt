//! Calls that move a window on the screen, or a subwindow in its parent. The definitions are in
//! `specs/Calls/Moving.antt`.
ghost use Rattle.std.specs.Prelude.{◌≡◌, ◌+◌, ◌-◌, ◌<◌, All, MatchOption, length, leb, map};
ghost use Rattle.scr_windows.specs.DeskViews.{HasSameSize, WindowView, window_at};
ghost use Rattle.scr_windows.specs.Code.Families.{IsNear, IsNearFrame, IsNearShift, IsShift, descends, family_frame, family_shifted, link_of};
ghost use Rattle.scr_windows.specs.Calls.Moving.{area_shifted, move_derived_call, move_window_call, moved, origin_shifted, place_shifted, shifted, with_family_shifted};

use crate::desks::Desk;
use crate::faults::{Win, WinFault};
use crate::frames::Frame;
use crate::surfaces::Area;
use crate::windows::Window;

/// How a window and its descendants move: what is at the first place goes to the second.
#[derive(Clone, Copy)]
pub enum WindowMove {
    /// On the screen.
    Screen((u32, u32), (u32, u32)),
    /// On the surface.
    Surface((u32, u32), (u32, u32)),
}

impl Desk {
    /// Moves a window to a row and a column of the screen, and all its descendants with it.
    #[tactic(auto, unfolding(crate::specs::Calls::Moving::move_window_call))]
    pub fn move_window(&mut self, win: Win, row: u32, column: u32) -> Result<(), WinFault>
        ensures call { (self.new, result) ≡ move_window_call self.old win.0 row column }
        ensures size { HasSameSize self.old self.new }
    {
        let index = self.index_of(win)?;
        let frame = self.window_at(index).frame();
        let Some(origin) = frame.origin else {
            return Err(WinFault::IsPad);
        };
        if frame.parent.is_some() {
            return Err(WinFault::IsSub);
        }
        if !fits(row, frame.area.rows, self.rows)
            || !fits(column, frame.area.columns, self.columns)
        {
            return Err(WinFault::OffScreen);
        }
        self.move_family(index, WindowMove::Screen(origin, (row, column)));
        Ok(())
    }

    /// Makes a subwindow share its parent's cells from another row and column of the parent on.
    #[tactic(auto, unfolding(crate::specs::Calls::Moving::move_derived_call))]
    pub fn move_derived(&mut self, win: Win, row: u32, column: u32) -> Result<(), WinFault>
        ensures call { (self.new, result) ≡ move_derived_call self.old win.0 row column }
        ensures size { HasSameSize self.old self.new }
    {
        let index = self.index_of(win)?;
        let frame = self.window_at(index).frame();
        if frame.origin.is_none() {
            return Err(WinFault::IsPad);
        }
        let Some(parent) = frame.parent else {
            return Err(WinFault::NotInParent);
        };
        let above = self.index_of(Win(parent))?;
        let within = self.window_at(above).frame().area;
        if !fits(row, frame.area.rows, within.rows)
            || !fits(column, frame.area.columns, within.columns)
        {
            return Err(WinFault::NotInParent);
        }
        let from = (frame.area.top, frame.area.left);
        let to = (within.top + row, within.left + column);
        self.move_family(index, WindowMove::Surface(from, to));
        Ok(())
    }

    // Moves the window at an index and its descendants, and touches its lines.
    fn move_family(&mut self, index: usize, shift: WindowMove)
        requires here { index < length self.old.windows }
        requires fits { IsShift self.old index shift }
        ensures { self.new ≡ moved self.old index shift }
    {
        let rows = self.window_at(index).frame().area.rows;
        self.shift_windows(index, shift);
        self.mark(index, 0, rows, true);
    }

    // Moves the window at an index and its descendants.
    fn shift_windows(&mut self, index: usize, shift: WindowMove)
        requires here { index < length self.old.windows }
        requires fits { IsShift self.old index shift }
        ensures moved { self.new ≡ with_family_shifted self.old index shift }
        ensures there { index < length self.new.windows }
    {
        let number = self.windows[index].frame().number;
        shift_family(&mut self.windows, number, shift);
    }
}

// Whether `count` rows or columns from `start` on end at `end` at most.
fn fits(start: u32, count: u32, end: u32) -> bool
    ensures { result ≡ leb (start + count) end }
{
    count <= end && start <= end - count
}

// Shifts the window of a number and all its descendants.
fn shift_family(windows: &mut [Window], ancestor: u32, shift: WindowMove)
    requires near { All (λ (w : WindowView). IsNearFrame w.frame) windows.old }
    requires shift { IsNearShift shift }
    ensures { windows.new ≡ family_shifted ancestor shift windows.old }
{
    for index in 0..windows.len() {
        let frame = windows[index].frame();
        let frame = family_frame(windows, ancestor, shift, frame);
        windows[index].set_frame(frame);
    }
}

// The frame of a window after the window of a number and its descendants were shifted.
fn family_frame(windows: &[Window], ancestor: u32, shift: WindowMove, frame: Frame) -> Frame
    requires near { IsNearFrame frame }
    requires shift { IsNearShift shift }
    ensures { result ≡ family_frame (map link_of windows.now) (length windows.now) ancestor shift frame }
{
    if descends(windows, ancestor, frame.number) {
        shifted(shift, frame)
    } else {
        frame
    }
}

// Whether the window of a number is the ancestor, or descends from it.
fn descends(windows: &[Window], ancestor: u32, number: u32) -> bool
    ensures { result ≡ descends (map link_of windows.now) ancestor (length windows.now) number }
{
    let mut number = number;
    for later in 0..windows.len() {
        let frame = windows[windows.len() - 1 - later].frame();
        if frame.number == number {
            if number == ancestor {
                return true;
            }
            match frame.parent {
                None => return false,
                Some(parent) => number = parent,
            }
        }
    }
    false
}

// A window's frame at another place of the screen or of its surface.
fn shifted(shift: WindowMove, frame: Frame) -> Frame
    requires near { IsNearFrame frame }
    requires shift { IsNearShift shift }
    ensures { result ≡ shifted shift frame }
{
    let mut frame = frame;
    match shift {
        WindowMove::Screen(from, to) => frame.origin = origin_shifted(from, to, frame.origin),
        WindowMove::Surface(from, to) => frame.area = area_shifted(from, to, frame.area),
    }
    frame
}

// A window's place on the screen after a shift, if it has one.
fn origin_shifted(
    from: (u32, u32),
    to: (u32, u32),
    origin: Option<(u32, u32)>,
) -> Option<(u32, u32)>
    requires near { MatchOption origin (Unit {0}) IsNear }
    requires to { IsNear to }
    ensures { result ≡ origin_shifted from to origin }
{
    match origin {
        None => None,
        Some(place) => Some(place_shifted(from, to, place)),
    }
}

// A window's part of its surface after a shift.
fn area_shifted(from: (u32, u32), to: (u32, u32), area: Area) -> Area
    requires near { IsNear (area.top, area.left) }
    requires to { IsNear to }
    ensures { result ≡ area_shifted from to area }
{
    let (top, left) = place_shifted(from, to, (area.top, area.left));
    Area {
        top,
        left,
        rows: area.rows,
        columns: area.columns,
    }
}

// Where a place goes when `from` goes to `to`.
fn place_shifted(from: (u32, u32), to: (u32, u32), place: (u32, u32)) -> (u32, u32)
    requires near { IsNear place }
    requires to { IsNear to }
    ensures { result ≡ place_shifted from to place }
{
    let row = to.0 + place.0.saturating_sub(from.0);
    let column = to.1 + place.1.saturating_sub(from.1);
    (row, column)
}
