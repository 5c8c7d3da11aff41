//! Calls that make a desk, windows with cells of their own, and pads. The definitions are in `specs/Calls/Making.antt`.
ghost use Rattle.std.specs.Prelude.{◌≡◌, ◌+◌, ◌<◌, length, IfOk, MatchResult, Ok};
ghost use Rattle.scr_windows.specs.declared.faults.WinFault.TheVariants.{NoMemory};
ghost use Rattle.scr_cells.specs.PictureViews.{IsSize};
ghost use Rattle.scr_windows.specs.DeskViews.{HasSameSize, first_desk};
ghost use Rattle.scr_windows.specs.Changes.{Allocated};
ghost use Rattle.scr_windows.specs.Code.NewFrames.{IsRootPlace};
ghost use Rattle.scr_windows.specs.Calls.Making.{screen_area, root_made, with_root, new_window_call, new_pad_call, pad_size};
ghost use Rattle.scr_windows.specs.Surfaces.SurfaceViews.{IsSurfaceSize};

use crate::calls::subwindows::{MOST, part_of};
use crate::desks::Desk;
use crate::faults::{Win, WinFault};
use crate::frames::Frame;
use crate::laws::surface_laws;
use crate::surfaces::{Area, Surface};
use crate::windows::Window;
use scr_cells::{Attrs, Cell, Size};
use std::alloc::Global;

// How many cells a pad may have.
const MOST_CELLS: u64 = 1_000_000;

impl Desk {
    /// Makes a desk with one blank window, `Win(0)`, over the whole screen.
    pub fn new(alloc: Global, size: Size) -> Result<Desk, WinFault>
        ensures { MatchResult result (λ desk. desk ≡ first_desk size.rows size.columns) (λ fault. fault ≡ NoMemory) }
    {
        let (rows, columns) = (size.rows, size.columns);
        let area = Area {
            top: 0,
            left: 0,
            rows,
            columns,
        };
        let frame = Frame {
            number: 0,
            surface: 0,
            area,
            parent: None,
            origin: Some((0, 0)),
        };
        surface_laws();
        let mut surfaces = Vec::new(alloc);
        let surface = Surface::blank(alloc, rows, columns)?;
        surfaces.push(surface)?;
        let mut windows = Vec::new(alloc);
        windows.push(Window::fresh(alloc, frame, Attrs(0), 0, Cell::blank())?)?;
        Ok(Desk {
            rows,
            columns,
            surfaces,
            windows,
            made: 0,
        })
    }

    /// Makes a blank window at a row and a column of the screen; 0 rows or columns extend to the screen's end.
    #[tactic(auto, unfolding(crate::specs::Calls::Making::new_window_call))]
    pub fn new_window(
        &mut self,
        alloc: Global,
        rows: u32,
        columns: u32,
        row: u32,
        column: u32,
    ) -> Result<Win, WinFault>
        ensures call { Allocated self.old (new_window_call self.old rows columns row column) (self.new, result) }
        ensures size { HasSameSize self.old self.new }
    {
        let screen = self.screen_area();
        let Some(area) = part_of(screen, rows, columns, row, column) else {
            return Err(WinFault::OffScreen);
        };
        self.add_root(alloc, area.rows, area.columns, Some((row, column)))
    }

    /// Makes a blank pad, a window that has no place on the screen.
    #[tactic(auto, unfolding(crate::specs::Calls::Making::new_pad_call))]
    pub fn new_pad(&mut self, alloc: Global, rows: u32, columns: u32) -> Result<Win, WinFault>
        ensures call { Allocated self.old (new_pad_call self.old rows columns) (self.new, result) }
        ensures size { HasSameSize self.old self.new }
    {
        let (rows, columns) = pad_size(rows, columns)?;
        self.add_root(alloc, rows, columns, None)
    }

    // The screen as an area.
    pub(crate) fn screen_area(&self) -> Area
        ensures area { result ≡ screen_area self.now }
        ensures size { IsSize self.now.rows self.now.columns }
    {
        Area {
            top: 0,
            left: 0,
            rows: self.rows,
            columns: self.columns,
        }
    }

    // Makes a window that has a surface of its own.
    fn add_root(
        &mut self,
        alloc: Global,
        rows: u32,
        columns: u32,
        origin: Option<(u32, u32)>,
    ) -> Result<Win, WinFault>
        requires { IsRootPlace self.old rows columns origin }
        ensures { Allocated self.old (root_made self.old rows columns origin) (self.new, result) }
    {
        if self.windows.len() >= MOST || self.made == u32::MAX {
            return Err(WinFault::TooMany);
        }
        self.push_root(alloc, rows, columns, origin)
    }

    // The same if one more window may be made.
    fn push_root(
        &mut self,
        alloc: Global,
        rows: u32,
        columns: u32,
        origin: Option<(u32, u32)>,
    ) -> Result<Win, WinFault>
        requires place { IsRootPlace self.old rows columns origin }
        requires few { length self.old.windows < 1000 }
        requires made { self.old.made < 4294967295 }
        ensures { Allocated self.old (with_root self.old rows columns origin, Ok (record { 0 = self.old.made + 1 })) (self.new, result) }
    {
        let number = self.made + 1;
        let frame = Frame {
            number,
            surface: self.surfaces.len(),
            area: Area {
                top: 0,
                left: 0,
                rows,
                columns,
            },
            parent: None,
            origin,
        };
        surface_laws();
        self.windows.reserve(1)?;
        let surface = Surface::blank(alloc, rows, columns)?;
        let window = Window::fresh(alloc, frame, Attrs(0), 0, Cell::blank())?;
        self.surfaces.push(surface)?;
        self.windows.push(window)?;
        self.made = number;
        Ok(Win(number))
    }
}

// The size of a pad.
#[tactic(auto, unfolding(crate::specs::Calls::Making::pad_size))]
pub(crate) fn pad_size(rows: u32, columns: u32) -> Result<(u32, u32), WinFault>
    ensures size { result ≡ pad_size rows columns }
    ensures fits { IfOk result (λ size. IsSurfaceSize size.0 size.1) }
{
    if rows == 0 || columns == 0 {
        return Err(WinFault::OutOfWindow);
    }
    if rows as u64 * columns as u64 > MOST_CELLS {
        return Err(WinFault::TooBig);
    }
    Ok((rows, columns))
}
