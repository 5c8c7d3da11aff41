//! Calls that copy cells from one window to another. The definitions are in `specs/Calls/Copying.antt`.
ghost use Rattle.std.specs.Prelude.{◌≡◌, ◌+◌, ◌<◌, ◌≤◌, length, true, false, MatchResult, Ok, Some};
ghost use Rattle.scr_windows.specs.Surfaces.SurfaceViews.{inside_at};
ghost use Rattle.scr_windows.specs.Surfaces.Formulas.{block_at, part_laid, part_of};
ghost use Rattle.scr_windows.specs.Changes.{write};
ghost use Rattle.scr_cells.specs.Grids.{grid_of};
ghost use Rattle.scr_windows.specs.DeskViews.{HasSameSize, surface_at, window_at};
ghost use Rattle.scr_windows.specs.Changes.{Allocated};
ghost use Rattle.scr_windows.specs.Calls.Copying.{copied, copy_call, has_part, laid_over, overlay_call};
ghost use Rattle.scr_windows.specs.declared.faults.WinFault.TheVariants.{NoMemory};

use crate::desks::Desk;
use crate::faults::{Win, WinFault};
use crate::laws::surface_laws;
use crate::surfaces::Area;
use scr_cells::{Cell, Grid, grid_laws};
use std::alloc::Global;

impl Desk {
    /// Copies cells of the source window, from `row` and `column` on, to a rectangle of the target window.
    #[tactic(auto, unfolding(crate::specs::Calls::Copying::copy_call))]
    pub fn copy(
        &mut self,
        alloc: Global,
        source: Win,
        target: Win,
        row: u32,
        column: u32,
        top: u32,
        left: u32,
        bottom: u32,
        right: u32,
        overlay: bool,
    ) -> Result<(), WinFault>
        ensures call { Allocated self.old (copy_call self.old source.0 target.0 row column top left bottom right overlay) (self.new, result) }
        ensures size { HasSameSize self.old self.new }
    {
        let from = self.canvas(source)?;
        let to = self.canvas(target)?;
        if top > bottom || left > right || bottom >= to.area.rows || right >= to.area.columns {
            return Err(WinFault::OutOfWindow);
        }
        let part = Area {
            top,
            left,
            rows: bottom - top + 1,
            columns: right - left + 1,
        };
        if !has_part(from.area, row, column, part) {
            return Err(WinFault::OutOfWindow);
        }
        self.copy_part(alloc, from.index, to.index, row, column, part, overlay)
    }

    /// Copies the part of the screen that two windows both cover from the source to the target, except for blanks (byte
    /// 32, whatever its attributes).
    pub fn overlay(&mut self, alloc: Global, source: Win, target: Win) -> Result<(), WinFault>
        ensures call { Allocated self.old (overlay_call self.old source.0 target.0 true) (self.new, result) }
        ensures size { HasSameSize self.old self.new }
    {
        self.lay_over(alloc, source, target, true)
    }

    /// Copies the part of the screen that two windows both cover from the source to the target, blanks included.
    pub fn overwrite(&mut self, alloc: Global, source: Win, target: Win) -> Result<(), WinFault>
        ensures call { Allocated self.old (overlay_call self.old source.0 target.0 false) (self.new, result) }
        ensures size { HasSameSize self.old self.new }
    {
        self.lay_over(alloc, source, target, false)
    }

    // Copies the part of the screen that two windows both cover.
    #[tactic(auto, unfolding(crate::specs::Calls::Copying::overlay_call))]
    fn lay_over(
        &mut self,
        alloc: Global,
        source: Win,
        target: Win,
        overlay: bool,
    ) -> Result<(), WinFault>
        ensures call { Allocated self.old (overlay_call self.old source.0 target.0 overlay) (self.new, result) }
        ensures size { HasSameSize self.old self.new }
    {
        let from = self.index_of(source)?;
        let to = self.index_of(target)?;
        let one = self.window_at(from).frame();
        let other = self.window_at(to).frame();
        let (Some(first), Some(second)) = (one.origin, other.origin) else {
            return Err(WinFault::IsPad);
        };
        self.lay_shared(alloc, from, to, first, second, overlay)
    }

    // Copies the part of the screen that the windows at two indices both cover; `first` and `second` are their places
    // on it.
    fn lay_shared(
        &mut self,
        alloc: Global,
        source: usize,
        target: usize,
        first: (u32, u32),
        second: (u32, u32),
        overlay: bool,
    ) -> Result<(), WinFault>
        requires source { source < length self.old.windows }
        requires target { target < length self.old.windows }
        requires first { (window_at self.old source).frame.origin ≡ Some first }
        requires second { (window_at self.old target).frame.origin ≡ Some second }
        ensures laid { Allocated self.old (laid_over self.old source target first second overlay, Ok tt) (self.new, result) }
        ensures size { HasSameSize self.old self.new }
    {
        let one = self.window_at(source).frame().area;
        let other = self.window_at(target).frame().area;
        let top = first.0.max(second.0);
        let left = first.1.max(second.1);
        let bottom = (first.0 + one.rows).min(second.0 + other.rows);
        let right = (first.1 + one.columns).min(second.1 + other.columns);
        if top >= bottom || left >= right {
            return Ok(());
        }
        let part = Area {
            top: top - second.0,
            left: left - second.1,
            rows: bottom - top,
            columns: right - left,
        };
        self.copy_part(
            alloc,
            source,
            target,
            top - first.0,
            left - first.1,
            part,
            overlay,
        )
    }

    // Copies cells of the window at an index, from a row and a column on, to a part of the window at another index,
    // through memory of their own.
    fn copy_part(
        &mut self,
        alloc: Global,
        source: usize,
        target: usize,
        row: u32,
        column: u32,
        part: Area,
        overlay: bool,
    ) -> Result<(), WinFault>
        requires source { source < length self.old.windows }
        requires target { target < length self.old.windows }
        requires some_rows { 1 ≤ part.rows }
        requires some_columns { 1 ≤ part.columns }
        requires below { row + part.rows ≤ (window_at self.old source).frame.area.rows }
        requires right { column + part.columns ≤ (window_at self.old source).frame.area.columns }
        requires end { part.top + part.rows ≤ (window_at self.old target).frame.area.rows }
        requires edge { part.left + part.columns ≤ (window_at self.old target).frame.area.columns }
        ensures copied { Allocated self.old (copied self.old source target row column part overlay, Ok tt) (self.new, result) }
        ensures size { HasSameSize self.old self.new }
    {
        let block = self.block(alloc, source, row, column, part)?;
        self.lay(target, part.top, part.left, &block, overlay);
        surface_laws();
        grid_laws::<Cell>();
        Ok(())
    }

    // The cells of the window at an index from a row and a column on, as many rows and columns as the part has.
    fn block(
        &self,
        alloc: Global,
        index: usize,
        row: u32,
        column: u32,
        part: Area,
    ) -> Result<Grid<Cell>, WinFault>
        requires index { index < length self.now.windows }
        requires some_rows { 1 ≤ part.rows }
        requires some_columns { 1 ≤ part.columns }
        requires below { row + part.rows ≤ (window_at self.now index).frame.area.rows }
        requires right { column + part.columns ≤ (window_at self.now index).frame.area.columns }
        ensures { MatchResult result (λ block. block ≡ record { rows = part.rows; columns = part.columns; lines = grid_of part.rows part.columns (inside_at (surface_at self.now (window_at self.now index).frame.surface) (record { top = (window_at self.now index).frame.area.top + row; left = (window_at self.now index).frame.area.left + column; rows = part.rows; columns = part.columns })) }) (λ fault. fault ≡ NoMemory) }
    {
        let frame = self.window_at(index).frame();
        let area = Area {
            top: frame.area.top + row,
            left: frame.area.left + column,
            rows: part.rows,
            columns: part.columns,
        };
        Ok(self.surfaces[frame.surface].block(alloc, area)?)
    }

    // Lays a block of cells over the window at an index from a row and a column on, and touches the lines.
    fn lay(&mut self, index: usize, top: u32, left: u32, block: &Grid<Cell>, overlay: bool)
        requires here { index < length self.old.windows }
        requires below { top + block.now.rows ≤ (window_at self.old index).frame.area.rows }
        requires right { left + block.now.columns ≤ (window_at self.old index).frame.area.columns }
        ensures laid { self.new ≡ write self.old index top (top + block.now.rows) (part_laid overlay (part_of top left block.now) (block_at block.now)) }
        ensures size { HasSameSize self.old self.new }
    {
        let window = &mut self.windows[index];
        let frame = window.frame();
        window.mark(top, top + block.rows(), true);
        surface_laws();
        self.surfaces[frame.surface].lay(frame.area, top, left, block, overlay);
    }
}

// Whether the places from a row and a column of an area on, as many as the part has, are in the area.
fn has_part(area: Area, row: u32, column: u32, part: Area) -> bool
    ensures { result ≡ has_part area row column part }
{
    part.rows <= area.rows
        && part.columns <= area.columns
        && row <= area.rows - part.rows
        && column <= area.columns - part.columns
}
