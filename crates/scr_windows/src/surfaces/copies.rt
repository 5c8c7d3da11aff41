//! Blocks of cells that are read from an area, and laid over a part of one.
ghost use Rattle.std.specs.Prelude.{◌≡◌, ◌+◌, ◌≤◌, IfOk};
ghost use Rattle.scr_cells.specs.Grids.{grid_of};
ghost use Rattle.scr_windows.specs.Surfaces.SurfaceViews.{IsPart, IsSurface, IsSurfaceSize, filled, inside_at, resized_surface};
ghost use Rattle.scr_windows.specs.Surfaces.Formulas.{block_at, part_laid, part_of};

use crate::surfaces::{Area, Surface};
use scr_cells::{Cell, Grid, NoMemory, grid_laws};
use std::alloc::Global;

impl Surface {
    /// Copies the cells of an area to a block of their own. Fails only when memory runs out.
    pub fn block(&self, alloc: Global, area: Area) -> Result<Grid<Cell>, NoMemory>
        requires { IsPart self.now area }
        ensures { IfOk result (λ block. block ≡ record { rows = area.rows; columns = area.columns; lines = grid_of area.rows area.columns (inside_at self.now area) }) }
    {
        let mut block = Grid::with_room(alloc, area.rows, area.columns)?;
        for row in 0..area.rows {
            block.push_row(self.line(area, row))?;
        }
        Ok(block)
    }

    /// Copies the cells of an area to a surface of another size of its own: what fits stays, and the rest gets a cell.
    /// Fails only when memory runs out.
    ///
    /// The surface has at least one row and one column, and at most 1,000,000 places.
    pub fn resized(
        &self,
        alloc: Global,
        area: Area,
        rows: u32,
        columns: u32,
        cell: Cell,
    ) -> Result<Surface, NoMemory>
        requires part { IsPart self.now area }
        requires size { IsSurfaceSize rows columns }
        ensures { IfOk result (λ surface. surface ≡ resized_surface self.now area rows columns cell) }
    {
        grid_laws::<Cell>();
        let mut grid = Grid::new(alloc, rows, columns, cell)?;
        let kept = Area {
            top: area.top,
            left: area.left,
            rows: rows.min(area.rows),
            columns: columns.min(area.columns),
        };
        for row in 0..kept.rows {
            grid.lay(row, 0, self.line(kept, row));
        }
        Ok(Surface { grid })
    }

    /// Lays a block of cells over an area, from a row and a column on: as many places as the block has, which are in
    /// the area. With `overlay`, a byte 32 of the block leaves its place (X/Open Curses Issue 7, copywin()). Every
    /// other place stays.
    pub fn lay(&mut self, area: Area, top: u32, left: u32, block: &Grid<Cell>, overlay: bool)
        requires area { IsPart self.old area }
        requires below { top + block.now.rows ≤ area.rows }
        requires right { left + block.now.columns ≤ area.columns }
        ensures { self.new ≡ filled self.old area (part_laid overlay (part_of top left block.now) (block_at block.now) (inside_at self.old area)) }
    {
        // The laying is proved from what holds of every surface.
        let _ = self.size();
        self.lay_block(area, top, left, block, overlay);
    }

    // The same, for what is known to be a surface.
    fn lay_block(&mut self, area: Area, top: u32, left: u32, block: &Grid<Cell>, overlay: bool)
        requires area { IsPart self.old area }
        requires below { top + block.now.rows ≤ area.rows }
        requires right { left + block.now.columns ≤ area.columns }
        requires surface { IsSurface self.old }
        ensures { self.new ≡ filled self.old area (part_laid overlay (part_of top left block.now) (block_at block.now) (inside_at self.old area)) }
    {
        let left = area.left + left;
        let right = left + block.columns();
        for row in 0..block.rows() {
            let row_there = area.top + (top + row);
            self.lay_row(row_there, left, right, block.row(row), overlay);
        }
    }
}
