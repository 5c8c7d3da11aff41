//! Surfaces of cells, which windows show, and what is drawn on them.
//!
//! A *surface* is a grid of cells that windows share, and an *area* is the part of it that a window has. A *drawing*
//! changes cells of an area and no others.
ghost use Rattle.std.specs.Prelude.{◌≡◌, ◌+◌, ◌<◌, ◌≤◌, length, map, IfOk};
ghost use Rattle.std.specs.List.{range_with_len};
ghost use Rattle.scr_windows.specs.Surfaces.SurfaceViews.{IsPart, IsSurface, IsSurfaceSize, blank_surface, filled, inside_at};
ghost use Rattle.scr_windows.specs.Surfaces.Drawings.{IsFitting, drawn};
ghost use Rattle.scr_windows.specs.Surfaces.Formulas.{run_put};
ghost use Rattle.scr_windows.specs.Code.Stretches.{characters_first, forms_from, row_laid};

mod areas;
mod borders;
mod changes;
mod copies;
mod drawings;
mod rows;

pub use areas::Area;
pub use borders::Border;
pub use drawings::Drawing;
use scr_cells::{Cell, Grid, NoMemory, grid_laws};
use std::alloc::Global;
use std::marker::Model;

/// A grid of cells that windows share (X/Open Curses Issue 7, 'Screens, Windows and Terminals').
#[derive(Drop)]
pub struct Surface {
    pub(crate) grid: Grid<Cell>,
}

impl Model for Surface {
    ghost use Rattle.scr_windows.specs.Surfaces.SurfaceViews.{SurfaceView, IsSurface};

    ghost Value = { SurfaceView };

    ghost view = { λ a. record { rows = a.grid.rows; columns = a.grid.columns; lines = a.grid.lines } };

    ghost invariant = { λ a. IsSurface (record { rows = a.grid.rows; columns = a.grid.columns; lines = a.grid.lines }) };
}

impl Surface {
    /// Makes a surface of this many rows and columns with blanks without attributes everywhere. Fails only when memory
    /// runs out.
    ///
    /// It has at least one row and one column, and at most 1,000,000 places.
    pub fn blank(alloc: Global, rows: u32, columns: u32) -> Result<Surface, NoMemory>
        requires { IsSurfaceSize rows columns }
        ensures { IfOk result (λ surface. surface ≡ blank_surface rows columns) }
    {
        grid_laws::<Cell>();
        Ok(Surface {
            grid: Grid::new(alloc, rows, columns, Cell::blank())?,
        })
    }

    /// How many rows and columns there are.
    pub fn size(&self) -> (u32, u32)
        ensures value { result ≡ (self.now.rows, self.now.columns) }
        ensures surface { IsSurface self.now }
    {
        (self.grid.rows(), self.grid.columns())
    }

    /// The cells of a row of an area, as many as the area has columns. The area is on the surface, and has the row.
    pub fn line(&self, area: Area, row: u32) -> &[Cell]
        requires part { IsPart self.now area }
        requires row { row < area.rows }
        ensures cells { result.now ≡ map (inside_at self.now area row) (range_with_len 0 area.columns) }
        ensures width { length result.now ≡ area.columns }
    {
        grid_laws::<Cell>();
        self.grid
            .part(area.top + row, area.left, area.left + area.columns)
    }

    /// Puts a cell in one place of an area. Every other place stays.
    ///
    /// This is a drawing too, of a run of one place. It is a call of its own because text is added with it.
    pub fn put(&mut self, area: Area, row: u32, column: u32, cell: Cell)
        requires part { IsPart self.old area }
        requires row { row < area.rows }
        requires column { column < area.columns }
        ensures { self.new ≡ filled self.old area (run_put row column (column + 1) cell (inside_at self.old area)) }
    {
        // The drawings are proved from what holds of every surface.
        let _ = self.size();
        self.put_place(area.top + row, area.left + column, cell);
    }

    // Writes the characters that a text begins with into a row of an area, from a column on: each in the cell that a
    // blank gets, but for its byte. The row has room for all of the text. Gives how many they are. Every other place
    // stays.
    pub(crate) fn write_text(
        &mut self,
        area: Area,
        row: u32,
        column: u32,
        text: &[u8],
        blank: Cell,
    ) -> usize
        requires part { IsPart self.old area }
        requires row { row < area.rows }
        requires end { column + length text.now ≤ area.columns }
        ensures count { result ≡ characters_first text.now }
        ensures cells { self.new ≡ filled self.old area (row_laid row column (column + result) (forms_from blank column text.now) (inside_at self.old area)) }
    {
        // The drawings are proved from what holds of every surface.
        let _ = self.size();
        self.write_row(area.top + row, area.left + column, text, blank)
    }

    /// Draws in an area, which has the places that the drawing names. Every place outside the area stays.
    pub fn draw(&mut self, area: Area, drawing: &Drawing)
        requires part { IsPart self.old area }
        requires fitting { IsFitting drawing.now area.rows area.columns }
        ensures { self.new ≡ filled self.old area (drawn drawing.now area.rows area.columns (inside_at self.old area)) }
    {
        // The drawings are proved from what holds of every surface.
        let _ = self.size();
        match *drawing {
            Drawing::Run {
                row,
                from,
                end,
                cell,
            } => self.fill_run(area, row, from, end, cell),
            Drawing::Rows { first, end, cell } => self.fill_rows(area, first, end, cell),
            Drawing::Below { row, column, cell } => self.fill_below(area, row, column, cell),
            Drawing::Column {
                column,
                first,
                end,
                cell,
            } => self.fill_column(area, column, first, end, cell),
            Drawing::Opened { row, column, cell } => self.open_row(area, row, column, cell),
            Drawing::Closed { row, column, cell } => self.close_row(area, row, column, cell),
            Drawing::Up {
                first,
                end,
                count,
                cell,
            } => self.move_up(area, first, end, count, cell),
            Drawing::Down {
                first,
                end,
                count,
                cell,
            } => self.move_down(area, first, end, count, cell),
            Drawing::Exchanged { old, new } => self.exchange(area, old, new),
            Drawing::Edges(border) => self.draw_border(area, border),
        }
    }
}
