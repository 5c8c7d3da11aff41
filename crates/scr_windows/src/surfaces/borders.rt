//! Borders: what is drawn along the edges of an area.
ghost use Rattle.std.specs.Prelude.{◌≡◌};
ghost use Rattle.scr_windows.specs.Surfaces.SurfaceViews.{IsPart, IsSurface, filled, inside_at};
ghost use Rattle.scr_windows.specs.Surfaces.Formulas.{bordered};
ghost use Rattle.scr_windows.specs.Code.Steps.{Changes, sides_put};

use crate::surfaces::{Area, Surface};
use scr_cells::Cell;

/// What is drawn along the edges of an area (X/Open Curses Issue 7, border()).
#[derive(Clone, Copy)]
pub struct Border {
    /// The first column.
    pub left: Cell,
    /// The last column.
    pub right: Cell,
    /// The first row.
    pub top: Cell,
    /// The last row.
    pub bottom: Cell,
    /// The first place of the first row.
    pub top_left: Cell,
    /// The last place of the first row.
    pub top_right: Cell,
    /// The first place of the last row.
    pub bottom_left: Cell,
    /// The last place of the last row.
    pub bottom_right: Cell,
}

impl Surface {
    // Draws a border along the edges of an area: the sides, then the first and the last row, then the corners, so that
    // where two of them meet the later one is kept.
    pub(crate) fn draw_border(&mut self, area: Area, border: Border)
        requires part { IsPart self.old area }
        requires surface { IsSurface self.old }
        ensures { self.new ≡ filled self.old area (bordered area.rows area.columns border (inside_at self.old area)) }
    {
        let (top, left) = (area.top, area.left);
        let bottom = top + area.rows - 1;
        let right = left + area.columns - 1;
        self.draw_sides(area, border.left, border.right);
        self.put_row(top, left, right + 1, border.top);
        self.put_row(bottom, left, right + 1, border.bottom);
        self.put_row(top, left, left + 1, border.top_left);
        self.put_row(top, right, right + 1, border.top_right);
        self.put_row(bottom, left, left + 1, border.bottom_left);
        self.put_row(bottom, right, right + 1, border.bottom_right);
    }

    // Puts cells in the first and the last column of an area.
    fn draw_sides(&mut self, area: Area, left: Cell, right: Cell)
        requires part { IsPart self.old area }
        requires surface { IsSurface self.old }
        ensures { Changes self.old self.new area (sides_put area.columns area.rows left right) }
    {
        let first = area.left;
        let last = first + area.columns - 1;
        for row in 0..area.rows {
            self.put_row(area.top + row, first, first + 1, left);
            self.put_row(area.top + row, last, last + 1, right);
        }
    }
}
