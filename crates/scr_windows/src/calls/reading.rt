//! Calls that read: sizes, cells, cursors, touched lines, and a window lent whole. The definitions are in
//! `specs/Calls/Reading.antt`.
ghost use Rattle.std.specs.Prelude.{ℕ, ◌≡◌, ◌<◌, ◌≤◌, length, IfOk, MatchResult};
ghost use Rattle.scr_windows.specs.Changes.{index_of};
ghost use Rattle.scr_windows.specs.DeskViews.{IsDesk, window_at};
ghost use Rattle.scr_windows.specs.Calls.Reading.{cell_at_answer, cursor_answer, size_answer, origin_answer, line_touched_answer, window_touched_answer, row_answer, row_at, nth_answer, window_answer, screen_rows_answer, contents};

use crate::desks::Desk;
use crate::faults::{Win, WinFault};
use crate::lent::WindowRef;
use scr_cells::{Cell, Size};

impl Desk {
    /// The size of the screen.
    pub fn screen(&self) -> Size
        ensures rows { result.rows ≡ self.now.rows }
        ensures columns { result.columns ≡ self.now.columns }
        ensures desk { IsDesk self.now }
    {
        Size {
            rows: self.rows,
            columns: self.columns,
        }
    }

    /// How many windows there are, at most 1,000.
    pub fn count(&self) -> usize
        ensures count { result ≡ length self.now.windows }
        ensures few { result ≤ 1000 }
    {
        self.windows.len()
    }

    /// The window at an index, counted from 0, among those that there are, in ascending order of their numbers; `None`
    /// past the last.
    #[tactic(auto, unfolding(crate::specs::Calls::Reading::nth_answer))]
    pub fn nth(&self, index: usize) -> Option<Win>
        ensures { result ≡ nth_answer self.now index }
    {
        if index < self.windows.len() {
            Some(Win(self.windows[index].frame().number))
        } else {
            None
        }
    }

    /// Lends a window for reading: everything that calls set in it or draw on it.
    #[tactic(auto, unfolding(crate::specs::Calls::Reading::window_answer))]
    pub fn window(&self, win: Win) -> Result<WindowRef<'_>, WinFault>
        ensures { result ≡ window_answer self.now win.0 }
    {
        let index = self.index_of(win)?;
        Ok(self.lent(index))
    }

    /// The cell at a row and a column of a window.
    #[tactic(auto, unfolding(crate::specs::Calls::Reading::cell_at_answer))]
    pub fn cell_at(&self, win: Win, row: u32, column: u32) -> Result<Cell, WinFault>
        ensures { result ≡ cell_at_answer self.now win.0 row column }
    {
        let canvas = self.canvas(win)?;
        if row >= canvas.area.rows || column >= canvas.area.columns {
            return Err(WinFault::OutOfWindow);
        }
        let cells = self.row_of(canvas.index, row);
        Ok(cells[column as usize])
    }

    /// The row and the column of a window's cursor.
    #[tactic(auto, unfolding(crate::specs::Calls::Reading::cursor_answer))]
    pub fn cursor(&self, win: Win) -> Result<(u32, u32), WinFault>
        ensures { result ≡ cursor_answer self.now win.0 }
    {
        Ok(self.canvas(win)?.state.cursor)
    }

    /// How many rows and columns a window has.
    #[tactic(auto, unfolding(crate::specs::Calls::Reading::size_answer))]
    pub fn size(&self, win: Win) -> Result<(u32, u32), WinFault>
        ensures { result ≡ size_answer self.now win.0 }
    {
        let canvas = self.canvas(win)?;
        Ok((canvas.area.rows, canvas.area.columns))
    }

    /// The row and the column of the screen where a window's first place is.
    #[tactic(auto, unfolding(crate::specs::Calls::Reading::origin_answer))]
    pub fn origin(&self, win: Win) -> Result<(u32, u32), WinFault>
        ensures { result ≡ origin_answer self.now win.0 }
    {
        let index = self.index_of(win)?;
        match self.window_at(index).frame().origin {
            Some(origin) => Ok(origin),
            None => Err(WinFault::IsPad),
        }
    }

    /// The row of the screen where `n` lines of a window begin, from line `first` on, and `n`.
    ///
    /// Refused: NoWindow; IsPad; OutOfWindow if the window has fewer than `first + n` lines. X/Open Curses Issue 7,
    /// wredrawln().
    #[tactic(auto, unfolding(crate::specs::Calls::Reading::screen_rows_answer))]
    pub fn screen_rows(&self, win: Win, first: u32, n: u32) -> Result<(u32, u32), WinFault>
        ensures { result ≡ screen_rows_answer self.now win.0 first n }
    {
        let index = self.index_of(win)?;
        let frame = self.window_at(index).frame();
        let Some((row, _)) = frame.origin else {
            return Err(WinFault::IsPad);
        };
        if first > frame.area.rows || n > frame.area.rows - first {
            return Err(WinFault::OutOfWindow);
        }
        Ok((row + first, n))
    }

    /// Whether a line of a window is touched.
    #[tactic(auto, unfolding(crate::specs::Calls::Reading::line_touched_answer))]
    pub fn line_touched(&self, win: Win, row: u32) -> Result<bool, WinFault>
        ensures { result ≡ line_touched_answer self.now win.0 row }
    {
        let canvas = self.canvas(win)?;
        if row >= canvas.area.rows {
            return Err(WinFault::OutOfWindow);
        }
        Ok(self.window_at(canvas.index).is_touched(row))
    }

    /// Whether any line of a window is touched.
    #[tactic(auto, unfolding(crate::specs::Calls::Reading::window_touched_answer))]
    pub fn window_touched(&self, win: Win) -> Result<bool, WinFault>
        ensures { result ≡ window_touched_answer self.now win.0 }
    {
        let index = self.index_of(win)?;
        Ok(self.window_at(index).is_any_touched())
    }

    /// Lends the cells of a row of a window, from the left, as many as the window has columns.
    #[tactic(auto, unfolding(crate::specs::Calls::Reading::row_answer))]
    pub fn line(&self, win: Win, row: u32) -> Result<&[Cell], WinFault>
        ensures cells { MatchResult result (λ cells. row_answer self.now win.0 row ≡ Ok cells.now) (λ fault. row_answer self.now win.0 row ≡ Err fault) }
        ensures width { IfOk result (λ cells. (i : ℕ) → index_of self.now win.0 ≡ Ok i → length cells.now ≡ (window_at self.now i).frame.area.columns) }
    {
        let canvas = self.canvas(win)?;
        if row >= canvas.area.rows {
            return Err(WinFault::OutOfWindow);
        }
        Ok(self.row_of(canvas.index, row))
    }

    // Lends the window at an index.
    fn lent(&self, index: usize) -> WindowRef<'_>
        requires { index < length self.now.windows }
        ensures { result ≡ contents self.now index }
    {
        let window = &self.windows[index];
        WindowRef::new(window, &self.surfaces[window.frame().surface])
    }

    // The cells of a row of the window at an index.
    fn row_of(&self, index: usize, row: u32) -> &[Cell]
        requires here { index < length self.now.windows }
        requires row { row < (window_at self.now index).frame.area.rows }
        ensures cells { result.now ≡ row_at self.now index row }
        ensures width { length result.now ≡ (window_at self.now index).frame.area.columns }
    {
        let frame = self.windows[index].frame();
        self.surfaces[frame.surface].line(frame.area, row)
    }
}
