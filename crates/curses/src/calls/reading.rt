//! Calls that read: sizes, cells, cursors, touched lines, and what is lent. None of them changes anything.
ghost use Rattle.std.specs.Prelude.{◌≡◌, ◌≤◌, ℕ, length, IfOk, MatchResult, Ok, Err};
ghost use Rattle.scr_memory.specs.Memories.{MayBe};
ghost use Rattle.scr_term.specs.Operations.Profiles.{IsProfile, abilities, has_colours, shown_set};
ghost use Rattle.scr_windows.specs.Changes.{index_of};
ghost use Rattle.scr_windows.specs.DeskViews.{window_at};
ghost use Rattle.scr_windows.specs.Calls.Reading.{cell_at_answer, cursor_answer, line_touched_answer, nth_answer, origin_answer, row_answer, size_answer, window_answer, window_touched_answer};

use crate::screens::Screen;
use scr_cells::{Attrs, Cell, Size};
use scr_windows::{Win, WinFault, WindowRef};

impl Screen {
    /// The size of the screen. X/Open Curses Issue 7, LINES and COLS.
    pub fn screen(&self) -> Size
        ensures rows { result.rows ≡ self.now.desk.rows }
        ensures columns { result.columns ≡ self.now.desk.columns }
        ensures profile { IsProfile self.now.profile }
        ensures possible { MayBe (abilities self.now.profile) self.now.memory }
    {
        let _profile = self.profile.size();
        self.desk.screen()
    }

    /// How many windows there are, at most 1,000.
    pub fn count(&self) -> usize
        ensures count { result ≡ length self.now.desk.windows }
        ensures few { result ≤ 1000 }
    {
        self.desk.count()
    }

    /// The window at an index, counted from 0, among those that there are, in ascending order of their numbers; `None`
    /// past the last.
    pub fn nth(&self, index: usize) -> Option<Win>
        ensures { result ≡ nth_answer self.now.desk index }
    {
        self.desk.nth(index)
    }

    /// The attributes that the terminal shows; it drops all others. X/Open Curses Issue 7, term_attrs().
    pub fn shows(&self) -> Attrs
        ensures { result.0 ≡ shown_set self.now.profile }
    {
        self.profile.shows()
    }

    /// Whether the terminal shows colours. If it shows none, everything is seen in its default colours. X/Open Curses
    /// Issue 7, has_colors().
    pub fn colours(&self) -> bool
        ensures { result ≡ has_colours self.now.profile }
    {
        self.profile.colours()
    }

    /// Lends a window for reading: everything that calls set in it or draw on it.
    ///
    /// Refused: NoWindow.
    pub fn window(&self, win: Win) -> Result<WindowRef<'_>, WinFault>
        ensures { result ≡ window_answer self.now.desk win.0 }
    {
        self.desk.window(win)
    }

    /// Lends the cells of a row of a window, from the left, as many as the window has columns. Curses has no such call.
    ///
    /// Refused: NoWindow; OutOfWindow if the window has no such row.
    pub fn line(&self, win: Win, row: u32) -> Result<&[Cell], WinFault>
        ensures cells { MatchResult result (λ cells. row_answer self.now.desk win.0 row ≡ Ok cells.now) (λ fault. row_answer self.now.desk win.0 row ≡ Err fault) }
        ensures width { IfOk result (λ cells. (i : ℕ) → index_of self.now.desk win.0 ≡ Ok i → length cells.now ≡ (window_at self.now.desk i).frame.area.columns) }
    {
        self.desk.line(win, row)
    }

    /// The cell at a row and a column of a window.
    ///
    /// Refused: NoWindow; OutOfWindow for a place outside the window. X/Open Curses Issue 7, inch().
    pub fn cell_at(&self, win: Win, row: u32, column: u32) -> Result<Cell, WinFault>
        ensures { result ≡ cell_at_answer self.now.desk win.0 row column }
    {
        self.desk.cell_at(win, row, column)
    }

    /// The row and the column of a window's cursor.
    ///
    /// Refused: NoWindow. X/Open Curses Issue 7, getyx().
    pub fn cursor(&self, win: Win) -> Result<(u32, u32), WinFault>
        ensures { result ≡ cursor_answer self.now.desk win.0 }
    {
        self.desk.cursor(win)
    }

    /// How many rows and columns a window has.
    ///
    /// Refused: NoWindow. X/Open Curses Issue 7, getmaxyx().
    pub fn size(&self, win: Win) -> Result<(u32, u32), WinFault>
        ensures { result ≡ size_answer self.now.desk win.0 }
    {
        self.desk.size(win)
    }

    /// The row and the column of the screen where a window's first place is.
    ///
    /// Refused: NoWindow; IsPad. X/Open Curses Issue 7, getbegyx().
    pub fn origin(&self, win: Win) -> Result<(u32, u32), WinFault>
        ensures { result ≡ origin_answer self.now.desk win.0 }
    {
        self.desk.origin(win)
    }

    /// Whether a line of a window is touched.
    ///
    /// Refused: NoWindow; OutOfWindow if the window has no such row. X/Open Curses Issue 7, is_linetouched().
    pub fn line_touched(&self, win: Win, row: u32) -> Result<bool, WinFault>
        ensures { result ≡ line_touched_answer self.now.desk win.0 row }
    {
        self.desk.line_touched(win, row)
    }

    /// Whether any line of a window is touched.
    ///
    /// Refused: NoWindow. X/Open Curses Issue 7, is_wintouched().
    pub fn window_touched(&self, win: Win) -> Result<bool, WinFault>
        ensures { result ≡ window_touched_answer self.now.desk win.0 }
    {
        self.desk.window_touched(win)
    }
}
