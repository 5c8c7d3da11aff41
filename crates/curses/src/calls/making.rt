//! Calls that make windows with cells of their own, and pads.
ghost use Rattle.curses.specs.Forwarding.{OnDeskOrNoMemory};
ghost use Rattle.scr_windows.specs.Calls.Making.{new_window_call, new_pad_call};

use crate::screens::Screen;
use scr_windows::{Win, WinFault};
use std::alloc::Global;

impl Screen {
    /// Makes a blank window at a row and a column of the screen; 0 rows or columns extend to the screen's end.
    ///
    /// Refused: OffScreen if it is empty or not wholly on the screen; TooMany if there are 1,000 windows, or
    /// 4,294,967,295 were made after the first; NoMemory. X/Open Curses Issue 7, newwin().
    pub fn new_window(
        &mut self,
        alloc: Global,
        rows: u32,
        columns: u32,
        row: u32,
        column: u32,
    ) -> Result<Win, WinFault>
        ensures { OnDeskOrNoMemory self.old self.new result (new_window_call self.old.desk rows columns row column) }
    {
        self.desk.new_window(alloc, rows, columns, row, column)
    }

    /// Makes a blank pad, a window that has no place on the screen.
    ///
    /// Refused: OutOfWindow for 0 rows or columns; TooBig above 1,000,000 cells; TooMany as in `new_window`; NoMemory.
    /// X/Open Curses Issue 7, newpad().
    pub fn new_pad(&mut self, alloc: Global, rows: u32, columns: u32) -> Result<Win, WinFault>
        ensures { OnDeskOrNoMemory self.old self.new result (new_pad_call self.old.desk rows columns) }
    {
        self.desk.new_pad(alloc, rows, columns)
    }
}
