//! Calls that make subwindows.
ghost use Rattle.curses.specs.Forwarding.{OnDeskOrNoMemory};
ghost use Rattle.scr_windows.specs.Calls.Subwindows.{derive_call, sub_call, sub_pad_call};

use crate::screens::Screen;
use scr_windows::{Win, WinFault};
use std::alloc::Global;

impl Screen {
    /// Makes a subwindow at a row and a column of its parent; 0 rows or columns extend to the parent's end. It shares
    /// the parent's cells, and begins with its attributes, colour pair and background.
    ///
    /// Refused: NoWindow; IsPad; NotInParent if it is empty or not wholly in the parent; TooMany as in `new_window`;
    /// NoMemory. X/Open Curses Issue 7, derwin().
    pub fn derive(
        &mut self,
        alloc: Global,
        win: Win,
        rows: u32,
        columns: u32,
        row: u32,
        column: u32,
    ) -> Result<Win, WinFault>
        ensures { OnDeskOrNoMemory self.old self.new result (derive_call self.old.desk win.0 rows columns row column) }
    {
        self.desk.derive(alloc, win, rows, columns, row, column)
    }

    /// Makes a subwindow as `derive` does, at a row and a column of the screen.
    ///
    /// Refused: NoWindow; IsPad; NotInParent if it is empty or not wholly in the parent; TooMany as in `new_window`;
    /// NoMemory. X/Open Curses Issue 7, subwin().
    pub fn sub(
        &mut self,
        alloc: Global,
        win: Win,
        rows: u32,
        columns: u32,
        row: u32,
        column: u32,
    ) -> Result<Win, WinFault>
        ensures { OnDeskOrNoMemory self.old self.new result (sub_call self.old.desk win.0 rows columns row column) }
    {
        self.desk.sub(alloc, win, rows, columns, row, column)
    }

    /// Makes a subwindow of a pad as `derive` does of a window, at a row and a column of the pad.
    ///
    /// Refused: NoWindow; NotPad; NotInParent if it is empty or not wholly in the parent; TooMany as in `new_window`;
    /// NoMemory. X/Open Curses Issue 7, subpad().
    pub fn sub_pad(
        &mut self,
        alloc: Global,
        win: Win,
        rows: u32,
        columns: u32,
        row: u32,
        column: u32,
    ) -> Result<Win, WinFault>
        ensures { OnDeskOrNoMemory self.old self.new result (sub_pad_call self.old.desk win.0 rows columns row column) }
    {
        self.desk.sub_pad(alloc, win, rows, columns, row, column)
    }
}
