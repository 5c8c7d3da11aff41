//! The call that gives a window another size.
ghost use Rattle.curses.specs.Forwarding.{OnDeskOrNoMemory};
ghost use Rattle.scr_windows.specs.Calls.Resizing.{resize_window_call};

use crate::screens::Screen;
use scr_windows::{Win, WinFault};
use std::alloc::Global;

impl Screen {
    /// Gives a window, a pad or a subwindow another size; its first place stays where it is. 0 rows or columns extend
    /// to the end of the screen, or of the parent. What fits of the cells stays, and the rest is the window's
    /// background; a subwindow changes no cell. The whole window becomes its scrolling region, the cursor goes to the
    /// nearest place inside, and every line is touched.
    ///
    /// Refused: NoWindow; HasChildren; OutOfWindow for a pad of 0 rows or columns; OffScreen if a window is not wholly
    /// on the screen; NotInParent if a subwindow is not wholly in its parent, there and on the screen; TooBig as in
    /// `new_pad`; NoMemory. X/Open Curses Issue 7 has no such call; elsewhere it is wresize().
    pub fn resize_window(
        &mut self,
        alloc: Global,
        win: Win,
        rows: u32,
        columns: u32,
    ) -> Result<(), WinFault>
        ensures { OnDeskOrNoMemory self.old self.new result (resize_window_call self.old.desk win.0 rows columns) }
    {
        self.desk.resize_window(alloc, win, rows, columns)
    }
}
