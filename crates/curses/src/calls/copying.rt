//! Calls that copy cells from one window to another.
ghost use Rattle.std.specs.Prelude.{true, false};
ghost use Rattle.curses.specs.Forwarding.{OnDeskOrNoMemory};
ghost use Rattle.scr_windows.specs.Calls.Copying.{copy_call, overlay_call};

use crate::screens::Screen;
use scr_windows::{Win, WinFault};
use std::alloc::Global;

impl Screen {
    /// Copies cells of the source window, from `row` and `column` on, to a rectangle of the target window. The
    /// rectangle reaches from `top` and `left` to `bottom` and `right`, both corners inside it. The two windows may be
    /// the same or share cells: all cells are read before any is written. With `overlay`, a blank (byte 32, whatever
    /// its attributes) leaves the target's cell. All lines of the rectangle are touched.
    ///
    /// Refused: NoWindow; OutOfWindow if the rectangle is not wholly in the target, the part copied is not wholly in
    /// the source, or the corners are the wrong way round; NoMemory. X/Open Curses Issue 7, copywin().
    pub fn copy(
        &mut self,
        alloc: Global,
        source: Win,
        target: Win,
        row: u32,
        column: u32,
        top: u32,
        left: u32,
        bottom: u32,
        right: u32,
        overlay: bool,
    ) -> Result<(), WinFault>
        ensures { OnDeskOrNoMemory self.old self.new result (copy_call self.old.desk source.0 target.0 row column top left bottom right overlay) }
    {
        self.desk.copy(
            alloc, source, target, row, column, top, left, bottom, right, overlay,
        )
    }

    /// Copies the part of the screen that two windows both cover from the source to the target, except for blanks (byte
    /// 32, whatever its attributes). The target's lines of this part are touched. Nothing changes if there is no such
    /// part.
    ///
    /// Refused: NoWindow; IsPad if either is a pad; NoMemory. X/Open Curses Issue 7, overlay().
    pub fn overlay(&mut self, alloc: Global, source: Win, target: Win) -> Result<(), WinFault>
        ensures { OnDeskOrNoMemory self.old self.new result (overlay_call self.old.desk source.0 target.0 true) }
    {
        self.desk.overlay(alloc, source, target)
    }

    /// Copies the part of the screen that two windows both cover from the source to the target, blanks included. The
    /// target's lines of this part are touched. Nothing changes if there is no such part.
    ///
    /// Refused: NoWindow; IsPad if either is a pad; NoMemory. X/Open Curses Issue 7, overwrite().
    pub fn overwrite(&mut self, alloc: Global, source: Win, target: Win) -> Result<(), WinFault>
        ensures { OnDeskOrNoMemory self.old self.new result (overlay_call self.old.desk source.0 target.0 false) }
    {
        self.desk.overwrite(alloc, source, target)
    }
}
