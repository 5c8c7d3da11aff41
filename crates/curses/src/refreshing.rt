//! Calls that say what the next update brings the terminal to: windows, pads, colour pairs, and rows that others wrote.
//!
//! The definitions are in `specs/Refreshing.antt` and in the crate `scr_virtual`.
ghost use Rattle.std.specs.Prelude.{◌≡◌};
ghost use Rattle.scr_virtual.specs.Pairs.{set_pair_call, set_pair_of_call};
ghost use Rattle.scr_virtual.specs.Taking.{take_pad_call, take_window_call};
ghost use Rattle.curses.specs.Refreshing.{OnBoth, OnTerminal, OnVirtual, lines_disturbed, redraw_lines_call, redraw_window_call, window_disturbed};

use crate::screens::Screen;
use scr_cells::Picture;
use scr_memory::memory_laws;
use scr_plan::up_to_date_laws;
use scr_virtual::{ranges_hold_changes, sizes_stay};
use scr_windows::{Win, WinFault};

impl Screen {
    /// The cells that the next update brings the terminal to, the colours of their pairs, and where its cursor is
    /// wanted (curs_refresh(3X), 'virtual screen').
    pub fn picture(&self) -> &Picture
        ensures { result.now ≡ self.now.virtual.picture }
    {
        self.wanted.picture()
    }

    /// Copies a window to the virtual screen: its touched lines are copied and become untouched. From then on the
    /// terminal's cursor is wanted where the window's is, or nowhere in particular if `leave_ok` is set. If `clear_ok`
    /// is set, the next update repaints the whole screen, and the setting is switched off.
    ///
    /// Refused: NoWindow; IsPad. X/Open Curses Issue 7, wnoutrefresh().
    pub fn noutrefresh(&mut self, win: Win) -> Result<(), WinFault>
        ensures { OnBoth self.old self.new result (take_window_call self.old.virtual self.old.desk win.0) }
    {
        sizes_stay();
        ranges_hold_changes();
        let _size = self.wanted.size();
        self.wanted.take_window(&mut self.desk, win)
    }

    /// Copies a part of a pad to the virtual screen: the rectangle of the screen from `top` and `left` to `bottom` and
    /// `right`, both corners inside it, gets the pad's cells from `row` and `column` on, touched or not. The lines of
    /// the pad that it shows become untouched. The terminal's cursor is wanted where the pad's is shown, or nowhere in
    /// particular if it is not shown or `leave_ok` is set. `clear_ok` is as in `noutrefresh`.
    ///
    /// Refused: NoWindow; NotPad; OffScreen if the corners are the wrong way round; OutOfWindow if the part is not
    /// wholly in the pad; OffScreen if the rectangle is not wholly on the screen. X/Open Curses Issue 7,
    /// pnoutrefresh().
    pub fn pad_noutrefresh(
        &mut self,
        win: Win,
        row: u32,
        column: u32,
        top: u32,
        left: u32,
        bottom: u32,
        right: u32,
    ) -> Result<(), WinFault>
        ensures { OnBoth self.old self.new result (take_pad_call self.old.virtual self.old.desk win.0 row column top left bottom right) }
    {
        sizes_stay();
        ranges_hold_changes();
        let _size = self.wanted.size();
        self.wanted
            .take_pad(&mut self.desk, win, row, column, top, left, bottom, right)
    }

    /// Sets the foreground and the background of a colour pair, wherever it is used.
    ///
    /// Refused: BadPair if the pair is not 1 to 63; BadColour if a colour is above 7. X/Open Curses Issue 7,
    /// init_pair().
    pub fn set_pair(&mut self, pair: u32, foreground: u32, background: u32) -> Result<(), WinFault>
        ensures { OnVirtual self.old self.new result (set_pair_call self.old.virtual pair foreground background) }
    {
        self.set_pair_of(pair, Some(foreground), Some(background))
    }

    /// The same, where a colour that is `None` is the terminal's default.
    pub fn set_pair_of(
        &mut self,
        pair: u32,
        foreground: Option<u32>,
        background: Option<u32>,
    ) -> Result<(), WinFault>
        ensures { OnVirtual self.old self.new result (set_pair_of_call self.old.virtual pair foreground background) }
    {
        sizes_stay();
        ranges_hold_changes();
        up_to_date_laws();
        let _size = self.wanted.size();
        self.wanted.set_pair_of(pair, foreground, background)
    }

    /// Says that others wrote on the rows of the screen where a window is: the next update treats nothing there as
    /// known, nor where the cursor is and what is written with. No cell, touched line, wanted cursor or requested
    /// repaint changes.
    ///
    /// Refused: NoWindow; IsPad. X/Open Curses Issue 7, redrawwin().
    pub fn redraw_window(&mut self, win: Win) -> Result<(), WinFault>
        ensures { OnTerminal self.old self.new result (redraw_window_call self.old.virtual self.old.desk win.0) (window_disturbed self.old.memory self.old.desk win.0) }
    {
        let (lines, _columns) = self.desk.size(win)?;
        self.redraw_lines(win, 0, lines)
    }

    /// Says that others wrote on the rows of the screen where `n` lines of a window are, from line `first` on. If `n`
    /// is 0 no row is meant, but where the cursor is and what is written with count as unknown then too. No cell,
    /// touched line, wanted cursor or requested repaint changes.
    ///
    /// Refused: NoWindow; IsPad; OutOfWindow if the window has fewer than `first + n` lines. X/Open Curses Issue 7,
    /// wredrawln().
    pub fn redraw_lines(&mut self, win: Win, first: u32, n: u32) -> Result<(), WinFault>
        ensures { OnTerminal self.old self.new result (redraw_lines_call self.old.virtual self.old.desk win.0 first n) (lines_disturbed self.old.memory self.old.desk win.0 first n) }
    {
        sizes_stay();
        ranges_hold_changes();
        memory_laws();
        up_to_date_laws();
        let (row, count) = self.desk.screen_rows(win, first, n)?;
        let _size = self.wanted.size();
        self.wanted.mark(row, count);
        self.memory.disturb(row, count);
        Ok(())
    }
}
