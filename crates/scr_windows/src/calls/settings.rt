//! Calls that set something in a window: cursor, region, attributes, background, settings. The definitions are in
//! `specs/Calls/Settings.antt`.
ghost use Rattle.std.specs.Prelude.{◌≡◌};
ghost use Rattle.scr_windows.specs.DeskViews.{HasSameSize};
ghost use Rattle.scr_windows.specs.Calls.Settings.{move_cursor_call, set_region_call, scroll_ok_call, clear_ok_call, leave_ok_call, attr_on_call, attr_off_call, attr_set_call, color_set_call, set_background_call, change_background_call};

use crate::desks::Desk;
use crate::faults::{Win, WinFault};
use crate::surfaces::Drawing;
use bitflags::Flags;
use scr_cells::{Attrs, Cell};

impl Desk {
    /// Moves the cursor of a window to a row and a column.
    #[tactic(auto, unfolding(crate::specs::Calls::Settings::move_cursor_call))]
    pub fn move_cursor(&mut self, win: Win, row: u32, column: u32) -> Result<(), WinFault>
        ensures call { (self.new, result) ≡ move_cursor_call self.old win.0 row column }
        ensures size { HasSameSize self.old self.new }
    {
        let mut canvas = self.canvas(win)?;
        if row >= canvas.area.rows || column >= canvas.area.columns {
            return Err(WinFault::OutOfWindow);
        }
        canvas.state.cursor = (row, column);
        self.set_state(canvas.index, canvas.state);
        Ok(())
    }

    /// Sets the first and the last row of a window's scrolling region, both inside it.
    #[tactic(auto, unfolding(crate::specs::Calls::Settings::set_region_call))]
    pub fn set_region(&mut self, win: Win, top: u32, bottom: u32) -> Result<(), WinFault>
        ensures call { (self.new, result) ≡ set_region_call self.old win.0 top bottom }
        ensures size { HasSameSize self.old self.new }
    {
        let mut canvas = self.canvas(win)?;
        if top > bottom || bottom >= canvas.area.rows {
            return Err(WinFault::BadRegion);
        }
        canvas.state.region = (top, bottom);
        self.set_state(canvas.index, canvas.state);
        Ok(())
    }

    /// Sets whether the scrolling region of a window may scroll.
    #[tactic(auto, unfolding(crate::specs::Calls::Settings::scroll_ok_call))]
    pub fn scroll_ok(&mut self, win: Win, on: bool) -> Result<(), WinFault>
        ensures call { (self.new, result) ≡ scroll_ok_call self.old win.0 on }
        ensures size { HasSameSize self.old self.new }
    {
        let mut canvas = self.canvas(win)?;
        canvas.state.scroll_ok = on;
        self.set_state(canvas.index, canvas.state);
        Ok(())
    }

    /// Sets whether the next update with a window repaints the whole screen.
    #[tactic(auto, unfolding(crate::specs::Calls::Settings::clear_ok_call))]
    pub fn clear_ok(&mut self, win: Win, on: bool) -> Result<(), WinFault>
        ensures call { (self.new, result) ≡ clear_ok_call self.old win.0 on }
        ensures size { HasSameSize self.old self.new }
    {
        let mut canvas = self.canvas(win)?;
        canvas.state.clear_ok = on;
        self.set_state(canvas.index, canvas.state);
        Ok(())
    }

    /// Sets whether the terminal's cursor may stay where an update with a window leaves it.
    #[tactic(auto, unfolding(crate::specs::Calls::Settings::leave_ok_call))]
    pub fn leave_ok(&mut self, win: Win, on: bool) -> Result<(), WinFault>
        ensures call { (self.new, result) ≡ leave_ok_call self.old win.0 on }
        ensures size { HasSameSize self.old self.new }
    {
        let mut canvas = self.canvas(win)?;
        canvas.state.leave_ok = on;
        self.set_state(canvas.index, canvas.state);
        Ok(())
    }

    /// Adds attributes to those that bytes are written with in a window.
    #[tactic(auto, unfolding(crate::specs::Calls::Settings::attr_on_call))]
    pub fn attr_on(&mut self, win: Win, attrs: Attrs) -> Result<(), WinFault>
        ensures call { (self.new, result) ≡ attr_on_call self.old win.0 attrs }
        ensures size { HasSameSize self.old self.new }
    {
        let mut canvas = self.canvas(win)?;
        canvas.state.attrs = canvas.state.attrs.union(attrs);
        self.set_state(canvas.index, canvas.state);
        Ok(())
    }

    /// Removes attributes from those that bytes are written with in a window.
    #[tactic(auto, unfolding(crate::specs::Calls::Settings::attr_off_call))]
    pub fn attr_off(&mut self, win: Win, attrs: Attrs) -> Result<(), WinFault>
        ensures call { (self.new, result) ≡ attr_off_call self.old win.0 attrs }
        ensures size { HasSameSize self.old self.new }
    {
        let mut canvas = self.canvas(win)?;
        canvas.state.attrs = canvas.state.attrs.difference(attrs);
        self.set_state(canvas.index, canvas.state);
        Ok(())
    }

    /// Replaces the attributes that bytes are written with in a window.
    #[tactic(auto, unfolding(crate::specs::Calls::Settings::attr_set_call))]
    pub fn attr_set(&mut self, win: Win, attrs: Attrs) -> Result<(), WinFault>
        ensures call { (self.new, result) ≡ attr_set_call self.old win.0 attrs }
        ensures size { HasSameSize self.old self.new }
    {
        let mut canvas = self.canvas(win)?;
        canvas.state.attrs = attrs;
        self.set_state(canvas.index, canvas.state);
        Ok(())
    }

    /// Sets the colour pair that bytes are written with in a window; 0 stands for the pair of the background.
    #[tactic(auto, unfolding(crate::specs::Calls::Settings::color_set_call))]
    pub fn color_set(&mut self, win: Win, pair: u32) -> Result<(), WinFault>
        ensures call { (self.new, result) ≡ color_set_call self.old win.0 pair }
        ensures size { HasSameSize self.old self.new }
    {
        let mut canvas = self.canvas(win)?;
        if pair > Cell::MOST_PAIR {
            return Err(WinFault::BadPair);
        }
        canvas.state.pair = pair;
        self.set_state(canvas.index, canvas.state);
        Ok(())
    }

    /// Sets the background of a window, and changes no cell.
    #[tactic(auto, unfolding(crate::specs::Calls::Settings::set_background_call))]
    pub fn set_background(&mut self, win: Win, cell: Cell) -> Result<(), WinFault>
        ensures call { (self.new, result) ≡ set_background_call self.old win.0 cell }
        ensures size { HasSameSize self.old self.new }
    {
        let mut canvas = self.canvas(win)?;
        canvas.state.background = cell;
        self.set_state(canvas.index, canvas.state);
        Ok(())
    }

    /// Sets the background of a window, and replaces the old one in every cell: the old background's character becomes
    /// the new one's, its attributes are removed and the new ones added, and its colour pair becomes the new one.
    #[tactic(auto, unfolding(crate::specs::Calls::Settings::change_background_call))]
    pub fn change_background(&mut self, win: Win, cell: Cell) -> Result<(), WinFault>
        ensures call { (self.new, result) ≡ change_background_call self.old win.0 cell }
        ensures size { HasSameSize self.old self.new }
    {
        let canvas = self.canvas(win)?;
        let mut state = canvas.state;
        self.draw(
            canvas.index,
            &Drawing::Exchanged {
                old: state.background,
                new: cell,
            },
        );
        state.background = cell;
        self.set_state(canvas.index, state);
        Ok(())
    }
}
