//! The calls that draw a border. The definitions are in `specs/Calls/Borders.antt`.
ghost use Rattle.std.specs.Prelude.{◌≡◌, ◌<◌, length, true};
ghost use Rattle.std.specs.List.{list_all};
ghost use Rattle.scr_cells.specs.CellViews.{IsPair};
ghost use Rattle.scr_cells.specs.Characters.{IsCharacter, is_ascii, is_character};
ghost use Rattle.scr_windows.specs.DeskViews.{HasSameSize};
ghost use Rattle.scr_windows.specs.Calls.Adding.{written_form};
ghost use Rattle.scr_windows.specs.Calls.Borders.{edge_cell, border_cells, border_drawn, border_call, border_of_call};

use crate::calls::adding::written_form;
use crate::desks::Desk;
use crate::faults::{Win, WinFault};
use crate::frames::WindowState;
use crate::surfaces::{Border, Drawing};
use scr_cells::{Attrs, Cell, is_ascii, is_character};

/// A border of single lines (the Unicode Standard, block 'Box Drawing'), in the order of `Desk::border_of`.
pub const BOX: [char; 8] = ['│', '│', '─', '─', '┌', '┐', '└', '┘'];

/// A border of double lines.
pub const DOUBLE_BOX: [char; 8] = ['║', '║', '═', '═', '╔', '╗', '╚', '╝'];

/// A border of single lines with round corners.
pub const ROUND_BOX: [char; 8] = ['│', '│', '─', '─', '╭', '╮', '╰', '╯'];

impl Desk {
    /// Writes eight bytes 32 to 126 along the edges of a window: on the left, right, top and bottom edge, then in the
    /// top left, top right, bottom left and bottom right corner.
    #[tactic(auto, using(crate::proofs::AddingLaws::all_are_characters), unfolding(crate::specs::Calls::Borders::border_call))]
    pub fn border(&mut self, win: Win, bytes: [u8; 8]) -> Result<(), WinFault>
        ensures call { (self.new, result) ≡ border_call self.old win.0 bytes }
        ensures size { HasSameSize self.old self.new }
    {
        let index = self.index_of(win)?;
        if !are_ascii(&bytes) {
            return Err(WinFault::NotAscii);
        }
        self.border_at(index, &characters_of(bytes));
        Ok(())
    }

    /// Writes eight characters along the edges of a window, in the order of `border`.
    #[tactic(auto, unfolding(crate::specs::Calls::Borders::border_of_call))]
    pub fn border_of(&mut self, win: Win, characters: [char; 8]) -> Result<(), WinFault>
        ensures call { (self.new, result) ≡ border_of_call self.old win.0 characters }
        ensures size { HasSameSize self.old self.new }
    {
        let index = self.index_of(win)?;
        if !are_characters(&characters) {
            return Err(WinFault::NotOneColumn);
        }
        self.border_at(index, &characters);
        Ok(())
    }

    // Draws a border in the window at an index.
    #[inline(always)]
    #[tactic(auto, unfolding(crate::specs::Calls::Borders::border_drawn))]
    fn border_at(&mut self, index: usize, characters: &[char])
        requires here { index < length self.old.windows }
        requires len { length characters.now ≡ 8 }
        requires characters { list_all is_character characters.now ≡ true }
        ensures drawn { self.new ≡ border_drawn self.old index characters.now }
        ensures size { HasSameSize self.old self.new }
    {
        let state = self.canvas_at(index).state;
        self.draw(index, &Drawing::Edges(border_cells(characters, &state)));
    }
}

// Whether all bytes are characters.
fn are_ascii(bytes: &[u8]) -> bool
    ensures { result ≡ list_all is_ascii bytes.now }
{
    bytes.iter().all(|byte| is_ascii(*byte))
}

// Whether all of them are characters.
fn are_characters(characters: &[char]) -> bool
    ensures { result ≡ list_all is_character characters.now }
{
    characters.iter().all(|character| is_character(*character))
}

// The characters of eight bytes.
fn characters_of(bytes: [u8; 8]) -> [char; 8]
    ensures { result ≡ bytes }
{
    [
        char::from(bytes[0]),
        char::from(bytes[1]),
        char::from(bytes[2]),
        char::from(bytes[3]),
        char::from(bytes[4]),
        char::from(bytes[5]),
        char::from(bytes[6]),
        char::from(bytes[7]),
    ]
}

// The cells of a border.
fn border_cells(characters: &[char], state: &WindowState) -> Border
    requires len { length characters.now ≡ 8 }
    requires characters { list_all is_character characters.now ≡ true }
    requires pair { IsPair state.now.pair }
    ensures { result ≡ border_cells characters.now state.now }
{
    let left = edge(characters, 0, state);
    let right = edge(characters, 1, state);
    let top = edge(characters, 2, state);
    let bottom = edge(characters, 3, state);
    let top_left = edge(characters, 4, state);
    let top_right = edge(characters, 5, state);
    let bottom_left = edge(characters, 6, state);
    let bottom_right = edge(characters, 7, state);
    Border {
        left,
        right,
        top,
        bottom,
        top_left,
        top_right,
        bottom_left,
        bottom_right,
    }
}

// The written form of a character among those of a border.
fn edge(characters: &[char], k: usize, state: &WindowState) -> Cell
    requires here { k < length characters.now }
    requires characters { list_all is_character characters.now ≡ true }
    requires pair { IsPair state.now.pair }
    ensures { result ≡ edge_cell characters.now state.now k }
{
    written_form(characters[k], Attrs(0), *state)
}
