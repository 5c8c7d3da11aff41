//! Calls that put characters at the cursor and leave it there: an inserted character, and lines of one character.
//!
//! The definitions are in `specs/Calls/Adding.antt`.
ghost use Rattle.std.specs.Prelude.{◌≡◌, ◌+◌, ◌<◌, ◌≤◌, length, min};
ghost use Rattle.scr_cells.specs.Characters.{IsCharacter};
ghost use Rattle.scr_windows.specs.DeskViews.{HasSameSize};
ghost use Rattle.scr_windows.specs.Calls.Adding.{written_form, character_inserted, lined_across, lined_down, insert_byte_call, insert_character_call, line_across_call, line_across_of_call, line_down_call, line_down_of_call};

use crate::calls::adding::written_form;
use crate::desks::Desk;
use crate::faults::{Win, WinFault};
use crate::surfaces::Drawing;
use scr_cells::{Attrs, is_ascii, is_character};

impl Desk {
    /// Inserts a byte 32 to 126 at a window's cursor, in the form that `add_byte` writes: the rest of the line moves
    /// right by one, and its last cell is lost.
    #[tactic(auto, using(crate::proofs::AddingLaws::ascii_is_character), unfolding(crate::specs::Calls::Adding::insert_byte_call))]
    pub fn insert_byte(&mut self, win: Win, byte: u8, attrs: Attrs) -> Result<(), WinFault>
        ensures call { (self.new, result) ≡ insert_byte_call self.old win.0 byte attrs }
        ensures size { HasSameSize self.old self.new }
    {
        let index = self.index_of(win)?;
        if !is_ascii(byte) {
            return Err(WinFault::NotAscii);
        }
        self.insert_at(index, char::from(byte), attrs);
        Ok(())
    }

    /// Inserts a character at a window's cursor, as `insert_byte` inserts one of ASCII.
    #[tactic(auto, unfolding(crate::specs::Calls::Adding::insert_character_call))]
    pub fn insert_character(
        &mut self,
        win: Win,
        character: char,
        attrs: Attrs,
    ) -> Result<(), WinFault>
        ensures call { (self.new, result) ≡ insert_character_call self.old win.0 character attrs }
        ensures size { HasSameSize self.old self.new }
    {
        let index = self.index_of(win)?;
        if !is_character(character) {
            return Err(WinFault::NotOneColumn);
        }
        self.insert_at(index, character, attrs);
        Ok(())
    }

    /// Writes a byte 32 to 126 in `n` places of a window from the cursor to the right, at most to the edge.
    #[tactic(auto, using(crate::proofs::AddingLaws::ascii_is_character), unfolding(crate::specs::Calls::Adding::line_across_call))]
    pub fn line_across(&mut self, win: Win, byte: u8, n: u32) -> Result<(), WinFault>
        ensures call { (self.new, result) ≡ line_across_call self.old win.0 byte n }
        ensures size { HasSameSize self.old self.new }
    {
        let index = self.index_of(win)?;
        if !is_ascii(byte) {
            return Err(WinFault::NotAscii);
        }
        self.line_across_at(index, char::from(byte), n);
        Ok(())
    }

    /// Writes a character in `n` places of a window from the cursor to the right, at most to the edge.
    #[tactic(auto, unfolding(crate::specs::Calls::Adding::line_across_of_call))]
    pub fn line_across_of(&mut self, win: Win, character: char, n: u32) -> Result<(), WinFault>
        ensures call { (self.new, result) ≡ line_across_of_call self.old win.0 character n }
        ensures size { HasSameSize self.old self.new }
    {
        let index = self.index_of(win)?;
        if !is_character(character) {
            return Err(WinFault::NotOneColumn);
        }
        self.line_across_at(index, character, n);
        Ok(())
    }

    /// Writes a byte 32 to 126 in `n` places of a window from the cursor down, at most to the edge.
    #[tactic(auto, using(crate::proofs::AddingLaws::ascii_is_character), unfolding(crate::specs::Calls::Adding::line_down_call))]
    pub fn line_down(&mut self, win: Win, byte: u8, n: u32) -> Result<(), WinFault>
        ensures call { (self.new, result) ≡ line_down_call self.old win.0 byte n }
        ensures size { HasSameSize self.old self.new }
    {
        let index = self.index_of(win)?;
        if !is_ascii(byte) {
            return Err(WinFault::NotAscii);
        }
        self.line_down_at(index, char::from(byte), n);
        Ok(())
    }

    /// Writes a character in `n` places of a window from the cursor down, at most to the edge.
    #[tactic(auto, unfolding(crate::specs::Calls::Adding::line_down_of_call))]
    pub fn line_down_of(&mut self, win: Win, character: char, n: u32) -> Result<(), WinFault>
        ensures call { (self.new, result) ≡ line_down_of_call self.old win.0 character n }
        ensures size { HasSameSize self.old self.new }
    {
        let index = self.index_of(win)?;
        if !is_character(character) {
            return Err(WinFault::NotOneColumn);
        }
        self.line_down_at(index, character, n);
        Ok(())
    }

    // Inserts a character at the cursor of the window at an index.
    #[inline(always)]
    #[tactic(auto, unfolding(crate::specs::Calls::Adding::character_inserted))]
    fn insert_at(&mut self, index: usize, character: char, attrs: Attrs)
        requires here { index < length self.old.windows }
        requires character { IsCharacter character }
        ensures inserted { self.new ≡ character_inserted self.old index character attrs }
        ensures size { HasSameSize self.old self.new }
    {
        let canvas = self.canvas_at(index);
        let (row, column) = canvas.state.cursor;
        self.draw(
            index,
            &Drawing::Opened {
                row,
                column,
                cell: written_form(character, attrs, canvas.state),
            },
        );
    }

    // Writes a character in `n` places from the cursor of the window at an index to the right.
    #[inline(always)]
    #[tactic(auto, unfolding(crate::specs::Calls::Adding::lined_across))]
    fn line_across_at(&mut self, index: usize, character: char, n: u32)
        requires here { index < length self.old.windows }
        requires character { IsCharacter character }
        ensures lined { self.new ≡ lined_across self.old index character n }
        ensures size { HasSameSize self.old self.new }
    {
        if n == 0 {
            return;
        }
        let canvas = self.canvas_at(index);
        let (row, column) = canvas.state.cursor;
        self.draw(
            index,
            &Drawing::Run {
                row,
                from: column,
                end: end_of(column, n, canvas.area.columns),
                cell: written_form(character, Attrs(0), canvas.state),
            },
        );
    }

    // Writes a character in `n` places from the cursor of the window at an index down.
    #[inline(always)]
    #[tactic(auto, unfolding(crate::specs::Calls::Adding::lined_down))]
    fn line_down_at(&mut self, index: usize, character: char, n: u32)
        requires here { index < length self.old.windows }
        requires character { IsCharacter character }
        ensures lined { self.new ≡ lined_down self.old index character n }
        ensures size { HasSameSize self.old self.new }
    {
        if n == 0 {
            return;
        }
        let canvas = self.canvas_at(index);
        let (row, column) = canvas.state.cursor;
        self.draw(
            index,
            &Drawing::Column {
                column,
                first: row,
                end: end_of(row, n, canvas.area.rows),
                cell: written_form(character, Attrs(0), canvas.state),
            },
        );
    }
}

// Where `n` places from one on end, at most at the edge.
fn end_of(first: u32, n: u32, edge: u32) -> u32
    requires { first ≤ edge }
    ensures { result ≡ min (first + n) edge }
{
    first + n.min(edge - first)
}
