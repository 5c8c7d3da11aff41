//! Calls that add characters at the cursor: a byte, a character, and texts of either.
//!
//! The definitions are in `specs/Calls/Adding.antt`; what is drawn for them is a matter of `surfaces`. How a text is
//! added is in `texts`. What every stretch of a text needs is inlined, and what ends a line or is rare is called.
ghost use Rattle.std.specs.Prelude.{◌≡◌, ◌<◌, ◌⊎◌, ◌↔◌, true, length, IsSome, IfSome};
ghost use Rattle.std.specs.Char.{is_control};
ghost use Rattle.std.specs.Str.{chars};
ghost use Rattle.scr_cells.specs.CellViews.{IsPair};
ghost use Rattle.scr_cells.specs.Characters.{IsCharacter};
ghost use Rattle.scr_windows.specs.DeskViews.{HasSameSize, window_at};
ghost use Rattle.scr_windows.specs.Calls.Adding.{written_form, gone_to, line_begun, cell_added, character_added, newline_added, tab_added, either_stayed, shown_as, shown_added, code_added, add_byte_call, add_character_call, add_text_call, add_str_call};

use crate::calls::texts::is_any_above;
use crate::desks::Desk;
use crate::faults::{Added, Win, WinFault};
use crate::frames::WindowState;
use crate::surfaces::Drawing;
use bitflags::Flags;
use scr_cells::{Attrs, Cell};

impl Desk {
    /// Adds a byte at a window's cursor, with these attributes besides those of the window and of its background.
    #[tactic(auto, unfolding(crate::specs::Calls::Adding::add_byte_call))]
    pub fn add_byte(&mut self, win: Win, byte: u8, attrs: Attrs) -> Result<Added, WinFault>
        ensures call { (self.new, result) ≡ add_byte_call self.old win.0 byte attrs }
        ensures size { HasSameSize self.old self.new }
    {
        let index = self.index_of(win)?;
        if byte >= 128 {
            return Err(WinFault::NotAscii);
        }
        Ok(self.add_at(index, char::from(byte), attrs))
    }

    /// Adds a character at a window's cursor, as `add_byte` adds one of ASCII.
    #[tactic(auto, unfolding(crate::specs::Calls::Adding::add_character_call))]
    pub fn add_character(
        &mut self,
        win: Win,
        character: char,
        attrs: Attrs,
    ) -> Result<Added, WinFault>
        ensures call { (self.new, result) ≡ add_character_call self.old win.0 character attrs }
        ensures size { HasSameSize self.old self.new }
    {
        let index = self.index_of(win)?;
        let state = self.window_at(index).state();
        let Some(cell) = form_of(character, attrs, state) else {
            return Err(WinFault::NotOneColumn);
        };
        Ok(self.write_cell(index, cell))
    }

    /// Adds the bytes of a text one after another, as `add_byte` does without attributes.
    #[tactic(auto, unfolding(crate::specs::Calls::Adding::add_text_call))]
    pub fn add_text(&mut self, win: Win, text: &[u8]) -> Result<Added, WinFault>
        ensures call { (self.new, result) ≡ add_text_call self.old win.0 text.now }
        ensures size { HasSameSize self.old self.new }
    {
        let index = self.index_of(win)?;
        if is_any_above(text) {
            return Err(WinFault::NotAscii);
        }
        Ok(self.add_all(index, text))
    }

    /// Adds the characters of a text one after another, as `add_text` adds bytes. What is no character of one column is
    /// fitted, so that the others are in their columns, and no text is refused.
    #[tactic(auto, unfolding(crate::specs::Calls::Adding::add_str_call))]
    pub fn add_str(&mut self, win: Win, text: &str) -> Result<Added, WinFault>
        ensures call { (self.new, result) ≡ add_str_call self.old win.0 (chars text.now) }
        ensures size { HasSameSize self.old self.new }
    {
        let index = self.index_of(win)?;
        Ok(self.add_characters(index, text))
    }

    // Adds a control character or a character to the window at an index. Those below 160 are one or the other.
    #[inline(always)]
    #[tactic(auto, using(crate::proofs::AddingLaws::other_is_character), unfolding(crate::specs::Calls::Adding::code_added))]
    pub(crate) fn add_at(&mut self, index: usize, character: char, attrs: Attrs) -> Added
        requires here { index < length self.old.windows }
        requires character { (character < 160) ⊎ IsCharacter character }
        ensures added { (self.new, result) ≡ code_added self.old index character attrs }
        ensures there { index < length self.new.windows }
    {
        let canvas = self.canvas_at(index);
        let (row, column) = canvas.state.cursor;
        match character {
            '\n' => self.add_newline(index),
            '\t' => self.add_tab(index),
            '\u{8}' => self.go_to(index, row, column.saturating_sub(1)),
            '\r' => self.go_to(index, row, 0),
            '\0'..' ' | '\u{7f}'..'\u{a0}' => self.add_shown(index, character, attrs),
            _ => self.write_character(index, character, attrs),
        }
    }

    // Shows a control character as two characters.
    #[inline(never)]
    fn add_shown(&mut self, index: usize, character: char, attrs: Attrs) -> Added
        requires here { index < length self.old.windows }
        requires control { is_control character ≡ true }
        ensures added { (self.new, result) ≡ shown_added self.old index character attrs }
        ensures there { index < length self.new.windows }
    {
        let (sign, shown) = shown_as(character);
        let first = self.write_character(index, sign, attrs);
        let second = self.write_character(index, shown, attrs);
        either(first, second)
    }

    // Writes a character at the cursor.
    #[inline(always)]
    #[tactic(auto, unfolding(crate::specs::Calls::Adding::character_added))]
    fn write_character(&mut self, index: usize, character: char, attrs: Attrs) -> Added
        requires here { index < length self.old.windows }
        requires character { IsCharacter character }
        ensures added { (self.new, result) ≡ character_added self.old index character attrs }
        ensures there { index < length self.new.windows }
    {
        let state = self.canvas_at(index).state;
        self.write_cell(index, written_form(character, attrs, state))
    }

    // Writes a cell at the cursor.
    #[inline(always)]
    #[tactic(auto, unfolding(crate::specs::Calls::Adding::cell_added))]
    pub(crate) fn write_cell(&mut self, index: usize, cell: Cell) -> Added
        requires here { index < length self.old.windows }
        ensures added { (self.new, result) ≡ cell_added self.old index cell }
        ensures there { index < length self.new.windows }
    {
        let canvas = self.canvas_at(index);
        let (row, column) = canvas.state.cursor;
        self.put(index, row, column, cell);
        let end = column + 1;
        if end < canvas.area.columns {
            self.go_to(index, row, end)
        } else {
            self.begin_line(index)
        }
    }

    // Erases to the end of the cursor's line, and begins the next one.
    #[inline(never)]
    #[tactic(auto, unfolding(crate::specs::Calls::Adding::newline_added))]
    fn add_newline(&mut self, index: usize) -> Added
        requires here { index < length self.old.windows }
        ensures added { (self.new, result) ≡ newline_added self.old index }
        ensures there { index < length self.new.windows }
    {
        let canvas = self.canvas_at(index);
        self.erase_up_to(index, canvas.area.columns);
        self.begin_line(index)
    }

    // Erases to the next column that is a multiple of 8, and goes there; a newline if the line has no such column.
    #[inline(never)]
    #[tactic(auto, unfolding(crate::specs::Calls::Adding::tab_added))]
    fn add_tab(&mut self, index: usize) -> Added
        requires here { index < length self.old.windows }
        ensures added { (self.new, result) ≡ tab_added self.old index }
        ensures there { index < length self.new.windows }
    {
        let canvas = self.canvas_at(index);
        let (row, column) = canvas.state.cursor;
        let end = (column / 8 + 1) * 8;
        if end >= canvas.area.columns {
            return self.add_newline(index);
        }
        self.erase_up_to(index, end);
        self.go_to(index, row, end)
    }

    // Moves the cursor to a row and a column inside.
    #[inline(always)]
    fn go_to(&mut self, index: usize, row: u32, column: u32) -> Added
        requires here { index < length self.old.windows }
        requires row { row < (window_at self.old index).frame.area.rows }
        requires column { column < (window_at self.old index).frame.area.columns }
        ensures added { (self.new, result) ≡ gone_to self.old index (row, column) }
        ensures there { index < length self.new.windows }
    {
        self.set_cursor(index, row, column);
        Added::Done
    }

    // Goes to the first column of the next line, if there is one.
    #[inline(never)]
    #[tactic(auto, unfolding(crate::specs::Calls::Adding::line_begun))]
    fn begin_line(&mut self, index: usize) -> Added
        requires here { index < length self.old.windows }
        ensures added { (self.new, result) ≡ line_begun self.old index }
        ensures there { index < length self.new.windows }
    {
        let canvas = self.canvas_at(index);
        let row = canvas.state.cursor.0;
        let (top, bottom) = canvas.state.region;
        if row == bottom {
            if !canvas.state.scroll_ok {
                return Added::Stayed;
            }
            self.draw(
                index,
                &Drawing::Up {
                    first: top,
                    end: bottom + 1,
                    count: 1,
                    cell: canvas.state.background,
                },
            );
            self.go_to(index, row, 0)
        } else if row + 1 == canvas.area.rows {
            Added::Stayed
        } else {
            self.go_to(index, row + 1, 0)
        }
    }
}

// The two characters that a control character is shown as.
fn shown_as(character: char) -> (char, char)
    requires { is_control character ≡ true }
    ensures pair { result ≡ shown_as character }
    ensures first { IsCharacter result.0 }
    ensures second { IsCharacter result.1 }
{
    let code = character as u8;
    if code < 128 {
        ('^', char::from(code ^ 64))
    } else {
        ('~', char::from(code - 64))
    }
}

// The written form of a character.
#[inline(always)]
pub(crate) fn written_form(character: char, attrs: Attrs, state: WindowState) -> Cell
    requires character { IsCharacter character }
    requires pair { IsPair state.pair }
    ensures { result ≡ written_form character attrs state }
{
    form_of(character, attrs, state).unwrap()
}

// The same of a `char`; `None` if it is no character.
#[inline(always)]
pub(crate) fn form_of(character: char, attrs: Attrs, state: WindowState) -> Option<Cell>
    requires { IsPair state.pair }
    ensures some { IsSome result ↔ IsCharacter character }
    ensures form { IfSome result (λ cell. cell ≡ written_form character attrs state) }
{
    let background = state.background;
    let shown = if character == ' ' {
        background.character()
    } else {
        character
    };
    let all = attrs.union(state.attrs).union(background.attrs());
    let pair = if state.pair == 0 {
        background.pair()
    } else {
        state.pair
    };
    Cell::of(shown, all, pair)
}

// Stayed if either is.
pub(crate) fn either(first: Added, second: Added) -> Added
    ensures { result ≡ either_stayed first second }
{
    match first {
        Added::Done => second,
        Added::Stayed => Added::Stayed,
    }
}
