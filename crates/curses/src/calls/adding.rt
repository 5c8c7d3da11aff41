//! Calls that add characters: one, a text, an inserted one, and lines of one. Each is there for the bytes of ASCII, and
//! for characters.
ghost use Rattle.std.specs.Str.{chars};
ghost use Rattle.curses.specs.Forwarding.{OnDesk};
ghost use Rattle.scr_windows.specs.Calls.Adding.{add_byte_call, add_character_call, add_text_call, add_str_call, insert_byte_call, insert_character_call, line_across_call, line_across_of_call, line_down_call, line_down_of_call};

use crate::screens::Screen;
use scr_cells::Attrs;
use scr_windows::{Added, Win, WinFault};

impl Screen {
    /// Adds a byte at a window's cursor, with these attributes besides those of the window and of its background. Its
    /// colour pair is the window's, or the background's if the window's is 0.
    ///
    /// A byte 32 to 126 is written, a blank as the background's character, and the cursor moves right, from the last
    /// column to the first of the next line. Byte 10 erases to the end of the line and goes to the first column of the
    /// next line. Byte 9 erases up to the next column that is a multiple of 8 and goes there, or acts as byte 10 if the
    /// line has no such column. Byte 8 moves the cursor left, at most to column 0, and 13 moves it to column 0. Any
    /// other byte below 128 is shown as `^` and a character.
    ///
    /// In the last row of the scrolling region, the region scrolls up by one if `scroll_ok` is set, and the next line
    /// is that row again; without `scroll_ok` there is no next line. There is none below the window's last row either.
    /// `Stayed` says that a next line was needed and there was none, so the cursor stayed.
    ///
    /// Refused: NoWindow; NotAscii for a byte from 128 on. X/Open Curses Issue 7, addch().
    pub fn add_byte(&mut self, win: Win, byte: u8, attrs: Attrs) -> Result<Added, WinFault>
        ensures { OnDesk self.old self.new result (add_byte_call self.old.desk win.0 byte attrs) }
    {
        self.desk.add_byte(win, byte, attrs)
    }

    /// Adds a character at a window's cursor, as `add_byte` adds a byte 32 to 126. It takes one column.
    ///
    /// Refused: NoWindow; NotOneColumn for a `char` that is no character (`scr_cells::is_character`), such as a control
    /// character, a combining one or one of two columns. X/Open Curses Issue 7, add_wch().
    pub fn add_character(
        &mut self,
        win: Win,
        character: char,
        attrs: Attrs,
    ) -> Result<Added, WinFault>
        ensures { OnDesk self.old self.new result (add_character_call self.old.desk win.0 character attrs) }
    {
        self.desk.add_character(win, character, attrs)
    }

    /// Adds the bytes of a text one after another, as `add_byte` does without attributes. `Stayed` says that at least
    /// one of them gave it.
    ///
    /// Refused: NoWindow; NotAscii if any byte is 128 or more. X/Open Curses Issue 7, addnstr().
    pub fn add_text(&mut self, win: Win, text: &[u8]) -> Result<Added, WinFault>
        ensures { OnDesk self.old self.new result (add_text_call self.old.desk win.0 text.now) }
    {
        self.desk.add_text(win, text)
    }

    /// Adds the characters of a text one after another, without attributes of their own, and its control characters as
    /// `add_byte` does. Those from U+0080 to U+009F are shown as `~` and a character, so that U+0080 is `~@`. `Stayed`
    /// says that at least one of them gave it.
    ///
    /// No text is refused, and what comes after a `char` that is no character of one column is in its column: a `char`
    /// that takes no column, such as a combining accent, is left out; one of two columns is shown as U+FFFD twice, and
    /// any other as U+FFFD.
    ///
    /// Refused: NoWindow. X/Open Curses Issue 7, addnwstr().
    pub fn add_str(&mut self, win: Win, text: &str) -> Result<Added, WinFault>
        ensures { OnDesk self.old self.new result (add_str_call self.old.desk win.0 (chars text.now)) }
    {
        self.desk.add_str(win, text)
    }

    /// Inserts a byte 32 to 126 at a window's cursor, in the form that `add_byte` writes: the rest of the line moves
    /// right by one, and its last cell is lost. The cursor stays.
    ///
    /// Refused: NoWindow; NotAscii for another byte. X/Open Curses Issue 7, insch().
    pub fn insert_byte(&mut self, win: Win, byte: u8, attrs: Attrs) -> Result<(), WinFault>
        ensures { OnDesk self.old self.new result (insert_byte_call self.old.desk win.0 byte attrs) }
    {
        self.desk.insert_byte(win, byte, attrs)
    }

    /// Inserts a character at a window's cursor, as `insert_byte` inserts a byte.
    ///
    /// Refused: NoWindow; NotOneColumn for a `char` that is no character. X/Open Curses Issue 7, ins_wch().
    pub fn insert_character(
        &mut self,
        win: Win,
        character: char,
        attrs: Attrs,
    ) -> Result<(), WinFault>
        ensures { OnDesk self.old self.new result (insert_character_call self.old.desk win.0 character attrs) }
    {
        self.desk.insert_character(win, character, attrs)
    }

    /// Writes a byte 32 to 126 in `n` places of a window from the cursor to the right, at most to the edge. Its form is
    /// that of `add_byte` without attributes. The cursor stays.
    ///
    /// Refused: NoWindow; NotAscii for another byte. X/Open Curses Issue 7, hline().
    pub fn line_across(&mut self, win: Win, byte: u8, n: u32) -> Result<(), WinFault>
        ensures { OnDesk self.old self.new result (line_across_call self.old.desk win.0 byte n) }
    {
        self.desk.line_across(win, byte, n)
    }

    /// Writes a character in `n` places of a window from the cursor to the right, as `line_across` writes a byte.
    ///
    /// Refused: NoWindow; NotOneColumn for a `char` that is no character. X/Open Curses Issue 7, hline_set().
    pub fn line_across_of(&mut self, win: Win, character: char, n: u32) -> Result<(), WinFault>
        ensures { OnDesk self.old self.new result (line_across_of_call self.old.desk win.0 character n) }
    {
        self.desk.line_across_of(win, character, n)
    }

    /// Writes a byte 32 to 126 in `n` places of a window from the cursor down, at most to the edge. Its form is that of
    /// `add_byte` without attributes. The cursor stays.
    ///
    /// Refused: NoWindow; NotAscii for another byte. X/Open Curses Issue 7, vline().
    pub fn line_down(&mut self, win: Win, byte: u8, n: u32) -> Result<(), WinFault>
        ensures { OnDesk self.old self.new result (line_down_call self.old.desk win.0 byte n) }
    {
        self.desk.line_down(win, byte, n)
    }

    /// Writes a character in `n` places of a window from the cursor down, as `line_down` writes a byte.
    ///
    /// Refused: NoWindow; NotOneColumn for a `char` that is no character. X/Open Curses Issue 7, vline_set().
    pub fn line_down_of(&mut self, win: Win, character: char, n: u32) -> Result<(), WinFault>
        ensures { OnDesk self.old self.new result (line_down_of_call self.old.desk win.0 character n) }
    {
        self.desk.line_down_of(win, character, n)
    }
}
