//! How the bytes of a text, and the characters of one of Unicode, are added.
//!
//! The characters of ASCII that a text begins with are written a stretch at a time, as far as a line takes them before
//! its last column. Every other one is added by itself.
ghost use Rattle.std.specs.Prelude.{◌≡◌, ◌+◌, ◌<◌, ◌≤◌, length, take, drop, leb, false, replicate};
ghost use Rattle.std.specs.List.{flat_map, list_any};
ghost use Rattle.std.specs.Str.{IsCharBoundary, chars};
ghost use Rattle.scr_windows.specs.DeskViews.{window_at};
ghost use Rattle.scr_windows.specs.Code.Stretches.{characters_first};
ghost use Rattle.scr_windows.specs.declared.faults.Added.TheVariants.{Done};
ghost use Rattle.scr_windows.specs.Calls.Adding.{written_form, fitted, text_added};

use crate::calls::adding::{either, form_of, written_form};
use crate::desks::Desk;
use crate::faults::Added;
use crate::laws::surface_laws;
use scr_cells::{Attrs, is_ascii};
use unicode_width::UnicodeWidthChar;

impl Desk {
    // Adds the bytes of a text to the window at an index.
    pub(crate) fn add_all(&mut self, index: usize, text: &[u8]) -> Added
        requires here { index < length self.old.windows }
        requires ascii { list_any (λ byte. leb 128 byte) text.now ≡ false }
        ensures { (self.new, result) ≡ text_added self.old index text.now }
    {
        let mut all = Added::Done;
        let mut at = 0;
        while at + 1 < text.len() {
            let (count, some) = self.add_some(index, text, at);
            all = either(all, some);
            at += count;
        }
        if at < text.len() {
            let last = self.add_at(index, char::from(text[at]), Attrs(0));
            all = either(all, last);
        }
        all
    }

    // Adds bytes of a text, from one before the last on, to the window at an index: a stretch of characters that the
    // line takes before its last column, or else one byte. Gives how many.
    #[inline(always)]
    fn add_some(&mut self, index: usize, text: &[u8], at: usize) -> (usize, Added)
        requires here { index < length self.old.windows }
        requires at { at + 1 < length text.now }
        requires ascii { list_any (λ byte. leb 128 byte) text.now ≡ false }
        ensures some { 1 ≤ result.0 }
        ensures within { at + result.0 ≤ length text.now }
        ensures added { (self.new, result.1) ≡ text_added self.old index (take result.0 (drop at text.now)) }
        ensures there { index < length self.new.windows }
    {
        let canvas = self.canvas_at(index);
        let room = (canvas.area.columns - 1 - canvas.state.cursor.1) as usize;
        if room < 2 || !is_ascii(text[at]) {
            return (1, self.add_at(index, char::from(text[at]), Attrs(0)));
        }
        let end = at + room.min(text.len() - at);
        (self.add_stretch(index, &text[at..end]), Added::Done)
    }

    // Adds the characters that a text begins with to the window at an index. They end before the line's last column.
    // Gives how many they are.
    #[inline(always)]
    fn add_stretch(&mut self, index: usize, text: &[u8]) -> usize
        requires here { index < length self.old.windows }
        requires some { 1 ≤ characters_first text.now }
        requires room { (window_at self.old index).state.cursor.1 + length text.now < (window_at self.old index).frame.area.columns }
        ensures count { result ≡ characters_first text.now }
        ensures added { (self.new, Done) ≡ text_added self.old index (take result text.now) }
        ensures there { index < length self.new.windows }
    {
        surface_laws();
        let state = self.window_at(index).state();
        let (row, column) = state.cursor;
        let blank = written_form(' ', Attrs(0), state);
        let count = self.put_text(index, (row, column), text, blank);
        self.set_cursor(index, row, column + count as u32);
        count
    }

    // Adds the characters of a text of Unicode to the window at an index.
    pub(crate) fn add_characters(&mut self, index: usize, text: &str) -> Added
        requires { index < length self.old.windows }
        ensures { (self.new, result) ≡ text_added self.old index (flat_map fitted (chars text.now)) }
    {
        let mut all = Added::Done;
        let mut at = 0;
        while at < text.len() {
            let (count, some) = self.add_part(index, &text[at..]);
            all = either(all, some);
            at += count;
        }
        all
    }

    // Adds what a text of Unicode begins with to the window at an index: a stretch of characters of ASCII that the line
    // takes before its last column, or else one character. Gives how many bytes that is.
    #[inline(always)]
    fn add_part(&mut self, index: usize, text: &str) -> (usize, Added)
        requires here { index < length self.old.windows }
        requires some { 1 ≤ length text.now }
        ensures some { 1 ≤ result.0 }
        ensures place { IsCharBoundary text.now result.0 }
        ensures added { (self.new, result.1) ≡ text_added self.old index (flat_map fitted (chars (take result.0 text.now))) }
        ensures there { index < length self.new.windows }
    {
        let canvas = self.canvas_at(index);
        let last = canvas.area.columns - 1;
        let bytes = text.as_bytes();
        let end = ((last - canvas.state.cursor.1) as usize).min(bytes.len());
        if end < 2 || !is_ascii(bytes[0]) {
            return self.add_first(index, text);
        }
        (self.add_stretch(index, &bytes[..end]), Added::Done)
    }

    // Adds the first character of a text of Unicode to the window at an index. Gives how many bytes it has.
    #[inline(never)]
    fn add_first(&mut self, index: usize, text: &str) -> (usize, Added)
        requires here { index < length self.old.windows }
        requires some { 1 ≤ length text.now }
        ensures some { 1 ≤ result.0 }
        ensures place { IsCharBoundary text.now result.0 }
        ensures added { (self.new, result.1) ≡ text_added self.old index (flat_map fitted (chars (take result.0 text.now))) }
        ensures there { index < length self.new.windows }
    {
        let Some(character) = text.chars().next() else {
            return (text.len(), Added::Done);
        };
        (character.len_utf8(), self.add_fitted(index, character))
    }

    // Adds what is shown for a scalar value of Unicode to the window at an index.
    fn add_fitted(&mut self, index: usize, character: char) -> Added
        requires here { index < length self.old.windows }
        ensures added { (self.new, result) ≡ text_added self.old index (fitted character) }
        ensures there { index < length self.new.windows }
    {
        if character.is_control() {
            return self.add_at(index, character, Attrs(0));
        }
        let state = self.canvas_at(index).state;
        match form_of(character, Attrs(0), state) {
            Some(cell) => self.write_cell(index, cell),
            None => self.add_replacements(index, character.width().unwrap_or(0)),
        }
    }

    // Adds U+FFFD so many times to the window at an index.
    #[cold]
    #[inline(never)]
    fn add_replacements(&mut self, index: usize, count: usize) -> Added
        requires here { index < length self.old.windows }
        ensures added { (self.new, result) ≡ text_added self.old index (replicate count 0xFFFD) }
        ensures there { index < length self.new.windows }
    {
        let mut all = Added::Done;
        for _ in 0..count {
            let one = self.add_at(index, char::REPLACEMENT_CHARACTER, Attrs(0));
            all = either(all, one);
        }
        all
    }
}

// Whether any byte is 128 or more. It looks at all of them, so that LLVM looks at many at a time.
pub(crate) fn is_any_above(text: &[u8]) -> bool
    ensures { result ≡ list_any (λ byte. leb 128 byte) text.now }
{
    let mut any = false;
    for byte in text {
        any |= *byte >= 128;
    }
    any
}
