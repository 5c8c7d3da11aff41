//! Movements of the cursor.

use crate::commands::Motion;
use crate::editor::Editor;
use crate::history::place_after;
use crate::view::bytes_before;
use edit_text::TextPlace;

impl Editor {
    /// Moves the cursor to a line, counted from 1, or to the last.
    pub fn begin_at(&mut self, line: usize) {
        self.go_to_line(line.saturating_sub(1));
    }

    /// Moves the cursor to a place, whose column it keeps to from then on. It is never within a character: it goes to
    /// the beginning of one that the place is within.
    pub(crate) fn go_to(&mut self, place: TextPlace) {
        self.cursor = self.text.part_start(place);
        self.goal = self.column();
    }

    // Moves the cursor to a line, or the last, in the column that it keeps to.
    fn go_to_line(&mut self, line: usize) {
        let last = self.text.line_count().saturating_sub(1);
        self.cursor.line = line.min(last);
        self.cursor.column = bytes_before(self.line(), self.goal);
    }

    /// Moves the cursor.
    pub(crate) fn move_by(&mut self, motion: Motion) {
        let line = self.cursor.line;
        let page = self.page;
        match motion {
            Motion::Up => self.go_to_line(line.saturating_sub(1)),
            Motion::Down => self.go_to_line(line.saturating_add(1)),
            Motion::PageUp => self.turn_to(
                self.top.saturating_sub(page),
                line.saturating_sub(page),
            ),
            Motion::PageDown => {
                let last = self.text.line_count().saturating_sub(page).max(self.top);
                let top = self.top.saturating_add(page).min(last);
                self.turn_to(top, line.saturating_add(page));
            }
            Motion::Left => self.go_to_some(self.place_before()),
            Motion::Right => self.go_to_some(self.place_after()),
            Motion::LineStart => self.go_to(TextPlace { line, column: 0 }),
            Motion::LineEnd => {
                let column = self.line().len();
                self.go_to(TextPlace { line, column });
            }
        }
    }

    // Shows the lines from one on, and moves the cursor to a line.
    fn turn_to(&mut self, top: usize, line: usize) {
        self.top = top;
        self.go_to_line(line);
    }

    fn go_to_some(&mut self, place: Option<TextPlace>) {
        if let Some(place) = place {
            self.go_to(place);
        }
    }

    /// The place before the cursor: `None` at the beginning of the text.
    pub(crate) fn place_before(&self) -> Option<TextPlace> {
        let part = self.text.part_before(self.cursor)?;
        let TextPlace { line, column } = self.cursor;
        if column > 0 {
            let column = column.saturating_sub(part.len());
            return Some(TextPlace { line, column });
        }
        let line = line.checked_sub(1)?;
        let column = self.text.line_length(line);
        Some(TextPlace { line, column })
    }

    // The place after the cursor: `None` at the end of the text.
    fn place_after(&self) -> Option<TextPlace> {
        let part = self.text.part_at(self.cursor)?;
        Some(place_after(self.cursor, part))
    }

    /// Shows the lines around the cursor, its own among them.
    pub(crate) fn show_cursor(&mut self) {
        let line = self.cursor.line;
        let lowest = line.saturating_add(1).saturating_sub(self.page);
        self.top = self.top.max(lowest).min(line);
    }
}
