//! Finding characters in the text, by their bytes.

use crate::editor::{Editor, Mode};
use crate::history::is_up_to;
use crate::messages::Message;
use edit_text::TextPlace;

impl Editor {
    /// Asks what is to be found.
    pub(crate) fn begin_find(&mut self) {
        self.mode = Mode::Find;
        self.answer.clear();
    }

    /// Finds what was typed, or again what was looked for last if nothing was.
    pub(crate) fn find_answer(&mut self) {
        if self.answer.is_empty() {
            self.find();
            return;
        }
        self.needle.clear();
        if self.needle.extend_from_slice(&self.answer).is_err() {
            self.message = Message::NoMemory;
            return;
        }
        self.find();
    }

    /// Moves the cursor to the next place after it where what is looked for occurs; after the last place the first is
    /// the next.
    pub(crate) fn find(&mut self) {
        if self.needle.is_empty() {
            self.message = Message::NothingToFind;
            return;
        }
        let start = self.cursor;
        let length = match self.text.part_at(start) {
            Some(part) => part.len(),
            None => 1,
        };
        let after = TextPlace {
            line: start.line,
            column: start.column.saturating_add(length),
        };
        match self.text.find(after, &self.needle) {
            Some(place) => {
                if is_up_to(place, start) {
                    self.message = Message::Again;
                }
                self.go_to(place);
            }
            None => self.message = Message::NotFound,
        }
    }
}
