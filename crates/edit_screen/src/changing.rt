//! Changes of the text: typing, deleting, lines that are cut and pasted, undoing and doing again.

use crate::editor::Editor;
use crate::history::{Change, LINE_FEED, Step, is_up_to, place_after};
use crate::messages::Message;
use crate::view::{is_blank, last_break};
use edit_text::{EditFault, TextPart, TextPlace, first_part};

impl Editor {
    /// Inserts a character or a byte at the cursor; a line feed splits the line. A line that becomes too long is broken
    /// before its last word, where lines are to be wrapped.
    pub(crate) fn insert(&mut self, part: TextPart) {
        if self.insert_at(self.cursor, part, Step::Word) && !is_blank(part) {
            self.wrap();
            self.history.settle(Change::Inserted(part), self.cursor);
        }
    }

    /// Deletes what is at a place, if anything, and moves the cursor there.
    pub(crate) fn delete(&mut self, place: TextPlace) {
        if let Some(part) = self.text.part_at(place) {
            self.delete_at(place, part, Step::Word);
        }
    }

    /// Deletes what is before the cursor, if anything.
    pub(crate) fn delete_before(&mut self) {
        if let Some(place) = self.place_before() {
            self.delete(place);
        }
    }

    /// Cuts the cursor's line out of the text. Lines that are cut one after another are kept together.
    pub(crate) fn cut(&mut self, goes_on: bool) {
        let line = self.cursor.line;
        let length = self.line().len();
        let has_end = line.saturating_add(1) < self.text.line_count();
        if length == 0 && !has_end {
            self.message = Message::NothingToCut;
            return;
        }
        if !goes_on {
            self.cut_text.clear();
        }
        if self.keep_line(has_end) {
            self.delete_line(line, length, has_end);
        } else {
            self.message = Message::NoMemory;
        }
    }

    /// Inserts at the cursor what was cut.
    pub(crate) fn paste(&mut self) {
        if self.cut_text.is_empty() {
            self.message = Message::NothingToPaste;
        }
        let mut step = Step::New;
        let mut place = self.cursor;
        let mut pasted = 0usize;
        for _ in 0..self.cut_text.len() {
            let Some(part) = first_part(self.cut_text.get(pasted..).unwrap_or(&[])) else {
                break;
            };
            if !self.insert_at(place, part, step) {
                break;
            }
            place = place_after(place, part);
            pasted = pasted.saturating_add(part.len());
            step = Step::Same;
        }
        self.history.end_step();
    }

    /// Undoes the last step that is not undone, and moves the cursor to the first place that it was made at.
    pub(crate) fn undo(&mut self) {
        let Some(last) = self.history.last() else {
            self.message = Message::NothingToUndo;
            return;
        };
        let mut first = last.place;
        for _ in 0..u64::MAX {
            let Some(last) = self.history.last() else {
                break;
            };
            if self.text.undo().is_err() {
                self.message = Message::NoMemory;
                break;
            }
            self.notes.note(last.place, last.change.opposite());
            self.history.take_back();
            if is_up_to(last.place, first) {
                first = last.place;
            }
            if last.begins {
                break;
            }
        }
        self.go_to(first);
    }

    /// Does again the step that was undone last, if nothing was changed since.
    pub(crate) fn redo(&mut self) {
        if self.history.last_undone().is_none() {
            self.message = Message::NothingToRedo;
        }
        let mut is_first = true;
        for _ in 0..u64::MAX {
            let Some(next) = self.history.last_undone() else {
                break;
            };
            if next.begins && !is_first {
                break;
            }
            is_first = false;
            if self.history.add_again(next).is_err() || !self.is_made(next.place, next.change) {
                self.message = Message::NoMemory;
                break;
            }
            self.history.settle_again();
        }
    }

    // Inserts a part at a place, and moves the cursor after it. Answers whether it was done.
    fn insert_at(&mut self, place: TextPlace, part: TextPart, step: Step) -> bool {
        self.make(place, Change::Inserted(part), step)
    }

    // Deletes the part that is at a place, and moves the cursor there. Answers whether it was done.
    fn delete_at(&mut self, place: TextPlace, part: TextPart, step: Step) -> bool {
        self.make(place, Change::Deleted(part), step)
    }

    // Makes an edit, so that it can be undone. Answers whether it was made, and says why if it was not.
    fn make(&mut self, place: TextPlace, change: Change, step: Step) -> bool {
        if self.history.add(place, change, step).is_err() {
            self.message = Message::NoMemory;
            return false;
        }
        if self.is_made(place, change) {
            self.history.settle(change, self.cursor);
            return true;
        }
        self.message = Message::NoMemory;
        false
    }

    // Makes an edit that the history has, and moves the cursor to where it ends. If it cannot be made, the history
    // loses it.
    fn is_made(&mut self, place: TextPlace, change: Change) -> bool {
        match self.change_text(place, change) {
            Ok(end) => {
                self.go_to(end);
                true
            }
            Err(_) => {
                self.history.drop_last();
                false
            }
        }
    }

    // Changes the text, and gives the place where the edit ends.
    fn change_text(&mut self, place: TextPlace, change: Change) -> Result<TextPlace, EditFault> {
        match change {
            Change::Inserted(part) => {
                if part == LINE_FEED {
                    self.text.split(place)?;
                } else {
                    self.text.insert(place, part)?;
                }
                self.notes.note(place, change);
                Ok(place_after(place, part))
            }
            Change::Deleted(_) => {
                if let Some(part) = self.text.delete(place)? {
                    self.notes.note(place, Change::Deleted(part));
                }
                Ok(place)
            }
        }
    }

    // Keeps the cursor's line, to paste it. Answers whether there is memory for it.
    fn keep_line(&mut self, has_end: bool) -> bool {
        let kept = self.cut_text.len();
        if let Some(line) = self.text.line(self.cursor.line)
            && self.cut_text.extend_from_slice(line).is_err()
        {
            return false;
        }
        if has_end && self.cut_text.push(b'\n').is_err() {
            self.cut_text.truncate(kept);
            return false;
        }
        true
    }

    // Deletes a line, from its end on.
    fn delete_line(&mut self, line: usize, length: usize, has_end: bool) {
        let mut step = Step::New;
        let mut column = length;
        for _ in 0..length {
            let part = match self.text.part_before(TextPlace { line, column }) {
                Some(part) if column > 0 => part,
                _ => break,
            };
            column = column.saturating_sub(part.len());
            if !self.delete_at(TextPlace { line, column }, part, step) {
                break;
            }
            step = Step::Same;
        }
        if has_end && self.text.line_length(line) == 0 {
            self.delete_at(TextPlace { line, column: 0 }, LINE_FEED, step);
        }
        self.history.end_step();
    }

    // Breaks the line before its last word, if the cursor is past the column at which lines are wrapped.
    fn wrap(&mut self) {
        let Some(most) = self.wrap_column else {
            return;
        };
        if self.column() <= most {
            return;
        }
        let TextPlace { line, column } = self.cursor;
        let Some(blank) = last_break(self.line(), column, most) else {
            return;
        };
        self.break_at(TextPlace {
            line,
            column: blank,
        });
    }

    // Puts a line's end in the place of a blank before the cursor.
    fn break_at(&mut self, blank: TextPlace) {
        let left = self
            .cursor
            .column
            .saturating_sub(blank.column.saturating_add(1));
        let Some(part) = self.text.part_at(blank) else {
            return;
        };
        let start = place_after(blank, LINE_FEED);
        if self.insert_at(blank, LINE_FEED, Step::Same) && self.delete_at(start, part, Step::Same) {
            self.go_to(TextPlace {
                line: start.line,
                column: left,
            });
        }
    }
}
