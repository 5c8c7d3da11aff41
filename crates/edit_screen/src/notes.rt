//! Changes of a text, as lines of its journal that are not written yet.
//!
//! A line is `+ LINE COLUMN BYTES`, what was inserted, or `- LINE COLUMN COUNT`, how many bytes were deleted; a line's
//! end is one byte. A line end that was inserted is written as `\n`, and a backslash as `\\`. Lines and columns are
//! those of a place, counted from 0. What is typed one after another is one line: its bytes are written as they come,
//! and its end before the next change.

use crate::history::{Change, place_after};
use edit_text::{TextPart, TextPlace};
use std::alloc::Global;

/// Changes that were made one after another.
#[derive(Drop)]
pub(crate) struct Notes {
    lines: Vec<u8>,
    // Where that ends which the last line inserts, if it goes on: its own end is missing, here or in the journal.
    inserted_to: Option<TextPlace>,
    // What was deleted last, and may go on: it is no line yet.
    deleted: Option<(TextPlace, usize)>,
    // How many changes there were since it was last tried to keep them.
    count: u32,
    // Whether all changes are here, or were.
    is_whole: bool,
}

impl Notes {
    /// Nothing was changed.
    pub(crate) fn new(alloc: Global) -> Notes {
        Notes {
            lines: Vec::new(alloc),
            inserted_to: None,
            deleted: None,
            count: 0,
            is_whole: true,
        }
    }

    /// Notes a change at a place. Where memory runs out, the notes are not whole from then on.
    pub(crate) fn note(&mut self, place: TextPlace, change: Change) {
        self.count = self.count.saturating_add(1);
        match change {
            Change::Inserted(part) => self.note_inserted(place, part),
            Change::Deleted(part) => self.note_deleted(place, part),
        }
    }

    /// How many changes there were since it was last tried to keep them.
    pub(crate) fn count(&self) -> u32 {
        self.count
    }

    /// It was tried to keep the changes.
    pub(crate) fn count_anew(&mut self) {
        self.count = 0;
    }

    /// The lines; `None` if they are not whole.
    pub(crate) fn lines(&mut self) -> Option<&[u8]> {
        self.end_deletion();
        if self.is_whole {
            Some(self.lines.as_slice())
        } else {
            None
        }
    }

    /// Whether all changes are among the lines, or were.
    pub(crate) fn is_whole(&self) -> bool {
        self.is_whole
    }

    /// Whether nothing was noted that is not written.
    pub(crate) fn is_empty(&self) -> bool {
        self.lines.is_empty() && self.deleted.is_none()
    }

    /// The lines are written.
    pub(crate) fn clear(&mut self) {
        self.lines.clear();
        self.count = 0;
    }

    /// The lines are of no use any more: they would not lead from what the file has to the text.
    pub(crate) fn give_up(&mut self) {
        self.lines.clear();
        self.is_whole = false;
    }

    /// The file has the text now.
    pub(crate) fn begin_anew(&mut self) {
        self.clear();
        self.inserted_to = None;
        self.deleted = None;
        self.is_whole = true;
    }

    fn note_inserted(&mut self, place: TextPlace, part: TextPart) {
        if self.inserted_to != Some(place) {
            self.end_line();
            self.begin_line(b"+ ", place);
        }
        match part {
            TextPart::Character(character) => {
                let mut bytes = [0; 4];
                self.add(character.encode_utf8(&mut bytes).as_bytes());
            }
            TextPart::Byte(b'\n') => self.add(b"\\n"),
            TextPart::Byte(b'\\') => self.add(b"\\\\"),
            TextPart::Byte(byte) => self.add(&[byte]),
        }
        self.inserted_to = Some(place_after(place, part));
    }

    // What is deleted one after another, at one place or before it, is one line.
    fn note_deleted(&mut self, place: TextPlace, part: TextPart) {
        let before = self.deleted_at(place, place_after(place, part));
        if before == 0 {
            self.end_line();
        }
        self.deleted = Some((place, before.saturating_add(part.len())));
    }

    // How many bytes were deleted last, if that was at one of two places.
    fn deleted_at(&self, place: TextPlace, other: TextPlace) -> usize {
        match self.deleted {
            Some((last, count)) if last == place || last == other => count,
            _ => 0,
        }
    }

    fn begin_line(&mut self, kind: &[u8], place: TextPlace) {
        self.add(kind);
        self.add_number(place.line);
        self.add(b" ");
        self.add_number(place.column);
        self.add(b" ");
    }

    // Ends the last line, if it goes on.
    fn end_line(&mut self) {
        self.end_deletion();
        if self.inserted_to.take().is_some() {
            self.add(b"\n");
        }
    }

    fn end_deletion(&mut self) {
        if let Some((place, count)) = self.deleted.take() {
            self.begin_line(b"- ", place);
            self.add_number(count);
            self.add(b"\n");
        }
    }

    fn add_number(&mut self, number: usize) {
        let mut buffer = itoa::Buffer::new();
        self.add(buffer.format(number).as_bytes());
    }

    fn add(&mut self, bytes: &[u8]) {
        if self.is_whole && self.lines.extend_from_slice(bytes).is_err() {
            self.give_up();
        }
    }
}
