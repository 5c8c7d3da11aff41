//! Texts that are edited, with undo. The definitions are in `specs/Texts.antt`, `specs/Lines.antt` and
//! `specs/Refusals.antt`.
ghost use Rattle.std.specs.Prelude.{◌≡◌, ◌<◌, ◌≤◌, true, false, [], ◌∷◌, length, IfOk, MatchOption, None, OnErr, Some, option_map, slice_get};
ghost use Rattle.edit_text.specs.Lines.{AreLines, IsPartAt, IsPartBefore, bytes_of, deleted, has_line_feed, inserted, is_inside, line_at, split_at};
ghost use Rattle.edit_text.specs.Parts.{IsBetween, spelled};
ghost use Rattle.edit_text.specs.Texts.{IsText, IsUndone, edited, fresh};
ghost use Rattle.edit_text.specs.Refusals.{IsRefusedBy, insert_refusal, place_refusal};
ghost use Rattle.edit_text.specs.Finds.{IsFound};

use crate::edits::Edit;
use crate::faults::EditFault;
use crate::finding::find;
use crate::lines::Lines;
use crate::parts::{TextPart, part_start};
use crate::places::TextPlace;
use out_of_memory::NoMemory;
use std::alloc::Global;
use std::marker::Model;

/// A text that is edited: its lines, the texts before each edit, and a count of its changes. Contracts see a record of
/// these three.
#[derive(Drop)]
pub struct Text {
    lines: Lines,
    // What undoes each edit, the last one at the end.
    edits: Vec<Edit>,
    version: u64,
}

impl Model for Text {
    ghost use Rattle.std.specs.Prelude.{reverse};
    ghost use Rattle.edit_text.specs.Texts.{View, IsText};
    ghost use Rattle.edit_text.specs.Code.Edits.{past_of, CanUndoAll};

    ghost Value = { View };

    ghost view = { λ t. record { lines = t.lines; past = past_of (reverse t.edits.items) t.lines; version = t.version } };

    ghost invariant = { λ t. IsText (record { lines = t.lines; past = past_of (reverse t.edits.items) t.lines; version = t.version }) × CanUndoAll (reverse t.edits.items) t.lines };
}

impl Text {
    /// One empty line, and nothing to undo. Fails only when memory runs out.
    pub fn new(alloc: Global) -> Result<Text, NoMemory>
        ensures { IfOk result (λ text. text ≡ fresh ([] ∷ [])) }
    {
        let lines = Lines::new(alloc)?;
        Ok(Text::of(alloc, lines))
    }

    /// The text of a file with these bytes: its lines are what line feeds separate, so a file that ends in a line feed
    /// has an empty last line. There is nothing to undo. Fails only when memory runs out.
    pub fn read(alloc: Global, bytes: &[u8]) -> Result<Text, NoMemory>
        ensures bytes { IfOk result (λ text. bytes_of text.lines ≡ bytes.now) }
        ensures fresh { IfOk result (λ text. text ≡ fresh text.lines) }
        ensures text { IfOk result (λ text. IsText text) }
    {
        let lines = Lines::read(alloc, bytes)?;
        Ok(Text::of(alloc, lines))
    }

    /// The bytes of the file: its lines, joined by line feeds. Fails only when memory runs out.
    pub fn bytes(&self, alloc: Global) -> Result<Vec<u8>, NoMemory>
        ensures { IfOk result (λ bytes. bytes.items ≡ bytes_of self.now.lines) }
    {
        self.lines.bytes(alloc)
    }

    /// How many lines there are, at least one.
    pub fn line_count(&self) -> usize
        ensures count { result ≡ length self.now.lines }
        ensures text { IsText self.now }
    {
        self.lines.count()
    }

    /// The bytes of a line, without a line feed; `None` past the last line.
    pub fn line(&self, line: usize) -> Option<&[u8]>
        ensures { option_map (λ bytes. bytes.now) result ≡ slice_get self.now.lines line }
    {
        self.lines.get(line)
    }

    /// The length of a line in bytes; 0 past the last line.
    pub fn line_length(&self, line: usize) -> usize
        ensures { result ≡ length (line_at self.now.lines line) }
    {
        self.lines.length_of(line)
    }

    /// Whether a place is in the text: there is such a line, and the column is at most its length.
    pub fn is_inside(&self, place: TextPlace) -> bool
        ensures { result ≡ is_inside self.now.lines place }
    {
        self.lines.is_inside(place)
    }

    /// How often the text was changed since it was made, by edits and by undoing them. It stops at 2^64 - 1. While it
    /// is the same, nothing was changed.
    pub fn version(&self) -> u64
        ensures { result ≡ self.now.version }
    {
        self.version
    }

    /// The part at a place: the character that begins there or the byte, or a line feed at the end of a line but the
    /// last. `None` at the very end of the text, and outside.
    pub fn part_at(&self, place: TextPlace) -> Option<TextPart>
        ensures inside { is_inside self.now.lines place ≡ true → IsPartAt self.now.lines place result }
        ensures outside { is_inside self.now.lines place ≡ false → result ≡ None }
    {
        if !self.is_inside(place) {
            return None;
        }
        self.lines.part_at(place)
    }

    /// The part before a place: the character that ends there or the byte, or a line feed at the beginning of a line
    /// but the first. `None` at the very beginning of the text, and outside.
    pub fn part_before(&self, place: TextPlace) -> Option<TextPart>
        ensures inside { is_inside self.now.lines place ≡ true → IsPartBefore self.now.lines place result }
        ensures outside { is_inside self.now.lines place ≡ false → result ≡ None }
    {
        if !self.is_inside(place) {
            return None;
        }
        self.lines.part_before(place)
    }

    /// The place itself if it is between parts of its line, and else the one where the character begins that it is
    /// within.
    pub fn part_start(&self, place: TextPlace) -> TextPlace
        ensures line { result.line ≡ place.line }
        ensures column { IsBetween (line_at self.now.lines place.line) place.column result.column }
    {
        let column = part_start(self.lines.bytes_of(place.line), place.column);
        TextPlace {
            line: place.line,
            column,
        }
    }

    /// Inserts a part at a place, any character among them. The place after it is behind its bytes.
    ///
    /// Refused with `OutsideText` if the place is outside the text, then with `LineFeed` if the part is a line feed,
    /// then with `NoMemory`.
    pub fn insert(&mut self, place: TextPlace, part: TextPart) -> Result<(), EditFault>
        ensures refused { IsRefusedBy result (insert_refusal self.old.lines place part) }
        ensures ok { IfOk result (λ _. self.new ≡ edited self.old place (inserted self.old.lines place (spelled part))) }
        ensures err { OnErr result (self.new ≡ self.old) }
    {
        if !self.is_inside(place) {
            return Err(EditFault::OutsideText);
        }
        if part.is_line_feed() {
            return Err(EditFault::LineFeed);
        }
        self.insert_inside(place, part)?;
        Ok(())
    }

    /// Splits a line at a place; the rest of it becomes the next line.
    ///
    /// Refused with `OutsideText` if the place is outside the text, then with `NoMemory`.
    pub fn split(&mut self, place: TextPlace) -> Result<(), EditFault>
        ensures refused { IsRefusedBy result (place_refusal self.old.lines place) }
        ensures ok { IfOk result (λ _. self.new ≡ edited self.old place (split_at self.old.lines place)) }
        ensures err { OnErr result (self.new ≡ self.old) }
    {
        if !self.is_inside(place) {
            return Err(EditFault::OutsideText);
        }
        self.split_inside(place)?;
        Ok(())
    }

    /// Deletes the part at a place, and gives it: a character with all its bytes, or a byte, or at the end of a line
    /// its line feed, so that the next line is joined to it. `None` at the very end of the text, and nothing changes.
    ///
    /// Refused with `OutsideText` if the place is outside the text, then with `NoMemory`.
    pub fn delete(&mut self, place: TextPlace) -> Result<Option<TextPart>, EditFault>
        ensures refused { IsRefusedBy result (place_refusal self.old.lines place) }
        ensures part { IfOk result (λ part. IsPartAt self.old.lines place part) }
        ensures ok { IfOk result (λ part. MatchOption part (self.new ≡ self.old) (λ p. self.new ≡ edited self.old place (deleted self.old.lines place p))) }
        ensures err { OnErr result (self.new ≡ self.old) }
    {
        if !self.is_inside(place) {
            return Err(EditFault::OutsideText);
        }
        match self.lines.part_at(place) {
            Some(part) => {
                self.delete_inside(place, part)?;
                Ok(Some(part))
            }
            None => Ok(None),
        }
    }

    /// Undoes the last edit that is not undone: brings back the lines before it, and gives the place where it was made.
    /// `None` if there is none, and nothing changes. What is undone is not kept.
    ///
    /// Fails only when memory runs out; then nothing changes.
    pub fn undo(&mut self) -> Result<Option<TextPlace>, NoMemory>
        ensures ok { IfOk result (λ place. IsUndone self.old place self.new) }
        ensures err { OnErr result (self.new ≡ self.old) }
    {
        let Some(edit) = self.edits.last() else {
            return Ok(None);
        };
        let edit = *edit;
        self.lines.undo(edit)?;
        let _ = self.edits.pop();
        self.version = self.version.saturating_add(1);
        Ok(Some(edit.place()))
    }

    /// The first place at which these bytes occur within a line: the places from `from` on are tried first, line by
    /// line, and then those before it. `None` if they occur nowhere, and for no bytes.
    pub fn find(&self, from: TextPlace, bytes: &[u8]) -> Option<TextPlace>
        ensures { IsFound self.now.lines from bytes.now result }
    {
        find(&self.lines, from, bytes)
    }
}

impl Text {
    // A text with these lines, and nothing to undo.
    fn of(alloc: Global, lines: Lines) -> Text
        requires { AreLines lines }
        ensures { result ≡ fresh lines }
    {
        Text {
            lines,
            edits: Vec::new(alloc),
            version: 0,
        }
    }

    // Inserts a part at a place in the text. Fails only when memory runs out.
    fn insert_inside(&mut self, place: TextPlace, part: TextPart) -> Result<(), NoMemory>
        requires line { place.line < length self.old.lines }
        requires column { place.column ≤ length (line_at self.old.lines place.line) }
        requires part { has_line_feed (spelled part) ≡ false }
        ensures ok { IfOk result (λ _. self.new ≡ edited self.old place (inserted self.old.lines place (spelled part))) }
        ensures err { OnErr result (self.new ≡ self.old) }
    {
        self.edits.reserve(1)?;
        self.lines.insert(place, part)?;
        self.edits.push_reserved(Edit::Inserted(place, part));
        self.version = self.version.saturating_add(1);
        Ok(())
    }

    // Splits a line at a place in the text. Fails only when memory runs out.
    fn split_inside(&mut self, place: TextPlace) -> Result<(), NoMemory>
        requires line { place.line < length self.old.lines }
        requires column { place.column ≤ length (line_at self.old.lines place.line) }
        ensures ok { IfOk result (λ _. self.new ≡ edited self.old place (split_at self.old.lines place)) }
        ensures err { OnErr result (self.new ≡ self.old) }
    {
        self.edits.reserve(1)?;
        self.lines.split(place)?;
        self.edits.push_reserved(Edit::Split(place));
        self.version = self.version.saturating_add(1);
        Ok(())
    }

    // Deletes the part at a place in the text. Fails only when memory runs out.
    fn delete_inside(&mut self, place: TextPlace, part: TextPart) -> Result<(), NoMemory>
        requires line { place.line < length self.old.lines }
        requires column { place.column ≤ length (line_at self.old.lines place.line) }
        requires part { IsPartAt self.old.lines place (Some part) }
        ensures ok { IfOk result (λ _. self.new ≡ edited self.old place (deleted self.old.lines place part)) }
        ensures err { OnErr result (self.new ≡ self.old) }
    {
        self.edits.reserve(1)?;
        let edit = self.lines.delete(place, part)?;
        self.edits.push_reserved(edit);
        self.version = self.version.saturating_add(1);
        Ok(())
    }
}
