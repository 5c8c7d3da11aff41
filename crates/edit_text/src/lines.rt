//! Lines of bytes, and what edits do to them. The definitions are in `specs/Lines.antt`.
ghost use Rattle.std.specs.Prelude.{◌≡◌, ◌==◌, ◌+◌, suc, ◌<◌, ◌≤◌, [], ◌∷◌, ◌++◌, length, drop, take, IfOk, OnOk, OnErr, Some, option_map, slice_get, slice_set};
ghost use Rattle.std.specs.List.{flat_map, slice_split};
ghost use Rattle.edit_text.specs.Lines.{IsPartAt, IsPartBefore, bytes_of, deleted, inserted, is_inside, joined, line_at, removed, split_at, with_bytes, without_bytes};
ghost use Rattle.edit_text.specs.Code.Edits.{CanUndo, Undoes, undone};
ghost use Rattle.edit_text.specs.Parts.{spelled};

use crate::edits::Edit;
use crate::parts::{TextPart, first_part, last_part};
use crate::places::TextPlace;
use out_of_memory::NoMemory;
use std::alloc::Global;
use std::marker::Model;

// The byte between two lines.
pub(crate) const LINE_FEED: u8 = b'\n';

// A line of bytes.
#[derive(Drop)]
struct TextLine(Vec<u8>);

impl Model for TextLine {
    ghost use Rattle.std.specs.Prelude.{List, ℕ};

    ghost Value = { List ℕ };

    ghost view = { λ line. line.0.items };
}

impl TextLine {
    // Cuts the line at a column, and gives the rest. Fails only when memory runs out.
    fn cut(&mut self, column: usize) -> Result<TextLine, NoMemory>
        requires { column ≤ length self.old }
        ensures rest { IfOk result (λ rest. rest ≡ drop column self.old) }
        ensures ok { OnOk result (self.new ≡ take column self.old) }
        ensures err { OnErr result (self.new ≡ self.old) }
    {
        let rest = self.0.split_off(column)?;
        Ok(TextLine(rest))
    }

    // Inserts a part at a column. Fails only when memory runs out.
    fn insert(&mut self, column: usize, part: TextPart) -> Result<(), NoMemory>
        requires { column ≤ length self.old }
        ensures ok { OnOk result (self.new ≡ with_bytes self.old column (spelled part)) }
        ensures err { OnErr result (self.new ≡ self.old) }
    {
        match part {
            TextPart::Byte(byte) => {
                self.0.insert(column, byte)?;
                Ok(())
            }
            TextPart::Character(character) => {
                let mut buffer = [0; 4];
                self.insert_bytes(column, character.encode_utf8(&mut buffer).as_bytes())
            }
        }
    }

    // Inserts bytes at a column. Fails only when memory runs out.
    fn insert_bytes(&mut self, column: usize, bytes: &[u8]) -> Result<(), NoMemory>
        requires { column ≤ length self.old }
        ensures ok { OnOk result (self.new ≡ with_bytes self.old column bytes.now) }
        ensures err { OnErr result (self.new ≡ self.old) }
    {
        self.0.extend_from_slice(bytes)?;
        self.0[column..].rotate_right(bytes.len());
        Ok(())
    }

    // Removes so many bytes at a column.
    fn remove(&mut self, column: usize, count: usize)
        requires { column + count ≤ length self.old }
        ensures { self.new ≡ without_bytes self.old column count }
    {
        let left = self.0.len() - count;
        self.0[column..].rotate_left(count);
        self.0.truncate(left);
    }

    // Appends another line's bytes. Fails only when memory runs out.
    fn append(&mut self, other: &TextLine) -> Result<(), NoMemory>
        ensures ok { OnOk result (self.new ≡ self.old ++ other.now) }
        ensures err { OnErr result (self.new ≡ self.old) }
    {
        self.0.extend_from_slice(&other.0)?;
        Ok(())
    }
}

// Lines in order.
#[derive(Drop)]
pub(crate) struct Lines(Vec<TextLine>);

impl Model for Lines {
    ghost use Rattle.std.specs.Prelude.{List, ℕ};

    ghost Value = { List (List ℕ) };

    ghost view = { λ lines. lines.0.items };
}

impl Lines {
    // One empty line. Fails only when memory runs out.
    pub(crate) fn new(alloc: Global) -> Result<Lines, NoMemory>
        ensures { IfOk result (λ lines. lines ≡ [] ∷ []) }
    {
        let mut lines = Vec::new(alloc);
        lines.push(TextLine(Vec::new(alloc)))?;
        Ok(Lines(lines))
    }

    // How many lines there are.
    pub(crate) fn count(&self) -> usize
        ensures { result ≡ length self.now }
    {
        self.0.len()
    }

    // A line; `None` past the last one.
    pub(crate) fn get(&self, line: usize) -> Option<&[u8]>
        ensures { option_map (λ bytes. bytes.now) result ≡ slice_get self.now line }
    {
        match self.0.get(line) {
            Some(line) => Some(line.0.as_slice()),
            None => None,
        }
    }

    // The length of a line; 0 past the last one.
    pub(crate) fn length_of(&self, line: usize) -> usize
        ensures { result ≡ length (line_at self.now line) }
    {
        match self.0.get(line) {
            Some(line) => line.0.len(),
            None => 0,
        }
    }

    // Whether a place is in these lines.
    pub(crate) fn is_inside(&self, place: TextPlace) -> bool
        ensures { result ≡ is_inside self.now place }
    {
        place.line < self.count() && place.column <= self.length_of(place.line)
    }

    // The lines of a file with these bytes. Fails only when memory runs out.
    pub(crate) fn read(alloc: Global, bytes: &[u8]) -> Result<Lines, NoMemory>
        ensures { IfOk result (λ lines. lines ≡ slice_split (λ byte. byte == 10) bytes.now) }
    {
        let mut lines = Vec::new(alloc);
        for line in bytes.split(|byte| *byte == LINE_FEED) {
            lines.push(TextLine(Vec::from_slice(alloc, line)?))?;
        }
        Ok(Lines(lines))
    }

    // The bytes of a file with these lines. Fails only when memory runs out.
    pub(crate) fn bytes(&self, alloc: Global) -> Result<Vec<u8>, NoMemory>
        ensures { IfOk result (λ bytes. bytes.items ≡ bytes_of self.now) }
    {
        let Some((first, rest)) = self.0.split_first() else {
            return Ok(Vec::new(alloc));
        };
        let first: &TextLine = first;
        let mut bytes = Vec::from_slice(alloc, &first.0)?;
        append_lines(&mut bytes, rest)?;
        Ok(bytes)
    }

    // The part at a place in these lines.
    pub(crate) fn part_at(&self, place: TextPlace) -> Option<TextPart>
        requires line { place.line < length self.now }
        requires column { place.column ≤ length (line_at self.now place.line) }
        ensures { IsPartAt self.now place result }
    {
        let count = self.count();
        let line = self.bytes_of(place.line);
        if place.column < line.len() {
            return first_part(&line[place.column..]);
        }
        if place.line + 1 < count {
            Some(TextPart::Byte(LINE_FEED))
        } else {
            None
        }
    }

    // The part before a place in these lines.
    pub(crate) fn part_before(&self, place: TextPlace) -> Option<TextPart>
        requires line { place.line < length self.now }
        requires column { place.column ≤ length (line_at self.now place.line) }
        ensures { IsPartBefore self.now place result }
    {
        if place.column > 0 {
            return last_part(&self.bytes_of(place.line)[..place.column]);
        }
        if place.line > 0 {
            Some(TextPart::Byte(LINE_FEED))
        } else {
            None
        }
    }

    // The bytes of a line; none past the last one.
    pub(crate) fn bytes_of(&self, line: usize) -> &[u8]
        ensures { result.now ≡ line_at self.now line }
    {
        match self.0.get(line) {
            Some(line) => line.0.as_slice(),
            None => &[],
        }
    }

    // Deletes the part at a place, and gives the edit that this was. Fails only when memory runs out.
    pub(crate) fn delete(&mut self, place: TextPlace, part: TextPart) -> Result<Edit, NoMemory>
        requires line { place.line < length self.old }
        requires column { place.column ≤ length (line_at self.old place.line) }
        requires part { IsPartAt self.old place (Some part) }
        ensures ok { OnOk result (self.new ≡ deleted self.old place part) }
        ensures edit { IfOk result (λ edit. Undoes edit place self.old self.new) }
        ensures err { OnErr result (self.new ≡ self.old) }
    {
        if place.column < self.length_of(place.line) {
            self.remove(place, part.len());
            return Ok(Edit::Deleted(place, part));
        }
        self.join(place.line)?;
        Ok(Edit::Joined(place))
    }

    // Undoes the last edit that was made. Fails only when memory runs out.
    pub(crate) fn undo(&mut self, edit: Edit) -> Result<(), NoMemory>
        requires { CanUndo edit self.old }
        ensures ok { OnOk result (self.new ≡ undone edit self.old) }
        ensures err { OnErr result (self.new ≡ self.old) }
    {
        match edit {
            Edit::Inserted(place, part) => {
                self.remove(place, part.len());
                Ok(())
            }
            Edit::Deleted(place, part) => self.insert(place, part),
            Edit::Split(place) => self.join(place.line),
            Edit::Joined(place) => self.split(place),
        }
    }

    // Inserts a part at a place. Fails only when memory runs out.
    pub(crate) fn insert(&mut self, place: TextPlace, part: TextPart) -> Result<(), NoMemory>
        requires line { place.line < length self.old }
        requires column { place.column ≤ length (line_at self.old place.line) }
        ensures ok { OnOk result (self.new ≡ inserted self.old place (spelled part)) }
        ensures err { OnErr result (self.new ≡ self.old) }
    {
        self.0[place.line].insert(place.column, part)
    }

    // Removes so many bytes at a place.
    pub(crate) fn remove(&mut self, place: TextPlace, count: usize)
        requires line { place.line < length self.old }
        requires column { place.column + count ≤ length (line_at self.old place.line) }
        ensures { self.new ≡ removed self.old place count }
    {
        self.0[place.line].remove(place.column, count);
    }

    // Splits a line at a place. Fails only when memory runs out.
    pub(crate) fn split(&mut self, place: TextPlace) -> Result<(), NoMemory>
        requires line { place.line < length self.old }
        requires column { place.column ≤ length (line_at self.old place.line) }
        ensures ok { OnOk result (self.new ≡ split_at self.old place) }
        ensures err { OnErr result (self.new ≡ self.old) }
    {
        self.0.reserve(1)?;
        let rest = self.0[place.line].cut(place.column)?;
        self.0.insert(place.line + 1, rest)?;
        Ok(())
    }

    // Joins the next line to a line. Fails only when memory runs out.
    pub(crate) fn join(&mut self, line: usize) -> Result<(), NoMemory>
        requires { suc line < length self.old }
        ensures ok { OnOk result (self.new ≡ joined self.old line) }
        ensures err { OnErr result (self.new ≡ self.old) }
    {
        append_next(&mut self.0, line)?;
        let _ = self.0.remove(line + 1);
        Ok(())
    }
}

// Appends the bytes of the next line to a line. Fails only when memory runs out.
fn append_next(lines: &mut [TextLine], line: usize) -> Result<(), NoMemory>
    requires { suc line < length lines.old }
    ensures ok { OnOk result (lines.new ≡ slice_set lines.old line (line_at lines.old line ++ line_at lines.old (suc line))) }
    ensures err { OnErr result (lines.new ≡ lines.old) }
{
    let (front, back) = lines.split_at_mut(line + 1);
    front[line].append(&back[0])?;
    Ok(())
}

// Appends lines, each after a line feed. Fails only when memory runs out.
fn append_lines(bytes: &mut Vec<u8>, lines: &[TextLine]) -> Result<(), NoMemory>
    ensures { OnOk result (bytes.new.items ≡ bytes.old.items ++ flat_map (λ line. 10 ∷ line) lines.now) }
{
    for line in lines {
        bytes.push(LINE_FEED)?;
        bytes.extend_from_slice(&line.0)?;
    }
    Ok(())
}
