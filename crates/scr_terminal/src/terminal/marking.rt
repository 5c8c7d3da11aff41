//! Operations that are executed on an emulated terminal, with the places marked that they change.
ghost use Rattle.std.specs.Prelude.{◌≡◌, ◌≢◌, ◌<◌, ◌≤◌, ◌↔◌, ℕ, IsOk, IsTrue, Some, is_some, length, option_map, take, true};
ghost use Rattle.std.specs.List.{list_all};
ghost use Rattle.std.specs.Option.{ForSome};
ghost use Rattle.scr_cells.specs.Characters.{IsAscii, IsCharacter};
ghost use Rattle.scr_cells.specs.declared.charsets.Charset.TheVariants.{Utf8};
ghost use Rattle.scr_term.specs.Operations.Abilities.{full_abilities};
ghost use Rattle.scr_term.specs.Operations.States.{IsShownPen, IsSpot, character_repeated, character_written};
ghost use Rattle.scr_term.specs.Operations.Steps.{act, runs, step};
ghost use Rattle.scr_term.specs.Operations.Texts.{has};
ghost use Rattle.scr_term.specs.declared.operations.operation.Op.TheVariants.{Put, Write, Repeat};
ghost use Rattle.scr_terminal.specs.Characters.{characters_ahead, is_character_op};
ghost use Rattle.scr_terminal.specs.Code.Changes.{IsChange, changed};
ghost use Rattle.scr_terminal.specs.Code.Marking.{IsCopied, is_changed_by};
ghost use Rattle.scr_terminal.specs.Terminals.{gone_on};
ghost use Rattle.scr_terminal.specs.Marks.{AreOfSize, DifferInMarks, HasAdded, HasMarked};

use crate::changes::Change;
use crate::marks::Marks;
use crate::steps::change_of;
use crate::terminal::Terminal;
use crate::undefined::Undefined;
use scr_cells::{Look, Pen, grid_laws};
use scr_term::{Op, Profile, Spot};

impl Terminal {
    /// Does what an operation means, as `step`, and marks the places that it may change.
    pub fn mark_step(
        &mut self,
        profile: &Profile,
        op: Op,
        marks: &mut Marks,
    ) -> Result<(), Undefined>
        requires rows { profile.now.rows ≡ self.old.rows }
        requires columns { profile.now.columns ≡ self.old.columns }
        requires size { AreOfSize self.old.rows self.old.columns marks.old }
        ensures answer { IsOk result ↔ IsTrue (is_some (step profile.now self.old.state op)) }
        ensures state { self.new ≡ gone_on self.old (step profile.now self.old.state op) }
        ensures size { AreOfSize self.old.rows self.old.columns marks.new }
        ensures marks { HasMarked self.old.state.grid self.new.state.grid marks.old marks.new }
    {
        if !profile.has(op) {
            return Err(Undefined);
        }
        let is_defined = match op {
            Op::Put(byte) => self.mark_written(char::from(byte), marks),
            Op::Write(character) => self.mark_written(character, marks),
            Op::Repeat(byte, count) => self.mark_repeated(byte, count, marks),
            _ => self.mark_change(profile, op, marks),
        };
        if is_defined { Ok(()) } else { Err(Undefined) }
    }

    /// Writes the characters of ASCII that `ops` begins with, as `step_characters`, and marks their places.
    pub fn mark_characters(&mut self, profile: &Profile, ops: &[Op], marks: &mut Marks) -> usize
        requires columns { profile.now.columns ≡ self.old.columns }
        requires size { AreOfSize self.old.rows self.old.columns marks.old }
        ensures count { result ≡ characters_ahead self.old.columns self.old.state.spot ops.now }
        ensures inside { result ≤ length ops.now }
        ensures characters { list_all is_character_op (take result ops.now) ≡ true }
        ensures defined { is_some (runs profile.now self.old.state (take result ops.now)) ≡ true }
        ensures state { self.new ≡ gone_on self.old (runs profile.now self.old.state (take result ops.now)) }
        ensures size { AreOfSize self.old.rows self.old.columns marks.new }
        ensures marks { HasMarked self.old.state.grid self.new.state.grid marks.old marks.new }
    {
        let _before = self.size();
        let _marks = marks.size();
        let Spot::At(row, column) = self.spot() else {
            return 0;
        };
        let count = self.step_characters(profile, ops);
        if count > 0 {
            marks.mark(row, column, column + count as u32);
        }
        count
    }

    /// Puts the cursor at a spot of the screen, with this pen.
    pub fn resume(&mut self, spot: Spot, pen: Pen)
        requires spot { IsSpot self.old.rows self.old.columns spot }
        requires pen { IsShownPen (full_abilities Utf8 self.old.rows self.old.columns) pen }
        ensures { self.new ≡ record self.old { state = record self.old.state { spot = spot; pen = pen } } }
    {
        self.spot = spot;
        self.pen = pen;
    }

    /// Shows what another terminal shows that differs from this one in marked places alone.
    pub fn copy_marked(&mut self, other: &Terminal, marks: &Marks)
        requires rows { other.now.rows ≡ self.old.rows }
        requires columns { other.now.columns ≡ self.old.columns }
        requires size { AreOfSize self.old.rows self.old.columns marks.now }
        requires same { DifferInMarks marks.now self.old.state.grid other.now.state.grid }
        ensures { self.new ≡ record self.old { state = record self.old.state { grid = other.now.state.grid } } }
    {
        grid_laws::<Look>();
        let _other = other.size();
        let _before = self.size();
        let _marks = marks.size();
        let (first, end) = marks.rows();
        for row in first..end {
            self.copy_columns(other, row, marks.columns(row));
        }
        let _after = self.size();
    }

    // Shows what another terminal shows in columns of a row, from the first to the second.
    fn copy_columns(&mut self, other: &Terminal, row: u32, columns: (u32, u32))
        requires rows { other.now.rows ≡ self.old.rows }
        requires columns { other.now.columns ≡ self.old.columns }
        requires row { row < self.old.rows }
        requires end { columns.1 ≤ self.old.columns }
        ensures { IsCopied row columns.0 columns.1 self.old other.now self.new }
    {
        let _before = self.size();
        let end = columns.1;
        self.copy_part(other, row, columns.0.min(end), end);
    }

    // Shows what another terminal shows in columns `from..end` of a row.
    fn copy_part(&mut self, other: &Terminal, row: u32, from: u32, end: u32)
        requires rows { other.now.rows ≡ self.old.rows }
        requires columns { other.now.columns ≡ self.old.columns }
        requires row { row < self.old.rows }
        requires order { from ≤ end }
        requires end { end ≤ self.old.columns }
        ensures { IsCopied row from end self.old other.now self.new }
    {
        grid_laws::<Look>();
        let _other = other.size();
        let _before = self.size();
        self.grid.lay(row, from, other.grid.part(row, from, end));
    }

    // Writes a character and marks its place; at the margin it returns false and changes nothing.
    fn mark_written(&mut self, character: char, marks: &mut Marks) -> bool
        requires character { IsCharacter character }
        requires size { AreOfSize self.old.rows self.old.columns marks.old }
        ensures answer { result ≡ is_some (character_written self.old.columns self.old.state character) }
        ensures state { self.new ≡ gone_on self.old (character_written self.old.columns self.old.state character) }
        ensures size { AreOfSize self.old.rows self.old.columns marks.new }
        ensures marks { HasMarked self.old.state.grid self.new.state.grid marks.old marks.new }
    {
        grid_laws::<Look>();
        let _before = self.size();
        let _marks = marks.size();
        let Spot::At(row, column) = self.spot() else {
            return false;
        };
        marks.mark(row, column, column + 1);
        self.write(character)
    }

    // Writes a character several times and marks the rest of the row; if that is undefined, returns false and changes
    // nothing but marks.
    fn mark_repeated(&mut self, byte: u8, count: u32, marks: &mut Marks) -> bool
        requires character { IsAscii byte }
        requires few { count ≤ 500 }
        requires size { AreOfSize self.old.rows self.old.columns marks.old }
        ensures answer { result ≡ is_some (character_repeated self.old.columns self.old.state byte count) }
        ensures state { self.new ≡ gone_on self.old (character_repeated self.old.columns self.old.state byte count) }
        ensures size { AreOfSize self.old.rows self.old.columns marks.new }
        ensures marks { HasMarked self.old.state.grid self.new.state.grid marks.old marks.new }
    {
        grid_laws::<Look>();
        let size = self.size();
        let _marks = marks.size();
        if let Spot::At(row, column) = self.spot() {
            marks.mark(row, column, size.columns);
        }
        self.repeat(byte, count)
    }

    // Does what any other operation means and marks what it changes; if it is undefined, returns false and changes
    // nothing.
    fn mark_change(&mut self, profile: &Profile, op: Op, marks: &mut Marks) -> bool
        requires has { IsTrue (has profile.now op) }
        requires rows { profile.now.rows ≡ self.old.rows }
        requires columns { profile.now.columns ≡ self.old.columns }
        requires size { AreOfSize self.old.rows self.old.columns marks.old }
        requires one { (byte : ℕ) → op ≢ Put byte }
        requires written { (code : ℕ) → op ≢ Write code }
        requires several { (byte n : ℕ) → op ≢ Repeat byte n }
        ensures answer { result ≡ is_some (act profile.now self.old.state op) }
        ensures state { self.new ≡ gone_on self.old (act profile.now self.old.state op) }
        ensures size { AreOfSize self.old.rows self.old.columns marks.new }
        ensures marks { HasMarked self.old.state.grid self.new.state.grid marks.old marks.new }
    {
        grid_laws::<Look>();
        let _before = self.size();
        let Some(change) = change_of(profile, self.spot(), self.pen(), op) else {
            return false;
        };
        mark_changed(marks, &change);
        self.make(change);
        true
    }
}

// Marks the places that a change may change.
fn mark_changed(marks: &mut Marks, change: &Change)
    requires { IsChange marks.old.rows marks.old.columns change.now }
    ensures size { AreOfSize marks.old.rows marks.old.columns marks.new }
    ensures marks { HasAdded (is_changed_by marks.old.rows marks.old.columns change.now) marks.old marks.new }
{
    let size = marks.size();
    match *change {
        Change::Moved(_) | Change::Rendered(_) => {}
        Change::ErasedRun(row, from, end) => marks.mark(row, from, end),
        Change::ErasedFrom(row, _) | Change::LinesInserted(row, _) | Change::LinesDeleted(row, _) =>
            { marks.mark_rows(row, size.rows) }
        Change::ErasedAll | Change::Cleared => marks.mark_rows(0, size.rows),
        Change::CharactersInserted(row, column, _) | Change::CharactersDeleted(row, column, _) => {
            marks.mark(row, column, size.columns)
        }
    }
}
