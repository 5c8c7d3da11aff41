//! An entry that is being read, with the notes so far.

ghost use Rattle.std.specs.Prelude.{ℕ, List, ◌≡◌, ◌∷◌, [], ◌++◌, Ok, IfOk, length, nat_le, nat_lt, if◌then◌else◌};
ghost use Rattle.ti_source.specs.declared.faults.SourceFault.TheVariants.{TooManyUses};
ghost use Rattle.ti_source.specs.declared.reading.statement.FieldValue as stated;
ghost use Rattle.ti_source.specs.Described.{IsGood};
ghost use Rattle.ti_source.specs.Reading.Field as field;
ghost use Rattle.ti_source.specs.Reading.Field.{fields};
ghost use Rattle.ti_source.specs.Reading.Sources as source;
ghost use Rattle.ti_source.specs.Reading.Sources.{continuing, is_great, limited, meaning, note_on, numbered_fields, unless_faulty};
ghost use Rattle.ti_source.specs.Code.Lines.{EndsBlock};
ghost use Rattle.ti_source.specs.Code.OpenEntry.{Adds, AddsBlock, AddsMeant};
ghost use Rattle.ti_source.specs.Code.Seen.{capped, capped_value, seen_meaning, seen_value};
ghost use Rattle.ti_source.specs.Result.{Becomes};

use crate::faults::SourceFault;
use crate::note::Cause;
use crate::notes::Notes;
use crate::reading::escape::decode;
use crate::reading::field::{form_of, split_field};
use crate::reading::lines::Lines;
use crate::reading::meaning::{Meaning, WrittenValue, meaning_of};
use crate::reading::statement::{FieldValue, SourceEntry};
use std::alloc::{AllocError, Global};
use std::marker::Model;
use ti_caps::{Bytes, Kind, MOST_NUMBER, Slot};

/// The most uses that an entry may have.
const USES: usize = 32;

/// An entry that is being read, and the notes on it and on those before it.
#[derive(Drop)]
pub(crate) struct OpenEntry {
    pub(crate) entry: SourceEntry,
    pub(crate) notes: Notes,
}

impl Model for OpenEntry {
    ghost use Rattle.ti_source.specs.Code.OpenEntry.{OpenEntry};

    ghost Value = { OpenEntry };

    ghost view = { λ f. record { entry = f.entry; notes = f.notes } };
}

impl OpenEntry {
    /// Adds the fields of a text, which is part of the line with this number, and those of the lines
    /// that continue it.
    pub(crate) fn add_block(
        &mut self,
        alloc: Global,
        line: u32,
        text: &[u8],
        lines: &mut Lines<'_>,
    ) -> Result<(), SourceFault>
        ensures { AddsBlock (numbered_fields line (fields text.now)) self.old lines.old result self.new lines.new }
    {
        self.add_fields(alloc, line, text)?;
        while let Some((number, more)) = lines.next_fields() {
            self.add_fields(alloc, number, more)?;
        }
        Ok(())
    }

    /// Adds the fields of a text, which is part of the line with this number.
    fn add_fields(&mut self, alloc: Global, line: u32, text: &[u8]) -> Result<(), SourceFault>
        ensures { Adds (numbered_fields line (fields text.now)) self.old result self.new }
    {
        let mut rest = text;
        loop {
            let (field, after) = split_field(rest);
            self.add(alloc, line, meaning_of(form_of(field)))?;
            match after {
                Some(more) => rest = more,
                None => return Ok(()),
            }
        }
    }

    /// Adds a field by what it means: the first one about a capability counts.
    fn add(&mut self, alloc: Global, line: u32, meaning: Meaning<'_>) -> Result<(), SourceFault>
        ensures { (m : source.Meaning) → seen_meaning meaning.entry ≡ capped m → AddsMeant line m self.old result self.new }
    {
        match meaning {
            Meaning::Silent => Ok(()),
            Meaning::Doubtful(cause, name) => self.note(line, cause, name),
            Meaning::States(name, kind, slot, value) => {
                self.state(alloc, line, name, kind, slot, value)
            }
            Meaning::Numberless => Err(SourceFault::BadNumber(line)),
            Meaning::Uses(other) => self.add_use(alloc, other),
        }
    }

    fn note(&mut self, line: u32, cause: Cause, name: &[u8]) -> Result<(), SourceFault>
        ensures { Becomes result (Ok (record self.old { notes = self.old.notes ++ note_on line cause name.now })) self.new }
    {
        self.notes.push(line, cause, name)?;
        Ok(())
    }

    /// Adds a field that gives a capability a value, unless an earlier one is about it.
    fn state(
        &mut self,
        alloc: Global,
        line: u32,
        name: &[u8],
        kind: Kind,
        slot: Slot,
        value: WrittenValue<'_>,
    ) -> Result<(), SourceFault>
        ensures { (what : stated.FieldValue) → seen_value value.entry ≡ capped_value what → AddsMeant line (source.States name.now kind slot.0 what) self.old result self.new }
    {
        if self.entry.is_stated(kind, slot) {
            return self.note(line, Cause::Repeated, name);
        }
        self.put_value(alloc, kind, slot, value)?;
        if is_great(value) {
            return self.note(line, Cause::TooGreat, name);
        }
        Ok(())
    }

    fn put_value(
        &mut self,
        alloc: Global,
        kind: Kind,
        slot: Slot,
        value: WrittenValue<'_>,
    ) -> Result<(), SourceFault>
        ensures { Becomes result (Ok (record self.old { entry = record self.old.entry { statements = self.old.entry.statements ++ (record { kind = kind; slot = slot; field_value = limited (seen_value value.entry) }) ∷ [] } })) self.new }
    {
        let value = limited(alloc, value)?;
        self.entry.put_statement(kind, slot, value)
    }

    fn add_use(&mut self, alloc: Global, other: &[u8]) -> Result<(), SourceFault>
        ensures { Becomes result (unless_faulty (if nat_lt (length self.old.entry.uses) 32 then [] else TooManyUses ∷ []) (record self.old { entry = record self.old.entry { uses = self.old.entry.uses ++ other.now ∷ [] } })) self.new }
    {
        if self.entry.uses().len() >= USES {
            return Err(SourceFault::TooManyUses);
        }
        let other = Bytes(Vec::from_slice(alloc, other)?);
        self.entry.put_use(other)
    }
}

/// The value that a capability gets: a number above 32,767 is 32,767.
fn limited(alloc: Global, value: WrittenValue<'_>) -> Result<FieldValue, AllocError>
    ensures value { IfOk result (λ kept. kept ≡ limited (seen_value value.entry)) }
    ensures good { IfOk result IsGood }
{
    match value {
        WrittenValue::Present => Ok(FieldValue::Present),
        WrittenValue::Number(number) => Ok(FieldValue::Number(limited_number(number))),
        WrittenValue::Text(text) => Ok(FieldValue::Text(decode(alloc, text)?)),
        WrittenValue::Cancelled => Ok(FieldValue::Cancelled),
    }
}

fn limited_number(number: u32) -> u16
    ensures { result ≡ (if nat_le number 32767 then number else 32767) }
{
    if number <= u32::from(MOST_NUMBER) {
        return number as u16;
    }
    MOST_NUMBER
}

/// Whether it is a number above 32,767.
fn is_great(value: WrittenValue<'_>) -> bool
    ensures { result ≡ is_great (seen_value value.entry) }
{
    match value {
        WrittenValue::Number(number) => number > u32::from(MOST_NUMBER),
        _ => false,
    }
}
