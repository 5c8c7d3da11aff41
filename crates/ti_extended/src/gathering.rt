//! Reading the fields of a source that `tic -x` takes besides those that the table has, entry by
//! entry.

use crate::additions::{Addition, Owner, addition_of, name_of, text_of};
use crate::carets::{CaretNote, has_caret};
use std::alloc::{AllocError, Global};
use ti_caps::{cut_name, has_no_blank};
use ti_source::{Cause, Lines, Notes, SourceFault, SourceLine, split_field};

/// No note, no entry.
pub(crate) const NONE: u32 = u32::MAX;

/// A field that gives a capability a value.
#[derive(Clone, Copy)]
pub(crate) struct Field<'a> {
    pub(crate) text: &'a [u8],
    /// A number that fields of the same name have, and no others.
    pub(crate) key: u32,
    /// The index of the note on it, which counts only where the field is repeated or its number is
    /// too great.
    pub(crate) note: u32,
}

/// Where the fields and the uses of an entry end among those of all.
#[derive(Clone, Copy)]
pub(crate) struct Ends {
    pub(crate) fields: u32,
    pub(crate) uses: u32,
}

/// A reference name and the index of its entry.
#[derive(Clone, Copy)]
struct Reference<'a> {
    name: &'a [u8],
    entry: u32,
}

/// The fields of a source, entry by entry.
#[derive(Drop)]
pub(crate) struct Gathered<'a> {
    pub(crate) fields: Vec<Field<'a>>,
    /// The names of the used entries.
    uses: Vec<&'a [u8]>,
    pub(crate) ends: Vec<Ends>,
    references: Vec<Reference<'a>>,
    /// For each note what is doubtful, if anything is with all names known.
    pub(crate) causes: Vec<Option<Cause>>,
    /// The notes on texts with an unescaped `%^`.
    pub(crate) carets: Vec<CaretNote<'a>>,
}

impl<'a> Gathered<'a> {
    /// The fields of a source that was read with these notes. Refused with `BadNumber` where a
    /// capability that the table does not have is given a number that is none.
    pub(crate) fn read(
        alloc: Global,
        bytes: &'a [u8],
        notes: &Notes,
    ) -> Result<Gathered<'a>, SourceFault> {
        let mut gathered = Gathered {
            fields: Vec::new(alloc),
            uses: Vec::new(alloc),
            ends: Vec::new(alloc),
            references: Vec::new(alloc),
            causes: Vec::new(alloc),
            carets: Vec::new(alloc),
        };
        let mut lines = Lines::new(bytes);
        while let Some((number, line)) = lines.next() {
            gathered.add_line(number, line, notes)?;
        }
        gathered.add_end()?;
        gathered.put_keys(alloc)?;
        gathered.sort_references();
        Ok(gathered)
    }

    fn add_line(
        &mut self,
        number: u32,
        line: SourceLine<'a>,
        notes: &Notes,
    ) -> Result<(), SourceFault> {
        match line {
            SourceLine::NonAscii => Ok(()),
            SourceLine::Continues(text) => self.add_fields(number, text, notes),
            SourceLine::Begins(names, text) => {
                self.add_names(names)?;
                self.add_fields(number, text, notes)
            }
        }
    }

    // Begins an entry.
    fn add_names(&mut self, names: &'a [u8]) -> Result<(), AllocError> {
        if !self.references.is_empty() {
            self.add_end()?;
        }
        let entry = narrow(self.ends.len());
        let mut rest = names;
        loop {
            let (name, after) = cut_name(rest);
            if has_no_blank(name) {
                self.references.push(Reference { name, entry })?;
            }
            match after {
                Some(more) => rest = more,
                None => return Ok(()),
            }
        }
    }

    // Ends the last entry.
    fn add_end(&mut self) -> Result<(), AllocError> {
        let ends = Ends {
            fields: narrow(self.fields.len()),
            uses: narrow(self.uses.len()),
        };
        self.ends.push(ends)?;
        Ok(())
    }

    fn add_fields(&mut self, line: u32, text: &'a [u8], notes: &Notes) -> Result<(), SourceFault> {
        let mut rest = text;
        loop {
            let (field, after) = split_field(rest);
            self.add_field(line, field, notes)?;
            match after {
                Some(more) => rest = more,
                None => return Ok(()),
            }
        }
    }

    fn add_field(&mut self, line: u32, field: &'a [u8], notes: &Notes) -> Result<(), SourceFault> {
        self.add_addition(line, field, notes)?;
        Ok(self.add_caret(line, field)?)
    }

    fn add_addition(
        &mut self,
        line: u32,
        field: &'a [u8],
        notes: &Notes,
    ) -> Result<(), SourceFault> {
        match addition_of(field) {
            Addition::Nothing => Ok(()),
            Addition::Doubtful(name, cause) => Ok(self.put_cause(line, name, notes, Some(cause))?),
            Addition::Known(name) => Ok(self.keep_note(line, name, notes)?),
            Addition::Numberless => Err(SourceFault::BadNumber(line)),
            Addition::Uses(other) => {
                self.uses.push(other)?;
                Ok(())
            }
            Addition::Gives(name, Owner::Table(_, _), _, great) => {
                self.keep_number_note(line, name, notes, great)?;
                Ok(self.push(field, NONE)?)
            }
            Addition::Gives(name, _, _, _) => {
                let note = self.next_note(line, name, notes);
                self.put_cause(line, name, notes, None)?;
                Ok(self.push(field, note)?)
            }
        }
    }

    // Adds a note on a field, if it gives a text with an unescaped `%^`.
    fn add_caret(&mut self, line: u32, field: &'a [u8]) -> Result<(), AllocError> {
        if !has_caret(field) {
            return Ok(());
        }
        if let Some((name, text)) = text_of(field)
            && has_caret(text)
        {
            let earlier = self.causes.len();
            self.carets.push(CaretNote {
                line,
                name,
                earlier,
            })?;
        }
        Ok(())
    }

    fn push(&mut self, text: &'a [u8], note: u32) -> Result<(), AllocError> {
        self.fields.push(Field {
            text,
            key: NONE,
            note,
        })?;
        Ok(())
    }

    // The index of the note on a field; `NONE` if there is none.
    fn next_note(&self, line: u32, name: &[u8], notes: &Notes) -> u32 {
        if self.is_noted(line, name, notes) {
            return narrow(self.causes.len());
        }
        NONE
    }

    // Whether the next note is on the field of this name on a line.
    fn is_noted(&self, line: u32, name: &[u8], notes: &Notes) -> bool {
        let next = self.causes.len();
        if next >= notes.len() {
            return false;
        }
        let note = notes.at(next);
        note.line == line && note.name == name
    }

    // Says what is doubtful in a field, if there is a note on it.
    fn put_cause(
        &mut self,
        line: u32,
        name: &[u8],
        notes: &Notes,
        cause: Option<Cause>,
    ) -> Result<(), AllocError> {
        if self.is_noted(line, name, notes) {
            self.causes.push(cause)?;
        }
        Ok(())
    }

    // Leaves the note on a field as it is, if there is one.
    fn keep_note(&mut self, line: u32, name: &[u8], notes: &Notes) -> Result<(), AllocError> {
        let next = self.causes.len();
        if next < notes.len() && self.is_noted(line, name, notes) {
            let cause = notes.at(next).cause;
            self.causes.push(Some(cause))?;
        }
        Ok(())
    }

    // The same for a number of the table, which is not too great unless it is above 2,147,483,647.
    // A note that it is repeated may be one on a later field of the line, and stays as well.
    fn keep_number_note(
        &mut self,
        line: u32,
        name: &[u8],
        notes: &Notes,
        great: bool,
    ) -> Result<(), AllocError> {
        let next = self.causes.len();
        if next < notes.len() && self.is_noted(line, name, notes) {
            match notes.at(next).cause {
                Cause::TooGreat if great => self.causes.push(Some(Cause::TooGreat))?,
                Cause::TooGreat => self.causes.push(None)?,
                Cause::Repeated => self.causes.push(Some(Cause::Repeated))?,
                Cause::Unknown | Cause::WrongKind => {}
            }
        }
        Ok(())
    }

    // Gives each field the number of its name.
    fn put_keys(&mut self, alloc: Global) -> Result<(), AllocError> {
        let mut order = Vec::with_capacity(alloc, self.fields.len())?;
        for i in 0..self.fields.len() {
            order.push(narrow(i))?;
        }
        let fields = self.fields.as_slice();
        order.sort_unstable_by(|a, b| name_at(fields, *a).cmp(name_at(fields, *b)));
        let mut key = 0u32;
        for (i, field) in order.iter().enumerate() {
            let before = match i.checked_sub(1) {
                Some(before) => order.get(before).copied(),
                None => None,
            };
            if let Some(before) = before
                && name_at(&self.fields, before) != name_at(&self.fields, *field)
            {
                key = key.saturating_add(1);
            }
            if let Some(keyed) = self.fields.get_mut(*field as usize) {
                keyed.key = key;
            }
        }
        Ok(())
    }

    fn sort_references(&mut self) {
        self.references.sort_unstable_by(|a, b| a.name.cmp(b.name));
    }

    /// For each use the index of the entry that it names; `NONE` if there is none.
    pub(crate) fn used(&self, alloc: Global) -> Result<Vec<u32>, AllocError> {
        let mut used = Vec::with_capacity(alloc, self.uses.len())?;
        for name in &self.uses {
            used.push(self.index_of(name))?;
        }
        Ok(used)
    }

    fn index_of(&self, name: &[u8]) -> u32 {
        match self
            .references
            .binary_search_by(|reference| reference.name.cmp(name))
        {
            Ok(found) => match self.references.get(found) {
                Some(reference) => reference.entry,
                None => NONE,
            },
            Err(_) => NONE,
        }
    }
}

// The name of the field at an index.
fn name_at<'a>(fields: &[Field<'a>], i: u32) -> &'a [u8] {
    match fields.get(i as usize) {
        Some(field) => name_of(field.text),
        None => &[],
    }
}

/// A count as 32 bits: a source has at most 16 MB.
pub(crate) fn narrow(count: usize) -> u32 {
    u32::try_from(count).unwrap_or(NONE)
}
