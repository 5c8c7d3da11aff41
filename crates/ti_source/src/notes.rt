//! The notes on a source, kept in little room.

ghost use Rattle.std.specs.Prelude.{◌≡◌, ◌≤◌, ◌<◌, ◌+◌, ◌-◌, ◌∷◌, [], ◌++◌, Some, IfOk, IsTrue, ◌↔◌, OnErr, OnOk, length, take, drop, slice_get};
ghost use Rattle.ti_source.specs.Code.Notes.{start_of};

use crate::note::{Cause, Note};
use crate::packed_lists::{end_after, part};
use std::alloc::{AllocError, Global};
use std::marker::Model;
use ti_caps::Bytes;

/// A note without its name, and where the name ends among the names of all notes.
#[derive(Clone, Copy)]
pub(crate) struct NotePlace {
    line: u32,
    cause: Cause,
    end: u32,
}

/// Notes on doubtful fields, in the order of the fields. Contracts see the list of notes.
///
/// A source of doubtful fields alone has a note for every two bytes. A `Note` with its name takes
/// some 64 bytes; here one takes 12 and its name.
#[derive(Drop)]
pub struct Notes {
    places: Vec<NotePlace>,
    names: Vec<u8>,
}

impl Model for Notes {
    ghost use Rattle.std.specs.Prelude.{List, length};
    ghost use Rattle.ti_source.specs.declared.note.Note.{Note};
    ghost use Rattle.ti_source.specs.Code.Notes.{EndInOrder, notes_from};

    ghost Value = { List Note };

    ghost view = { λ n. notes_from 0 n.names.items n.places.items };

    ghost invariant = { λ n. EndInOrder 0 (length n.names.items) n.places.items };
}

/// A note whose name is lent.
#[derive(Clone, Copy)]
pub struct NoteView<'a> {
    /// The line of the field, counted from 1; 4,294,967,295 for every line from there on.
    pub line: u32,
    /// What is doubtful.
    pub cause: Cause,
    /// The name of the field, up to its first `#`, `=` or `@`.
    pub name: &'a [u8],
}

impl Notes {
    pub(crate) fn new(alloc: Global) -> Notes
        ensures { result ≡ [] }
    {
        Notes {
            places: Vec::new(alloc),
            names: Vec::new(alloc),
        }
    }

    /// Adds a note at the end.
    pub(crate) fn push(&mut self, line: u32, cause: Cause, name: &[u8]) -> Result<(), AllocError>
        ensures { OnOk result (self.new ≡ self.old ++ (record { line = line; cause = cause; name = name.now }) ∷ []) }
    {
        let start = self.names.len();
        let end = end_after(start, name.len())?;
        self.names.extend_from_slice(name)?;
        if self.places.push(NotePlace { line, cause, end }).is_err() {
            self.names.truncate(start);
            return Err(AllocError);
        }
        Ok(())
    }

    /// The number of notes.
    pub fn len(&self) -> usize
        ensures { result ≡ length self.now }
    {
        self.places.len()
    }

    /// Whether there are no notes.
    pub fn is_empty(&self) -> bool
        ensures { IsTrue result ↔ (length self.now ≡ 0) }
    {
        self.places.is_empty()
    }

    /// The note at index `i`, which is less than `len()`.
    pub fn at(&self, i: usize) -> NoteView<'_>
        requires { i < length self.now }
        ensures { slice_get self.now i ≡ Some (record { line = result.line; cause = result.cause; name = result.name.now }) }
    {
        let start = start_of(&self.places, i);
        let place = self.places[i];
        NoteView {
            line: place.line,
            cause: place.cause,
            name: part(&self.names, start, place.end as usize),
        }
    }

    /// The same notes, each with its own name.
    pub(crate) fn to_vec(&self, alloc: Global) -> Result<Vec<Note>, AllocError>
        ensures { IfOk result (λ notes. notes.items ≡ self.now) }
    {
        let mut notes = Vec::new(alloc);
        for i in 0..self.len() {
            let note = self.at(i);
            notes.push(Note {
                line: note.line,
                cause: note.cause,
                name: Bytes(Vec::from_slice(alloc, note.name)?),
            })?;
        }
        Ok(notes)
    }
}

/// Where the name of the note at index `i` begins.
fn start_of(places: &[NotePlace], i: usize) -> usize
    requires { i < length places.now }
    ensures { result ≡ start_of 0 i places.now }
{
    if i == 0 {
        return 0;
    }
    places[i - 1].end as usize
}
