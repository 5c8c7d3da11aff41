//! A source that was read: its entries and notes.

ghost use Rattle.std.specs.Prelude.{None, List, ℕ, ◌≡◌, ◌<◌, ◌↔◌, IfSome, IsTrue, length, true};
ghost use Rattle.std.specs.Prelude.{slice_get, map, Some};
ghost use Rattle.ti_caps.specs.Names.{are_names, first_name};
ghost use Rattle.ti_source.specs.Resolving.Passing.{IsPassedOn};

use crate::note::Note;
use crate::reading::entries::Entries;
use std::fmt;
use std::marker::Model;
use ti_caps::first_name;

/// The entries of a source (terminfo(5)), in order, and the notes on its doubtful fields.
#[derive(Drop)]
pub struct Source {
    entries: Entries,
    notes: Vec<Note>,
}

impl Model for Source {
    ghost use Rattle.ti_source.specs.Reading.Sources.{Whole};

    ghost Value = { Whole };

    ghost view = { λ s. record { entries = s.entries; notes = s.notes.items } };
}

// The parts of a source are private.
impl fmt::Debug for Source {
    fn fmt<W: fmt::Write>(&self, f: &mut fmt::Formatter<W>) -> fmt::Result {
        f.write_str("Source")
    }
}

impl Source {
    pub(crate) fn new(entries: Entries, notes: Vec<Note>) -> Source
        ensures { result ≡ record { entries = entries; notes = notes.items } }
    {
        Source { entries, notes }
    }

    /// The notes, in the order of the fields.
    pub fn notes(&self) -> &[Note]
        ensures { result.now ≡ self.now.notes }
    {
        self.notes.as_slice()
    }

    /// The notes alone, in the same order.
    pub fn into_notes(self) -> Vec<Note>
        ensures { result.items ≡ self.notes }
    {
        let Source { entries: _, notes } = self;
        notes
    }

    /// The number of entries.
    pub fn len(&self) -> usize
        ensures { result ≡ length self.now.entries }
    {
        self.entries.len()
    }

    /// Whether there are no entries.
    pub fn is_empty(&self) -> bool
        ensures { IsTrue result ↔ (length self.now.entries ≡ 0) }
    {
        self.entries.len() == 0
    }

    /// The first reference name of the entry at index `i`, which is less than `len()`: the name by
    /// which it is listed.
    pub fn name(&self, i: usize) -> &[u8]
        requires { i < length self.now.entries }
        ensures { slice_get (map (λ e. first_name e.names) self.now.entries) i ≡ Some result.now }
    {
        first_name(self.entries.at(i).names())
    }

    /// For the entry with this name, if it has no fields of its own and exactly one use: its names,
    /// and the name that it uses. `None` for any other entry, and if no entry has the name.
    pub fn passed_on(&self, name: &[u8]) -> Option<(&[u8], &[u8])>
        ensures passes { IfSome result (λ r. IsPassedOn self.now.entries name.now r.0.now r.1.now) }
        ensures named { IfSome result (λ r. are_names r.0.now ≡ true) }
        ensures others { result ≡ None → (own other : List ℕ) → IsPassedOn self.now.entries name.now own other → ⊥ }
    {
        let i = self.entries.index_of(name)?;
        let entry = self.entries.at(i);
        Some((entry.names(), entry.only_use()?))
    }

    pub(crate) fn entries(&self) -> &Entries
        ensures { result.now ≡ self.now.entries }
    {
        &self.entries
    }
}
