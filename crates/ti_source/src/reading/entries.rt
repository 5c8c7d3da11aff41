//! The entries of a source, by index and by reference name.

ghost use Rattle.std.specs.Prelude.{◌≡◌, ◌<◌, ◌∷◌, [], ◌++◌, Ok, Some, IfOk, OnOk, ℕ, List, length, slice_get};
ghost use Rattle.std.specs.List.{list_any};
ghost use Rattle.ti_caps.specs.Names.{alternatives};
ghost use Rattle.ti_caps.specs.Table.{or_else};
ghost use Rattle.ti_source.specs.Resolving.Named.{has_name, named, index_of, indexed};
ghost use Rattle.ti_source.specs.Reading.Sources.{is_taken};
ghost use Rattle.ti_source.specs.Result.{Gives};

use crate::faults::SourceFault;
use crate::packed_lists::PackedLists;
use crate::reading::entry_view::EntryView;
use crate::reading::keyed_hasher::KeyedHasher;
use crate::reading::statement::{SourceEntry, Statement};
use crate::reading::wanted::Wanted;
use indexmap::IndexMap;
use smallvec::SmallVec;
use std::alloc::{AllocError, Global};
use std::marker::Model;
use ti_caps::{Bytes, cut_name, has_no_blank};

/// Names that need no allocation up to this length.
type Names = SmallVec<u8, 16>;

/// Entries in order, each of which can be found by its reference names. A source may have very many
/// entries with little in each, so the names, the statements and the uses of all are three lists.
#[derive(Drop)]
pub(crate) struct Entries {
    names: PackedLists<u8>,
    statements: PackedLists<Statement>,
    uses: PackedLists<Bytes>,
    indices: IndexMap<Names, u32, KeyedHasher>,
}

impl Model for Entries {
    ghost use Rattle.std.specs.Prelude.{List};
    ghost use Rattle.ti_source.specs.Described.{Described};
    ghost use Rattle.ti_source.specs.Code.Kept.{AreKept, described_of};
    ghost use Rattle.ti_source.specs.Resolving.Named.{AreIndexed};

    ghost Value = { List Described };

    ghost view = { λ e. described_of e.names e.statements e.uses };

    ghost invariant = { λ e. AreKept e.names e.statements e.uses × AreIndexed (λ k. k.items) e.indices.entries (described_of e.names e.statements e.uses) };
}

impl Entries {
    pub(crate) fn new(alloc: Global, hasher: KeyedHasher) -> Entries
        ensures { result ≡ [] }
    {
        Entries {
            names: PackedLists::new(alloc),
            statements: PackedLists::new(alloc),
            uses: PackedLists::new(alloc),
            indices: IndexMap::with_hasher(alloc, hasher),
        }
    }

    /// These entries with one more at the end.
    pub(crate) fn with_entry(
        self,
        alloc: Global,
        entry: SourceEntry,
    ) -> Result<Entries, SourceFault>
        ensures { Gives result (Ok (self ++ entry ∷ [])) }
    {
        let Entries {
            names,
            statements,
            uses,
            mut indices,
        } = self;
        let (own_names, own_statements, own_uses) = entry.into_parts();
        put_names(alloc, &mut indices, &own_names, index_after(names.len())?)?;
        Ok(Entries {
            names: names.with(own_names)?,
            statements: statements.with(own_statements)?,
            uses: uses.with(own_uses)?,
            indices,
        })
    }

    /// The number of entries.
    pub(crate) fn len(&self) -> usize
        ensures { result ≡ length self.now }
    {
        self.names.len()
    }

    /// The entry at an index.
    pub(crate) fn at(&self, i: usize) -> EntryView<'_>
        requires { i < length self.now }
        ensures { slice_get self.now i ≡ Some result }
    {
        EntryView::new(self.names.at(i), self.statements.at(i), self.uses.at(i))
    }

    /// Whether any entry has one of these names as a reference name.
    pub(crate) fn has_any_name(&self, names: &[u8]) -> bool
        ensures { result ≡ is_taken names.now self.now }
    {
        let mut rest = names;
        loop {
            let (name, after) = cut_name(rest);
            if self.has_name(name) {
                return true;
            }
            match after {
                Some(more) => rest = more,
                None => return false,
            }
        }
    }

    /// The index of the first entry with this reference name.
    pub(crate) fn index_of(&self, name: &[u8]) -> Option<usize>
        ensures { result ≡ index_of self.now name.now }
    {
        match self.indices.get(Wanted(name)) {
            Some(index) => Some(*index as usize),
            None => None,
        }
    }

    /// Whether any entry has this reference name.
    fn has_name(&self, name: &[u8]) -> bool
        ensures { result ≡ list_any (has_name name.now) self.now }
    {
        self.indices.contains_key(Wanted(name))
    }
}

/// The index of an entry that `count` others precede. An index has 32 bits; an entry past that is
/// refused as if memory had run out.
fn index_after(count: usize) -> Result<u32, AllocError>
    ensures { IfOk result (λ index. index ≡ count) }
{
    match u32::try_from(count) {
        Ok(index) => Ok(index),
        Err(_) => Err(AllocError),
    }
}

/// Gives an index to a name, unless it has a blank or an index already.
fn put_name(
    alloc: Global,
    indices: &mut IndexMap<Names, u32, KeyedHasher>,
    name: &[u8],
    index: u32,
) -> Result<(), AllocError>
    ensures { OnOk result ((q : List ℕ) → indexed (λ k. k.items) indices.new.entries q
        ≡ or_else (indexed (λ k. k.items) indices.old.entries q) (named (name.now ∷ []) index q)) }
{
    if !has_no_blank(name) || indices.contains_key(Wanted(name)) {
        return Ok(());
    }
    indices.insert(SmallVec::from_slice(alloc, name)?, index)?;
    Ok(())
}

/// Gives an index to those of these names that are reference names and have none yet.
fn put_names(
    alloc: Global,
    indices: &mut IndexMap<Names, u32, KeyedHasher>,
    names: &[u8],
    index: u32,
) -> Result<(), AllocError>
    ensures { OnOk result ((q : List ℕ) → indexed (λ k. k.items) indices.new.entries q
        ≡ or_else (indexed (λ k. k.items) indices.old.entries q) (named (alternatives names.now) index q)) }
{
    let mut rest = names;
    loop {
        let (name, after) = cut_name(rest);
        put_name(alloc, indices, name, index)?;
        match after {
            Some(more) => rest = more,
            None => return Ok(()),
        }
    }
}
