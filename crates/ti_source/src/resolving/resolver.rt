//! Resolving entries by name.

ghost use Rattle.std.specs.Prelude.{◌≡◌, [], Err, IfErr, IfOk, IfSome, IsOkUnless, false};
ghost use Rattle.std.specs.List.{list_any};
ghost use Rattle.ti_caps.specs.Description.{Description};
ghost use Rattle.ti_source.specs.Resolving.Uses.{FaultOnce, ResolveOnce, ResolveOrFault, Resolved, StandsAlone, Unresolved, merged};
ghost use Rattle.ti_source.specs.Resolving.Named.{has_name};
ghost use Rattle.ti_source.specs.Resolving.Passing.{PassBack, PassOn};
ghost use Rattle.ti_source.specs.Result.{Stops};
ghost use Rattle.ti_source.specs.Code.EntryWalk.{FaultAt, ResolvedAt};

use crate::faults::SourceFault;
use crate::reading::entries::Entries;
use crate::reading::entry_view::EntryView;
use crate::resolving::fields::Fields;
use crate::resolving::merge::merge;
use crate::resolving::walk::EntryWalk;
use crate::source::Source;
use std::alloc::Global;
use std::marker::Model;
use ti_caps::Entry;

/// Resolves names of one source, one after another (terminfo(5), "Similar Terminals"). Contracts
/// see the source's entries.
///
/// An entry that others use is followed once: how its fields are listed is kept, or its error. The
/// list itself is kept only where making it again would be much work.
#[derive(Drop)]
pub struct Resolver<'a> {
    entries: &'a Entries,
    /// `None` until an entry with uses is followed.
    walk: Option<EntryWalk<'a>>,
}

impl<'a> Model for Resolver<'a> {
    ghost use Rattle.std.specs.Prelude.{List, IfSome};
    ghost use Rattle.ti_source.specs.Described.{Described};
    ghost use Rattle.ti_source.specs.Code.EntryWalk.{IsReady};

    ghost Value = { List Described };

    ghost view = { λ r. r.entries.now };

    ghost invariant = { λ r. IfSome r.walk (λ w. IsReady r.entries.now w) };
}

impl<'a> Resolver<'a> {
    /// A resolver for the names of a source.
    pub fn new(source: &'a Source) -> Resolver<'a>
        ensures { result ≡ source.entry.now.entries }
    {
        Resolver {
            entries: source.entries(),
            walk: None,
        }
    }

    /// The entry with this name, its uses resolved, as `resolve` gives it, whatever was asked
    /// before. It has the same refusals: `UnknownName`, `UseCycle`, `NoMemory`.
    pub fn resolve(&mut self, alloc: Global, name: &[u8]) -> Result<Entry, SourceFault>
        ensures same { self.new ≡ self.old }
        ensures ok { IfOk result (λ e. Resolved self.old name.now e) }
        ensures err { IfErr result (λ f. Stops f (Unresolved self.old name.now f)) }
        ensures good { (d : Description) → Resolved self.old name.now d → IsOkUnless result SourceFault.NoMemory }
        ensures unknown { list_any (has_name name.now) self.old ≡ false → result ≡ Err SourceFault.UnknownName }
    {
        let index = self.entries.index_of(name);
        if index.is_none() {
            return Err(SourceFault::UnknownName);
        }
        self.resolved_at(alloc, index)
    }

    fn resolved_at(&mut self, alloc: Global, index: Option<usize>) -> Result<Entry, SourceFault>
        ensures same { self.new ≡ self.old }
        ensures ok { IfOk result (λ e. ResolvedAt self.old index e) }
        ensures err { IfErr result (λ f. Stops f (FaultAt self.old [] index f)) }
    {
        let entries = self.entries;
        if let Some(entry) = without_uses(entries, index) {
            return alone(alloc, &entry);
        }
        let mut walk = match self.walk.take() {
            Some(walk) => walk,
            None => EntryWalk::new(alloc, entries)?,
        };
        let entry = walk.resolved(alloc, entries, index);
        self.walk = Some(walk);
        entry
    }
}

/// The entry with this name, its uses resolved (terminfo(5), "Similar Terminals"): for each
/// capability its own field, present or cancelled, otherwise the first `use=` whose resolved entry
/// has it present. A used entry is resolved on its own, completely before the next one, and passes
/// on no cancellation.
///
/// The error is the first from left to right. `UnknownName`: no entry has the name, or one that is
/// used. `UseCycle`: a use leads back to an entry on its own chain. `NoMemory`: memory ran out,
/// which cannot happen for a name that no entry has.
///
/// To resolve many names of one source, use a `Resolver`.
pub fn resolve(alloc: Global, source: &Source, name: &[u8]) -> Result<Entry, SourceFault>
    ensures ok { IfOk result (λ e. Resolved source.now.entries name.now e) }
    ensures err { IfErr result (λ f. Stops f (Unresolved source.now.entries name.now f)) }
    ensures good { (d : Description) → Resolved source.now.entries name.now d → IsOkUnless result SourceFault.NoMemory }
    ensures unknown { list_any (has_name name.now) source.now.entries ≡ false → result ≡ Err SourceFault.UnknownName }
{
    Resolver::new(source).resolve(alloc, name)
}

/// Law: a name resolves to at most one entry.
pub fn names_resolve_once()
    ensures { ResolveOnce }
{}

/// Law: a name has at most one error, the first from left to right.
pub fn names_have_one_fault()
    ensures { FaultOnce }
{}

/// Law: a name that resolves has no error.
pub fn resolved_names_have_no_fault()
    ensures { ResolveOrFault }
{}

/// Laws of an entry that has no fields of its own and exactly one use: it resolves to what the used
/// entry resolves to, with its own names; and if it resolves, so does the used entry.
pub fn entries_pass_on()
    ensures on { PassOn }
    ensures back { PassBack }
{}

/// The entry at an index, if it uses no other.
fn without_uses(entries: &Entries, index: Option<usize>) -> Option<EntryView<'_>>
    ensures { IfSome result (λ e. StandsAlone entries.now index e) }
{
    let i = index?;
    if i >= entries.len() {
        return None;
    }
    let entry = entries.at(i);
    if entry.uses().is_empty() {
        Some(entry)
    } else {
        None
    }
}

/// An entry that uses no other, resolved.
fn alone(alloc: Global, entry: &EntryView<'_>) -> Result<Entry, SourceFault>
    ensures ok { IfOk result (λ e. e ≡ merged entry.now []) }
    ensures err { IfErr result (λ f. f ≡ SourceFault.NoMemory) }
{
    let mut fields = Fields::new(alloc);
    fields.extend_from_slice(entry.statements())?;
    merge(alloc, entry.names(), &fields)
}
