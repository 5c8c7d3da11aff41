//! Entries whose first use has all that the others have.

ghost use Rattle.std.specs.Prelude.{◌≡◌, ◌<◌, ◌+◌, ◌≤◌, ◌∷◌, [], ◌++◌, List, Some, true, IfOk, IfSome, length, map};
ghost use Rattle.ti_source.specs.declared.reading.statement.Statement.{Statement};
ghost use Rattle.ti_source.specs.Resolving.Named.{index_of};
ghost use Rattle.ti_source.specs.Code.FirstFields.{IsIndex};
ghost use Rattle.ti_source.specs.Code.Leading.{AddNothing, AddSoFar, Covers, IsUseAt, Leads, is_stated};
ghost use Rattle.ti_source.specs.Code.EntryWalk.{AreKnown, Keeps};

use crate::ordinals::{ordinal, room};
use crate::reading::entries::Entries;
use crate::reading::entry_view::EntryView;
use crate::reading::statement::Statement;
use crate::resolving::fields::Fields;
use crate::resolving::first_fields::index_of;
use crate::resolving::listing::effective_at;
use crate::resolving::marks::Mark;
use std::alloc::{AllocError, Global};
use ti_caps::Bytes;

/// The index of the entry that has all fields that this one gets from its uses, which are resolved:
/// its only use, or the first of several; `None` if neither has.
pub(crate) fn leading_use<'a>(
    alloc: Global,
    entries: &'a Entries,
    marks: &[Mark],
    kept: &[Fields<'a>],
    entry: &EntryView<'a>,
) -> Result<Option<usize>, AllocError>
    requires known { AreKnown marks.now (map (index_of entries.now) entry.now.uses) }
    requires kept { Keeps entries.now marks.now kept.now }
    ensures { IfOk result (λ o. IfSome o (λ used. Leads entries.now entry.entry.now used)) }
{
    if let Some(other) = entry.single_use() {
        return Ok(entries.index_of(other));
    }
    let Some(used) = used_at(entries, entry.uses(), 0) else {
        return Ok(None);
    };
    let mut fields = Fields::new(alloc);
    fields.extend_from_slice(entry.statements())?;
    fields.extend(&effective_at(alloc, entries, marks, kept, used)?)?;
    if add_nothing(alloc, entries, marks, kept, entry.uses(), &fields)? {
        Ok(Some(used))
    } else {
        Ok(None)
    }
}

/// Whether the resolved entries of these uses from the second on have nothing that is not among
/// some fields.
fn add_nothing<'a>(
    alloc: Global,
    entries: &'a Entries,
    marks: &[Mark],
    kept: &[Fields<'a>],
    uses: &[Bytes],
    fields: &Fields<'a>,
) -> Result<bool, AllocError>
    requires first { AddSoFar entries.now uses.now 1 fields.now }
    requires known { AreKnown marks.now (map (index_of entries.now) uses.now) }
    requires kept { Keeps entries.now marks.now kept.now }
    ensures { IfOk result (λ b. b ≡ true → AddNothing entries.now uses.now fields.now) }
{
    let index = index_of(alloc, fields)?;
    for k in 1..uses.len() {
        let Some(used) = used_at(entries, uses, k) else {
            return Ok(false);
        };
        let more = effective_at(alloc, entries, marks, kept, used)?;
        if !covers(fields, &index, &more) {
            return Ok(false);
        }
    }
    Ok(true)
}

/// The index of the entry that the use with a number names.
fn used_at(entries: &Entries, uses: &[Bytes], k: usize) -> Option<usize>
    ensures { IfSome result (λ i. IsUseAt entries.now uses.now k i) }
{
    let other = uses.get(k)?;
    entries.index_of(other.0.as_slice())
}

/// Whether each of some more fields is about a capability that one of the first is about, which
/// have this index.
fn covers(fields: &Fields<'_>, index: &[Option<usize>], more: &Fields<'_>) -> bool
    requires { IsIndex fields.now index.now }
    ensures { result ≡ true → Covers fields.now more.now }
{
    for i in 0..more.len() {
        if !is_stated(index, fields.len(), more.at(i)) {
            return false;
        }
    }
    true
}

/// Whether one of so many fields is about the capability of a field.
fn is_stated(index: &[Option<usize>], count: usize, field: &Statement) -> bool
    requires { length index.now ≡ 640 }
    ensures { result ≡ is_stated index.now count field.now }
{
    if field.slot.0 >= room(field.kind) {
        return false;
    }
    match index[ordinal(field.kind, field.slot)] {
        Some(first) => first < count,
        None => false,
    }
}
