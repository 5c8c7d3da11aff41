//! Listing the fields of resolved entries. Of most entries it is only kept how their fields are
//! listed, and in how many steps; where that would be very many, the list itself is kept.

ghost use Rattle.std.specs.Prelude.{◌≡◌, ◌≤◌, ◌<◌, ℕ, List, length, Some, true, IfOk, IfSome, OnOk, map, slice_get};
ghost use Rattle.ti_source.specs.declared.reading.statement.Statement.{Statement};
ghost use Rattle.ti_source.specs.Resolving.Named.{index_of};
ghost use Rattle.ti_source.specs.Code.Leading.{Leads};
ghost use Rattle.ti_source.specs.Code.EntryWalk.{Adds, AddsEffective, AddsGathered, AreBelow, AreKnown, IsBelow, IsLight, Keeps, IsLedOver, Lists, TakeEffect, known, steps_at};

use crate::reading::entries::Entries;
use crate::reading::entry_view::EntryView;
use crate::resolving::fields::Fields;
use crate::resolving::first_fields::effective_fields;
use crate::resolving::marks::{Mark, mark_at};
use std::alloc::{AllocError, Global};
use ti_caps::Bytes;

/// The fields of an entry are kept if it has more of its own than this, or if listing them takes
/// more steps than this. So an entry that uses 32 others, which takes 200 bytes of a source, has no
/// long lists to make; and of a chain of uses over an entry with many fields, only every fortieth
/// entry's are kept.
const MOST_OWN: u32 = 128;

const MOST_STEPS: u32 = 512;

/// The same once very many fields are kept, however many an entry has of its own: where all others
/// come from one use, and where they come from several.
const MOST_OF_ONE_USE: u32 = 4096;

const MOST_OF_SEVERAL: u32 = 32_768;

/// The steps that it takes to follow a use.
const STEPS_OF_USE: u32 = 4;

/// The steps that it takes to find an entry, and which of its fields take effect.
const STEPS_OF_SEVERAL: u32 = 200;

/// The mark of an entry whose uses are resolved, if its fields need not be kept. The entry at the
/// index `leading`, if there is one, has all fields that the entry gets from its uses. `full` says
/// whether very many fields are kept already.
pub(crate) fn light_mark(
    entries: &Entries,
    marks: &[Mark],
    kept: &[Fields<'_>],
    entry: &EntryView<'_>,
    leading: Option<usize>,
    full: bool,
) -> Option<Mark>
    requires known { AreKnown marks.now (map (index_of entries.now) entry.now.uses) }
    requires kept { Keeps entries.now marks.now kept.now }
    requires leads { IfSome leading (λ used. Leads entries.now entry.now used) }
    ensures { IfSome result (λ m. IsLight entries.now marks.now kept.now entry.now m) }
{
    let own = u32::try_from(entry.statements().len()).ok()?;
    if own > MOST_OWN && !full {
        return None;
    }
    match leading {
        Some(used) => over(marks, kept, led_to(entries, marks, kept, used), own, full),
        None => several(entries, marks, kept, entry.uses(), own, full),
    }
}

/// The mark of an entry with so many fields of its own, followed by those of the entry at an index.
fn over(marks: &[Mark], kept: &[Fields<'_>], next: usize, own: u32, full: bool) -> Option<Mark>
    ensures { IfSome result (λ m. (n : ℕ) × (m ≡ Mark.Over next n) × IsBelow marks.now (Some next) n) }
{
    let steps = steps_at(marks, kept, next)?;
    let all = steps.checked_add(STEPS_OF_USE)?.checked_add(own)?;
    if all > most(full, MOST_OF_ONE_USE) {
        return None;
    }
    Some(Mark::Over(u32::try_from(next).ok()?, all))
}

fn most(full: bool, when_full: u32) -> u32 {
    if full { when_full } else { MOST_STEPS }
}

/// The index of the entry from which the one at an index has all its fields; that index itself if
/// the entry has some of its own.
fn led_to(entries: &Entries, marks: &[Mark], kept: &[Fields<'_>], i: usize) -> usize
    requires { Keeps entries.now marks.now kept.now }
    ensures { (fields : List Statement) → Lists entries.now result fields → Lists entries.now i fields }
{
    match mark_at(marks, i) {
        Some(Mark::Over(next, _)) => led_over(entries, i, next),
        _ => i,
    }
}

fn led_over(entries: &Entries, i: usize, next: u32) -> usize
    requires { i < length entries.now }
    ensures { IsLedOver entries.now i next result }
{
    if entries.at(i).statements().is_empty() {
        next as usize
    } else {
        i
    }
}

/// The mark of an entry with so many fields of its own and these uses.
fn several(
    entries: &Entries,
    marks: &[Mark],
    kept: &[Fields<'_>],
    uses: &[Bytes],
    own: u32,
    full: bool,
) -> Option<Mark>
    ensures { IfSome result (λ m. (n : ℕ) × (m ≡ Mark.Done n) × AreBelow marks.now (map (index_of entries.now) uses.now) n) }
{
    let mut steps = 1u32;
    for other in uses {
        let used = entries.index_of(other.0.as_slice())?;
        let more = steps_at(marks, kept, used)?.checked_add(STEPS_OF_SEVERAL)?;
        steps = steps.checked_add(more)?;
    }
    let all = steps.checked_add(own)?;
    if all > most(full, MOST_OF_SEVERAL) {
        return None;
    }
    Some(Mark::Done(all))
}

/// The steps in which the fields of the entry at an index are listed; `None` if it is not resolved.
fn steps_at(marks: &[Mark], kept: &[Fields<'_>], i: usize) -> Option<u32>
    ensures { IfSome result (λ n. (m : ℕ) × (steps_at marks.now (Some i) ≡ Some m) × (m ≤ n)) }
{
    match mark_at(marks, i)? {
        Mark::Done(steps) => Some(steps),
        Mark::Over(_, steps) => Some(steps),
        Mark::Kept(position) => u32::try_from(kept.get(position)?.len()).ok(),
        _ => None,
    }
}

/// The fields that are kept at a position.
fn kept_at<'b, 'a>(kept: &'b [Fields<'a>], position: usize) -> &'b Fields<'a>
    requires { position < length kept.now }
    ensures { slice_get kept.now position ≡ Some result.now }
{
    &kept[position]
}

/// Adds the fields of the resolved entry at an index. The first about a capability counts.
#[cycle(listing)]
pub(crate) fn add_fields<'a>(
    alloc: Global,
    entries: &'a Entries,
    marks: &[Mark],
    kept: &[Fields<'a>],
    i: usize,
    fields: &mut Fields<'a>,
) -> Result<(), AllocError>
    requires known { known marks.now (Some i) ≡ true }
    requires kept { Keeps entries.now marks.now kept.now }
    ensures { OnOk result (Adds entries.now i fields.old fields.new) }
{
    match mark_at(marks, i) {
        Some(Mark::Kept(position)) => fields.extend(kept_at(kept, position)),
        Some(Mark::Over(next, _)) => {
            fields.extend_from_slice(entries.at(i).statements())?;
            add_fields(alloc, entries, marks, kept, next as usize, fields)
        }
        Some(Mark::Done(_)) => { add_gathered(alloc, entries, marks, kept, &entries.at(i), fields) }
        _ => Ok(()),
    }
}

/// Adds the fields of an entry, followed by those of the resolved entries that it uses, in order.
#[cycle(listing)]
pub(crate) fn add_gathered<'a>(
    alloc: Global,
    entries: &'a Entries,
    marks: &[Mark],
    kept: &[Fields<'a>],
    entry: &EntryView<'a>,
    fields: &mut Fields<'a>,
) -> Result<(), AllocError>
    requires known { AreKnown marks.now (map (index_of entries.now) entry.now.uses) }
    requires kept { Keeps entries.now marks.now kept.now }
    ensures { OnOk result (AddsGathered entries.now entry.entry.now fields.old fields.new) }
{
    fields.extend_from_slice(entry.statements())?;
    if let Some(other) = entry.single_use() {
        let used = entries.index_of(other).unwrap();
        return add_fields(alloc, entries, marks, kept, used, fields);
    }
    for other in entry.uses() {
        let used = entries.index_of(other.0.as_slice()).unwrap();
        add_effective(alloc, entries, marks, kept, used, fields)?;
    }
    Ok(())
}

/// Adds the fields that take effect of the resolved entry at an index, of which kept fields are a
/// list already.
#[cycle(listing)]
fn add_effective<'a>(
    alloc: Global,
    entries: &'a Entries,
    marks: &[Mark],
    kept: &[Fields<'a>],
    i: usize,
    fields: &mut Fields<'a>,
) -> Result<(), AllocError>
    requires known { known marks.now (Some i) ≡ true }
    requires kept { Keeps entries.now marks.now kept.now }
    ensures { OnOk result (AddsEffective entries.now i fields.old fields.new) }
{
    if let Some(Mark::Kept(position)) = mark_at(marks, i) {
        return fields.extend(kept_at(kept, position));
    }
    fields.extend(&effective_at(alloc, entries, marks, kept, i)?)
}

/// The fields that take effect of the resolved entry at an index.
#[cycle(listing)]
pub(crate) fn effective_at<'a>(
    alloc: Global,
    entries: &'a Entries,
    marks: &[Mark],
    kept: &[Fields<'a>],
    i: usize,
) -> Result<Fields<'a>, AllocError>
    requires known { known marks.now (Some i) ≡ true }
    requires kept { Keeps entries.now marks.now kept.now }
    ensures { IfOk result (λ v. TakeEffect entries.now i v) }
{
    let mut fields = Fields::new(alloc);
    add_fields(alloc, entries, marks, kept, i, &mut fields)?;
    effective_fields(alloc, &fields)
}
