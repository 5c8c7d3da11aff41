//! Lists that are kept one after another in one vector.

ghost use Rattle.std.specs.Prelude.{◌≡◌, ◌≤◌, ◌<◌, ◌+◌, ◌-◌, ◌∷◌, [], ◌++◌, Some, IfOk, length, take, drop, slice_get};
ghost use Rattle.ti_source.specs.Code.PackedLists.{start_at};

use std::alloc::{AllocError, Global};
use std::marker::Model;

/// Lists in order: the elements of all, and where each list ends among them. Contracts see the list
/// of lists. A list takes four bytes besides its elements.
#[derive(Drop)]
pub(crate) struct PackedLists<T> {
    items: Vec<T>,
    ends: Vec<u32>,
}

impl<T> Model for PackedLists<T> {
    ghost use Rattle.std.specs.Prelude.{List, length};
    ghost use Rattle.std.specs.Coded.{coded_list};
    ghost use Rattle.ti_source.specs.Code.PackedLists.{AreEnds, parts_from};

    ghost Value = { List (List T) };

    ghost coded = { coded_list (coded_list T.code) };

    ghost view = { λ p. parts_from 0 p.items.items p.ends.items };

    ghost invariant = { λ p. AreEnds 0 (length p.items.items) p.ends.items };
}

impl<T: Drop> PackedLists<T> {
    pub(crate) fn new(alloc: Global) -> PackedLists<T>
        ensures { result ≡ [] }
    {
        PackedLists {
            items: Vec::new(alloc),
            ends: Vec::new(alloc),
        }
    }

    /// These lists with one more at the end, whose elements are moved. Fails only when memory runs
    /// out, or where all lists together have more elements than 32 bits count.
    pub(crate) fn with(self, mut part: Vec<T>) -> Result<PackedLists<T>, AllocError>
        ensures { IfOk result (λ p. p ≡ self ++ part.items ∷ []) }
    {
        let PackedLists {
            mut items,
            mut ends,
        } = self;
        let end = end_after(items.len(), part.len())?;
        items.append(&mut part)?;
        ends.push(end)?;
        Ok(PackedLists { items, ends })
    }

    /// The number of lists.
    pub(crate) fn len(&self) -> usize
        ensures { result ≡ length self.now }
    {
        self.ends.len()
    }

    /// The list at an index.
    pub(crate) fn at(&self, i: usize) -> &[T]
        requires { i < length self.now }
        ensures { slice_get self.now i ≡ Some result.now }
    {
        part(&self.items, start_at(&self.ends, i), self.ends[i] as usize)
    }
}

/// The elements from `start` to `end`.
pub(crate) fn part<T>(items: &[T], start: usize, end: usize) -> &[T]
    requires order { start ≤ end }
    requires inside { end ≤ length items.now }
    ensures { result.now ≡ take (end - start) (drop start items.now) }
{
    &items[start..end]
}

/// Where the list at index `i` begins.
fn start_at(ends: &[u32], i: usize) -> usize
    requires { i < length ends.now }
    ensures { result ≡ start_at 0 i ends.now }
{
    if i == 0 {
        return 0;
    }
    ends[i - 1] as usize
}

/// Where a list of `count` elements ends. An end has 32 bits; one past that is refused as if memory
/// had run out.
pub(crate) fn end_after(start: usize, count: usize) -> Result<u32, AllocError>
    ensures { IfOk result (λ end. end ≡ start + count) }
{
    match u32::try_from(start.saturating_add(count)) {
        Ok(end) => Ok(end),
        Err(_) => Err(AllocError),
    }
}
