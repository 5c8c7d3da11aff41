//! Whether the names of an entry's own capabilities differ from each other.
ghost use Rattle.std.specs.Prelude.{◌≡◌, ◌∷◌, List, ℕ, IfOk, map, not};
ghost use Rattle.std.specs.List.{list_any};
ghost use Rattle.std.specs.Str.{bytes_eq};
ghost use Rattle.ti_extended.specs.Distinct.{begins_with, differ_in_turn};
ghost use Rattle.ti_extended.specs.Whole.{are_distinct};

use std::alloc::{AllocError, Global};
use ti_caps::Bytes;

/// Whether no name occurs twice. They are sorted, so that equal ones are neighbours; where there is
/// no memory for that, each is compared with all others.
pub(crate) fn are_distinct(alloc: Global, names: &[Bytes]) -> bool
    ensures { result ≡ are_distinct names.now }
{
    match lent(alloc, names) {
        Ok(lent) => are_distinct_sorted(lent),
        Err(_) => is_each_new(names),
    }
}

// The names, in the same order.
fn lent(alloc: Global, names: &[Bytes]) -> Result<Vec<&[u8]>, AllocError>
    ensures { IfOk result (λ lent. map (λ name. name.now) lent.items ≡ names.now) }
{
    let mut lent = Vec::with_capacity(alloc, names.len())?;
    for name in names {
        lent.push(name.0.as_slice())?;
    }
    Ok(lent)
}

// Whether no name occurs twice, once they are sorted.
fn are_distinct_sorted(names: Vec<&[u8]>) -> bool
    ensures { result ≡ are_distinct (map (λ name. name.now) names.entry.items) }
{
    let mut names = names;
    names.sort_unstable();
    differ_in_turn(&names)
}

// Whether no name is the one before it.
fn differ_in_turn(names: &[&[u8]]) -> bool
    ensures { result ≡ differ_in_turn (map (λ name. name.now) names.now) }
{
    let mut rest = names;
    while let [first, more @ ..] = rest {
        if begins_with(more, first) {
            return false;
        }
        rest = more;
    }
    true
}

// Whether the first of these names, if there is one, is this.
fn begins_with(names: &[&[u8]], name: &[u8]) -> bool
    ensures { result ≡ begins_with (map (λ other. other.now) names.now) name.now }
{
    match names {
        [first, ..] => is_same(first, name),
        [] => false,
    }
}

// Whether each name is none of those after it.
fn is_each_new(names: &[Bytes]) -> bool
    ensures { result ≡ are_distinct names.now }
{
    let mut distinct = true;
    let mut left = names.len();
    while left > 0 {
        left -= 1;
        distinct &= is_new(&names[left..]);
    }
    distinct
}

// Whether the first of these names is none of the others.
fn is_new(names: &[Bytes]) -> bool
    ensures { (name : List ℕ) (more : List (List ℕ)) → names.now ≡ name ∷ more → result ≡ not (list_any (bytes_eq name) more) }
{
    match names {
        [name, more @ ..] => !is_among(more, name),
        [] => true,
    }
}

fn is_among(names: &[Bytes], name: &[u8]) -> bool
    ensures { result ≡ list_any (bytes_eq name.now) names.now }
{
    for other in names {
        if is_same(name, other) {
            return true;
        }
    }
    false
}

fn is_same(name: &[u8], other: &[u8]) -> bool
    ensures { result ≡ bytes_eq name.now other.now }
{
    name == other
}
