//! Names that are looked up in the map of entries, without a copy.

ghost use Rattle.std.specs.Cmp.{on_equiv, on_per};
ghost use Rattle.std.specs.Cmp.Lexicographic.{lists_equiv, lists_per, pointwise};
ghost use Rattle.std.specs.Hash as fed;
ghost use Rattle.std.specs.Hash.{items_Alike, on_Alike};

use indexmap::Equivalent;
use smallvec::SmallVec;
use std::hash::{Hash, Hasher};

/// A name to look up. It equals a key with the same elements, and has the same hash.
#[derive(Clone, Copy)]
pub(crate) struct Wanted<'a, T>(pub(crate) &'a [T]);

impl<'a, T: PartialEq> PartialEq for Wanted<'a, T> {
    ghost eq = { λ v w. pointwise T.eq v.0.now w.0.now };

    ghost laws = { on_per (λ v. v.0.now) (lists_per T.laws) };

    fn eq(&self, other: &Self) -> bool {
        self.0 == other.0
    }
}

impl<'a, T: Eq> Eq for Wanted<'a, T> {
    ghost laws = { on_equiv (λ v. v.0.now) (lists_equiv T.Eq.laws) };
}

impl<'a, T: Hash> Hash for Wanted<'a, T> {
    ghost hash_input = { λ v. fed.slice T.hash_input v.0.now };

    ghost respects_eq = { (on_Alike (λ v. v.0.now) (items_Alike (record { fed = T.respects_eq }))).fed };

    fn hash<H: Hasher>(&self, state: &mut H) {
        self.0.hash(state);
    }
}

impl<'a, T: Copy + Eq + Hash, const N: usize> Equivalent<SmallVec<T, N>> for Wanted<'a, T> {
    ghost equivalent = { λ q k. pointwise T.eq q.0.now k.items };

    ghost respects_hash = { λ q k. (items_Alike (record { fed = T.respects_eq })).fed q.0.now k.items };

    ghost respects_eq = { λ q x y. (lists_equiv T.Eq.laws).congr q.0.now x.items y.items };

    fn equivalent(&self, key: &SmallVec<T, N>) -> bool {
        self.0 == key.as_slice()
    }
}
