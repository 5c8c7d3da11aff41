//! Reusing a result for entries that equal it but for their names. An entry that has no fields of
//! its own and exactly one use passes on the entry that it uses.

ghost use Rattle.std.specs.Prelude.{List, ◌≡◌, ◌⊎◌, ℕ, IfErr, IfOk, IfSome, IsTrue, None, true};
ghost use Rattle.ti_caps.specs.Description.{Description};
ghost use Rattle.ti_caps.specs.Names.{are_names};
ghost use Rattle.ti_source.specs.Described.{Described};
ghost use Rattle.ti_source.specs.Resolving.Passing.{IsPassedOn};
ghost use Rattle.ti_source.specs.Resolving.Uses.{Resolved};
ghost use Rattle.ti_compile.specs.Alike.{AreAlike};
ghost use Rattle.ti_compile.specs.Compiling.{Refused, refusal_of};
ghost use Rattle.ti_compile.specs.EntryCompiling.{IsCompiledOf};
ghost use Rattle.ti_compile.specs.Faults.{IsPlain};

use crate::compiled_entry::{CompiledEntry, compiled_entry};
use crate::faults::TicFault;
use std::alloc::Global;
use ti_caps::Entry;
use ti_source::{Resolver, Source, entries_pass_on};

/// A resolved entry, and two names that resolve to it but for its names: one that was used, and the
/// last that was compiled.
#[derive(Drop)]
pub(crate) struct Alike<'a> {
    used: &'a [u8],
    last: &'a [u8],
    resolved: Entry,
}

impl<'a> Alike<'a> {
    /// The same for a name whose entry passes on another, if that other is one of the two; else
    /// `None`.
    fn moved(self, name: &'a [u8], other: &'a [u8]) -> Option<Alike<'a>>
        ensures last { IfSome result (λ a. a.last.now ≡ name.entry.now) }
        ensures alike { (entries : List Described) (own : List ℕ) → IsPassedOn entries name.entry.now own other.entry.now → AreAlike entries self.entry → IfSome result (AreAlike entries) }
    {
        entries_pass_on();
        let Alike {
            used,
            last,
            resolved,
        } = self;
        if is_same(used, other) {
            return Some(Alike {
                used,
                last: name,
                resolved,
            });
        }
        if is_same(last, other) {
            return Some(Alike {
                used,
                last: name,
                resolved,
            });
        }
        if is_same(used, name) {
            return Some(Alike {
                used: other,
                last: name,
                resolved,
            });
        }
        None
    }
}

/// Compiles the entry with a name. If it passes on another that an entry before it passed on too,
/// nothing is resolved.
pub(crate) fn compiled_of<'a>(
    alloc: Global,
    source: &'a Source,
    resolver: &mut Resolver<'_>,
    alike: &mut Option<Alike<'a>>,
    name: &'a [u8],
) -> Result<CompiledEntry, TicFault>
    requires source { source.now.entries ≡ resolver.old }
    requires alike { IfSome alike.old (AreAlike resolver.old) }
    ensures same { resolver.new ≡ resolver.old }
    ensures alike { IfSome alike.new (AreAlike resolver.old) }
    ensures ok { IfOk result (λ c. (d : Description) × Resolved resolver.old name.entry.now d × (refusal_of d ≡ None) × IsCompiledOf d c) }
    ensures err { IfErr result (λ f. (f ≡ TicFault.NoMemory) ⊎ Refused resolver.old name.entry.now f) }
    ensures plain { IfErr result IsPlain }
{
    match source.passed_on(name) {
        Some((own, other)) => passed_on(alloc, resolver, alike, name, own, other),
        None => named(alloc, resolver, name),
    }
}

// The same for an entry that passes on another.
fn passed_on<'a>(
    alloc: Global,
    resolver: &mut Resolver<'_>,
    alike: &mut Option<Alike<'a>>,
    name: &'a [u8],
    own: &[u8],
    other: &'a [u8],
) -> Result<CompiledEntry, TicFault>
    requires passes { IsPassedOn resolver.old name.now own.now other.now }
    requires named { are_names own.now ≡ true }
    requires alike { IfSome alike.old (AreAlike resolver.old) }
    ensures same { resolver.new ≡ resolver.old }
    ensures alike { IfSome alike.new (AreAlike resolver.old) }
    ensures ok { IfOk result (λ c. (d : Description) × Resolved resolver.old name.entry.now d × (refusal_of d ≡ None) × IsCompiledOf d c) }
    ensures err { IfErr result (λ f. (f ≡ TicFault.NoMemory) ⊎ Refused resolver.old name.entry.now f) }
    ensures plain { IfErr result IsPlain }
{
    entries_pass_on();
    let Some(found) = found(alloc, resolver, alike.take(), name, other) else {
        return named(alloc, resolver, name);
    };
    let compiled = compiled_entry(alloc, &found.resolved, own);
    *alike = Some(found);
    compiled
}

// The entry to which a name resolves that passes on another: the known one, or else the resolved
// other, if it resolves.
fn found<'a>(
    alloc: Global,
    resolver: &mut Resolver<'_>,
    known: Option<Alike<'a>>,
    name: &'a [u8],
    other: &'a [u8],
) -> Option<Alike<'a>>
    ensures same { resolver.new ≡ resolver.old }
    ensures last { IfSome result (λ a. a.last.now ≡ name.entry.now) }
    ensures alike { (own : List ℕ) → IsPassedOn resolver.old name.entry.now own other.entry.now → IfSome known.entry (AreAlike resolver.old) → IfSome result (AreAlike resolver.old) }
{
    entries_pass_on();
    if let Some(alike) = known
        && let Some(moved) = alike.moved(name, other)
    {
        return Some(moved);
    }
    match resolver.resolve(alloc, other) {
        Ok(resolved) => Some(Alike {
            used: other,
            last: name,
            resolved,
        }),
        Err(_) => None,
    }
}

// Resolves the entry with a name and compiles it.
fn named(alloc: Global, resolver: &mut Resolver<'_>, name: &[u8]) -> Result<CompiledEntry, TicFault>
    ensures same { resolver.new ≡ resolver.old }
    ensures ok { IfOk result (λ c. (d : Description) × Resolved resolver.old name.now d × (refusal_of d ≡ None) × IsCompiledOf d c) }
    ensures err { IfErr result (λ f. (f ≡ TicFault.NoMemory) ⊎ Refused resolver.old name.now f) }
    ensures plain { IfErr result IsPlain }
{
    let entry = resolver.resolve(alloc, name)?;
    compiled_entry(alloc, &entry, entry.names())
}

fn is_same(a: &[u8], b: &[u8]) -> bool
    ensures { IsTrue result → a.now ≡ b.now }
{
    a == b
}
