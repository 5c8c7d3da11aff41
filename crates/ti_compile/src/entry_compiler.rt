//! Compiling the entries of a source one by one (tic(1)).

ghost use Rattle.std.specs.Prelude.{◌≡◌, ◌⊎◌, ◌+◌, IfErr, IfOk, IfNone, IfSome, OnErr};
ghost use Rattle.ti_compile.specs.Compiling.{IsFirstRefused, names_of};
ghost use Rattle.ti_compile.specs.EntryCompiling.{AllCompiled, IsCompiledNext};
ghost use Rattle.ti_compile.specs.Faults.{IsPlain};

use crate::alike::{Alike, compiled_of};
use crate::compiled_entry::CompiledEntry;
use crate::faults::TicFault;
use std::alloc::Global;
use std::marker::Model;
use ti_source::{Resolver, Source};

/// Compiles the entries of a source one by one, and keeps no file: for each it gives what `compile`
/// gives. Contracts see the source's entries and how many of them have been compiled since the
/// beginning.
#[derive(Drop)]
pub struct EntryCompiler<'a> {
    source: &'a Source,
    resolver: Resolver<'a>,
    next: usize,
    /// `None` until an entry was compiled that passes on another.
    alike: Option<Alike<'a>>,
}

impl<'a> Model for EntryCompiler<'a> {
    ghost use Rattle.std.specs.Prelude.{◌≡◌, IfSome};
    ghost use Rattle.ti_compile.specs.Alike.{AreAlike};
    ghost use Rattle.ti_compile.specs.EntryCompiling.{AreCompiledBefore, EntryCompiling};

    ghost Value = { EntryCompiling };

    ghost view = { λ c. record { entries = c.source.now.entries; next = c.next } };

    ghost invariant = { λ c. (c.resolver ≡ c.source.now.entries) × AreCompiledBefore c.source.now.entries c.next × IfSome c.alike (AreAlike c.source.now.entries) };
}

impl<'a> EntryCompiler<'a> {
    /// A compiler of a source's entries, before the first.
    pub fn new(source: &'a Source) -> EntryCompiler<'a>
        ensures { result ≡ record { entries = source.entry.now.entries; next = 0 } }
    {
        EntryCompiler {
            source,
            resolver: Resolver::new(source),
            next: 0,
            alike: None,
        }
    }

    /// Compiles the next entry; `None` after the last. Its paths, each with its bytes, are the
    /// files that `compile` gives for the entry, in order; its name and the number of its bytes are
    /// the entry's size.
    ///
    /// The error is that of the first entry that has one, as in `compile`, and comes again if the
    /// next entry is asked for again. `NoMemory`: memory ran out. Nothing is compiled then.
    pub fn next_entry(&mut self, alloc: Global) -> Result<Option<CompiledEntry>, TicFault>
        ensures more { IfOk result (λ r. IfSome r (λ c. IsCompiledNext self.old.entries self.old.next c × (self.new ≡ record self.old { next = self.old.next + 1 }))) }
        ensures end { IfOk result (λ r. IfNone r ((self.new ≡ self.old) × AllCompiled self.old.entries self.old.next)) }
        ensures err { IfErr result (λ f. (f ≡ TicFault.NoMemory) ⊎ IsFirstRefused self.old.entries (names_of self.old.entries) f) }
        ensures stays { OnErr result (self.new ≡ self.old) }
        ensures plain { IfErr result IsPlain }
    {
        if self.next >= self.source.len() {
            return Ok(None);
        }
        let name = self.source.name(self.next);
        let compiled = compiled_of(
            alloc,
            self.source,
            &mut self.resolver,
            &mut self.alike,
            name,
        )?;
        self.next += 1;
        Ok(Some(compiled))
    }

    /// Goes back to the first entry. What has been resolved stays known.
    pub fn restart(&mut self)
        ensures { self.new ≡ record self.old { next = 0 } }
    {
        self.next = 0;
    }
}
