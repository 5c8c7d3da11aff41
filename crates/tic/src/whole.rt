//! Compiling the entries of a source one by one, as without `-x` or with all that it keeps.

use std::alloc::Global;
use ti_caps::{Bytes, Entry, first_name};
use ti_compile::{CompiledEntry, EntryCompiler, TicFault, paths_under};
use ti_extended::SecondReading;
use ti_source::{Resolver, Source};

/// Compiles the entries of a source one by one.
#[derive(Drop)]
pub(crate) struct Compiler<'a> {
    source: &'a Source,
    /// What compiles them without `-x`.
    plain: EntryCompiler<'a>,
    /// What resolves them with it.
    resolver: Resolver<'a>,
}

impl<'a> Compiler<'a> {
    /// A compiler of a source's entries, before the first.
    pub(crate) fn new(source: &'a Source) -> Compiler<'a> {
        Compiler {
            source,
            plain: EntryCompiler::new(source),
            resolver: Resolver::new(source),
        }
    }

    /// Compiles the next entry, whose index is `index`; `None` after the last. With `more`, what
    /// that says of the entry is kept too, and its names may have 511 bytes.
    pub(crate) fn next_entry(
        &mut self,
        alloc: Global,
        index: usize,
        more: Option<&SecondReading<'_>>,
    ) -> Result<Option<CompiledEntry>, TicFault> {
        match more {
            None => self.plain.next_entry(alloc),
            Some(more) => self.whole_at(alloc, index, more),
        }
    }

    /// Goes back to the first entry.
    pub(crate) fn restart(&mut self) {
        self.plain.restart();
    }

    fn whole_at(
        &mut self,
        alloc: Global,
        index: usize,
        more: &SecondReading<'_>,
    ) -> Result<Option<CompiledEntry>, TicFault> {
        if index >= self.source.len() {
            return Ok(None);
        }
        let entry = self.resolver.resolve(alloc, self.source.name(index))?;
        let compiled = compiled(alloc, entry, index, more)?;
        Ok(Some(compiled))
    }
}

// A resolved entry with all that is kept of it. Its names are looked at last, as without `-x`.
fn compiled(
    alloc: Global,
    entry: Entry,
    index: usize,
    more: &SecondReading<'_>,
) -> Result<CompiledEntry, TicFault> {
    let names = Vec::from_slice(alloc, entry.names())?;
    let bytes = more.file(alloc, entry, index)?;
    under(alloc, &names, bytes)
}

// The bytes of a file under these names.
fn under(alloc: Global, names: &[u8], bytes: Bytes) -> Result<CompiledEntry, TicFault> {
    let paths = paths_under(alloc, names)?;
    let name = Bytes(Vec::from_slice(alloc, first_name(names))?);
    Ok(CompiledEntry { name, paths, bytes })
}
