//! Compiling a whole source (tic(1)).

ghost use Rattle.std.specs.Prelude.{◌≡◌, ◌⊎◌, IfErr, IfOk, IsOkUnless, OnOk, None};
ghost use Rattle.ti_caps.specs.Description.{Description};
ghost use Rattle.ti_source.specs.Resolving.Uses.{Resolved};
ghost use Rattle.ti_compile.specs.Compiling.{AreCompiled, CanBeCompiled, IsCompiled, IsFaulty, IsFirstRefused, Refused, names_of, refusal_of};
ghost use Rattle.ti_compile.specs.Faults.{IsPlain};
ghost use Rattle.ti_compile.specs.Progress.{with_entry, written_of};

use crate::faults::TicFault;
use crate::laws::compiled_sources_have_no_fault;
use crate::written::{Files, Sizes, Written};
use std::alloc::Global;
use std::marker::Model;
use ti_source::{Note, Resolver, Source, read};

/// Notes on doubtful fields, in the order of their source.
#[derive(Debug, Drop)]
pub struct Notes(pub Vec<Note>);

impl Model for Notes {
    ghost use Rattle.std.specs.Prelude.{List};
    ghost use Rattle.ti_source.specs.declared.note.Note.{Note};

    ghost Value = { List Note };

    ghost view = { λ n. n.0.items };
}

/// A compiled source.
#[derive(Debug, Drop)]
pub struct Compiled {
    /// The compiled files, entry by entry, one for each of its reference names, in order.
    pub files: Files,
    /// The name and size of each entry.
    pub sizes: Sizes,
    /// The notes on the source's fields.
    pub notes: Notes,
}

/// Compiles a source (tic(1)): its files, sizes and notes.
///
/// For each entry, in order, this gives the compiled file of the resolved entry under the path of
/// each of its reference names (`t1` has `t/t1`, and a name that occurs twice has two files), and
/// its first reference name with the size of the file.
///
/// The error is that of reading, otherwise that of the first entry that is refused. An entry is
/// refused if it does not resolve, then if it exceeds the limits of a compiled file, then if one of
/// its reference names contains `/` or is `.` or `..`. `NoMemory`: memory ran out.
pub fn compile(alloc: Global, source: &[u8]) -> Result<Compiled, TicFault>
    ensures ok { IfOk result (λ c. IsCompiled source.now c) }
    ensures err { IfErr result (λ f. (f ≡ TicFault.NoMemory) ⊎ IsFaulty source.now f) }
    ensures good { CanBeCompiled source.now → IsOkUnless result TicFault.NoMemory }
    ensures plain { IfErr result IsPlain }
{
    compiled_sources_have_no_fault();
    compiled_by(alloc, source)
}

// Resolves the entry with a name, and adds its files and its size.
fn put_named(
    alloc: Global,
    resolver: &mut Resolver<'_>,
    name: &[u8],
    written: &mut Written,
) -> Result<(), TicFault>
    ensures same { resolver.new ≡ resolver.old }
    ensures ok { OnOk result ((d : Description) × Resolved resolver.old name.now d × (refusal_of d ≡ None) × (written.new ≡ with_entry d written.old)) }
    ensures err { IfErr result (λ f. (f ≡ TicFault.NoMemory) ⊎ Refused resolver.old name.now f) }
    ensures plain { IfErr result IsPlain }
{
    let entry = resolver.resolve(alloc, name)?;
    written.put(alloc, &entry)
}

// The files and sizes of all entries, in order.
fn written_by(alloc: Global, source: &Source) -> Result<Written, TicFault>
    ensures ok { IfOk result (λ w. (ds : _) × AreCompiled source.now.entries (names_of source.now.entries) ds × (w ≡ written_of ds)) }
    ensures err { IfErr result (λ f. (f ≡ TicFault.NoMemory) ⊎ IsFirstRefused source.now.entries (names_of source.now.entries) f) }
    ensures plain { IfErr result IsPlain }
{
    let mut resolver = Resolver::new(source);
    let mut written = Written::new(alloc);
    for i in 0..source.len() {
        put_named(alloc, &mut resolver, source.name(i), &mut written)?;
    }
    Ok(written)
}

// Compiles a source; `compile` does the same.
fn compiled_by(alloc: Global, source: &[u8]) -> Result<Compiled, TicFault>
    ensures ok { IfOk result (λ c. IsCompiled source.now c) }
    ensures err { IfErr result (λ f. (f ≡ TicFault.NoMemory) ⊎ IsFaulty source.now f) }
    ensures plain { IfErr result IsPlain }
{
    let source = read(alloc, source)?;
    let Written { files, sizes } = written_by(alloc, &source)?;
    let notes = Notes(source.into_notes());
    Ok(Compiled {
        files,
        sizes,
        notes,
    })
}
