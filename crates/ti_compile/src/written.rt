//! The compiled files of several entries, and their sizes (term(5)).

ghost use Rattle.std.specs.Prelude.{◌≡◌, ◌⊎◌, ◌∷◌, ◌++◌, [], IfErr, OnOk, None, Some, map};
ghost use Rattle.ti_caps.specs.Names.{first_name};
ghost use Rattle.ti_compile.specs.Compiling.{files_under, refusal_of};
ghost use Rattle.ti_compile.specs.Faults.{IsPlain};
ghost use Rattle.ti_compile.specs.Progress.{with_entry};

use crate::compiled_entry::file_of;
use crate::faults::TicFault;
use crate::file_names::path_of;
use std::alloc::{AllocError, Global};
use std::marker::Model;
use ti_caps::{Bytes, Entry, first_name};

/// Compiled files, each by its path below a folder and its bytes.
#[derive(Debug, Drop)]
pub struct Files(pub Vec<(Bytes, Bytes)>);

impl Model for Files {
    ghost use Rattle.std.specs.Prelude.{List, ℕ};

    ghost Value = { List (List ℕ × List ℕ) };

    ghost view = { λ f. f.0.items };
}

/// The first reference names of entries, each with the size of its compiled file in bytes.
#[derive(Debug, Drop)]
pub struct Sizes(pub Vec<(Bytes, usize)>);

impl Model for Sizes {
    ghost use Rattle.std.specs.Prelude.{List, ℕ};

    ghost Value = { List (List ℕ × ℕ) };

    ghost view = { λ s. s.0.items };
}

/// The files and sizes of the entries so far.
#[derive(Drop)]
pub(crate) struct Written {
    pub(crate) files: Files,
    pub(crate) sizes: Sizes,
}

impl Written {
    pub(crate) fn new(alloc: Global) -> Written
        ensures { result ≡ record { files = []; sizes = [] } }
    {
        Written {
            files: Files(Vec::new(alloc)),
            sizes: Sizes(Vec::new(alloc)),
        }
    }

    /// Adds the files and the size of an entry.
    pub(crate) fn put(&mut self, alloc: Global, entry: &Entry) -> Result<(), TicFault>
        ensures ok { OnOk result ((refusal_of entry.now ≡ None) × (self.new ≡ with_entry entry.now self.old)) }
        ensures err { IfErr result (λ f. (f ≡ TicFault.NoMemory) ⊎ (refusal_of entry.now ≡ Some f)) }
        ensures plain { IfErr result IsPlain }
    {
        let (bytes, names) = file_of(alloc, entry, entry.names())?;
        put_files(alloc, &names, bytes.0.as_slice(), &mut self.files)?;
        put_size(alloc, entry.names(), bytes.0.len(), &mut self.sizes)?;
        Ok(())
    }
}

fn put_files(
    alloc: Global,
    names: &[&[u8]],
    bytes: &[u8],
    files: &mut Files,
) -> Result<(), AllocError>
    ensures { OnOk result (files.new ≡ files.old ++ files_under (map (λ name. name.now) names.now) bytes.now) }
{
    for name in names {
        let path = path_of(alloc, name)?;
        let copy = Bytes(Vec::from_slice(alloc, bytes)?);
        files.0.push((path, copy))?;
    }
    Ok(())
}

fn put_size(alloc: Global, names: &[u8], size: usize, sizes: &mut Sizes) -> Result<(), AllocError>
    ensures { OnOk result (sizes.new ≡ sizes.old ++ (first_name names.now, size) ∷ []) }
{
    let name = Bytes(Vec::from_slice(alloc, first_name(names))?);
    sizes.0.push((name, size))?;
    Ok(())
}
