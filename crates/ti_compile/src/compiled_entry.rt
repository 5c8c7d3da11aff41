//! Compiling one entry to its file (term(5)).

ghost use Rattle.std.specs.Prelude.{◌≡◌, ◌⊎◌, ◌++◌, IfErr, IfOk, None, Some, false, map, length, true};
ghost use Rattle.std.specs.List.{list_all};
ghost use Rattle.ti_binary.specs.Canonical.{canonical, renamed};
ghost use Rattle.ti_caps.specs.Names.{are_names, first_name, reference_names};
ghost use Rattle.ti_compile.specs.Compiling.{encoding_refusal, refusal_of};
ghost use Rattle.ti_compile.specs.EntryCompiling.{IsCompiledOf};
ghost use Rattle.ti_compile.specs.FileNames.{is_file_name, path_of};
ghost use Rattle.ti_compile.specs.Faults.{IsPlain};

use crate::faults::TicFault;
use crate::file_names::{are_file_names, path_of, reference_names};
use std::alloc::{AllocError, Global};
use std::marker::Model;
use ti_binary::encode_named;
use ti_caps::{Bytes, Entry, first_name};

/// Paths of files below a folder.
#[derive(Debug, Drop)]
pub struct Paths(pub Vec<Bytes>);

impl Model for Paths {
    ghost use Rattle.std.specs.Prelude.{List, ℕ};

    ghost Value = { List (List ℕ) };

    ghost view = { λ p. p.0.items };
}

/// A compiled entry.
#[derive(Debug, Drop)]
pub struct CompiledEntry {
    /// The entry's first reference name.
    pub name: Bytes,
    /// The paths of its files below a folder, one for each of its reference names, in order.
    pub paths: Paths,
    /// The bytes of each of these files.
    pub bytes: Bytes,
}

/// Compiles an entry under these names; refused if it has no files.
pub(crate) fn compiled_entry(
    alloc: Global,
    entry: &Entry,
    names: &[u8],
) -> Result<CompiledEntry, TicFault>
    requires { are_names names.now ≡ true }
    ensures ok { IfOk result (λ c. (refusal_of (renamed entry.now names.now) ≡ None) × IsCompiledOf (renamed entry.now names.now) c) }
    ensures err { IfErr result (λ f. (f ≡ TicFault.NoMemory) ⊎ (refusal_of (renamed entry.now names.now) ≡ Some f)) }
    ensures plain { IfErr result IsPlain }
{
    let (bytes, references) = file_of(alloc, entry, names)?;
    let paths = paths_of(alloc, &references)?;
    let name = Bytes(Vec::from_slice(alloc, first_name(names))?);
    Ok(CompiledEntry { name, paths, bytes })
}

/// The paths of an entry's files below a folder: one for each of its reference names, in order
/// (term(5), 'Storage Location').
///
/// Refused with `BadFileName` if one of these cannot be a file name, and with `NoMemory`.
pub fn paths_under(alloc: Global, names: &[u8]) -> Result<Paths, TicFault>
    ensures ok { IfOk result (λ paths. (list_all is_file_name (reference_names names.now) ≡ true) × (paths ≡ map path_of (reference_names names.now))) }
    ensures err { IfErr result (λ f. (f ≡ TicFault.NoMemory) ⊎ ((f ≡ TicFault.BadFileName) × (list_all is_file_name (reference_names names.now) ≡ false))) }
{
    let references = file_names(alloc, names)?;
    Ok(paths_of(alloc, &references)?)
}

/// The bytes of the file of an entry under these names, and its reference names; refused if it has
/// no files.
pub(crate) fn file_of<'n>(
    alloc: Global,
    entry: &Entry,
    names: &'n [u8],
) -> Result<(Bytes, Vec<&'n [u8]>), TicFault>
    requires { are_names names.now ≡ true }
    ensures good { IfOk result (λ _. refusal_of (renamed entry.now names.now) ≡ None) }
    ensures bytes { IfOk result (λ r. r.0 ≡ canonical (renamed entry.now names.now)) }
    ensures names { IfOk result (λ r. map (λ name. name.now) r.1.items ≡ reference_names names.now) }
    ensures err { IfErr result (λ f. (f ≡ TicFault.NoMemory) ⊎ (refusal_of (renamed entry.now names.now) ≡ Some f)) }
    ensures plain { IfErr result IsPlain }
{
    let bytes = encoded(alloc, entry, names)?;
    let references = file_names(alloc, names)?;
    Ok((bytes, references))
}

// The reference names of an entry; refused with `BadFileName` if one of them cannot be a file name, and with
// `NoMemory`.
fn file_names(alloc: Global, names: &[u8]) -> Result<Vec<&[u8]>, TicFault>
    ensures ok { IfOk result (λ r. (list_all is_file_name (reference_names names.now) ≡ true) × (map (λ name. name.now) r.items ≡ reference_names names.now)) }
    ensures err { IfErr result (λ f. (f ≡ TicFault.NoMemory) ⊎ ((f ≡ TicFault.BadFileName) × (list_all is_file_name (reference_names names.now) ≡ false))) }
    ensures plain { IfErr result IsPlain }
{
    let references = reference_names(alloc, names)?;
    if !are_file_names(&references) {
        return Err(TicFault::BadFileName);
    }
    Ok(references)
}

// The written form of an entry under these names.
fn encoded(alloc: Global, entry: &Entry, names: &[u8]) -> Result<Bytes, TicFault>
    requires { are_names names.now ≡ true }
    ensures ok { IfOk result (λ bytes. (encoding_refusal (renamed entry.now names.now) ≡ None) × (bytes ≡ canonical (renamed entry.now names.now))) }
    ensures err { IfErr result (λ f. (f ≡ TicFault.NoMemory) ⊎ (encoding_refusal (renamed entry.now names.now) ≡ Some f)) }
    ensures plain { IfErr result IsPlain }
{
    Ok(encode_named(alloc, entry, names)?)
}

// The paths of these names, in order.
fn paths_of(alloc: Global, names: &[&[u8]]) -> Result<Paths, AllocError>
    ensures { IfOk result (λ paths. paths ≡ map path_of (map (λ name. name.now) names.now)) }
{
    let mut paths = Paths(Vec::new(alloc));
    for name in names {
        paths.0.push(path_of(alloc, name)?)?;
    }
    Ok(paths)
}
