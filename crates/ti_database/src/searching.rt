//! The search: the first file that there is decides.
ghost use Rattle.std.specs.Prelude.{◌≡◌, ℕ, List, ◌⊎◌, ◌↔◌, IfErr, IfOk, IsErrOf, Option, Some, false, option_map};
ghost use Rattle.ti_database.specs.Places.{is_terminal_name, paths_of};
ghost use Rattle.ti_database.specs.Search.{CanBe, IsEntry, IsFound, NamesAll, absent_fault, entry_refusal, first_barred, first_there, search_fault};
ghost use Rattle.ti_database.specs.declared.obstacles.Obstacle.{Obstacle};
ghost use Rattle.ti_database.specs.declared.faults.DatabaseFault.TheVariants.{Faulty};

use crate::faults::DatabaseFault;
use crate::file_paths::{FilePath, FilePaths, paths};
use crate::folders::Variables;
use crate::obstacles::Obstacle;
use crate::reading::read_entry;
use crate::stores::Store;
use std::alloc::{AllocError, Global};
use ti_binary::BinFault;
use ti_caps::{Bytes, Entry};

/// Looks up the compiled entry of a terminal's name in a store of files, at the paths of `paths`.
///
/// Refused with `BadName` as by `paths`, else as by `search`.
pub fn find_in<S: Store>(
    alloc: Global,
    store: &S,
    name: &[u8],
    variables: &Variables,
) -> Result<Entry, DatabaseFault>
    ensures bad { IsErrOf result DatabaseFault.BadName ↔ (is_terminal_name name.now ≡ false) }
    ensures named { IfErr result (λ fault. NamesAll (paths_of variables.now name.now) fault) }
    ensures entry { IfOk result (λ entry. (files : List ℕ → Option (List ℕ)) × CanBe (S.has store.now) files × IsFound files (paths_of variables.now name.now) entry) }
    ensures fault { IfErr result (λ fault. (fault ≡ DatabaseFault.BadName) ⊎ (fault ≡ DatabaseFault.NoMemory) ⊎ ((files : List ℕ → Option (List ℕ)) × (bars : List ℕ → Option Obstacle) × CanBe (S.has store.now) files × CanBe (S.bars store.now) bars × (search_fault files bars (paths_of variables.now name.now) ≡ Some fault))) }
{
    match paths(alloc, name, variables) {
        Ok(paths) => search(alloc, store, paths),
        Err(fault) => Err(fault),
    }
}

/// Reads the entry in the first file that there is at one of these paths. A file that cannot be
/// read is passed over, like one that is not there.
///
/// Refused with `Faulty` if that file is not a compiled entry; if no file can be read, with
/// `Unreadable` and the first path where there is something, or else with `NotFound` and the paths;
/// or with `NoMemory`.
pub fn search<S: Store>(alloc: Global, store: &S, paths: FilePaths) -> Result<Entry, DatabaseFault>
    ensures plain { IsErrOf result DatabaseFault.BadName → ⊥ }
    ensures named { IfErr result (λ fault. NamesAll paths fault) }
    ensures entry { IfOk result (λ entry. (files : List ℕ → Option (List ℕ)) × CanBe (S.has store.now) files × IsFound files paths entry) }
    ensures fault { IfErr result (λ fault. (fault ≡ DatabaseFault.NoMemory) ⊎ ((files : List ℕ → Option (List ℕ)) × (bars : List ℕ → Option Obstacle) × CanBe (S.has store.now) files × CanBe (S.bars store.now) bars × (search_fault files bars paths ≡ Some fault))) }
{
    match first_there(alloc, store, paths.0.as_slice()) {
        Ok(Some((path, bytes))) => entry_of(alloc, path, &bytes),
        Ok(None) => Err(absent(alloc, store, paths)),
        Err(_) => Err(DatabaseFault::NoMemory),
    }
}

// The path and the beginning of the first file that there is.
fn first_there<S: Store>(
    alloc: Global,
    store: &S,
    paths: &[FilePath],
) -> Result<Option<(FilePath, Bytes)>, AllocError>
    ensures { IfOk result (λ found. (files : List ℕ → Option (List ℕ)) × CanBe (S.has store.now) files × (found ≡ first_there files paths.now)) }
{
    for path in paths {
        if let Some(bytes) = store.read(alloc, path.0.as_slice())? {
            let copy = FilePath(Vec::from_slice(alloc, path.0.as_slice())?);
            return Ok(Some((copy, bytes)));
        }
    }
    Ok(None)
}

// Why no file was read at any of these paths.
fn absent<S: Store>(alloc: Global, store: &S, paths: FilePaths) -> DatabaseFault
    ensures plain { result ≡ DatabaseFault.BadName → ⊥ }
    ensures named { NamesAll paths result }
    ensures fault { (result ≡ DatabaseFault.NoMemory) ⊎ ((bars : List ℕ → Option Obstacle) × CanBe (S.bars store.now) bars × (absent_fault paths (first_barred bars paths) ≡ result)) }
{
    match first_barred(alloc, store, paths.0.as_slice()) {
        Ok(Some((path, obstacle))) => DatabaseFault::Unreadable { path, obstacle },
        Ok(None) => DatabaseFault::NotFound(paths),
        Err(_) => DatabaseFault::NoMemory,
    }
}

// The first of these paths where there is something that cannot be read, and why it cannot.
fn first_barred<S: Store>(
    alloc: Global,
    store: &S,
    paths: &[FilePath],
) -> Result<Option<(FilePath, Obstacle)>, AllocError>
    ensures { IfOk result (λ found. (bars : List ℕ → Option Obstacle) × CanBe (S.bars store.now) bars × (found ≡ first_barred bars paths.now)) }
{
    for path in paths {
        if let Some(obstacle) = store.obstacle(path.0.as_slice()) {
            let copy = FilePath(Vec::from_slice(alloc, path.0.as_slice())?);
            return Ok(Some((copy, obstacle)));
        }
    }
    Ok(None)
}

// The entry in the bytes of a file.
fn entry_of(alloc: Global, path: FilePath, bytes: &[u8]) -> Result<Entry, DatabaseFault>
    ensures named { (paths : List (List ℕ)) → IfErr result (λ fault. NamesAll paths fault) }
    ensures plain { IsErrOf result DatabaseFault.BadName → ⊥ }
    ensures entry { IfOk result (λ entry. IsEntry bytes.now entry) }
    ensures fault { IfErr result (λ fault. (fault ≡ DatabaseFault.NoMemory) ⊎ (option_map (λ f. Faulty path f) (entry_refusal bytes.now) ≡ Some fault)) }
{
    match read_entry(alloc, bytes) {
        Ok(entry) => Ok(entry),
        Err(BinFault::NoMemory) => Err(DatabaseFault::NoMemory),
        Err(fault) => Err(DatabaseFault::Faulty { path, fault }),
    }
}
