//! Where the search reads files: a trait, which the system's files and files in memory have.
ghost use Rattle.std.specs.Prelude.{◌≡◌, ◌≤◌, ℕ, List, Option, None, length, option_map, IfOk, IfSome};
ghost use Rattle.ti_database.specs.Search.{beginning};
ghost use Rattle.ti_database.specs.declared.obstacles.Obstacle.{Obstacle};

use crate::obstacles::Obstacle;
use program_input::{InputFault, read_up_to};
use std::alloc::{AllocError, Global};
use std::fs;
use std::io::{ErrorKind, Read};
use std::rt::Files;
use ti_caps::Bytes;

/// Files by path.
pub trait Store {
    // The file at each path, if that is known.
    ghost has: { Self → Option (List ℕ → Option (List ℕ)) };
    // What else is at each path, if that is known: something that cannot be read as a file.
    ghost bars: { Self → Option (List ℕ → Option Obstacle) };

    /// The file at a path, at most its first 32,769 bytes: one more than a compiled entry has.
    /// `None` if there is no file that can be read. Fails only when memory runs out.
    fn read(&self, alloc: Global, path: &[u8]) -> Result<Option<Bytes>, AllocError>
        ensures few { IfOk result (λ read. IfSome read (λ bytes. length bytes ≤ 32769)) }
        ensures bytes { IfOk result (λ read. IfSome (has self.now) (λ files. read ≡ option_map beginning (files path.now))) };

    /// Why what is at a path cannot be read. `None` if there is nothing, or a file that can be read.
    fn obstacle(&self, path: &[u8]) -> Option<Obstacle>
        ensures { IfSome (bars self.now) (λ bars. result ≡ bars path.now) };
}

/// The most bytes that are read of a file.
const MOST_BYTES: usize = 32_769;

/// The files of the system. What is at which path is not known: others change them.
#[derive(Clone, Copy)]
pub(crate) struct SystemFiles<'a, R> {
    /// The runtime that reaches them.
    pub(crate) rt: &'a R,
}

impl<R: Files> Store for SystemFiles<'_, R> {
    ghost has = { λ _. None };

    ghost bars = { λ _. None };

    fn read(&self, alloc: Global, path: &[u8]) -> Result<Option<Bytes>, AllocError> {
        let Ok(path) = str::from_utf8(path) else {
            return Ok(None);
        };
        match fs::open(self.rt, path) {
            Ok(mut file) => read_beginning(alloc, &mut file),
            Err(_) => Ok(None),
        }
    }

    // Where a folder on the way may not be searched nobody can say whether a file is there. That
    // the permission is missing is then more than that there is no entry.
    fn obstacle(&self, path: &[u8]) -> Option<Obstacle> {
        let Ok(path) = str::from_utf8(path) else {
            return None;
        };
        match fs::metadata(self.rt, path) {
            Ok(metadata) if metadata.is_dir() => Some(Obstacle::Folder),
            Ok(_) => Some(self.unopened(path)),
            Err(error) if error.kind() == ErrorKind::PermissionDenied => {
                Some(Obstacle::NotPermitted)
            }
            Err(_) => None,
        }
    }
}

impl<R: Files> SystemFiles<'_, R> {
    // Why a file that is there is not read.
    fn unopened(&self, path: &str) -> Obstacle {
        match fs::open(self.rt, path) {
            Err(error) if error.kind() == ErrorKind::PermissionDenied => Obstacle::NotPermitted,
            _ => Obstacle::Unread,
        }
    }
}

/// What is read of a file.
pub(crate) fn beginning(file: &[u8]) -> &[u8]
    ensures value { result.now ≡ beginning file.now }
    ensures few { length result.now ≤ 32769 }
{
    &file[..file.len().min(MOST_BYTES)]
}

// The first bytes of a file; `None` if it cannot be read, as a folder.
fn read_beginning<F: Read>(alloc: Global, file: &mut F) -> Result<Option<Bytes>, AllocError>
    ensures few { IfOk result (λ read. IfSome read (λ bytes. length bytes ≤ 32769)) }
    ensures bytes { IfOk result (λ read. IfSome read (λ bytes. IfSome (F.remaining file.old) (λ all. bytes ≡ beginning all))) }
{
    match read_up_to(alloc, file, MOST_BYTES) {
        Ok(bytes) => Ok(Some(Bytes(bytes))),
        Err(InputFault::Failed) => Ok(None),
        Err(InputFault::NoMemory) => Err(AllocError),
    }
}
