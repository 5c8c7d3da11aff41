//! Where the editor makes files of its own: beside the file that is edited, or, where none can be made there, in a
//! folder of the user's.

use crate::files::{MOST_NAMES, create, name_beside};
use crate::saving::SaveFault;
use std::env::VarError;
use std::fs::DirBuilder;
use std::os::unix::fs::DirBuilderExt;
use std::{env, fs};

/// A place for files of the editor's own.
#[derive(Clone, Copy, PartialEq, Eq)]
pub(crate) enum Shelf {
    /// Beside the file that is edited.
    Beside,
    /// The editor's folder among those in which the user's programs keep their state (XDG Base Directory
    /// Specification).
    State,
    /// The folder for temporary files.
    Temporary,
}

// All of them, the best first.
const SHELVES: [Shelf; 3] = [Shelf::Beside, Shelf::State, Shelf::Temporary];

impl Shelf {
    /// What the names of its files begin with that are for a file; `None` if nothing says where it is.
    pub(crate) fn stem(self, rt: &HostRuntime, path: &str) -> Result<Option<String>, SaveFault> {
        match self {
            Shelf::Beside => Ok(Some(copied(rt, path)?)),
            Shelf::State => state_stem(rt, path),
            Shelf::Temporary => Ok(Some(temporary_stem(rt)?)),
        }
    }

    /// Makes its folder, if it is one of the editor's own. Whether that is there is seen when a file is made.
    pub(crate) fn prepare(self, rt: &HostRuntime) -> Result<(), SaveFault> {
        if self == Shelf::State
            && let Some(folder) = state_folder(rt)?
        {
            let _ = DirBuilder::new()
                .recursive(true)
                .mode(0o700)
                .create(rt, folder.as_str());
        }
        Ok(())
    }
}

/// Makes a file of bytes for a file, of a kind and with its permissions, at the best place that takes one. Gives its
/// name.
///
/// Refused if memory runs out, or if no place takes one.
pub(crate) fn put_aside(
    rt: &HostRuntime,
    path: &str,
    kind: &str,
    bytes: &[u8],
) -> Result<String, SaveFault> {
    for shelf in SHELVES {
        match put_on(rt, shelf, path, kind, bytes) {
            Ok(name) => return Ok(name),
            Err(SaveFault::NoMemory) => return Err(SaveFault::NoMemory),
            Err(_) => {}
        }
    }
    Err(SaveFault::CannotCreate)
}

fn put_on(
    rt: &HostRuntime,
    shelf: Shelf,
    path: &str,
    kind: &str,
    bytes: &[u8],
) -> Result<String, SaveFault> {
    shelf.prepare(rt)?;
    match shelf.stem(rt, path)? {
        Some(stem) => put_beside(rt, stem.as_str(), path, kind, bytes),
        None => Err(SaveFault::CannotCreate),
    }
}

fn put_beside(
    rt: &HostRuntime,
    stem: &str,
    path: &str,
    kind: &str,
    bytes: &[u8],
) -> Result<String, SaveFault> {
    for number in 0..MOST_NAMES {
        let name = name_beside(rt, stem, kind, number)?;
        match create(rt, name.as_str(), path, bytes) {
            Ok(()) => return Ok(name),
            Err(SaveFault::IsThere) => {}
            Err(fault) => return Err(fault),
        }
    }
    Err(SaveFault::IsThere)
}

// In the editor's folder the name has the whole path, with a percent sign for each slash.
fn state_stem(rt: &HostRuntime, path: &str) -> Result<Option<String>, SaveFault> {
    let Some(folder) = state_folder(rt)? else {
        return Ok(None);
    };
    let whole = whole_path(rt, path)?;
    let Ok(flat) = whole.as_str().replace(rt.alloc(), '/', "%") else {
        return Err(SaveFault::NoMemory);
    };
    match format!(in rt.alloc(); "{folder}/{flat}") {
        Ok(stem) => Ok(Some(stem)),
        Err(_) => Err(SaveFault::NoMemory),
    }
}

// The path of a file from the root; links in it are followed if the file is there.
fn whole_path(rt: &HostRuntime, path: &str) -> Result<String, SaveFault> {
    if let Ok(real) = fs::canonicalize(rt, path) {
        return copied(rt, real.as_path().as_str());
    }
    if path.starts_with('/') {
        return copied(rt, path);
    }
    match env::current_dir(rt) {
        Ok(folder) => joined(rt, folder.as_path().as_str(), path),
        Err(_) => copied(rt, path),
    }
}

// The editor's folder; `None` if the environment does not say where that is.
fn state_folder(rt: &HostRuntime) -> Result<Option<String>, SaveFault> {
    if let Some(folder) = variable(rt, "XDG_STATE_HOME")?
        && folder.as_str().starts_with('/')
    {
        return Ok(Some(joined(rt, folder.as_str(), "huttavel")?));
    }
    match variable(rt, "HOME")? {
        Some(home) => Ok(Some(joined(rt, home.as_str(), ".local/state/huttavel")?)),
        None => Ok(None),
    }
}

fn temporary_stem(rt: &HostRuntime) -> Result<String, SaveFault> {
    match variable(rt, "TMPDIR")? {
        Some(folder) => joined(rt, folder.as_str(), "edit"),
        None => copied(rt, "/tmp/edit"),
    }
}

// A variable of the environment; `None` if it is not set, or not text.
fn variable(rt: &HostRuntime, name: &str) -> Result<Option<String>, SaveFault> {
    match env::var(rt, name) {
        Ok(value) => Ok(Some(value)),
        Err(VarError::OutOfMemory) => Err(SaveFault::NoMemory),
        Err(_) => Ok(None),
    }
}

fn joined(rt: &HostRuntime, folder: &str, name: &str) -> Result<String, SaveFault> {
    format!(in rt.alloc(); "{folder}/{name}").map_err(|_| SaveFault::NoMemory)
}

fn copied(rt: &HostRuntime, text: &str) -> Result<String, SaveFault> {
    String::from_str(rt.alloc(), text).map_err(|_| SaveFault::NoMemory)
}
