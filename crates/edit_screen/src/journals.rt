//! A journal: a file of the changes that were made to a text since its own file had it. It is appended to
//! before changes are shown, so that a text which was not saved can be made again where the editor was killed.
//!
//! Its first line says what the file had, `edit journal 1 of LENGTH HASH`, or `edit journal 1 of nothing` where there
//! was no file; then come the lines of `Notes`. Its editor holds a lock on it, which goes with the editor.

use crate::files::{Seen, make, name_beside, permit_as};
use crate::saving::SaveFault;
use crate::shelves::Shelf;
use std::fs;
use std::fs::{File, TryLockError};
use std::os::unix::fs::FileExt;

/// What the first line begins with.
pub(crate) const TITLE: &str = "edit journal 1 of ";

/// What the first line says of a text that no file had.
pub(crate) const NO_FILE: &str = "nothing";

/// How many names are tried for a journal.
pub(crate) const MOST_JOURNALS: u32 = 10;

/// Where journals are made, the best place first.
pub(crate) const JOURNAL_SHELVES: [Shelf; 2] = [Shelf::Beside, Shelf::State];

/// A journal that is written.
#[derive(Drop)]
pub(crate) struct Journal {
    file: File,
    name: String,
    // How many bytes it has.
    length: u64,
    // Whether they are on the disk.
    is_synced: bool,
}

impl Journal {
    /// Makes the journal of a text that its file has, with its first line.
    ///
    /// Refused if memory runs out, or if no place takes one.
    pub(crate) fn begin(rt: &HostRuntime, path: &str, seen: Seen) -> Result<Journal, SaveFault> {
        let title = title_of(rt, seen)?;
        for shelf in JOURNAL_SHELVES {
            match Journal::begin_on(rt, shelf, path, title.as_str()) {
                Ok(journal) => return Ok(journal),
                Err(SaveFault::NoMemory) => return Err(SaveFault::NoMemory),
                Err(_) => {}
            }
        }
        Err(SaveFault::CannotCreate)
    }

    /// Where the journal of a file would be: it is made, and removed. Gives its name, and whether it is beside the
    /// file.
    ///
    /// Refused if memory runs out, or if no place takes one.
    pub(crate) fn place(rt: &HostRuntime, path: &str) -> Result<(String, bool), SaveFault> {
        for shelf in JOURNAL_SHELVES {
            match Journal::make_on(rt, shelf, path) {
                Ok(journal) => {
                    let _ = fs::remove_file(rt, journal.name.as_str());
                    return Ok((journal.name, shelf == Shelf::Beside));
                }
                Err(SaveFault::NoMemory) => return Err(SaveFault::NoMemory),
                Err(_) => {}
            }
        }
        Err(SaveFault::CannotCreate)
    }

    fn begin_on(
        rt: &HostRuntime,
        shelf: Shelf,
        path: &str,
        title: &str,
    ) -> Result<Journal, SaveFault> {
        let mut journal = Journal::make_on(rt, shelf, path)?;
        if is_lockable(&journal.file) && journal.append(title.as_bytes()) {
            return Ok(journal);
        }
        journal.remove(rt);
        Err(SaveFault::WriteFailed)
    }

    // Makes an empty one.
    fn make_on(rt: &HostRuntime, shelf: Shelf, path: &str) -> Result<Journal, SaveFault> {
        shelf.prepare(rt)?;
        match shelf.stem(rt, path)? {
            Some(stem) => Journal::make_beside(rt, stem.as_str(), path),
            None => Err(SaveFault::CannotCreate),
        }
    }

    fn make_beside(rt: &HostRuntime, stem: &str, path: &str) -> Result<Journal, SaveFault> {
        for number in 0..MOST_JOURNALS {
            let name = name_beside(rt, stem, "journal", number)?;
            match make(rt, name.as_str()) {
                Ok(file) => {
                    let _ = permit_as(rt, &file, path);
                    return Ok(Journal::of(file, name));
                }
                Err(SaveFault::IsThere) => {}
                Err(fault) => return Err(fault),
            }
        }
        Err(SaveFault::IsThere)
    }

    // An empty one.
    fn of(file: File, name: String) -> Journal {
        Journal {
            file,
            name,
            length: 0,
            is_synced: true,
        }
    }

    /// Its name.
    pub(crate) fn name(&self) -> &str {
        self.name.as_str()
    }

    /// Appends lines. Answers whether it has them; if not, it has what it had.
    pub(crate) fn append(&mut self, lines: &[u8]) -> bool {
        if self.file.write_all_at(lines, self.length).is_err() {
            // A piece of them may be there, which is written over next time.
            let _ = self.file.set_len(self.length);
            return false;
        }
        self.length = self.length.saturating_add(lines.len() as u64);
        self.is_synced = false;
        true
    }

    /// Brings it to its disk.
    pub(crate) fn sync(&mut self) {
        if !self.is_synced {
            self.is_synced = self.file.sync_data().is_ok();
        }
    }

    /// Removes it.
    pub(crate) fn remove(self, rt: &HostRuntime) {
        let _ = fs::remove_file(rt, self.name.as_str());
    }
}

/// Whether no other program holds a lock on a file. Where the file system has no locks, none does.
pub(crate) fn is_lockable(file: &File) -> bool {
    match file.try_lock() {
        Err(TryLockError::WouldBlock) => false,
        Ok(()) | Err(TryLockError::Error(_)) => true,
    }
}

fn title_of(rt: &HostRuntime, seen: Seen) -> Result<String, SaveFault> {
    let title = match seen.0 {
        Some((length, hash)) => format!(in rt.alloc(); "{TITLE}{length} {hash}\n"),
        None => format!(in rt.alloc(); "{TITLE}{NO_FILE}\n"),
    };
    title.map_err(|_| SaveFault::NoMemory)
}
