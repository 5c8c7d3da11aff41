//! Saving a text so that no failure loses what its file had.

use crate::files::{Seen, fill, free_name, is_free, is_read_only, make, name_beside, seen_at};
use crate::in_place::overwrite;
use crate::keeping::Kept;
use edit_text::Text;
use std::fs;
use std::fs::{File, Metadata};
use std::io::ErrorKind;
use std::os::unix::fs::MetadataExt;

/// What was saved.
#[derive(Drop)]
pub(crate) struct Saved {
    /// What the file has now.
    pub(crate) seen: Seen,
    /// Where that is which it had, if it was something else than the editor knew.
    pub(crate) before: Option<String>,
}

/// Why a text was not saved. But for `Torn`, the file has what it had.
#[derive(Clone, Copy, Debug, PartialEq, Eq)]
pub enum SaveFault {
    /// Memory ran out.
    NoMemory,
    /// Another program has changed the file.
    Changed,
    /// There is a file of the other name.
    Taken,
    /// The other name is not UTF-8 text.
    NotText,
    /// The new file beside the old one is there already.
    IsThere,
    /// The file may not be written.
    ReadOnly,
    /// The name is a link to a file that is not there.
    BrokenLink,
    /// No file can be made beside it.
    CannotCreate,
    /// The new file cannot be written.
    WriteFailed,
    /// The new file cannot be renamed to the old one.
    RenameFailed,
    /// No copy of the text can be made while the file is written in place.
    NoCopy,
    /// A write in place failed, and what the file had could not be written back. A copy has the text.
    Torn,
}

impl SaveFault {
    /// What is said of a text that was not saved.
    pub fn words(self) -> &'static str {
        match self {
            SaveFault::NoMemory => "out of memory",
            SaveFault::Changed => "changed by another program: ^S keeps that as .before",
            SaveFault::Taken => "there is such a file",
            SaveFault::NotText => "the name is not UTF-8 text",
            SaveFault::IsThere => "a file of this name with .new at its end is in the way",
            SaveFault::ReadOnly => "the file may not be written",
            SaveFault::BrokenLink => "the name is a link to a file that is not there",
            SaveFault::CannotCreate => "no file can be made beside it",
            SaveFault::WriteFailed => "write failed",
            SaveFault::RenameFailed => "the new file cannot take the name of the old one",
            SaveFault::NoCopy => "no copy can be made, which a write in place needs",
            SaveFault::Torn => "write failed, and the file is damaged: the text is in ",
        }
    }
}

/// What is saved, and over what.
#[derive(Drop)]
pub(crate) struct Saving<'a> {
    /// The file's name, which may be that of a link.
    pub(crate) path: &'a str,
    pub(crate) bytes: &'a [u8],
    pub(crate) version: u64,
    /// What the file had when it was looked at last.
    pub(crate) seen: Seen,
    /// Whether something else that it has is to be written over.
    pub(crate) overwrites: bool,
    /// What is kept of the text until it is saved.
    pub(crate) kept: &'a mut Option<Kept>,
}

/// Saves a text: writes a new file, named as the old one with `.new` after it, which then takes the place of the old
/// one, with its permissions. A name that is a link stays one. A file that has more names than one, that has another
/// owner, group or mode than a new file would get, or that no file can be made beside, is written in place.
///
/// Refused with `Changed` if the file has something else than was seen last, unless that is to be overwritten. What the
/// old file has at the end, where that was not seen, is kept with `.before` after its name.
pub(crate) fn save(
    rt: &HostRuntime,
    path: &str,
    text: &Text,
    seen: Seen,
    overwrites: bool,
    kept: &mut Option<Kept>,
) -> Result<Saved, SaveFault> {
    match text.bytes(rt.alloc()) {
        Ok(bytes) => {
            let mut saving = Saving {
                path,
                bytes: &bytes,
                version: text.version(),
                seen,
                overwrites,
                kept,
            };
            save_bytes(rt, &mut saving)
        }
        Err(_) => Err(SaveFault::NoMemory),
    }
}

fn save_bytes(rt: &HostRuntime, saving: &mut Saving<'_>) -> Result<Saved, SaveFault> {
    if !saving.overwrites && seen_at(rt, saving.path)? != saving.seen {
        return Err(SaveFault::Changed);
    }
    let before = save_over(rt, saving)?;
    Ok(Saved {
        seen: Seen::of(saving.bytes),
        before,
    })
}

/// Saves a text under another name, which no file has.
pub(crate) fn save_as(
    rt: &HostRuntime,
    path: &str,
    text: &Text,
    kept: &mut Option<Kept>,
) -> Result<Saved, SaveFault> {
    match save(rt, path, text, Seen::NOTHING, false, kept) {
        Err(SaveFault::Changed) => Err(SaveFault::Taken),
        saved => saved,
    }
}

// Saves bytes over a file, and gives where that is which it had, if that was not seen.
fn save_over(rt: &HostRuntime, saving: &mut Saving<'_>) -> Result<Option<String>, SaveFault> {
    match fs::canonicalize(rt, saving.path) {
        Ok(real) => replace(rt, real.as_path().as_str(), saving),
        Err(error) if error.kind() == ErrorKind::NotFound => save_new(rt, saving),
        Err(error) if error.kind() == ErrorKind::OutOfMemory => Err(SaveFault::NoMemory),
        Err(_) => Err(SaveFault::CannotCreate),
    }
}

// Saves a file that is not there yet.
fn save_new(rt: &HostRuntime, saving: &mut Saving<'_>) -> Result<Option<String>, SaveFault> {
    if is_free(rt, saving.path) {
        replace(rt, saving.path, saving)
    } else {
        Err(SaveFault::BrokenLink)
    }
}

// Saves bytes over a file that may exist: by a new file that takes its place, or in place.
fn replace(
    rt: &HostRuntime,
    path: &str,
    saving: &mut Saving<'_>,
) -> Result<Option<String>, SaveFault> {
    if is_read_only(rt, path) {
        return Err(SaveFault::ReadOnly);
    }
    let new = name_beside(rt, path, "new", 0)?;
    let before = free_name(rt, path, "before")?;
    match new_file(rt, path, new.as_str())? {
        Some(file) => {
            put_new(rt, path, file, new.as_str(), before.as_str(), saving.bytes)?;
            Ok(if is_kept(rt, before.as_str(), saving.seen) {
                Some(before)
            } else {
                None
            })
        }
        None => overwrite(rt, path, saving),
    }
}

// Makes the file that is to take the place of a file, empty. `None` if the old one would lose more by that than its
// bytes, or if none can be made beside it.
fn new_file(rt: &HostRuntime, path: &str, new: &str) -> Result<Option<File>, SaveFault> {
    let Ok(old) = fs::metadata(rt, path) else {
        return Ok(Some(make(rt, new)?));
    };
    if old.nlink() > 1 {
        return Ok(None);
    }
    match make(rt, new) {
        Ok(file) if is_alike(&file, &old) => Ok(Some(file)),
        Ok(_) => {
            let _ = fs::remove_file(rt, new);
            Ok(None)
        }
        Err(SaveFault::CannotCreate) => Ok(None),
        Err(fault) => Err(fault),
    }
}

// Gives a file the permissions of another, and answers whether it has these, its owner and its group then.
fn is_alike(file: &File, other: &Metadata) -> bool {
    if file.set_permissions(other.permissions()).is_err() {
        return false;
    }
    match file.metadata() {
        Ok(own) => {
            own.uid() == other.uid() && own.gid() == other.gid() && own.mode() == other.mode()
        }
        Err(_) => false,
    }
}

// Writes bytes into a new file, which then takes the place of a file that may exist. If that fails, the new one is
// removed.
fn put_new(
    rt: &HostRuntime,
    path: &str,
    file: File,
    new: &str,
    before: &str,
    bytes: &[u8],
) -> Result<(), SaveFault> {
    fill(rt, file, new, bytes)?;
    let put = exchange(rt, path, new, before);
    if put.is_err() {
        let _ = fs::remove_file(rt, new);
    }
    put
}

// Puts a new file in the place of a file, which gets another name. A file that another program makes in between stays:
// a link is made only where no file is. Where the file system has no links, the new file is renamed.
fn exchange(rt: &HostRuntime, path: &str, new: &str, before: &str) -> Result<(), SaveFault> {
    match fs::rename(rt, path, before) {
        Err(error) if error.kind() != ErrorKind::NotFound => return Err(SaveFault::RenameFailed),
        _ => {}
    }
    match fs::hard_link(rt, new, path) {
        Ok(()) => {
            let _ = fs::remove_file(rt, new);
            Ok(())
        }
        Err(error) if error.kind() == ErrorKind::AlreadyExists => Err(SaveFault::Changed),
        Err(_) if is_free(rt, path) && fs::rename(rt, new, path).is_ok() => Ok(()),
        Err(_) => {
            bring_back(rt, path, before);
            Err(SaveFault::RenameFailed)
        }
    }
}

// Gives a file its name back. If another program has made a file of that name, the file keeps the other one.
fn bring_back(rt: &HostRuntime, path: &str, before: &str) {
    match fs::hard_link(rt, before, path) {
        Ok(()) => {
            let _ = fs::remove_file(rt, before);
        }
        Err(_) if is_free(rt, path) => {
            let _ = fs::rename(rt, before, path);
        }
        Err(_) => {}
    }
}

// Whether the old file had something else than was seen. If it had not, it is removed.
fn is_kept(rt: &HostRuntime, before: &str, seen: Seen) -> bool {
    match seen_at(rt, before) {
        Ok(found) if found == Seen::NOTHING => false,
        Ok(found) if found == seen => {
            let _ = fs::remove_file(rt, before);
            false
        }
        _ => true,
    }
}
