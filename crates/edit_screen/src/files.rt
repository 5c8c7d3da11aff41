//! Files: reading one whole, making a new one, and what a file had when it was looked at.

use crate::saving::SaveFault;
use program_input::{InputFault, read_input};
use std::fs::{File, OpenOptions};
use std::hash::{DefaultHasher, Hasher};
use std::io::{ErrorKind, Write};
use std::os::unix::fs::MetadataExt;
use std::{fs, io};

/// How many names are tried for a file beside another.
pub(crate) const MOST_NAMES: u32 = 100;

/// Why a file was not opened.
#[derive(Clone, Copy, Debug, PartialEq, Eq)]
pub enum ReadFault {
    /// It is a device, a pipe or a folder.
    NotFile,
    /// It cannot be opened.
    Closed,
    /// It cannot be read, or is too long.
    Failed,
    /// Memory ran out.
    NoMemory,
}

impl ReadFault {
    /// What is said of a file that was not opened.
    pub fn words(self) -> &'static str {
        match self {
            ReadFault::NotFile => "not a regular file",
            ReadFault::Closed => "cannot be opened",
            ReadFault::Failed => "cannot be read, or has more than 16 MB",
            ReadFault::NoMemory => "out of memory",
        }
    }
}

/// What a file had when it was looked at: how many bytes, and their hash; `None` if there was no file.
#[derive(Clone, Copy, PartialEq, Eq)]
pub(crate) struct Seen(pub(crate) Option<(usize, u64)>);

impl Seen {
    /// There was no file.
    pub(crate) const NOTHING: Seen = Seen(None);

    /// A file with these bytes.
    pub(crate) fn of(bytes: &[u8]) -> Seen {
        let mut hasher = DefaultHasher::new();
        hasher.write(bytes);
        Seen(Some((bytes.len(), hasher.finish())))
    }
}

/// Which file a name has, how long it is, and when it was written last: another stamp tells that another program has
/// written it, without reading it.
#[derive(Clone, Copy, PartialEq, Eq)]
pub(crate) struct Stamp {
    file: u64,
    length: u64,
    seconds: i64,
    nanoseconds: i64,
}

/// The stamp of a file; `None` if there is none.
pub(crate) fn stamp_at(rt: &HostRuntime, path: &str) -> Option<Stamp> {
    match fs::metadata(rt, path) {
        Ok(metadata) => Some(Stamp {
            file: metadata.ino(),
            length: metadata.len(),
            seconds: metadata.mtime(),
            nanoseconds: metadata.mtime_nsec(),
        }),
        Err(_) => None,
    }
}

/// The bytes of a file; `None` if there is no such file.
pub(crate) fn bytes_of(rt: &HostRuntime, path: &str) -> Result<Option<Vec<u8>>, ReadFault> {
    // A device or a pipe is not even opened, since that may wait.
    if let Ok(metadata) = fs::metadata(rt, path)
        && !metadata.is_file()
    {
        return Err(ReadFault::NotFile);
    }
    match File::open(rt, path) {
        Ok(mut file) => Ok(Some(bytes_in(rt, &mut file)?)),
        Err(error) if error.kind() == ErrorKind::NotFound => Ok(None),
        Err(_) => Err(ReadFault::Closed),
    }
}

/// The bytes of a file that is open.
pub(crate) fn bytes_in(rt: &HostRuntime, file: &mut File) -> Result<Vec<u8>, ReadFault> {
    match read_input(rt.alloc(), file) {
        Ok(bytes) => Ok(bytes),
        Err(InputFault::Failed) => Err(ReadFault::Failed),
        Err(InputFault::NoMemory) => Err(ReadFault::NoMemory),
    }
}

/// What a file has now. One that cannot be read has changed.
pub(crate) fn seen_at(rt: &HostRuntime, path: &str) -> Result<Seen, SaveFault> {
    match bytes_of(rt, path) {
        Ok(Some(bytes)) => Ok(Seen::of(&bytes)),
        Ok(None) => Ok(Seen::NOTHING),
        Err(ReadFault::NoMemory) => Err(SaveFault::NoMemory),
        Err(_) => Err(SaveFault::Changed),
    }
}

/// Whether a file is there that may not be written.
pub(crate) fn is_read_only(rt: &HostRuntime, path: &str) -> bool {
    match OpenOptions::new().write(true).open(rt, path) {
        Ok(_) => false,
        Err(error) => error.kind() != ErrorKind::NotFound,
    }
}

/// Whether no file has a name.
pub(crate) fn is_free(rt: &HostRuntime, path: &str) -> bool {
    fs::symlink_metadata(rt, path).is_err()
}

/// The name of the nth file of a kind beside a file.
pub(crate) fn name_beside(
    rt: &HostRuntime,
    path: &str,
    kind: &str,
    number: u32,
) -> Result<String, SaveFault> {
    let name = if number == 0 {
        format!(in rt.alloc(); "{path}.{kind}")
    } else {
        format!(in rt.alloc(); "{path}.{kind}.{number}")
    };
    name.map_err(|_| SaveFault::NoMemory)
}

/// A name of a kind that no file beside a file has.
pub(crate) fn free_name(rt: &HostRuntime, path: &str, kind: &str) -> Result<String, SaveFault> {
    for number in 0..MOST_NAMES {
        let name = name_beside(rt, path, kind, number)?;
        if is_free(rt, name.as_str()) {
            return Ok(name);
        }
    }
    Err(SaveFault::IsThere)
}

/// Makes a file of a name that no file has.
pub(crate) fn make(rt: &HostRuntime, path: &str) -> Result<File, SaveFault> {
    match OpenOptions::new()
        .write(true)
        .create_new(true)
        .open(rt, path)
    {
        Ok(file) => Ok(file),
        Err(error) if error.kind() == ErrorKind::AlreadyExists => Err(SaveFault::IsThere),
        Err(_) => Err(SaveFault::CannotCreate),
    }
}

/// Gives a file the permissions of another, if that is there. It does so before the file has anything to read.
pub(crate) fn permit_as(rt: &HostRuntime, file: &File, other: &str) -> io::Result<()> {
    match fs::metadata(rt, other) {
        Ok(metadata) => file.set_permissions(metadata.permissions()),
        Err(_) => Ok(()),
    }
}

/// Writes bytes to a file that was made, and through to its disk. If that fails, the file is removed.
pub(crate) fn fill(
    rt: &HostRuntime,
    mut file: File,
    path: &str,
    bytes: &[u8],
) -> Result<(), SaveFault> {
    if file.write_all(bytes).is_ok() && file.sync_all().is_ok() {
        return Ok(());
    }
    let _ = fs::remove_file(rt, path);
    Err(SaveFault::WriteFailed)
}

/// Makes a file of bytes with the permissions of another, which may not be there.
pub(crate) fn create(
    rt: &HostRuntime,
    path: &str,
    other: &str,
    bytes: &[u8],
) -> Result<(), SaveFault> {
    let file = make(rt, path)?;
    if permit_as(rt, &file, other).is_err() {
        let _ = fs::remove_file(rt, path);
        return Err(SaveFault::WriteFailed);
    }
    fill(rt, file, path, bytes)
}
