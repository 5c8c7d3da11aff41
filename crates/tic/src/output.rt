//! Writing to the standard output, and writing compiled files below a folder.

use crate::failures::Failure;
use std::alloc::Global;
use std::io::{ErrorKind, Write};
use std::path::{Path, PathBuf};
use std::{fs, io, str};
use ti_compile::CompiledEntry;

/// Writes a text to the standard output.
pub(crate) fn print<'a>(rt: &HostRuntime, text: &[u8]) -> Result<(), Failure<'a>> {
    rt.stdout().write_all(text).map_err(|_| Failure::Output)
}

/// Writes the files of an entry below a folder. Creates the folder and folders in it if they are
/// missing, and replaces existing files.
pub(crate) fn write_files<'a>(
    rt: &HostRuntime,
    directory: &str,
    entry: &CompiledEntry,
) -> Result<(), Failure<'a>> {
    for path in entry.paths.0.as_slice() {
        write_below(rt, directory, path.0.as_slice(), entry.bytes.0.as_slice())?;
    }
    Ok(())
}

fn write_below<'a>(
    rt: &HostRuntime,
    directory: &str,
    path: &[u8],
    bytes: &[u8],
) -> Result<(), Failure<'a>> {
    let path = below(rt.alloc(), directory, path)?;
    match write_file(rt, &path, bytes) {
        Ok(()) => Ok(()),
        Err(error) if error.kind() == ErrorKind::OutOfMemory => Err(Failure::NoMemory),
        Err(_) => Err(Failure::Write(path.into_os_string())),
    }
}

// A path below a folder; the path of a compiled file is ASCII.
fn below<'a>(alloc: Global, directory: &str, path: &[u8]) -> Result<PathBuf, Failure<'a>> {
    let path = str::from_utf8(path).unwrap_or("");
    Ok(Path::new(directory).join(alloc, path)?)
}

// Writes a file. Folders on its path are created only if it cannot be written without them.
fn write_file(rt: &HostRuntime, path: &PathBuf, bytes: &[u8]) -> io::Result<()> {
    match fs::write(rt, path.as_path(), bytes) {
        Err(error) if error.kind() == ErrorKind::NotFound => {}
        written => return written,
    }
    if let Some(folder) = path.parent() {
        fs::create_dir_all(rt, folder)?;
    }
    fs::write(rt, path.as_path(), bytes)
}
