//! Writing a file in place: where a new file in its place would lose its owner, its group, its mode or its other names,
//! or where none can be made beside it.

use crate::files::{ReadFault, Seen, bytes_in};
use crate::keeping::keep_copy;
use crate::saving::{SaveFault, Saving};
use crate::shelves::put_aside;
use std::fs::{File, OpenOptions};
use std::os::unix::fs::FileExt;

/// Writes bytes over what a file has. A copy of them is kept until the caller removes it. Gives where that is which the
/// file had, if that was not seen.
///
/// Refused with `Changed` if the file has something else than was seen, unless that is to be overwritten; with `NoCopy`
/// if no copy can be made; and with `WriteFailed` if a write fails: what the file had is written back then. `Torn` if
/// that fails too.
pub(crate) fn overwrite(
    rt: &HostRuntime,
    path: &str,
    saving: &mut Saving<'_>,
) -> Result<Option<String>, SaveFault> {
    let mut file = open(rt, path)?;
    let old = match bytes_in(rt, &mut file) {
        Ok(old) => old,
        Err(ReadFault::NoMemory) => return Err(SaveFault::NoMemory),
        Err(_) => return Err(SaveFault::Changed),
    };
    let before = put_before(rt, &old, saving)?;
    keep(rt, saving)?;
    write(&file, saving.bytes, &old)?;
    Ok(before)
}

fn open(rt: &HostRuntime, path: &str) -> Result<File, SaveFault> {
    match OpenOptions::new().read(true).write(true).open(rt, path) {
        Ok(file) => Ok(file),
        Err(_) => Err(SaveFault::ReadOnly),
    }
}

// Puts aside what the file has, if that was not seen.
fn put_before(
    rt: &HostRuntime,
    old: &[u8],
    saving: &Saving<'_>,
) -> Result<Option<String>, SaveFault> {
    if Seen::of(old) == saving.seen {
        return Ok(None);
    }
    if !saving.overwrites {
        return Err(SaveFault::Changed);
    }
    Ok(Some(put_aside(rt, saving.path, "before", old)?))
}

fn keep(rt: &HostRuntime, saving: &mut Saving<'_>) -> Result<(), SaveFault> {
    match keep_copy(rt, saving.path, saving.bytes, saving.version, saving.kept) {
        Err(SaveFault::NoMemory) => Err(SaveFault::NoMemory),
        Err(_) => Err(SaveFault::NoCopy),
        Ok(()) => Ok(()),
    }
}

fn write(file: &File, bytes: &[u8], old: &[u8]) -> Result<(), SaveFault> {
    if is_written(file, bytes) {
        Ok(())
    } else if is_written(file, old) {
        Err(SaveFault::WriteFailed)
    } else {
        Err(SaveFault::Torn)
    }
}

// Writes bytes over all that a file has, and through to its disk. Answers whether it has them.
fn is_written(file: &File, bytes: &[u8]) -> bool {
    file.write_all_at(bytes, 0).is_ok()
        && file.set_len(bytes.len() as u64).is_ok()
        && file.sync_all().is_ok()
}
