//! Counting the bytes of operations: those of a plan, and those that it is compared with.

use scr_cells::{NoMemory, Picture};
use scr_memory::Memory;
use scr_plan::{joined, scratch};
use scr_term::{Ops, Profile};
use scr_terminal::Terminal;
use std::alloc::Global;

/// The number of bytes of the texts of these operations.
pub fn price_of(profile: &Profile, ops: &Ops) -> usize {
    let mut bytes: usize = 0;
    for op in &ops.0 {
        bytes = bytes.saturating_add(profile.cost(*op).unwrap_or(0));
    }
    bytes
}

/// The number of bytes of painting a picture from scratch; `None` if the sizes differ.
pub fn scratch_price(
    alloc: Global,
    profile: &Profile,
    picture: &Picture,
) -> Result<Option<usize>, NoMemory> {
    let (size, other) = (picture.size(), profile.size());
    if size.rows != other.rows || size.columns != other.columns {
        return Ok(None);
    }
    let ops = scratch(alloc, profile, picture)?;
    Ok(Some(price_of(profile, &ops)))
}

/// The number of bytes of the joined repaint that brings a terminal to a picture; `None` if the
/// sizes differ.
pub fn joined_price(
    alloc: Global,
    profile: &Profile,
    terminal: &Terminal,
    picture: &Picture,
) -> Result<Option<usize>, NoMemory> {
    let memory = Memory::of(alloc, terminal.try_clone(alloc)?)?;
    let (size, other, own) = (picture.size(), profile.size(), memory.size());
    if size.rows != other.rows || size.columns != other.columns {
        return Ok(None);
    }
    if size.rows != own.rows || size.columns != own.columns {
        return Ok(None);
    }
    match joined(alloc, profile, &memory, picture)? {
        Some(ops) => Ok(Some(price_of(profile, &ops))),
        None => Ok(None),
    }
}
