//! What brings a terminal to a picture, and how many bytes that has: as many as an update may send.

use check_harness::troubles::Trouble;
use scr_cells::Picture;
use scr_memory::Memory;
use scr_plan::{joined, scratch};
use scr_term::{Op, Ops, Profile};
use scr_terminal::Terminal;
use std::alloc::Global;

/// What paints a picture from scratch.
pub fn scratch_on(alloc: Global, profile: &Profile, picture: &Picture) -> Result<Ops, Trouble> {
    let (size, other) = (picture.size(), profile.size());
    if size.rows != other.rows || size.columns != other.columns {
        return Err(Trouble::Bad("the profile has another size"));
    }
    Ok(scratch(alloc, profile, picture)?)
}

/// The joined repaint from what a terminal shows to a picture.
pub fn joined_on(
    alloc: Global,
    profile: &Profile,
    terminal: &Terminal,
    picture: &Picture,
) -> Result<Ops, Trouble> {
    let memory = Memory::of(alloc, terminal.try_clone(alloc)?)?;
    let (size, other, own) = (picture.size(), profile.size(), memory.size());
    if size.rows != other.rows || size.columns != other.columns {
        return Err(Trouble::Bad("the profile has another size"));
    }
    if size.rows != own.rows || size.columns != own.columns {
        return Err(Trouble::Bad("the terminal has another size"));
    }
    let found = joined(alloc, profile, &memory, picture)?;
    found.ok_or(Trouble::Bad("the profile has not the pen of the terminal"))
}

/// How many bytes operations have.
pub fn bytes_of(profile: &Profile, ops: &[Op]) -> usize {
    let mut bytes: usize = 0;
    for op in ops {
        bytes = bytes.saturating_add(profile.cost(*op).unwrap_or(0));
    }
    bytes
}
