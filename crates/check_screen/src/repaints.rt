//! Lines about what brings a terminal to a picture: from scratch, the joined repaint, and the plain one, which paints
//! each place by itself that differs from what is remembered.

use crate::operations::add_op;
use crate::subjects::{Subjects, ready};
use check_harness::answers::{add_count, add_text};
use check_harness::troubles::Trouble;
use check_harness::words::CallLine;
use generated_sessions::{add_defined, bytes_of, joined_on, scratch_on, step_on};
use scr_cells::{NoMemory, Picture};
use scr_plan::{plain, scratch_bytes};
use scr_term::{Op, Ops, Profile};
use std::alloc::Global;

/// The lines `scratch`, `painted`, `painted_count`, `joined`, `joined_count`, `plain`, `plain_texts` and `plain_count`:
/// operations by their names, each by its bytes and how many there are, or how many operations and how many bytes there
/// are; `scratch_bytes`, all bytes of the first, and `feed_painted`, which feeds them to the screen. The terminal does
/// the joined repaint. Tells whether a line is one of them.
pub fn answer_of_repaint(
    subjects: &mut Subjects,
    line: &mut CallLine<'_>,
) -> Result<bool, Trouble> {
    let alloc = line.alloc;
    let ops = match line.name {
        "scratch" | "painted" | "painted_count" => {
            let (profile, picture) = painted(subjects)?;
            scratch_on(alloc, profile, picture)?
        }
        "joined" | "joined_count" => joined_of(alloc, subjects)?,
        "plain" | "plain_texts" | "plain_count" => plain_of(alloc, subjects)?,
        "scratch_bytes" | "feed_painted" => {
            let bytes = bytes_of_scratch(alloc, subjects)?;
            match &mut subjects.ecma {
                _ if line.name == "scratch_bytes" => add_text(&bytes, &mut line.got),
                Some(screen) => add_defined(screen.feed(&bytes).is_ok(), &mut line.got),
                None => return Err(Trouble::Bad("no screen")),
            }
            return Ok(true);
        }
        _ => return Ok(false),
    };
    add_ops(ready(&subjects.profile, "no profile")?, &ops, line)?;
    Ok(true)
}

// Adds operations in the form that a line wants.
fn add_ops(profile: &Profile, ops: &Ops, line: &mut CallLine<'_>) -> Result<(), Trouble> {
    let (name, got) = (line.name, &mut line.got);
    let mut bytes = Vec::new(line.alloc);
    if matches!(name, "scratch" | "joined" | "plain") {
        for op in &ops.0 {
            add_op(*op, got);
        }
        return Ok(());
    }
    if name.ends_with("_count") {
        add_count(ops.0.len() as u64, got);
    } else {
        for op in &ops.0 {
            bytes.clear();
            render(profile, *op, &mut bytes)?;
            add_text(&bytes, got);
        }
    }
    add_count(bytes_of(profile, &ops.0) as u64, got);
    Ok(())
}

// Adds the bytes of an operation; none of one that the profile has not.
fn render(profile: &Profile, op: Op, bytes: &mut Vec<u8>) -> Result<(), NoMemory> {
    if profile.has(op) {
        profile.render(op, bytes)
    } else {
        Ok(())
    }
}

// The terminal's operations, and what is to be shown.
fn painted(subjects: &Subjects) -> Result<(&Profile, &Picture), Trouble> {
    Ok((
        ready(&subjects.profile, "no profile")?,
        ready(&subjects.picture, "no picture")?,
    ))
}

// The joined repaint, which the terminal does.
fn joined_of(alloc: Global, subjects: &mut Subjects) -> Result<Ops, Trouble> {
    let profile = ready(&subjects.profile, "no profile")?;
    let picture = ready(&subjects.picture, "no picture")?;
    let Some(terminal) = &mut subjects.terminal else {
        return Err(Trouble::Bad("no terminal"));
    };
    let ops = joined_on(alloc, profile, terminal, picture)?;
    for op in &ops.0 {
        let _ = step_on(terminal, profile, *op)?;
    }
    Ok(ops)
}

fn plain_of(alloc: Global, subjects: &Subjects) -> Result<Ops, Trouble> {
    let (profile, picture) = painted(subjects)?;
    let memory = ready(&subjects.memory, "nothing is remembered")?;
    let (size, other, own) = (picture.size(), profile.size(), memory.size());
    if size.rows != other.rows || size.columns != other.columns {
        return Err(Trouble::Bad("the profile has another size"));
    }
    if size.rows != own.rows || size.columns != own.columns {
        return Err(Trouble::Bad("another size is remembered"));
    }
    Ok(plain(alloc, profile, memory, picture)?)
}

fn bytes_of_scratch(alloc: Global, subjects: &Subjects) -> Result<Vec<u8>, Trouble> {
    let (profile, picture) = painted(subjects)?;
    let (size, other) = (picture.size(), profile.size());
    if size.rows != other.rows || size.columns != other.columns {
        return Err(Trouble::Bad("the profile has another size"));
    }
    Ok(scratch_bytes(alloc, profile, picture)?)
}
