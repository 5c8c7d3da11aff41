//! Whether given operations could be sent as the last update of a script.

use crate::explaining::add_sums;
use crate::failures::DemoFailure;
use crate::last_update::{LastUpdate, open, run_before_update, step};
use crate::operations::{Listed, OperationsFault, read_operations};
use crate::pages::Page;
use crate::scripts::{count_updates, first_size};
use curses::{CheckFault, NotAPlan};
use scr_cells::{Charset, NoMemory};
use scr_plan::scratch;
use scr_term::Profile;
use scr_terminal::Terminal;
use screen_scripts::{DemoFault, cut_line};
use std::alloc::Global;

/// Checks operations in place of those of a script's last update: a line with the number of their bytes, and of what
/// these are compared with.
///
/// Refused with `NotAPlan` and the reason, also if the script has no update; with `Operation` and the number of a line
/// that is none; at a bad line of the script; or with `NoMemory`.
pub fn verdict(
    alloc: Global,
    charset: Charset,
    script: &[u8],
    operations: &[u8],
) -> Result<Vec<u8>, DemoFailure> {
    let listed = match read_operations(alloc, operations) {
        Ok(listed) => listed,
        Err(OperationsFault::Bad(line)) => return Err(DemoFailure::Operation(line)),
        Err(OperationsFault::NoMemory) => return Err(DemoFailure::NoMemory),
    };
    let mut last = before_last(alloc, charset, script)?;
    let mut page = Page::new(alloc);
    match last.screen.check(alloc, &listed.ops.0) {
        Ok(()) => {
            last.plan = listed.ops;
            add_sums(alloc, &last, &mut page).map_err(|_| DemoFailure::NoMemory)?;
            page.done().map_err(|_| DemoFailure::NoMemory)
        }
        Err(CheckFault::NotAPlan(fault)) => Err(refusal(alloc, fault, &listed, &last)),
        Err(CheckFault::NoMemory) => Err(DemoFailure::NoMemory),
    }
}

// The screen of a script as its last update finds it.
fn before_last(alloc: Global, charset: Charset, script: &[u8]) -> Result<LastUpdate, DemoFailure> {
    if script.is_empty() {
        return Err(none(alloc));
    }
    let (line, lines) = cut_line(script);
    let size = first_size(alloc, line).map_err(DemoFailure::Demo)?;
    let updates = count_updates(alloc, lines).map_err(DemoFailure::Demo)?;
    if updates == 0 {
        return Err(none(alloc));
    }
    let mut last = open(alloc, charset, size).map_err(|_| DemoFailure::NoMemory)?;
    run_before_update(alloc, lines, updates, &mut last).map_err(|_| DemoFailure::NoMemory)?;
    Ok(last)
}

fn none(alloc: Global) -> DemoFailure {
    match "there is no update".to_string(alloc) {
        Ok(reason) => DemoFailure::NotAPlan(reason),
        Err(_) => DemoFailure::NoMemory,
    }
}

// The refusal, with the place of what is wrong where that is known.
fn refusal(alloc: Global, fault: NotAPlan, listed: &Listed, last: &LastUpdate) -> DemoFailure {
    match explained(alloc, fault, listed, last) {
        Ok(reason) => DemoFailure::NotAPlan(reason),
        Err(_) => DemoFailure::NoMemory,
    }
}

fn explained(
    alloc: Global,
    fault: NotAPlan,
    listed: &Listed,
    last: &LastUpdate,
) -> Result<String, NoMemory> {
    let place = if last.is_known {
        place_of(alloc, fault, listed, last)?
    } else {
        String::new(alloc)
    };
    Ok(format!(in alloc; "{fault}{place}")?)
}

// Where the operations are no plan: at a line, in a place of the screen, or in that of the cursor.
fn place_of(
    alloc: Global,
    fault: NotAPlan,
    listed: &Listed,
    last: &LastUpdate,
) -> Result<String, NoMemory> {
    let mut shown = last.terminal.try_clone(alloc)?;
    match (fault, ran(&last.profile, listed, &mut shown)) {
        (NotAPlan::Undefined, Some(line)) => Ok(format!(in alloc; ", line {line}")?),
        (NotAPlan::Unlike, None) => {
            let wanted = painted(alloc, last)?;
            match first_unlike(&shown, &wanted) {
                Some((row, column)) => Ok(format!(in alloc; ", row {row}, column {column}")?),
                None => Ok(format!(in alloc; ", cursor")?),
            }
        }
        _ => Ok(String::new(alloc)),
    }
}

// A terminal that shows what the last update brings it to.
fn painted(alloc: Global, last: &LastUpdate) -> Result<Terminal, NoMemory> {
    let (profile, picture) = (&last.profile, last.screen.picture());
    let (size, own) = (profile.size(), picture.size());
    let mut terminal = Terminal::new(alloc, size)?;
    if size.rows != own.rows || size.columns != own.columns {
        return Ok(terminal);
    }
    for op in &scratch(alloc, profile, picture)?.0 {
        let _ = step(profile, *op, &mut terminal);
    }
    Ok(terminal)
}

// Runs operations on a terminal; the line of the first that is undefined.
fn ran(profile: &Profile, listed: &Listed, terminal: &mut Terminal) -> Option<u32> {
    for (op, line) in listed.ops.0.iter().zip(&listed.lines) {
        if !step(profile, *op, terminal) {
            return Some(*line);
        }
    }
    None
}

// The first place in which two terminals of one size show something else.
fn first_unlike(one: &Terminal, other: &Terminal) -> Option<(u32, u32)> {
    let (size, own) = (one.size(), other.size());
    for row in 0..size.rows.min(own.rows) {
        for column in 0..size.columns.min(own.columns) {
            if one.cell(row, column) != other.cell(row, column) {
                return Some((row, column));
            }
        }
    }
    None
}
