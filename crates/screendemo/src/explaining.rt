//! The lines that explain an update.

use crate::last_update::{LastUpdate, open, run_to_update};
use crate::pages::Page;
use crate::pricing::{joined_price, price_of, scratch_price};
use crate::scripts::{count_updates, first_size};
use scr_cells::{Charset, NoMemory};
use scr_term::{Op, Ops, Profile};
use screen_scripts::{DemoFault, cut_line};
use std::alloc::Global;

// The widths of an operation's name and of the number of its bytes.
const NAME_WIDTH: usize = 16;

const COUNT_WIDTH: usize = 4;

/// Explains the last update of a script: a line for each operation, with characters in a row on one
/// line, and a last line with the number of all bytes. If the script has no update, there is no
/// line.
///
/// Refused at a bad line of the script, or with `NoMemory`.
pub fn explanation(alloc: Global, charset: Charset, script: &[u8]) -> Result<Vec<u8>, DemoFault> {
    let mut page = Page::new(alloc);
    explain(alloc, charset, script, &mut page)?;
    page.done().map_err(|_| DemoFault::NoMemory)
}

// Explains the last update of a script, if there is one.
fn explain(
    alloc: Global,
    charset: Charset,
    script: &[u8],
    page: &mut Page,
) -> Result<(), DemoFault> {
    if script.is_empty() {
        return Ok(());
    }
    let (line, lines) = cut_line(script);
    let size = first_size(alloc, line)?;
    let updates = count_updates(alloc, lines)?;
    if updates > 0 {
        let opened = open(alloc, charset, size).map_err(|_| DemoFault::NoMemory)?;
        return explain_update(alloc, opened, lines, updates, page).map_err(|_| DemoFault::NoMemory);
    }
    Ok(())
}

// Explains the update with this number, on a screen without an update yet.
fn explain_update(
    alloc: Global,
    opened: LastUpdate,
    lines: &[u8],
    updates: u32,
    page: &mut Page,
) -> Result<(), NoMemory> {
    let mut last = opened;
    run_to_update(alloc, lines, updates, &mut last)?;
    add_plan(alloc, &last.profile, &last.plan, page);
    add_sums(alloc, &last, page)
}

// Adds a line for each operation, with characters in a row on one line.
fn add_plan(alloc: Global, profile: &Profile, plan: &Ops, page: &mut Page) {
    let mut text = Vec::new(alloc);
    for op in &plan.0 {
        add_op(profile, *op, &mut text, page);
    }
    add_characters(&mut text, page);
}

// Adds the line for an operation, after that for the characters before it. A character waits for
// others, and adds no line.
fn add_op(profile: &Profile, op: Op, characters: &mut Vec<u8>, page: &mut Page) {
    match op {
        Op::Put(byte) => {
            let pushed = characters.push(byte);
            page.check(pushed.is_ok());
        }
        Op::Write(character) => {
            let mut spelled = [0; 4];
            let spelled = character.encode_utf8(&mut spelled);
            let pushed = characters.extend_from_slice(spelled.as_bytes());
            page.check(pushed.is_ok());
        }
        _ => {
            add_characters(characters, page);
            add_operation(profile, op, characters, page);
        }
    }
}

// Adds the line for the waiting characters, if there are any; none wait afterwards.
fn add_characters(characters: &mut Vec<u8>, page: &mut Page) {
    let count = count_of(characters);
    if count > 0 {
        let before = page.len();
        page.add_number(count, 0);
        page.add(if count == 1 {
            b" character"
        } else {
            b" characters"
        });
        add_count(before, characters.len(), page);
        page.add(b"|");
        page.add(characters);
        page.add(b"|\n");
    }
    characters.clear();
}

// How many characters a text in UTF-8 has.
fn count_of(text: &[u8]) -> usize {
    match std::str::from_utf8(text) {
        Ok(text) => text.chars().count(),
        Err(_) => text.len(),
    }
}

// Adds the line for an operation. `text` is an empty buffer, and is empty again afterwards.
fn add_operation(profile: &Profile, op: Op, text: &mut Vec<u8>, page: &mut Page) {
    let before = page.len();
    page.add_value(&op);
    if profile.has(op) {
        let rendered = profile.render(op, text);
        page.check(rendered.is_ok());
    }
    add_count(before, text.len(), page);
    page.add_spelled(text);
    page.add(b"\n");
    text.clear();
}

// Adds a number of bytes, in its column after a name that begins after `before` bytes.
fn add_count(before: usize, count: usize, page: &mut Page) {
    page.add_blanks(page.len(), before.saturating_add(NAME_WIDTH));
    page.add_number(count, COUNT_WIDTH);
    page.add(b"  ");
}

/// Adds the number of bytes of the last update, and of what it is compared with.
pub fn add_sums(alloc: Global, last: &LastUpdate, page: &mut Page) -> Result<(), NoMemory> {
    let picture = last.screen.picture();
    let scratch = scratch_price(alloc, &last.profile, picture)?;
    let joined = if last.is_known {
        joined_price(alloc, &last.profile, &last.terminal, picture)?
    } else {
        None
    };
    add_sum(b"plan ", Some(price_of(&last.profile, &last.plan)), page);
    add_sum(b", joined ", joined, page);
    add_sum(b", scratch ", scratch, page);
    page.add(b"\n");
    Ok(())
}

// Adds a word and a number.
fn add_sum(word: &[u8], sum: Option<usize>, page: &mut Page) {
    page.add(word);
    match sum {
        Some(sum) => page.add_number(sum, 0),
        None => page.add(b"none"),
    }
}
