//! Lines about a terminal that is stepped by operations, and about what is remembered of one.

use crate::operations::read_op;
use crate::subjects::{Subjects, ready};
use check_harness::answers::{
    add_any, add_colour, add_flag, add_look, add_number, add_place, add_text_shown, add_word,
};
use check_harness::buffers::Buffer;
use check_harness::troubles::Trouble;
use check_harness::words::CallLine;
use generated_sessions::{add_defined, add_spot, step_on};
use scr_cells::{Look, Size};
use scr_memory::Memory;
use scr_term::Profile;
use scr_terminal::Terminal;

/// The lines `step OP`, `terminal_spot`, `terminal_attrs`, `terminal_colours`, `terminal_at R C` and
/// `terminal_rows`. Tells whether a line is one of them.
pub fn answer_of_terminal(
    subjects: &mut Subjects,
    line: &mut CallLine<'_>,
) -> Result<bool, Trouble> {
    let Some(terminal) = &mut subjects.terminal else {
        return Ok(false);
    };
    let (words, got) = (&mut line.words, &mut line.got);
    match line.name {
        "step" => {
            let (op, profile) = (read_op(words)?, ready(&subjects.profile, "no profile")?);
            add_defined(step_on(terminal, profile, op)?, got);
        }
        "terminal_spot" => add_spot(terminal.spot(), got),
        "terminal_attrs" => add_number(i64::from(terminal.attrs().0), got),
        "terminal_colours" => add_colours(terminal.colours(), got),
        "terminal_at" => add_at(row_of(terminal, words.number()), words.number(), got)?,
        "terminal_rows" => {
            for row in 0..terminal.size().rows {
                add_text_shown(row_of(terminal, row), got);
            }
        }
        _ => return Ok(false),
    }
    Ok(true)
}

/// Adds a number of rows and one of columns.
pub fn add_size(size: Size, got: &mut Buffer) {
    add_place(size.rows, size.columns, got);
}

/// Adds a foreground and a background.
pub fn add_colours(colours: (Option<u8>, Option<u8>), got: &mut Buffer) {
    add_colour(colours.0, got);
    add_colour(colours.1, got);
}

/// Adds the look in a column of a row, which has to be there.
pub fn add_at(row: &[Look], column: u32, got: &mut Buffer) -> Result<(), Trouble> {
    match row.get(column as usize) {
        Some(look) => add_look(*look, got),
        None => return Err(Trouble::Bad("no such place")),
    }
    Ok(())
}

// The looks of a row, none where there is no such row.
fn row_of(terminal: &Terminal, row: u32) -> &[Look] {
    if row < terminal.size().rows {
        terminal.row(row)
    } else {
        &[]
    }
}

/// Adds all that is shown, where the cursor is, and the pen.
pub fn dump_terminal(terminal: &Terminal, bytes: &mut Buffer) {
    for row in 0..terminal.size().rows {
        dump_looks(row_of(terminal, row), bytes);
    }
    add_spot(terminal.spot(), bytes);
    add_number(i64::from(terminal.attrs().0), bytes);
    add_colours(terminal.colours(), bytes);
}

/// Adds looks.
pub fn dump_looks(looks: &[Look], bytes: &mut Buffer) {
    for look in looks {
        add_look(*look, bytes);
    }
}

/// The lines `follow OP`, `disturb FIRST N` and `known`. Tells whether a line is one of them.
pub fn answer_of_memory(subjects: &mut Subjects, line: &mut CallLine<'_>) -> Result<bool, Trouble> {
    let Some(memory) = &mut subjects.memory else {
        return Ok(false);
    };
    match line.name {
        "follow" => follow(memory, ready(&subjects.profile, "no profile")?, line)?,
        "disturb" => memory.disturb(line.words.number(), line.words.number()),
        "known" => {
            add_flag(memory.known(), &mut line.got);
            return Ok(true);
        }
        _ => return Ok(false),
    }
    add_word("Ok", &mut line.got);
    Ok(true)
}

fn follow(memory: &mut Memory, profile: &Profile, line: &mut CallLine<'_>) -> Result<(), Trouble> {
    let op = read_op(&mut line.words)?;
    let (size, other) = (memory.size(), profile.size());
    if size.rows != other.rows || size.columns != other.columns {
        return Err(Trouble::Bad("the profile has another size"));
    }
    memory.follow(profile, op);
    Ok(())
}

/// Adds which rows are known and what they show, where the cursor is and what is written with, as far as these are
/// known.
pub fn dump_memory(memory: &Memory, bytes: &mut Buffer) {
    for row in 0..memory.size().rows {
        add_any(memory.row(row), bytes, dump_looks);
    }
    add_any(memory.spot(), bytes, add_spot);
    add_any(memory.pen(), bytes, |pen, bytes| {
        add_number(i64::from(pen.attrs().0), bytes);
        add_colours((pen.foreground(), pen.background()), bytes);
    });
}
