//! Lines about parameter strings.

use crate::answers::{add_made, add_refusal};
use check_harness::answers::{add_count, add_text, add_word};
use check_harness::buffers::Buffer;
use check_harness::words::CallLine;
use ti_param::{Program, RunFault, Vars, strip_padding};

/// The lines `padding TEXT`, `read-program TEXT` and `measure TEXT`, which leave all as it is. Tells whether a line is
/// one of them.
pub fn answer_of_programs(line: &mut CallLine<'_>) -> bool {
    if !matches!(line.name, "padding" | "read-program" | "measure") {
        return false;
    }
    let text = line.text();
    let (alloc, name, got) = (line.alloc, line.name, &mut line.got);
    if name == "padding" {
        let stripped = strip_padding(alloc, text.bytes());
        add_made(stripped, got, |stripped, got| add_text(stripped, got));
        return true;
    }
    add_made(Program::read(alloc, text.bytes()), got, |program, got| {
        if name == "measure" {
            add_count(program.bound() as u64, got);
            add_count(program.depth() as u64, got);
        } else {
            add_word("Ok", got);
        }
    });
    true
}

/// The line `program TEXT PARAMETER..`.
pub fn run(vars: &mut Vars, line: &mut CallLine<'_>) {
    let mut text = line.text();
    let (alloc, words, got) = (line.alloc, &mut line.words, &mut line.got);
    let mut params = [0; 9];
    for param in params.iter_mut() {
        if !words.is_at_end() {
            *param = i32::try_from(words.integer()).unwrap_or(0);
        }
    }
    let read = Program::read(alloc, text.bytes());
    add_made(
        read,
        got,
        |program, got| add_written(program, params, vars, &mut text, got),
    );
}

// Adds what a program writes, where `length` says how many bytes that is.
fn add_written(
    program: &Program,
    params: [i32; 9],
    vars: &mut Vars,
    text: &mut Buffer,
    got: &mut Buffer,
) {
    let length = program.length(params, vars);
    text.clear();
    match program.run(params, vars, text.vector()) {
        Ok(()) if length == Ok(text.bytes().len()) => add_text(text.bytes(), got),
        Err(fault) if length == Err(fault) || fault == RunFault::NoMemory => {
            add_refusal(&fault, got)
        }
        _ => add_word("another length", got),
    }
}
