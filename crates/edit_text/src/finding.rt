//! Finding bytes in lines. The definitions are in `specs/Finds.antt`.
ghost use Rattle.std.specs.Prelude.{◌≡◌, ◌<◌, length};
ghost use Rattle.edit_text.specs.Finds.{IsFound};
ghost use Rattle.edit_text.specs.Code.Searches.{IsFirstColumn, IsFirstFrom, start_in};

use crate::lines::Lines;
use crate::places::TextPlace;
use memchr::memmem;

// The first place from `from` on at which bytes occur, and otherwise the first of all.
pub(crate) fn find(lines: &Lines, from: TextPlace, bytes: &[u8]) -> Option<TextPlace>
    ensures { IsFound lines.now from bytes.now result }
{
    if bytes.is_empty() {
        return None;
    }
    match first_from(lines, from, bytes) {
        Some(place) => Some(place),
        None => first_from(lines, TextPlace { line: 0, column: 0 }, bytes),
    }
}

// The first place from `from` on at which bytes occur.
fn first_from(lines: &Lines, from: TextPlace, bytes: &[u8]) -> Option<TextPlace>
    requires { 0 < length bytes.now }
    ensures { IsFirstFrom lines.now from bytes.now result }
{
    for line in from.line..lines.count() {
        if let Some(column) = first_column(lines.bytes_of(line), start_in(line, from), bytes) {
            return Some(TextPlace { line, column });
        }
    }
    None
}

// The column from which a line is searched: the first one, but in the line of `from` its own.
fn start_in(line: usize, from: TextPlace) -> usize
    ensures { result ≡ start_in line from }
{
    if line == from.line { from.column } else { 0 }
}

// The first column of a line from `start` on at which bytes occur.
fn first_column(line: &[u8], start: usize, bytes: &[u8]) -> Option<usize>
    requires { 0 < length bytes.now }
    ensures { IsFirstColumn line.now start bytes.now result }
{
    let rest = line.get(start..)?;
    let column = memmem::find(rest, bytes)?;
    Some(start + column)
}
