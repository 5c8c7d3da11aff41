//! Where something is in a source: its line, its column and its entry.
//!
//! A place is found by its offset in the source, in bytes from 0.

use bstr::ByteSlice;

/// Where a byte of a source is.
#[derive(Clone, Copy)]
pub(crate) struct SourcePlace<'a> {
    /// The line, counted from 1.
    pub(crate) line: u32,
    /// The column, in bytes, counted from 1.
    pub(crate) column: usize,
    /// The names of the entry, unless no entry has begun.
    pub(crate) names: Option<&'a [u8]>,
}

/// Where the byte at an offset is.
pub(crate) fn place_at(source: &[u8], offset: usize) -> SourcePlace<'_> {
    let mut place = SourcePlace {
        line: 0,
        column: 1,
        names: None,
    };
    let mut start = 0usize;
    for line in source.lines_with_terminator() {
        if start > offset {
            break;
        }
        place.line = place.line.saturating_add(1);
        place.column = offset.saturating_sub(start).saturating_add(1);
        if begins_entry(line) {
            place.names = Some(names_on(line));
        }
        start = start.saturating_add(line.len());
    }
    place
}

/// The offset of the line with this number, counted from 1.
pub(crate) fn start_of_line(source: &[u8], number: u32) -> Option<usize> {
    let mut here = 0u32;
    let mut start = 0usize;
    for line in source.lines_with_terminator() {
        here = here.saturating_add(1);
        if here == number {
            return Some(start);
        }
        start = start.saturating_add(line.len());
    }
    None
}

/// The offset of the entry at an index.
pub(crate) fn start_of_entry(source: &[u8], index: usize) -> Option<usize> {
    let mut left = index;
    let mut start = 0usize;
    for line in source.lines_with_terminator() {
        if begins_entry(line) {
            if left == 0 {
                return Some(start);
            }
            left -= 1;
        }
        start = start.saturating_add(line.len());
    }
    None
}

/// The line that begins at an offset, without its end.
pub(crate) fn line_at(source: &[u8], start: usize) -> &[u8] {
    let rest = source.get(start..).unwrap_or(&[]);
    let end = match rest.iter().position(|b| *b == b'\n') {
        Some(feed) => feed.saturating_add(1),
        None => rest.len(),
    };
    without_end(rest.get(..end).unwrap_or(rest))
}

/// Whether a line, with or without its end, begins an entry: it is not a comment, not empty, and
/// does not begin with a blank.
pub(crate) fn begins_entry(line: &[u8]) -> bool {
    match without_end(line) {
        [] => false,
        [first, ..] => *first != b'#' && !is_blank(*first),
    }
}

/// The names on a line that begins an entry.
pub(crate) fn names_on(line: &[u8]) -> &[u8] {
    let line = without_end(line);
    let end = line.iter().position(|b| *b == b',').unwrap_or(line.len());
    line.get(..end).unwrap_or(line)
}

/// A line without its line feed, and without the carriage return before that.
pub(crate) fn without_end(line: &[u8]) -> &[u8] {
    match line {
        [text @ .., b'\r', b'\n'] | [text @ .., b'\n'] => text,
        _ => line,
    }
}

/// Whether a byte is a blank or a tab, which stand between fields.
pub(crate) fn is_blank(byte: u8) -> bool {
    byte == b' ' || byte == b'\t'
}

/// The entries on the lines of a source, which are asked for in order.
#[derive(Drop)]
pub(crate) struct EntryLines<'a> {
    rest: &'a [u8],
    passed: u32,
    names: Option<&'a [u8]>,
}

impl<'a> EntryLines<'a> {
    /// Before the first line.
    pub(crate) fn new(source: &'a [u8]) -> EntryLines<'a> {
        EntryLines {
            rest: source,
            passed: 0,
            names: None,
        }
    }

    /// The names of the entry on the line with this number, which is not before the last one that
    /// was asked for.
    pub(crate) fn names_at(&mut self, number: u32) -> Option<&'a [u8]> {
        let rest = self.rest;
        let mut length = 0usize;
        for line in rest.lines_with_terminator() {
            if self.passed >= number {
                break;
            }
            self.passed = self.passed.saturating_add(1);
            length = length.saturating_add(line.len());
            if begins_entry(line) {
                self.names = Some(names_on(line));
            }
        }
        self.rest = rest.get(length..).unwrap_or(&[]);
        self.names
    }
}
