//! What the screen shows of a line: how each part of it is shown, and the columns that it needs.

use edit_text::{TextPart, first_part};

/// A tab reaches to the next column that is a multiple of this.
const TAB: usize = 8;

/// What a tab is shown as, as much of it as it needs.
pub(crate) const BLANKS: [u8; TAB] = [b' '; TAB];

/// Whether a byte is shown as itself: it is a printable character of ASCII.
pub(crate) fn is_printable(byte: u8) -> bool {
    matches!(byte, 32..=126)
}

/// How many columns a part of a line needs that is shown from a column on, which is counted from the line's first. A
/// character of one column is shown as itself.
pub(crate) fn width_at(column: usize, part: TextPart) -> usize {
    match part {
        TextPart::Character(_) | TextPart::Byte(32..=126) => 1,
        TextPart::Byte(b'\t') => TAB - column % TAB,
        TextPart::Byte(128..=255) => 4,
        TextPart::Byte(_) => 2,
    }
}

/// What is shown of a byte that is not printable, in its first `width_at` places: `^X` for a control character, `\ooo`
/// in octal from 128 on.
pub(crate) fn form_of(byte: u8) -> [u8; 4] {
    if byte < 128 {
        return [b'^', byte ^ 64, b' ', b' '];
    }
    [
        b'\\',
        b'0' + (byte >> 6),
        b'0' + (byte >> 3) % 8,
        b'0' + byte % 8,
    ]
}

/// How many printable bytes a text begins with.
pub(crate) fn printable_length(text: &[u8]) -> usize {
    match text.iter().position(|&byte| !is_printable(byte)) {
        Some(place) => place,
        None => text.len(),
    }
}

/// The part that bytes begin with, and the bytes after it.
pub(crate) fn cut_part(bytes: &[u8]) -> Option<(TextPart, &[u8])> {
    let part = first_part(bytes)?;
    Some((part, bytes.get(part.len()..).unwrap_or(&[])))
}

/// The column, from the line's first, in which the part after the first `count` bytes is shown.
pub(crate) fn column_of(line: &[u8], count: usize) -> usize {
    let mut rest = line.get(..count).unwrap_or(line);
    let mut column = 0usize;
    for _ in 0..rest.len() {
        let printable = printable_length(rest);
        column = column.saturating_add(printable);
        let Some((part, after)) = cut_part(rest.get(printable..).unwrap_or(&[])) else {
            break;
        };
        column = column.saturating_add(width_at(column, part));
        rest = after;
    }
    column
}

/// How many parts the first `count` bytes of a line are.
pub(crate) fn parts_before(line: &[u8], count: usize) -> usize {
    let mut rest = line.get(..count).unwrap_or(line);
    let mut parts = 0usize;
    for _ in 0..rest.len() {
        let printable = printable_length(rest);
        parts = parts.saturating_add(printable);
        let Some((_, after)) = cut_part(rest.get(printable..).unwrap_or(&[])) else {
            break;
        };
        parts = parts.saturating_add(1);
        rest = after;
    }
    parts
}

/// How many bytes of a line are those of the parts that are shown before a column, wholly.
pub(crate) fn bytes_before(line: &[u8], column: usize) -> usize {
    let mut rest = line;
    let mut end = 0usize;
    for _ in 0..line.len() {
        let Some((part, after)) = cut_part(rest) else {
            break;
        };
        end = end.saturating_add(width_at(end, part));
        if end > column {
            break;
        }
        rest = after;
    }
    line.len().saturating_sub(rest.len())
}

/// The first column of a line that its row shows so that the cursor's column is within the row: 0, or a multiple of
/// half a row for a cursor that is further to the right.
pub(crate) fn first_shown(cursor: usize, columns: usize) -> usize {
    let half = columns / 2;
    if cursor < columns || half == 0 {
        return if half == 0 { cursor } else { 0 };
    }
    (cursor / half - 1) * half
}

/// Whether a part stands between words: a blank, a tab, or a line feed.
pub(crate) fn is_blank(part: TextPart) -> bool {
    matches!(part, TextPart::Byte(b' ' | b'\t' | b'\n'))
}

/// The last blank of a line, at a column up to `most` and after something else, that is before the byte `end`: where a
/// line that is too long is broken.
pub(crate) fn last_break(line: &[u8], end: usize, most: usize) -> Option<usize> {
    let mut found = None;
    let mut rest = line.get(..end).unwrap_or(line);
    let mut place = 0usize;
    let mut column = 0usize;
    let mut is_text = false;
    for _ in 0..line.len() {
        let (part, after) = match cut_part(rest) {
            Some(cut) if column <= most => cut,
            _ => return found,
        };
        if !is_blank(part) {
            is_text = true;
        } else if is_text {
            found = Some(place);
        }
        column = column.saturating_add(width_at(column, part));
        place = place.saturating_add(part.len());
        rest = after;
    }
    found
}
