//! Texts that mean something else to ncurses' `tic`: those with an unescaped `%^`.
//!
//! In a source `^` makes a control character of the next byte (terminfo(5), "Types of
//! Capabilities"), here wherever it stands. After `%` ncurses takes it for the operator of
//! terminfo(5), "Parameterized Strings", which is to be written `%\^`.

/// A note on a text with an unescaped `%^`.
#[derive(Clone, Copy)]
pub struct CaretNote<'a> {
    /// The line of the field, counted from 1.
    pub line: u32,
    /// The name of the field.
    pub name: &'a [u8],
    /// How many notes of the first reading are on this field and those before it.
    pub earlier: usize,
}

// What the next byte of a text follows.
#[derive(Clone, Copy, PartialEq, Eq)]
enum Before {
    /// `%`, escaped or not.
    Percent,
    /// A backslash that takes the next byte.
    Backslash,
    /// A `^` that takes the next byte.
    Caret,
    Other,
}

/// Whether a `^` that makes a control character follows `%` in a text that is not decoded yet. As
/// the last byte it makes none.
pub(crate) fn has_caret(text: &[u8]) -> bool {
    let Some((_, inner)) = text.split_last() else {
        return false;
    };
    let mut before = Before::Other;
    for byte in inner {
        if before == Before::Percent && *byte == b'^' {
            return true;
        }
        before = after(before, *byte);
    }
    false
}

fn after(before: Before, byte: u8) -> Before {
    match before {
        Before::Caret => Before::Other,
        Before::Backslash if byte == b'%' => Before::Percent,
        Before::Backslash => Before::Other,
        Before::Percent | Before::Other => begun(byte),
    }
}

fn begun(byte: u8) -> Before {
    match byte {
        b'%' => Before::Percent,
        b'\\' => Before::Backslash,
        b'^' => Before::Caret,
        _ => Before::Other,
    }
}
