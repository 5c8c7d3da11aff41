//! Why a line is not a call.

use std::fmt;
use std::fmt::{Display, Formatter};

/// Of a word as many bytes are shown.
const MOST_SHOWN: usize = 60;

/// Why a line is not a call, or not a command of a script: the first thing that is wrong. As text it shows at most 60
/// bytes of a word; a byte that does not print is an octal escape.
#[derive(Clone, Copy, Debug)]
pub enum Reason<'a> {
    /// The line is empty.
    Empty,
    /// Nothing has this name.
    Unknown(&'a [u8]),
    /// There are more words than the call takes, or fewer.
    WrongCount,
    /// A word is empty: there are two blanks in a row, or one at an end of the line.
    EmptyWord,
    /// A word is no number.
    NotNumber(&'a [u8]),
    /// A number is too great, or too small.
    OutOfRange,
    /// There is no screen of this size.
    WrongSize,
    /// A setting is neither 0 nor 1.
    NotSetting(&'a [u8]),
    /// A word is not one character of ASCII that prints.
    NotCharacter(&'a [u8]),
    /// A byte is not spelled by two hexadecimal digits.
    NotHexadecimal(&'a [u8]),
    /// A text is not in quotation marks, or has an escape that is none.
    NotQuoted(&'a [u8]),
    /// A text of characters is not UTF-8.
    NotUtf8,
}

impl<'a> Display for Reason<'a> {
    fn fmt<W: fmt::Write>(&self, f: &mut Formatter<W>) -> fmt::Result {
        match self {
            Reason::Unknown(word) => show(self.words(), " ", word, f),
            Reason::NotNumber(word)
            | Reason::NotSetting(word)
            | Reason::NotCharacter(word)
            | Reason::NotHexadecimal(word)
            | Reason::NotQuoted(word) => show(self.words(), ": ", word, f),
            _ => f.write_str(self.words()),
        }
    }
}

impl<'a> Reason<'a> {
    /// The reason without the word that it shows.
    pub fn words(&self) -> &'static str {
        match self {
            Reason::Empty => "empty line",
            Reason::Unknown(_) => "unknown command",
            Reason::NotNumber(_) => "not a number",
            Reason::NotSetting(_) => "not 0 or 1",
            Reason::NotCharacter(_) => "not one character of 33 to 126",
            Reason::NotHexadecimal(_) => "not two hexadecimal digits",
            Reason::WrongCount => "wrong number of words",
            Reason::EmptyWord => "a blank too many",
            Reason::OutOfRange => "number out of range",
            Reason::WrongSize => "size outside 1 to 500",
            Reason::NotQuoted(_) => "not a text in quotation marks",
            Reason::NotUtf8 => "not UTF-8",
        }
    }
}

// Writes what is wrong, and the beginning of the word.
fn show<W: fmt::Write>(
    wrong: &str,
    between: &str,
    word: &[u8],
    f: &mut Formatter<W>,
) -> fmt::Result {
    f.write_str(wrong)?;
    f.write_str(between)?;
    for byte in word.get(..MOST_SHOWN).unwrap_or(word) {
        show_byte(*byte, f)?;
    }
    f.write_str(if word.len() > MOST_SHOWN { "..." } else { "" })
}

fn show_byte<W: fmt::Write>(byte: u8, f: &mut Formatter<W>) -> fmt::Result {
    if byte.is_ascii_graphic() {
        f.write_char(char::from(byte))
    } else {
        write!(f, "\\{byte:03o}")
    }
}
