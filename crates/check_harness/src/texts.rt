//! Texts in quotation marks: how they are read, and how bytes are written as one.

use crate::buffers::Buffer;
use crate::troubles::Trouble;
use scr_cells::is_ascii;

/// Adds the bytes of a text: pieces in quotation marks with `+` between, and `*N` after one that is repeated.
/// `\n`, `\t`, `\e`, `\"`, `\\` and `\xHH` stand for bytes.
pub fn read_text(word: &[u8], bytes: &mut Buffer) -> Result<(), Trouble> {
    let mut rest = word;
    for _ in 0..word.len() {
        let begin = bytes.bytes().len();
        rest = repeat(begin, read_piece(rest, bytes)?, bytes)?;
        rest = match rest {
            [] => return bytes.done(),
            [b'+', rest @ ..] => rest,
            _ => return Err(Trouble::Bad("a text goes on after its end")),
        };
    }
    Err(Trouble::Bad("no text"))
}

// Adds a piece in quotation marks, and gives what comes after it.
fn read_piece<'a>(text: &'a [u8], bytes: &mut Buffer) -> Result<&'a [u8], Trouble> {
    let [b'"', rest @ ..] = text else {
        return Err(Trouble::Bad("no text"));
    };
    let mut rest = rest;
    for _ in 0..text.len() {
        rest = match rest {
            [] => break,
            [b'"', rest @ ..] => return Ok(rest),
            [b'\\', b'x', high, low, rest @ ..] => {
                bytes.push(digit(*high)?.wrapping_mul(16) | digit(*low)?);
                rest
            }
            [b'\\', byte, rest @ ..] => {
                bytes.push(escaped(*byte)?);
                rest
            }
            [byte, rest @ ..] => {
                bytes.push(*byte);
                rest
            }
        };
    }
    Err(Trouble::Bad("a text has no end"))
}

// The byte that is meant after a backslash.
fn escaped(byte: u8) -> Result<u8, Trouble> {
    match byte {
        b'n' => Ok(b'\n'),
        b't' => Ok(b'\t'),
        b'e' => Ok(27),
        b'"' | b'\\' => Ok(byte),
        _ => Err(Trouble::Bad("no such escape")),
    }
}

// Repeats the bytes from a place on if `*N` follows their piece, and gives what comes after it.
fn repeat<'a>(begin: usize, text: &'a [u8], bytes: &mut Buffer) -> Result<&'a [u8], Trouble> {
    let [b'*', digits @ ..] = text else {
        return Ok(text);
    };
    let (mut rest, mut count) = (digits, 0usize);
    for _ in 0..digits.len() {
        rest = match rest {
            [byte, rest @ ..] if *byte != b'+' => {
                count = count
                    .saturating_mul(10)
                    .saturating_add(usize::from(digit(*byte)?));
                rest
            }
            _ => break,
        };
    }
    let end = bytes.bytes().len();
    for _ in 1..count {
        for place in begin..end {
            let byte = bytes.bytes().get(place).copied().unwrap_or(0);
            bytes.push(byte);
        }
    }
    Ok(rest)
}

// The number that a hexadecimal digit stands for.
fn digit(byte: u8) -> Result<u8, Trouble> {
    match byte {
        b'0'..=b'9' => Ok(byte - b'0'),
        b'a'..=b'f' => Ok(byte - b'a' + 10),
        _ => Err(Trouble::Bad("no digit")),
    }
}

/// Adds bytes as a text in quotation marks.
pub fn write_text(bytes: &[u8], text: &mut Buffer) {
    text.push(b'"');
    for byte in bytes {
        write_byte(*byte, text);
    }
    text.push(b'"');
}

/// Adds a byte as it is written within a text.
pub fn write_byte(byte: u8, text: &mut Buffer) {
    match byte {
        b'\n' => text.extend(b"\\n"),
        b'\t' => text.extend(b"\\t"),
        27 => text.extend(b"\\e"),
        b'"' | b'\\' => text.extend(&[b'\\', byte]),
        _ if is_ascii(byte) => text.push(byte),
        _ => text.extend(&[b'\\', b'x', hexadecimal(byte / 16), hexadecimal(byte % 16)]),
    }
}

// The hexadecimal digit of a number below 16.
fn hexadecimal(n: u8) -> u8 {
    match n {
        0..10 => n + b'0',
        10..16 => n - 10 + b'a',
        _ => b'?',
    }
}
