//! Decoding the text of a string field: its escapes.

ghost use Rattle.std.specs.Prelude.{◌≡◌, ◌≤◌, ◌<◌, false, length, IfOk, IsTrue};
ghost use Rattle.ti_caps.specs.Description.{has_nul};
ghost use Rattle.ti_source.specs.Reading.Escape.{begins_octal, control, decoded, is_octal, letter, meant, not_nul, octal, written_length};
ghost use Rattle.ti_source.specs.Code.Plain.{is_plain};
ghost use Rattle.ti_source.specs.Reading.Spelling.{AreSpelled};

use std::alloc::{AllocError, Global};
use ti_caps::Bytes;

/// The text that a string field means (terminfo(5), "Types of Capabilities"). Fails only when memory runs out.
pub fn decode(alloc: Global, text: &[u8]) -> Result<Bytes, AllocError>
    ensures value { IfOk result (λ bytes. bytes ≡ decoded text.now) }
    ensures whole { IfOk result (λ bytes. has_nul bytes ≡ false) }
{
    let mut decoded = Vec::with_capacity(alloc, text.len())?;
    let mut rest = text;
    while !rest.is_empty() {
        let (value, length) = character(rest);
        decoded.push(value)?;
        rest = &rest[length..];
    }
    Ok(Bytes(decoded))
}

/// Law: a string field means the text that its bytes spell, by a rule for each escape (terminfo(5),
/// "Types of Capabilities"), and they spell no other text.
pub fn texts_are_spelled()
    ensures { AreSpelled }
{}

/// What the first character of a text means, and how many bytes spell it.
fn character(bytes: &[u8]) -> (u8, usize)
    requires { 0 < length bytes.now }
    ensures value { result.0 ≡ not_nul (meant bytes.now) }
    ensures length { result.1 ≡ written_length bytes.now }
    ensures within { result.1 ≤ length bytes.now }
    ensures some { 0 < result.1 }
{
    if is_plain(bytes[0]) {
        return (bytes[0], 1);
    }
    (not_nul(meant(bytes)), written_length(bytes))
}

/// Whether a byte means itself, whatever follows it.
fn is_plain(b: u8) -> bool
    ensures { result ≡ is_plain b }
{
    b != b'\\' && b != b'^' && b != 0
}

fn is_octal(b: u8) -> bool
    ensures { result ≡ is_octal b }
{
    48 <= b && b <= 55
}

fn begins_octal(bytes: &[u8]) -> bool
    ensures { result ≡ begins_octal bytes.now }
{
    match bytes {
        [a, b, c, ..] => is_octal(*a) && is_octal(*b) && is_octal(*c),
        _ => false,
    }
}

fn octal(bytes: &[u8]) -> u8
    requires { IsTrue (begins_octal bytes.now) }
    ensures { result ≡ octal bytes.now }
{
    match bytes {
        [a, b, c, ..] => {
            let value = u32::from(*a - 48) * 64 + u32::from(*b - 48) * 8 + u32::from(*c - 48);
            (value % 256) as u8
        }
        _ => 0,
    }
}

fn letter(c: u8) -> u8
    ensures { result ≡ letter c }
{
    match c {
        b'E' | b'e' => 27,
        b'n' | b'l' => 10,
        b'r' => 13,
        b't' => 9,
        b'b' => 8,
        b'f' => 12,
        b'a' => 7,
        b's' => 32,
        b'0' => 128,
        _ => c,
    }
}

fn control(c: u8) -> u8
    ensures { result ≡ control c }
{
    if c == b'?' { 127 } else { c % 32 }
}

fn written_length(bytes: &[u8]) -> usize
    requires { 0 < length bytes.now }
    ensures length { result ≡ written_length bytes.now }
    ensures within { result ≤ length bytes.now }
    ensures some { 0 < result }
{
    match bytes {
        [b, _, ..] => {
            if *b == b'\\' && begins_octal(&bytes[1..]) {
                4
            } else if *b == b'\\' || *b == b'^' {
                2
            } else {
                1
            }
        }
        _ => 1,
    }
}

fn meant(bytes: &[u8]) -> u8
    ensures { result ≡ meant bytes.now }
{
    match bytes {
        [] => 0,
        [b] => *b,
        [b, c, ..] => {
            if *b == b'\\' && begins_octal(&bytes[1..]) {
                octal(&bytes[1..])
            } else if *b == b'\\' {
                letter(*c)
            } else if *b == b'^' {
                control(*c)
            } else {
                *b
            }
        }
    }
}

fn not_nul(v: u8) -> u8
    ensures { result ≡ not_nul v }
{
    if v == 0 { 128 } else { v }
}
