//! What the next byte of a text is, after the beginning of a unit. Nothing changes here.
ghost use Rattle.std.specs.Prelude.{◌≡◌, ◌≢◌, ◌≤◌, [], ◌∷◌, ◌⊎◌, IsTrue};
ghost use Rattle.std.specs.Char.{IsScalar};
ghost use Rattle.scr_cells.specs.declared.charsets.Charset.TheVariants.{Utf8};
ghost use Rattle.scr_term.specs.Ecma.Units.{IsWaiting, is_parameter_byte};
ghost use Rattle.scr_terminal.specs.Code.Readings.{IsReading, is_first, is_second};

use scr_cells::{Charset, is_ascii};

/// What the next byte of a text is.
#[derive(Clone, Copy)]
pub(crate) enum Reading {
    /// A character of ASCII.
    Graphic,
    /// The last byte of a character above ASCII, in UTF-8.
    Spelled(char),
    /// A byte of a control sequence or of a character that does not end it.
    Held,
    /// The final byte of a control sequence.
    Last,
    /// A control function of one byte.
    Control,
    /// A byte that cannot be part of a unit here.
    Other,
}

/// The most bytes that a control sequence has.
const LONGEST: usize = 64;

/// What `byte` is after `part`, which is empty or the beginning of a unit (ECMA-48, 5.4 'Control
/// sequences'; RFC 3629, 4).
pub(crate) fn read_byte(charset: Charset, part: &[u8], byte: u8) -> Reading
    requires { (part.now ≡ []) ⊎ IsWaiting charset part.now }
    ensures { IsReading charset part.now byte result }
{
    match part.split_first() {
        None => read_first(charset, byte),
        Some((first, after)) => {
            if *first == 0x1B {
                read_control(charset, after, byte)
            } else {
                read_spelled(charset, *first, after, byte)
            }
        }
    }
}

// The first byte of a unit.
fn read_first(charset: Charset, byte: u8) -> Reading
    ensures { IsReading charset [] byte result }
{
    if is_ascii(byte) {
        Reading::Graphic
    } else if byte == 0x1B || is_first(charset, byte) {
        Reading::Held
    } else if byte == 0x08 || byte == 0x0D {
        Reading::Control
    } else {
        Reading::Other
    }
}

// A byte after ESC and the bytes `after` it, which a control sequence begins with.
fn read_control(charset: Charset, after: &[u8], byte: u8) -> Reading
    requires { IsWaiting charset (27 ∷ after.now) }
    ensures { IsReading charset (27 ∷ after.now) byte result }
{
    if after.is_empty() {
        if byte == b'[' {
            Reading::Held
        } else {
            Reading::Other
        }
    } else if is_parameter_byte(byte) {
        if after.len() + 2 < LONGEST {
            Reading::Held
        } else {
            Reading::Other
        }
    } else if (b'@'..=b'~').contains(&byte) {
        Reading::Last
    } else {
        Reading::Other
    }
}

// A byte after the first one of a character above ASCII and the bytes `after` it.
fn read_spelled(charset: Charset, first: u8, after: &[u8], byte: u8) -> Reading
    requires waiting { IsWaiting charset (first ∷ after.now) }
    requires spelled { first ≢ 27 }
    ensures { IsReading charset (first ∷ after.now) byte result }
{
    match after {
        [] => read_second(first, byte),
        [second, ..] => read_third(first, *second, byte),
    }
}

// The second byte of a character of two or three.
fn read_second(first: u8, byte: u8) -> Reading
    requires from { 194 ≤ first }
    requires end { first ≤ 239 }
    ensures { IsReading Utf8 (first ∷ []) byte result }
{
    if !is_second(first, byte) {
        Reading::Other
    } else if first < 0xE0 {
        spelled(u32::from(first - 0xC0) * 0x40 + u32::from(byte - 0x80))
    } else {
        Reading::Held
    }
}

// The last byte of a character of three.
fn read_third(first: u8, second: u8, byte: u8) -> Reading
    requires from { 224 ≤ first }
    requires end { first ≤ 239 }
    requires second { IsTrue (is_second first second) }
    ensures { IsReading Utf8 (first ∷ second ∷ []) byte result }
{
    if (0x80..=0xBF).contains(&byte) {
        let high = u32::from(first - 0xE0) * 0x1000 + u32::from(second - 0x80) * 0x40;
        spelled(high + u32::from(byte - 0x80))
    } else {
        Reading::Other
    }
}

// Whether a byte is the first one of a character above ASCII.
fn is_first(charset: Charset, byte: u8) -> bool
    ensures { result ≡ is_first charset byte }
{
    charset.is_utf8() && (0xC2..=0xEF).contains(&byte)
}

// Whether `byte` is the second byte of a character above ASCII after its first one. U+0080 to U+009F
// are C1 control functions, and no unit; what has more bytes than it needs and surrogates are no
// UTF-8.
fn is_second(first: u8, byte: u8) -> bool
    ensures { result ≡ is_second first byte }
{
    let least = if first == 0xC2 || first == 0xE0 {
        0xA0
    } else {
        0x80
    };
    let greatest = if first == 0xED { 0x9F } else { 0xBF };
    (least..=greatest).contains(&byte)
}

// The reading that makes a character whole, by its code.
fn spelled(code: u32) -> Reading
    requires { IsScalar code }
    ensures { result ≡ Reading.Spelled code }
{
    // There is a `char`, since the code is a scalar value.
    match char::from_u32(code) {
        Some(character) => Reading::Spelled(character),
        None => Reading::Other,
    }
}

/// Whether a byte is a digit, or the semicolon that separates parameters.
fn is_parameter_byte(byte: u8) -> bool
    ensures { result ≡ is_parameter_byte byte }
{
    byte.is_ascii_digit() || byte == b';'
}
