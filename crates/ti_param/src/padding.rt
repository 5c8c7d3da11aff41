//! Padding in the texts of capabilities (terminfo(5), 'Delays and Padding').

ghost use Rattle.std.specs.Prelude.{◌≡◌, ◌+◌, ◌≤◌, length, IfOk, slice_index};
ghost use Rattle.ti_param.specs.Padding.{Stripped};
ghost use Rattle.ti_param.specs.Stripped.{stripped};
ghost use Rattle.ti_param.specs.Code.Padding.{digits_at, point_at, marks_at, padding_length};

use out_of_memory::NoMemory;
use std::alloc::{AllocError, Global};

/// A capability's text without its padding (terminfo(5), 'Delays and Padding').
///
/// Padding is removed in one pass from the left. It is `$<`, at least one digit, optionally a point
/// and one digit, optionally `*` and `/` in either order, and `>`. By `padding_is_removed_once` the
/// result is unique. Fails only when memory runs out.
pub fn strip_padding(alloc: Global, bytes: &[u8]) -> Result<Vec<u8>, NoMemory>
    ensures { IfOk result (λ text. Stripped bytes.now text.items) }
{
    if !bytes.contains(&b'$') {
        return Ok(Vec::from_slice(alloc, bytes)?);
    }
    one_pass(alloc, bytes).map_err(|_| NoMemory)
}

// The text without the padding that one pass from the left finds.
fn one_pass(alloc: Global, bytes: &[u8]) -> Result<Vec<u8>, AllocError>
    ensures { IfOk result (λ text. Stripped bytes.now text.items) }
{
    let mut text = Vec::new(alloc);
    let mut index = 0;
    while index < bytes.len() {
        let passed = padding_length(&bytes[index..]);
        if passed == 0 {
            text.push(bytes[index])?;
            index += 1;
        } else {
            index += passed;
        }
    }
    Ok(text)
}

/// How many bytes `strip_padding` leaves of a text. Takes no memory.
pub fn stripped_length(bytes: &[u8]) -> usize
    ensures { result ≡ length (stripped bytes.now) }
{
    let mut count = 0;
    let mut index = 0;
    while index < bytes.len() {
        let passed = padding_length(&bytes[index..]);
        if passed == 0 {
            count += 1;
            index += 1;
        } else {
            index += passed;
        }
    }
    count
}

// The length of the padding at the beginning of a text, or 0.
fn padding_length(text: &[u8]) -> usize
    ensures value { result ≡ padding_length text.now }
    ensures bound { result ≤ length text.now }
{
    if byte_at(text, 0) != b'$' || byte_at(text, 1) != b'<' {
        return 0;
    }
    let digits = digits_at(text, 2);
    let point = 2 + digits + point_at(text, 2 + digits);
    let end = point + marks_at(text, point);
    if digits > 0 && byte_at(text, end) == b'>' {
        end + 1
    } else {
        0
    }
}

// The byte at an index, or 0 past the end.
fn byte_at(text: &[u8], index: usize) -> u8
    ensures { result ≡ slice_index text.now index }
{
    if index < text.len() { text[index] } else { 0 }
}

// The number of digits of a text from an index on.
fn digits_at(text: &[u8], index: usize) -> usize
    ensures value { result ≡ digits_at text.now index }
    ensures bound { result ≤ length text.now }
{
    let mut end = index;
    while end < text.len() && text[end].is_ascii_digit() {
        end += 1;
    }
    end - index
}

// The length of the point and digit at an index of a text, or 0.
fn point_at(text: &[u8], index: usize) -> usize
    requires { index ≤ length text.now + 2 }
    ensures value { result ≡ point_at text.now index }
    ensures bound { result ≤ 2 }
{
    if byte_at(text, index) == b'.' && byte_at(text, index + 1).is_ascii_digit() {
        2
    } else {
        0
    }
}

// How many of `*` and `/` are at an index of a text.
fn marks_at(text: &[u8], index: usize) -> usize
    requires { index ≤ length text.now + 4 }
    ensures value { result ≡ marks_at text.now index }
    ensures bound { result ≤ 2 }
{
    let first = byte_at(text, index);
    let second = byte_at(text, index + 1);
    if (first == b'*' && second == b'/') || (first == b'/' && second == b'*') {
        2
    } else if first == b'*' || first == b'/' {
        1
    } else {
        0
    }
}
