//! The fields of a line, and what they spell.
ghost use Rattle.std.specs.Prelude.{◌≡◌, ◌^◌, ◌++◌, ◌∷◌, [], IfOk, OnOk, min, map, true, Option, Some, None, option_map};
ghost use Rattle.std.specs.Char.{is_ascii_digit};
ghost use Rattle.std.specs.List.{list_all};
ghost use Rattle.std.specs.Option.{option_copied};
ghost use Rattle.std.specs.Str.Parse.{digits_value};
ghost use Rattle.screen_calls.specs.Fields.{cut, field_and_text as field_and_text_of, fields_behind, number as number_of, up_to as up_to_of, integer as integer_of, setting as setting_of, graphic as graphic_of, colour as colour_of, hexadecimal_byte as hexadecimal_byte_of, hexadecimal_bytes as hexadecimal_bytes_of};
ghost use Rattle.scr_cells.specs.Characters.{IsAscii};
ghost use Rattle.screen_calls.specs.Reading.{IsRefused, read};

use crate::call_faults::CallFault;
use crate::cuts::cut_at;
use crate::reasons::Reason;
use arrayvec::ArrayVec;
use scr_cells::NoMemory;
use std::alloc::Global;
use ti_caps::Bytes;

/// More fields than any call takes.
const MOST: usize = 10;

/// The fields behind a word.
pub(crate) type Fields<'a> = ArrayVec<&'a [u8], MOST>;

/// The first field of a text, and the text after the blank that follows it, if one does.
#[tactic(auto, unfolding(crate::specs::Fields::cut))]
pub fn cut_field(text: &[u8]) -> (&[u8], Option<&[u8]>)
    ensures { cut text.now ≡ (result.0.now, option_copied result.1) }
{
    cut_at(b' ', text)
}

/// The fields of the text behind a word; the first ten, if there are more.
#[tactic(auto, unfolding(crate::specs::Fields::fields_behind))]
pub(crate) fn fields_after<'a>(text: Option<&'a [u8]>) -> Fields<'a>
    ensures { map (λ field. field.now) result.items ≡ fields_behind (option_copied text.entry) }
{
    match text {
        Some(text) => first_fields(text),
        None => ArrayVec::new(),
    }
}

// The first ten fields of a text.
#[tactic(auto, unfolding(crate::specs::Fields::fields_behind))]
fn first_fields<'a>(text: &'a [u8]) -> Fields<'a>
    ensures { map (λ field. field.now) result.items ≡ fields_behind (Some text.now) }
{
    let mut list = ArrayVec::new();
    for field in text.split(|byte| *byte == b' ') {
        if list.is_full() {
            return list;
        }
        list.push(field);
    }
    list
}

/// The first field of a text, and the text after the blank that follows it. Refused if there is no text, or no blank.
#[tactic(auto, unfolding(crate::specs::Fields::field_and_text))]
pub fn field_and_text<'a>(text: Option<&'a [u8]>) -> Result<(&'a [u8], &'a [u8]), Reason<'a>>
    ensures { option_map (λ parts. (parts.0.now, parts.1.now)) (read result) ≡ field_and_text_of (option_copied text.entry) }
{
    let Some(text) = text else {
        return Err(Reason::WrongCount);
    };
    match cut_field(text) {
        (field, Some(rest)) => Ok((field, rest)),
        ([], None) => Err(Reason::EmptyWord),
        (_, None) => Err(Reason::WrongCount),
    }
}

/// A number in decimal digits, if it is below 2^32.
#[tactic(auto, unfolding(crate::specs::Fields::number))]
pub fn number<'a>(field: &'a [u8]) -> Result<u32, Reason<'a>>
    ensures { read result ≡ number_of field.now }
{
    if field.is_empty() {
        return Err(Reason::EmptyWord);
    }
    if !are_digits(field) {
        return Err(Reason::NotNumber(field));
    }
    match u32::try_from(value_up_to_limit(field)) {
        Ok(number) => Ok(number),
        Err(_) => Err(Reason::OutOfRange),
    }
}

/// A number up to this one.
pub(crate) fn up_to<'a>(most: u32, field: &'a [u8]) -> Result<u32, Reason<'a>>
    ensures { read result ≡ up_to_of most field.now }
{
    let number = number(field)?;
    if number > most {
        return Err(Reason::OutOfRange);
    }
    Ok(number)
}

/// A 32-bit number, with `-` before it if it is negative.
#[tactic(auto, unfolding(crate::specs::Fields::integer))]
pub(crate) fn integer<'a>(field: &'a [u8]) -> Result<i32, Reason<'a>>
    ensures { read result ≡ integer_of field.now }
{
    let in_range = match field {
        [] => return Err(Reason::EmptyWord),
        [b'-', digits @ ..] => match number(digits) {
            Ok(number) => i32::try_from(-i64::from(number)),
            Err(Reason::OutOfRange) => return Err(Reason::OutOfRange),
            Err(_) => return Err(Reason::NotNumber(field)),
        },
        _ => i32::try_from(number(field)?),
    };
    match in_range {
        Ok(number) => Ok(number),
        Err(_) => Err(Reason::OutOfRange),
    }
}

/// A setting: `1` for on, `0` for off.
#[tactic(auto, unfolding(crate::specs::Fields::setting))]
pub(crate) fn setting<'a>(field: &'a [u8]) -> Result<bool, Reason<'a>>
    ensures { read result ≡ setting_of field.now }
{
    if field == b"0".as_slice() {
        Ok(false)
    } else if field == b"1".as_slice() {
        Ok(true)
    } else if field.is_empty() {
        Err(Reason::EmptyWord)
    } else {
        Err(Reason::NotSetting(field))
    }
}

/// A character with a code from 33 to 126.
#[tactic(auto, unfolding(crate::specs::Fields::graphic))]
pub(crate) fn graphic<'a>(field: &'a [u8]) -> Result<u8, Reason<'a>>
    ensures value { read result ≡ graphic_of field.now }
    ensures prints { IfOk result IsAscii }
{
    match field {
        [byte] if byte.is_ascii_graphic() => Ok(*byte),
        [] => Err(Reason::EmptyWord),
        _ => Err(Reason::NotCharacter(field)),
    }
}

/// A colour by its number, or `-` for the terminal's default.
#[tactic(auto, unfolding(crate::specs::Fields::colour))]
pub(crate) fn colour<'a>(field: &'a [u8]) -> Result<Option<u32>, Reason<'a>>
    ensures { read result ≡ colour_of field.now }
{
    if field == b"-".as_slice() {
        Ok(None)
    } else {
        Ok(Some(number(field)?))
    }
}

/// The bytes of a text that has a field of two hexadecimal digits for each.
#[tactic(auto, unfolding(crate::specs::Fields::hexadecimal_bytes))]
pub fn hexadecimal_bytes<'a>(alloc: Global, text: &'a [u8]) -> Result<Bytes, CallFault<'a>>
    ensures ok { IfOk result (λ bytes. hexadecimal_bytes_of text.now ≡ Some bytes) }
    ensures bad { IsRefused result → hexadecimal_bytes_of text.now ≡ None }
{
    let mut bytes = Vec::new(alloc);
    for field in text.split(|byte| *byte == b' ') {
        let byte = hexadecimal_byte(field)?;
        push(&mut bytes, byte)?;
    }
    Ok(Bytes(bytes))
}

/// A copy of a text. Fails only when memory runs out.
pub fn copied(alloc: Global, text: &[u8]) -> Result<Bytes, NoMemory>
    ensures { IfOk result (λ bytes. bytes ≡ text.now) }
{
    Ok(Bytes(Vec::from_slice(alloc, text)?))
}

/// Why there are too many fields or too few: one is empty, if any is.
pub(crate) fn count_fault<'a>(fields: &[&'a [u8]]) -> Reason<'a> {
    for field in fields {
        if field.is_empty() {
            return Reason::EmptyWord;
        }
    }
    Reason::WrongCount
}

/// The same of all fields of a text.
pub fn count_fault_of<'a>(text: Option<&'a [u8]>) -> Reason<'a> {
    for field in text.unwrap_or(&[b'-']).split(|byte| *byte == b' ') {
        if field.is_empty() {
            return Reason::EmptyWord;
        }
    }
    Reason::WrongCount
}

/// Adds a byte. Fails only when memory runs out.
pub(crate) fn push(bytes: &mut Vec<u8>, byte: u8) -> Result<(), NoMemory>
    ensures { OnOk result (bytes.new.items ≡ bytes.old.items ++ byte ∷ []) }
{
    bytes.push(byte)?;
    Ok(())
}

/// The byte spelled by two hexadecimal digits.
#[tactic(auto, unfolding(crate::specs::Fields::hexadecimal_byte))]
pub(crate) fn hexadecimal_byte<'a>(field: &'a [u8]) -> Result<u8, Reason<'a>>
    ensures { read result ≡ hexadecimal_byte_of field.now }
{
    let [high, low] = *field else {
        return Err(match field {
            [] => Reason::EmptyWord,
            _ => Reason::NotHexadecimal(field),
        });
    };
    match (char::from(high).to_digit(16), char::from(low).to_digit(16)) {
        (Some(high), Some(low)) => Ok((high * 16 + low) as u8),
        _ => Err(Reason::NotHexadecimal(field)),
    }
}

fn are_digits(text: &[u8]) -> bool
    ensures { result ≡ list_all is_ascii_digit text.now }
{
    text.iter().all(|byte| byte.is_ascii_digit())
}

// The number that digits spell, at most 2^32.
fn value_up_to_limit(digits: &[u8]) -> u64
    requires { list_all is_ascii_digit digits.now ≡ true }
    ensures { result ≡ min (digits_value 10 digits.now) (2 ^ 32) }
{
    let mut value: u64 = 0;
    for digit in digits {
        value = (value * 10 + u64::from(*digit - b'0')).min(1 << 32);
    }
    value
}
