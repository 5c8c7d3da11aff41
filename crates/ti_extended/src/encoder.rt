//! Writing a whole entry as a compiled file, in its one form.
ghost use Rattle.std.specs.Prelude.{◌≡◌, ◌≤◌, ◌+◌, ◌++◌, IfOk, IsErrOf, IsOkUnless, OnOk, length, nat_lt, if◌then◌else◌};
ghost use Rattle.std.specs.List.{flat_map, list_any};
ghost use Rattle.byteorder.specs.Endian.{little_bytes};
ghost use Rattle.ti_binary.specs.Canonical.{canonical};
ghost use Rattle.ti_binary.specs.Files.{numbers_of, offsets_place};
ghost use Rattle.ti_extended.specs.Forms.{aligned, front_form, has_great, is_great, is_great_number, section_of, whole_form, wide_number, widened};

use crate::capabilities::Extended;
use crate::whole_entry::WholeEntry;
use crate::writing::{Sizes, put_odd_byte, put_section, put_wide};
use std::alloc::{AllocError, Global};
use ti_binary::{EncFault, Width, encode_with_long_names, long_names_read_back, put_word, word};
use ti_caps::Bytes;

/// The magic number of a file with 32-bit numbers, octal 01036.
const WIDE_MAGIC: u16 = 0o1036;

/// The most bytes that a file has.
const MOST_BYTES: usize = 32_768;

/// Writes a whole entry as a compiled file, in its one form: as its entry is written by itself,
/// with 32-bit numbers if one is above 32,767, and then its extended capabilities, if there are any
/// (term(5)).
///
/// Names of any length that an entry can have are written, which is up to 511 bytes and their NUL.
///
/// Refused with `TooLarge` if the entry by itself would have more than 4,096 bytes or the whole file
/// more than 32,768, and with `NoMemory` if memory runs out.
pub fn encode_whole(alloc: Global, whole: &WholeEntry) -> Result<Bytes, EncFault>
    ensures ok { IfOk result (λ bytes. bytes ≡ whole_form whole.now) }
    ensures named { IsErrOf result EncFault.NamesTooLong → ⊥ }
    ensures standard { OnOk result (length (canonical whole.now.entry) ≤ 4096) }
    ensures small { OnOk result (length (whole_form whole.now) ≤ 32768) }
    ensures good { length (canonical whole.now.entry) ≤ 4096 → length (whole_form whole.now) ≤ 32768 → IsOkUnless result EncFault.NoMemory }
{
    let great = has_great(whole);
    let mut out = front(alloc, great, whole)?;
    if is_too_large(out.len(), width_of(great), whole.extended()) {
        return Err(EncFault::TooLarge);
    }
    put_aligned(width_of(great), whole.extended(), &mut out)?;
    Ok(Bytes(out))
}

/// Whether a number of the entry is above 32,767.
fn has_great(whole: &WholeEntry) -> bool
    ensures { result ≡ has_great whole.now }
{
    any_great_number(whole.numbers()) || any_great(whole.extended().numbers())
}

fn any_great_number(numbers: &[Option<u32>]) -> bool
    ensures { result ≡ list_any is_great_number numbers.now }
{
    for number in numbers {
        if is_great_number(*number) {
            return true;
        }
    }
    false
}

fn is_great_number(number: Option<u32>) -> bool
    ensures { result ≡ is_great_number number }
{
    match number {
        Some(n) => n > 32_767,
        None => false,
    }
}

fn any_great(numbers: &[u32]) -> bool
    ensures { result ≡ list_any is_great numbers.now }
{
    for n in numbers {
        if *n > 32_767 {
            return true;
        }
    }
    false
}

fn width_of(great: bool) -> Width
    ensures { result ≡ (if great then Width.Wide else Width.Legacy) }
{
    if great { Width::Wide } else { Width::Legacy }
}

/// What precedes the extended capabilities.
fn front(alloc: Global, great: bool, whole: &WholeEntry) -> Result<Vec<u8>, EncFault>
    requires { great ≡ has_great whole.now }
    ensures ok { IfOk result (λ out. out.items ≡ front_form whole.now) }
    ensures named { IsErrOf result EncFault.NamesTooLong → ⊥ }
    ensures standard { OnOk result (length (canonical whole.now.entry) ≤ 4096) }
    ensures small { OnOk result (length (front_form whole.now) ≤ 4352) }
    ensures good { length (canonical whole.now.entry) ≤ 4096 → IsOkUnless result EncFault.NoMemory }
{
    long_names_read_back();
    let _own = whole.entry().names();
    let _more = whole.extended().names();
    let Bytes(standard) = encode_with_long_names(alloc, whole.entry())?;
    if great {
        Ok(widened(alloc, &standard, whole.numbers())?)
    } else {
        Ok(standard)
    }
}

/// A file with 16-bit numbers, made one with these 32-bit numbers.
fn widened(alloc: Global, bytes: &[u8], numbers: &[Option<u32>]) -> Result<Vec<u8>, AllocError>
    requires header { 12 ≤ length bytes.now }
    requires room { offsets_place Width.Legacy bytes.now ≤ length bytes.now }
    requires numbers { numbers_of bytes.now ≤ length numbers.now }
    ensures { IfOk result (λ out. out.items ≡ widened numbers.now bytes.now) }
{
    let (names, flags) = (usize::from(word(bytes, 2)), usize::from(word(bytes, 4)));
    let count = usize::from(word(bytes, 6));
    let numbers_place = 12 + names + flags + (names + flags) % 2;
    let offsets_place = numbers_place + 2 * count;
    let mut out = Vec::with_capacity(alloc, bytes.len() + 2 * count)?;
    put_word(WIDE_MAGIC, &mut out)?;
    out.extend_from_slice(&bytes[2..numbers_place])?;
    put_wide_numbers(&numbers[..count], &mut out)?;
    out.extend_from_slice(&bytes[offsets_place..])?;
    Ok(out)
}

fn put_wide_numbers(numbers: &[Option<u32>], out: &mut Vec<u8>) -> Result<(), AllocError>
    ensures { OnOk result (out.new.items ≡ out.old.items ++ flat_map (λ o. little_bytes 4 (wide_number o)) numbers.now) }
{
    for number in numbers {
        put_wide(wide_number(*number), out)?;
    }
    Ok(())
}

fn wide_number(number: Option<u32>) -> u32
    ensures { result ≡ wide_number number }
{
    match number {
        Some(n) => n,
        None => u32::MAX,
    }
}

/// Whether a file is too large with the section of these capabilities behind so many bytes.
fn is_too_large(front: usize, width: Width, extended: &Extended) -> bool
    requires { front ≤ 4352 }
    ensures { result ≡ nat_lt 32768 (front + length (aligned front (section_of width extended.now))) }
{
    let sizes = Sizes::of(extended);
    if sizes.names == 0 {
        return false;
    }
    front + front % 2 + sizes.section_size(width) > MOST_BYTES
}

/// Appends the section of these capabilities at an even place, if there are any.
fn put_aligned(width: Width, extended: &Extended, out: &mut Vec<u8>) -> Result<(), AllocError>
    requires { length out.old.items + length (aligned (length out.old.items) (section_of width extended.now)) ≤ 32768 }
    ensures { OnOk result (out.new.items ≡ out.old.items ++ aligned (length out.old.items) (section_of width extended.now)) }
{
    if extended.names().is_empty() {
        return Ok(());
    }
    put_odd_byte(out.len(), out)?;
    put_section(width, extended, out)
}
