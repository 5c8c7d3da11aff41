//! Writing an entry as a compiled file, in its one form. `specs/Canonical.antt` defines it.
ghost use Rattle.std.specs.Prelude.{◌≡◌, ◌≤◌, ◌<◌, ◌+◌, ◌↔◌, ◌∷◌, ◌++◌, length, map, nat_lt, IfOk, OnOk, IsErrOf, IsOkUnless, true};
ghost use Rattle.ti_caps.specs.Description.{IsDescription};
ghost use Rattle.ti_caps.specs.Names.{are_names};
ghost use Rattle.ti_binary.specs.Canonical.{canonical, flag_byte, header_of, kept_flags, padding, renamed, words};
ghost use Rattle.ti_binary.specs.Shapes.{IsShape};

use crate::sections::{put_flags, put_numbers, put_offsets, put_texts, put_word};
use crate::shapes::Shape;
use std::alloc::{AllocError, AllocFailed, Global};
use thiserror::Error;
use ti_caps::{Bytes, Entry};

/// Why an entry is not written as a compiled file.
#[derive(Clone, Copy, Debug, PartialEq, Eq, Error)]
pub enum EncFault {
    /// The names have more than 127 bytes, where that is the limit.
    #[error("names too long")]
    NamesTooLong,
    /// The file would have more than 4,096 bytes.
    #[error("too large")]
    TooLarge,
    /// Memory ran out.
    #[error("out of memory")]
    NoMemory,
}

impl From<AllocError> for EncFault {
    ghost use Rattle.std.specs.Prelude.{◌≡◌};
    ghost use Rattle.ti_binary.specs.declared.encoder.EncFault.TheVariants.{NoMemory};

    ghost from_gives = { λ _ e. e ≡ NoMemory };

    fn from(_: AllocError) -> EncFault {
        EncFault::NoMemory
    }
}

impl<T: Drop> From<AllocFailed<T>> for EncFault {
    ghost use Rattle.std.specs.Prelude.{◌≡◌};
    ghost use Rattle.ti_binary.specs.declared.encoder.EncFault.TheVariants.{NoMemory};

    ghost from_gives = { λ _ e. e ≡ NoMemory };

    fn from(_: AllocFailed<T>) -> EncFault {
        EncFault::NoMemory
    }
}

/// The magic number of a file in the legacy format, octal 0432.
const MAGIC: u16 = 0o432;

/// The most bytes that the names and their NUL have by term(5).
const MOST_NAME_BYTES: usize = 128;

/// The most bytes that a file has.
const MOST_BYTES: u16 = 4_096;

/// Writes an entry as a compiled file, in its one form (term(5), 'Legacy Storage Format').
///
/// Refused with `NamesTooLong` if the names and their NUL have more than 128 bytes, with `TooLarge`
/// if the file would have more than 4,096, then with `NoMemory`.
pub fn encode(alloc: Global, entry: &Entry) -> Result<Bytes, EncFault>
    ensures long { IsErrOf result EncFault.NamesTooLong ↔ (128 < length entry.now.names + 1) }
    ensures large { IsErrOf result EncFault.TooLarge ↔ ((length entry.now.names + 1 ≤ 128) × (4096 < length (canonical entry.now))) }
    ensures good { length entry.now.names + 1 ≤ 128 → length (canonical entry.now) ≤ 4096 → IsOkUnless result EncFault.NoMemory }
    ensures ok { IfOk result (λ bytes. bytes ≡ canonical entry.now) }
{
    encode_named(alloc, entry, entry.names())
}

/// Writes an entry under other names, which have to be valid for an entry. This is what `encode`
/// gives for the entry with those names, with the same refusals.
pub fn encode_named(alloc: Global, entry: &Entry, names: &[u8]) -> Result<Bytes, EncFault>
    requires { are_names names.now ≡ true }
    ensures long { IsErrOf result EncFault.NamesTooLong ↔ (128 < length names.now + 1) }
    ensures large { IsErrOf result EncFault.TooLarge ↔ ((length names.now + 1 ≤ 128) × (4096 < length (canonical (renamed entry.now names.now)))) }
    ensures good { length names.now + 1 ≤ 128 → length (canonical (renamed entry.now names.now)) ≤ 4096 → IsOkUnless result EncFault.NoMemory }
    ensures ok { IfOk result (λ bytes. bytes ≡ canonical (renamed entry.now names.now)) }
{
    if names.len() + 1 > MOST_NAME_BYTES {
        return Err(EncFault::NamesTooLong);
    }
    encode_whatever_names(alloc, entry, names)
}

/// Writes an entry as `encode` does, but with names of any length that an entry can have: ncurses
/// reads and writes 511 bytes and their NUL, where term(5) allows 128.
///
/// Refused with `TooLarge` if the file would have more than 4,096 bytes, then with `NoMemory`.
pub fn encode_with_long_names(alloc: Global, entry: &Entry) -> Result<Bytes, EncFault>
    ensures long { IsErrOf result EncFault.NamesTooLong → ⊥ }
    ensures large { IsErrOf result EncFault.TooLarge ↔ (4096 < length (canonical entry.now)) }
    ensures good { length (canonical entry.now) ≤ 4096 → IsOkUnless result EncFault.NoMemory }
    ensures ok { IfOk result (λ bytes. bytes ≡ canonical entry.now) }
{
    encode_whatever_names(alloc, entry, entry.names())
}

// Writes an entry under these names, whatever their length.
fn encode_whatever_names(alloc: Global, entry: &Entry, names: &[u8]) -> Result<Bytes, EncFault>
    requires { are_names names.now ≡ true }
    ensures long { IsErrOf result EncFault.NamesTooLong → ⊥ }
    ensures large { IsErrOf result EncFault.TooLarge ↔ (4096 < length (canonical (renamed entry.now names.now))) }
    ensures good { length (canonical (renamed entry.now names.now)) ≤ 4096 → IsOkUnless result EncFault.NoMemory }
    ensures ok { IfOk result (λ bytes. bytes ≡ canonical (renamed entry.now names.now)) }
{
    let _own = entry.names();
    let shape = Shape::of(entry, names);
    if is_too_large(entry, names, &shape) {
        return Err(EncFault::TooLarge);
    }
    let out = file(alloc, entry, names, &shape)?;
    Ok(Bytes(out))
}

// Whether a file with these sizes is larger than a file may be.
fn is_too_large(entry: &Entry, names: &[u8], shape: &Shape) -> bool
    requires described { IsDescription entry.now }
    requires named { are_names names.now ≡ true }
    requires shape { IsShape (renamed entry.now names.now) shape.now }
    ensures { result ≡ nat_lt 4096 (length (canonical (renamed entry.now names.now))) }
{
    shape.file_size() > MOST_BYTES
}

// The file, section by section.
fn file(alloc: Global, entry: &Entry, names: &[u8], shape: &Shape) -> Result<Vec<u8>, AllocError>
    requires described { IsDescription entry.now }
    requires shape { IsShape (renamed entry.now names.now) shape.now }
    requires small { length (canonical (renamed entry.now names.now)) ≤ 4096 }
    ensures { IfOk result (λ out. out.items ≡ canonical (renamed entry.now names.now)) }
{
    let mut out = front(alloc, entry, names, shape)?;
    put_numbers(entry, shape.numbers, &mut out)?;
    put_offsets(entry, shape.texts, &mut out)?;
    put_texts(entry, shape.texts, &mut out)?;
    Ok(out)
}

// What precedes the numbers: header, names and NUL, flags, and the odd byte.
fn front(alloc: Global, entry: &Entry, names: &[u8], shape: &Shape) -> Result<Vec<u8>, AllocError>
    requires described { IsDescription entry.now }
    requires shape { IsShape (renamed entry.now names.now) shape.now }
    requires small { length (canonical (renamed entry.now names.now)) ≤ 4096 }
    ensures { IfOk result (λ out. out.items ≡ words (header_of (renamed entry.now names.now)) ++ names.now ++ 0 ∷ map flag_byte (kept_flags entry.now) ++ padding (length names.now + 1 + length (kept_flags entry.now))) }
{
    let mut out = Vec::with_capacity(alloc, usize::from(shape.file_size()))?;
    put_header(entry, names, shape, &mut out)?;
    out.extend_from_slice(names)?;
    out.push(0)?;
    put_flags(entry, shape.flags, &mut out)?;
    put_odd_byte(shape, &mut out)?;
    Ok(out)
}

// Appends the header.
fn put_header(
    entry: &Entry,
    names: &[u8],
    shape: &Shape,
    out: &mut Vec<u8>,
) -> Result<(), AllocError>
    requires described { IsDescription entry.now }
    requires shape { IsShape (renamed entry.now names.now) shape.now }
    requires small { length (canonical (renamed entry.now names.now)) ≤ 4096 }
    ensures { OnOk result (out.new.items ≡ out.old.items ++ words (header_of (renamed entry.now names.now))) }
{
    let header = [
        MAGIC,
        shape.names,
        shape.flags,
        shape.numbers,
        shape.texts,
        shape.table,
    ];
    put_words(&header, out)
}

// Appends numbers, one after another.
fn put_words(numbers: &[u16], out: &mut Vec<u8>) -> Result<(), AllocError>
    ensures { OnOk result (out.new.items ≡ out.old.items ++ words numbers.now) }
{
    for n in numbers {
        put_word(*n, out)?;
    }
    Ok(())
}

// Appends a byte if names and flags together have an odd length.
fn put_odd_byte(shape: &Shape, out: &mut Vec<u8>) -> Result<(), AllocError>
    requires names { shape.now.names ≤ 512 }
    requires flags { shape.now.flags ≤ 64 }
    ensures { OnOk result (out.new.items ≡ out.old.items ++ padding (shape.now.names + shape.now.flags)) }
{
    if shape.is_odd() {
        out.push(0)?;
    }
    Ok(())
}
