//! Reading a compiled file, refusal by refusal. `specs/Files.antt` defines it.
ghost use Rattle.std.specs.Prelude.{◌≡◌, ◌≤◌, ◌*◌, ◌⊎◌, false, true, length, IfOk, IfErr, OnOk, None, Some, IsErrOf, IsOkUnless};
ghost use Rattle.std.specs.List.{before_first, list_any};
ghost use Rattle.ti_caps.specs.Names.{are_names};
ghost use Rattle.ti_binary.specs.Files.{Reads, clamped_of, has_bad_names, is_nul, is_outside, is_unended, offsets_refusal, refusal, words_in};
ghost use Rattle.ti_binary.specs.declared.widths.Width.TheVariants.{Legacy, Wide};

use crate::faults::BinFault;
use crate::filler::{set_flags, set_numbers, set_texts, want_of_memory};
use crate::parts::{check_header, check_room, cut, word};
use crate::texts::{before_nul, has_nul, through_last_nul};
use crate::widths::Width;
use std::alloc::Global;
use ti_caps::{Entry, MOST_NUMBER, are_names};

/// What a compiled file with 32-bit numbers says.
#[derive(Drop)]
pub struct Decoded {
    /// The file's entry.
    pub entry: Entry,
    /// The number of bytes after the string table, which were not read.
    pub skipped: usize,
    /// How many numbers were above 32,767, and are 32,767 in the entry.
    pub clamped: u16,
}

/// Reads a compiled file: its entry, and how many bytes follow its string table (term(5), 'Legacy
/// Storage Format'). Capabilities without a name are kept.
///
/// Refused with the first error that applies, in the order of `BinFault`; with `NoMemory` if memory
/// runs out and nothing else is wrong.
pub fn decode(alloc: Global, bytes: &[u8]) -> Result<(Entry, usize), BinFault>
    ensures refused { IfErr result (λ fault. (fault ≡ BinFault.NoMemory) ⊎ (refusal Legacy bytes.now ≡ Some fault)) }
    ensures memory { IsErrOf result BinFault.NoMemory → refusal Legacy bytes.now ≡ None }
    ensures good { refusal Legacy bytes.now ≡ None → IsOkUnless result BinFault.NoMemory }
    ensures ok { IfOk result (λ read. Reads Legacy bytes.now read.0 read.1) }
{
    match read(alloc, Width::Legacy, bytes) {
        Ok(decoded) => Ok((decoded.entry, decoded.skipped)),
        Err(fault) => Err(fault),
    }
}

/// Reads a compiled file with 32-bit numbers (term(5), 'Extended Number Format'), which is as one in
/// the legacy format except for its magic number, octal 01036, and the width of its numbers. A
/// number above 32,767, the most that an entry has, counts as 32,767; a negative one is absent.
/// Capabilities without a name are kept.
///
/// Refused as by `decode`, but for the magic number: any other is `BadMagic`.
pub fn decode_wide(alloc: Global, bytes: &[u8]) -> Result<Decoded, BinFault>
    ensures refused { IfErr result (λ fault. (fault ≡ BinFault.NoMemory) ⊎ (refusal Wide bytes.now ≡ Some fault)) }
    ensures memory { IsErrOf result BinFault.NoMemory → refusal Wide bytes.now ≡ None }
    ensures good { refusal Wide bytes.now ≡ None → IsOkUnless result BinFault.NoMemory }
    ensures ok { IfOk result (λ read. Reads Wide bytes.now read.entry read.skipped) }
    ensures clamped { IfOk result (λ read. read.clamped ≡ clamped_of Wide bytes.now) }
{
    read(alloc, Width::Wide, bytes)
}

// Reads a compiled file with numbers of this width.
fn read(alloc: Global, width: Width, bytes: &[u8]) -> Result<Decoded, BinFault>
    ensures refused { IfErr result (λ fault. (fault ≡ BinFault.NoMemory) ⊎ (refusal width bytes.now ≡ Some fault)) }
    ensures memory { IsErrOf result BinFault.NoMemory → refusal width bytes.now ≡ None }
    ensures good { refusal width bytes.now ≡ None → IsOkUnless result BinFault.NoMemory }
    ensures ok { IfOk result (λ read. Reads width bytes.now read.entry read.skipped) }
    ensures clamped { IfOk result (λ read. read.clamped ≡ clamped_of width bytes.now) }
{
    check_header(width, bytes)?;
    check_room(width, bytes)?;
    let parts = cut(width, bytes);
    let names = names_in(parts.names)?;
    check_offsets(parts.table, parts.offsets, parts.offset_count)?;
    let mut entry = match Entry::new(alloc, names) {
        Ok(entry) => entry,
        Err(fault) => return Err(want_of_memory(fault)),
    };
    set_flags(&mut entry, parts.flags);
    let clamped = set_numbers(&mut entry, width, parts.numbers, parts.number_count);
    set_texts(&mut entry, parts.table, parts.offsets, parts.offset_count)?;
    Ok(Decoded {
        entry,
        skipped: parts.rest,
        clamped,
    })
}

// The names in their section.
fn names_in(section: &[u8]) -> Result<&[u8], BinFault>
    ensures refused { IfErr result (λ fault. (fault ≡ BinFault.BadNames) × (has_bad_names section.now ≡ true)) }
    ensures good { OnOk result (has_bad_names section.now ≡ false) }
    ensures names { IfOk result (λ names. names.now ≡ before_first is_nul section.now) }
    ensures ended { OnOk result (list_any is_nul section.now ≡ true) }
    ensures named { IfOk result (λ names. are_names names.now ≡ true) }
{
    let names = before_nul(section);
    if has_nul(section) && are_names(names) {
        Ok(names)
    } else {
        Err(BinFault::BadNames)
    }
}

// Whether a text's offset is past the end of the table. A negative offset is not.
fn is_outside(table: &[u8], offset: u16) -> bool
    ensures { result ≡ is_outside table.now offset }
{
    offset <= MOST_NUMBER && usize::from(offset) >= table.len()
}

// Whether any of the first `count` offsets is past the end of the table.
fn any_outside(table: &[u8], offsets: &[u8], count: u16) -> bool
    requires { 2 * count ≤ length offsets.now }
    ensures { result ≡ list_any (is_outside table.now) (words_in offsets.now count) }
{
    let mut found = false;
    for i in 0..count {
        found |= is_outside(table, word(offsets, 2 * usize::from(i)));
    }
    found
}

// Whether the text at any of the first `count` offsets has no NUL in the table: it begins behind the last NUL.
fn any_unended(table: &[u8], offsets: &[u8], count: u16) -> bool
    requires { 2 * count ≤ length offsets.now }
    ensures { result ≡ list_any (is_unended table.now) (words_in offsets.now count) }
{
    any_outside(through_last_nul(table), offsets, count)
}

// Refuses a text that begins past the end of the table, and then one that has no NUL there. A text of the first kind is
// of the second too, so one pass is enough where all is right.
fn check_offsets(table: &[u8], offsets: &[u8], count: u16) -> Result<(), BinFault>
    requires { 2 * count ≤ length offsets.now }
    ensures refused { IfErr result (λ fault. offsets_refusal table.now (words_in offsets.now count) ≡ Some fault) }
    ensures plain { IsErrOf result BinFault.NoMemory → ⊥ }
    ensures good { OnOk result (offsets_refusal table.now (words_in offsets.now count) ≡ None) }
    ensures inside { OnOk result (list_any (is_outside table.now) (words_in offsets.now count) ≡ false) }
    ensures ended { OnOk result (list_any (is_unended table.now) (words_in offsets.now count) ≡ false) }
{
    if !any_unended(table, offsets, count) {
        return Ok(());
    }
    if any_outside(table, offsets, count) {
        return Err(BinFault::BadOffset);
    }
    Err(BinFault::Unended)
}
