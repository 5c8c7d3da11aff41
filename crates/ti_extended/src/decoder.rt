//! Reading the file of a whole entry.
ghost use Rattle.std.specs.Prelude.{◌≡◌, ◌≤◌, ◌⊎◌, ◌-◌, List, ℕ, Some, IfErr, IfOk, length, drop};
ghost use Rattle.ti_caps.specs.Description.{Description};
ghost use Rattle.ti_binary.specs.declared.widths.Width.{Width};
ghost use Rattle.ti_binary.specs.Files.{IsFile, Reads, refusal};
ghost use Rattle.ti_extended.specs.Whole.{Whole};
ghost use Rattle.ti_extended.specs.WholeFiles.{IsWholeFile, section_after};

use crate::faults::WholeFault;
use crate::numbers::whole_numbers;
use crate::reading::capabilities_in;
use crate::whole_entry::WholeEntry;
use std::alloc::Global;
use ti_binary::{
    BinFault, Width, decode, decode_wide, files_are_not_refused, files_have_one_entry, rest_from,
};
use ti_caps::Entry;

/// Reads the file of a whole entry: a compiled file with numbers of 16 or 32 bits, and the section
/// of extended capabilities that may follow it (term(5), 'Extended Storage Format'). Extended
/// capabilities that are absent or cancelled are left out.
///
/// Refused with the first error that applies, in the order of `WholeFault`; but with `NoMemory`
/// wherever memory runs out, also before another error is found.
pub fn decode_whole(alloc: Global, bytes: &[u8]) -> Result<WholeEntry, WholeFault>
    ensures ok { IfOk result (λ w. IsWholeFile bytes.now w) }
    ensures err { IfErr result (λ f. (f ≡ WholeFault.NoMemory) ⊎ ((w : Whole) → IsWholeFile bytes.now w → ⊥)) }
{
    files_have_one_entry();
    let read = read_standard(alloc, bytes)?;
    let numbers = whole_numbers(alloc, read.width, bytes)?;
    let section = section_after(bytes, read.skipped);
    let extended = capabilities_in(alloc, read.width, section)?;
    Ok(WholeEntry::of(read.entry, numbers, extended))
}

/// What precedes the extended capabilities.
#[derive(Drop)]
struct Standard {
    width: Width,
    entry: Entry,
    skipped: usize,
}

/// Reads what precedes the extended capabilities.
fn read_standard(alloc: Global, bytes: &[u8]) -> Result<Standard, WholeFault>
    ensures ok { IfOk result (λ r. Reads r.width bytes.now r.entry r.skipped) }
    ensures err { IfErr result (λ f. (f ≡ WholeFault.NoMemory) ⊎ ((width : Width) (d : Description) (rest : List ℕ) → IsFile width bytes.now d rest → ⊥)) }
{
    match decode(alloc, bytes) {
        Ok((entry, skipped)) => Ok(Standard {
            width: Width::Legacy,
            entry,
            skipped,
        }),
        Err(fault) => read_wide(alloc, bytes, fault),
    }
}

/// The same of a file that has no 16-bit numbers, for this reason.
fn read_wide(alloc: Global, bytes: &[u8], first: BinFault) -> Result<Standard, WholeFault>
    requires { (first ≡ BinFault.NoMemory) ⊎ (refusal Width.Legacy bytes.now ≡ Some first) }
    ensures ok { IfOk result (λ r. Reads r.width bytes.now r.entry r.skipped) }
    ensures err { IfErr result (λ f. (f ≡ WholeFault.NoMemory) ⊎ ((width : Width) (d : Description) (rest : List ℕ) → IsFile width bytes.now d rest → ⊥)) }
{
    files_are_not_refused();
    match decode_wide(alloc, bytes) {
        Ok(read) => Ok(Standard {
            width: Width::Wide,
            entry: read.entry,
            skipped: read.skipped,
        }),
        Err(fault) => Err(refused(first, fault)),
    }
}

/// Why a file has neither 16-bit numbers nor 32-bit ones.
fn refused(first: BinFault, fault: BinFault) -> WholeFault
    ensures first { first ≡ BinFault.NoMemory → result ≡ WholeFault.NoMemory }
    ensures fault { fault ≡ BinFault.NoMemory → result ≡ WholeFault.NoMemory }
{
    if first == BinFault::NoMemory || fault == BinFault::NoMemory {
        return WholeFault::NoMemory;
    }
    if first == BinFault::WideNumbers {
        return WholeFault::Standard(fault);
    }
    WholeFault::Standard(first)
}

/// The section of extended capabilities, from an even place on, in a file that `skipped` bytes
/// follow.
fn section_after(bytes: &[u8], skipped: usize) -> &[u8]
    requires { skipped ≤ length bytes.now }
    ensures { result.now ≡ section_after bytes.now (drop (length bytes.now - skipped) bytes.now) }
{
    let start = bytes.len() - skipped;
    rest_from(rest_from(bytes, start), start % 2)
}
