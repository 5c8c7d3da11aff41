//! Whole entries: an entry, its numbers as they are, and its extended capabilities.
ghost use Rattle.std.specs.Prelude.{◌≡◌, ◌<◌, ◌≤◌, ◌↔◌, IfOk, IsErrOf, IsOk, IsOkUnless, OnErr, OnOk, Some, false, length, map, min, slice_set, true};
ghost use Rattle.ti_caps.specs.Description.{IsDescription, has_nul};
ghost use Rattle.ti_extended.specs.Whole.{IsWhole, clamped, no_capabilities};

use crate::capabilities::Extended;
use std::alloc::{AllocError, Global};
use std::marker::Model;
use ti_caps::{CapFault, Entry, MOST_NUMBER, MOST_NUMBERS, Slot};

/// An entry with all that a compiled file may hold: its capabilities by position, numbers up to
/// 2,147,483,647, and extended capabilities (term(5)).
#[derive(Drop)]
pub struct WholeEntry {
    entry: Entry,
    numbers: Vec<Option<u32>>,
    extended: Extended,
}

impl Model for WholeEntry {
    ghost use Rattle.ti_extended.specs.Whole.{IsWhole, Whole};

    ghost Value = { Whole };

    ghost view = { λ w. record { entry = w.entry; numbers = w.numbers.items; extended = w.extended } };

    ghost invariant = { λ w. IsWhole (record { entry = w.entry; numbers = w.numbers.items; extended = w.extended }) };
}

impl WholeEntry {
    /// The whole entry of these parts.
    pub(crate) fn of(entry: Entry, numbers: Vec<Option<u32>>, extended: Extended) -> WholeEntry
        requires { IsWhole (record { entry = entry; numbers = numbers.items; extended = extended }) }
        ensures { result ≡ record { entry = entry; numbers = numbers.items; extended = extended } }
    {
        WholeEntry {
            entry,
            numbers,
            extended,
        }
    }

    /// The whole entry of an entry, with its numbers and without extended capabilities. Fails only
    /// when memory runs out.
    pub fn new(alloc: Global, entry: Entry) -> Result<WholeEntry, AllocError>
        ensures { IfOk result (λ w. w ≡ record { entry = entry; numbers = entry.numbers; extended = no_capabilities }) }
    {
        let numbers = numbers_of(alloc, &entry)?;
        Ok(WholeEntry {
            entry,
            numbers,
            extended: Extended::none(alloc),
        })
    }

    /// The same with these extended capabilities.
    pub fn with_extended(self, extended: Extended) -> WholeEntry
        ensures { result ≡ record self { extended = extended } }
    {
        let WholeEntry {
            entry,
            numbers,
            extended: _,
        } = self;
        WholeEntry {
            entry,
            numbers,
            extended,
        }
    }

    /// Makes a flag present, as `Entry::set_flag`.
    pub fn set_flag(&mut self, slot: Slot) -> Result<(), CapFault>
        ensures too_big { IsErrOf result CapFault.SlotTooBig ↔ (64 ≤ slot.0) }
        ensures fits { slot.0 < 64 → IsOk result }
        ensures ok { OnOk result (self.new ≡ record self.old { entry = record self.old.entry { flags = slice_set self.old.entry.flags slot.0 true } }) }
        ensures err { OnErr result (self.new ≡ self.old) }
    {
        self.entry.set_flag(slot, true)
    }

    /// Sets a text, as `Entry::set_text`.
    pub fn set_text(&mut self, slot: Slot, text: &[u8]) -> Result<(), CapFault>
        ensures too_big { IsErrOf result CapFault.SlotTooBig ↔ (512 ≤ slot.0) }
        ensures nul { IsErrOf result CapFault.NulInText ↔ ((slot.0 < 512) × (has_nul text.now ≡ true)) }
        ensures good { slot.0 < 512 → has_nul text.now ≡ false → IsOkUnless result CapFault.NoMemory }
        ensures ok { OnOk result (self.new ≡ record self.old { entry = record self.old.entry { texts = slice_set self.old.entry.texts slot.0 (Some text.now) } }) }
        ensures err { OnErr result (self.new ≡ self.old) }
    {
        self.entry.set_text(slot, Some(text))
    }

    /// Sets a number up to 2,147,483,647; in the entry it is 32,767 if it is greater. Refused with
    /// `SlotTooBig` from position 64 on.
    pub fn set_number(&mut self, slot: Slot, number: u32) -> Result<(), CapFault>
        requires { number ≤ 2147483647 }
        ensures too_big { IsErrOf result CapFault.SlotTooBig ↔ (64 ≤ slot.0) }
        ensures fits { slot.0 < 64 → IsOk result }
        ensures ok { OnOk result (self.new ≡ record self.old { entry = record self.old.entry { numbers = slice_set self.old.entry.numbers slot.0 (Some (min number 32767)) }; numbers = slice_set self.old.numbers slot.0 (Some number) }) }
        ensures err { OnErr result (self.new ≡ self.old) }
    {
        if slot.0 >= MOST_NUMBERS as u16 {
            return Err(CapFault::SlotTooBig);
        }
        let _own = self.entry.names();
        self.entry
            .set_number(slot, Some(number.min(u32::from(MOST_NUMBER)) as u16))?;
        self.numbers[usize::from(slot.0)] = Some(number);
        Ok(())
    }

    /// The entry that programs without wide numbers and extended capabilities see: each number
    /// above 32,767 is 32,767.
    pub fn entry(&self) -> &Entry
        ensures entry { result.now ≡ self.now.entry }
        ensures clamps { self.now.entry.numbers ≡ map clamped self.now.numbers }
        ensures whole { IsWhole self.now }
    {
        &self.entry
    }

    /// The 64 numbers by position; `None` where one is absent.
    pub fn numbers(&self) -> &[Option<u32>]
        ensures numbers { result.now ≡ self.now.numbers }
        ensures many { length self.now.numbers ≡ 64 }
    {
        let _own = self.entry.names();
        self.numbers.as_slice()
    }

    /// The extended capabilities.
    pub fn extended(&self) -> &Extended
        ensures extended { result.now ≡ self.now.extended }
    {
        &self.extended
    }
}

// The numbers of an entry, by position.
fn numbers_of(alloc: Global, entry: &Entry) -> Result<Vec<Option<u32>>, AllocError>
    ensures value { IfOk result (λ v. v.items ≡ entry.now.numbers) }
    ensures described { IsDescription entry.now }
{
    let _own = entry.names();
    let mut numbers = Vec::with_capacity(alloc, MOST_NUMBERS)?;
    for slot in 0..MOST_NUMBERS as u16 {
        numbers.push(widened(entry.number(Slot(slot))))?;
    }
    Ok(numbers)
}

fn widened(number: Option<u16>) -> Option<u32>
    ensures { result ≡ number }
{
    match number {
        Some(number) => Some(u32::from(number)),
        None => None,
    }
}
