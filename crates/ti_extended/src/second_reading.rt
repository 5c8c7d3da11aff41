//! What `tic -x` reads of a source besides what is read without: other names of term.h, numbers up
//! to 2,147,483,647, and extended capabilities.

use crate::additions::{Addition, Given, Owner, addition_of};
use crate::capabilities::Extended;
use crate::carets::CaretNote;
use crate::encoder::encode_whole;
use crate::faults::WholeFault;
use crate::gathering::Gathered;
use crate::resolving::{Resolved, resolve};
use crate::whole_entry::WholeEntry;
use std::alloc::Global;
use ti_binary::EncFault;
use ti_caps::{Bytes, CapFault, Entry, Slot};
use ti_source::{Cause, Notes, SourceFault};

/// What the entries of a source have besides what is read without `-x`.
#[derive(Drop)]
pub struct SecondReading<'a> {
    gathered: Gathered<'a>,
    resolved: Resolved,
}

// An extended capability.
#[derive(Clone, Copy)]
struct Own<'a> {
    name: &'a [u8],
    given: Given<'a>,
}

impl<'a> SecondReading<'a> {
    /// Reads a source once more that was read with these notes.
    ///
    /// Refused with `BadNumber` where a capability that is not in the table gets a number that is
    /// none, then with `NoMemory`.
    pub fn read(
        alloc: Global,
        bytes: &'a [u8],
        notes: &Notes,
    ) -> Result<SecondReading<'a>, SourceFault> {
        let mut gathered = Gathered::read(alloc, bytes, notes)?;
        let resolved = resolve(alloc, &mut gathered)?;
        Ok(SecondReading { gathered, resolved })
    }

    /// What is doubtful in the field of a note of the first reading, if anything is now.
    pub fn cause(&self, note: usize) -> Option<Cause> {
        match self.gathered.causes.get(note) {
            Some(cause) => *cause,
            None => None,
        }
    }

    /// The notes on texts with an unescaped `%^`, in the order of their fields: another compiler
    /// reads them otherwise.
    pub fn carets(&self) -> &[CaretNote<'a>] {
        self.gathered.carets.as_slice()
    }

    /// The whole file of the entry at an index, which by the first reading resolves to `entry`.
    /// Refused as by `encode_whole`.
    pub fn file(&self, alloc: Global, entry: Entry, index: usize) -> Result<Bytes, EncFault> {
        match self.whole(alloc, entry, index) {
            Ok(whole) => encode_whole(alloc, &whole),
            Err(_) => Err(EncFault::NoMemory),
        }
    }

    // The whole entry. What a source names is good, so only memory can run out.
    fn whole(&self, alloc: Global, entry: Entry, index: usize) -> Result<WholeEntry, WholeFault> {
        let mut whole = WholeEntry::new(alloc, entry)?;
        let extended = self.put_fields(alloc, &mut whole, index)?;
        Ok(whole.with_extended(extended))
    }

    // Sets the capabilities of term.h that an entry has, and gives its extended ones.
    fn put_fields(
        &self,
        alloc: Global,
        whole: &mut WholeEntry,
        entry: usize,
    ) -> Result<Extended, WholeFault> {
        let mut own = Vec::new(alloc);
        for i in self.resolved.fields_of(entry) {
            if let Some(field) = self.gathered.fields.get(*i as usize)
                && let Addition::Gives(name, owner, given, _) = addition_of(field.text)
            {
                match owner {
                    Owner::Table(_, slot) | Owner::Standard(_, slot) => {
                        set(alloc, whole, slot, given)?
                    }
                    Owner::Extended | Owner::Nobody => own.push(Own { name, given })?,
                }
            }
        }
        own.sort_unstable_by(|a, b| a.name.cmp(b.name));
        extended_of(alloc, &own)
    }
}

// Gives a capability of term.h a value.
fn set(
    alloc: Global,
    whole: &mut WholeEntry,
    slot: Slot,
    given: Given<'_>,
) -> Result<(), WholeFault> {
    let done = match given {
        Given::Flag => whole.set_flag(slot),
        Given::Number(number) => set_number(whole, slot, number),
        Given::Text(text) => whole.set_text(slot, &ti_source::decode(alloc, text)?),
        Given::Cancelled => Ok(()),
    };
    match done {
        Ok(()) => Ok(()),
        Err(_) => Err(WholeFault::NoMemory),
    }
}

fn set_number(whole: &mut WholeEntry, slot: Slot, number: u32) -> Result<(), CapFault> {
    if number <= crate::capabilities::MOST_WHOLE {
        return whole.set_number(slot, number);
    }
    Ok(())
}

// Extended capabilities in the order of their names: flags, numbers, and texts.
fn extended_of(alloc: Global, own: &[Own<'_>]) -> Result<Extended, WholeFault> {
    let mut names = Vec::new(alloc);
    let mut numbers = Vec::new(alloc);
    let mut texts = Vec::new(alloc);
    for one in own {
        if let Given::Flag = one.given {
            names.push(Bytes(Vec::from_slice(alloc, one.name)?))?;
        }
    }
    for one in own {
        if let Given::Number(number) = one.given {
            names.push(Bytes(Vec::from_slice(alloc, one.name)?))?;
            numbers.push(number)?;
        }
    }
    for one in own {
        if let Given::Text(text) = one.given {
            names.push(Bytes(Vec::from_slice(alloc, one.name)?))?;
            texts.push(ti_source::decode(alloc, text)?)?;
        }
    }
    Extended::new(names, numbers, texts)
}
