//! Entries: descriptions of terminals in memory.

ghost use Rattle.std.specs.Prelude.{◌≡◌, ◌≤◌, ◌<◌, ◌↔◌, None, true, false, replicate, is_none, option_map, slice_set, length, map, is_some, IfSome, IfOk, OnOk, OnErr, IsOk, IsErrOf, IsOkUnless};
ghost use Rattle.ti_caps.specs.Names.{are_names};
ghost use Rattle.ti_caps.specs.Table.{name_at};
ghost use Rattle.ti_caps.specs.Description.{AreBytes, IsDescription, bare, text_has_nul, flag_at, has_nul, number_at, text_at, unnamed_count, unnamed_from};

use crate::bytes::Bytes;
use crate::faults::CapFault;
use crate::names::are_names;
use crate::table::{Kind, Slot, name_of};
use std::alloc::{AllocError, Global};
use std::marker::Model;

/// The number of positions for flags.
pub const MOST_FLAGS: usize = 64;

/// The number of positions for numbers.
pub const MOST_NUMBERS: usize = 64;

/// The number of positions for texts.
pub const MOST_TEXTS: usize = 512;

/// The greatest value of a number.
pub const MOST_NUMBER: u16 = 32_767;

/// A terminal's entry: its names, and for each position of each kind the terminal's capability
/// there, if it has one (terminfo(5)). It has room for 64 flags, 64 numbers and 512 texts.
#[derive(Drop)]
pub struct Entry {
    names: Bytes,
    flags: [bool; MOST_FLAGS],
    numbers: [Option<u16>; MOST_NUMBERS],
    texts: Vec<Option<Bytes>>,
}

impl Model for Entry {
    ghost use Rattle.ti_caps.specs.Description.{Description, IsDescription};

    ghost Value = { Description };

    ghost view = { λ e. record { names = e.names; flags = e.flags; numbers = e.numbers; texts = e.texts.items } };

    ghost invariant = { λ e. IsDescription (record { names = e.names; flags = e.flags; numbers = e.numbers; texts = e.texts.items }) };
}

impl Entry {
    /// An entry with these names and no capabilities.
    ///
    /// Refused with `BadNames` if the names are not 1 to 511 bytes from 32 to 126 without a comma,
    /// if an alternative is empty, or if the first has a blank or begins with `#`; then with
    /// `NoMemory`.
    pub fn new(alloc: Global, names: &[u8]) -> Result<Entry, CapFault>
        ensures bad { IsErrOf result CapFault.BadNames ↔ (are_names names.now ≡ false) }
        ensures good { are_names names.now ≡ true → IsOkUnless result CapFault.NoMemory }
        ensures ok { IfOk result (λ e. e ≡ bare names.now) }
    {
        if !are_names(names) {
            return Err(CapFault::BadNames);
        }
        let names = Bytes(Vec::from_slice(alloc, names)?);
        let texts = no_texts(alloc)?;
        Ok(Entry {
            names,
            flags: [false; MOST_FLAGS],
            numbers: [None; MOST_NUMBERS],
            texts,
        })
    }

    /// The names, as given to `new`.
    pub fn names(&self) -> &[u8]
        ensures names { result.now ≡ self.now.names }
        ensures described { IsDescription self.now }
    {
        self.names.0.as_slice()
    }

    /// Whether a flag is present; false from position 64 on.
    pub fn flag(&self, slot: Slot) -> bool
        ensures { result ≡ flag_at self.now slot.0 }
    {
        match self.flags.get(usize::from(slot.0)) {
            Some(flag) => *flag,
            None => false,
        }
    }

    /// A number, 0 to 32,767; `None` if it is absent, and from position 64 on.
    pub fn number(&self, slot: Slot) -> Option<u16>
        ensures value { result ≡ number_at self.now slot.0 }
        ensures small { IfSome result (λ n. n ≤ 32767) }
    {
        match self.numbers.get(usize::from(slot.0)) {
            Some(number) => *number,
            None => None,
        }
    }

    /// A text, without a byte 0; `None` if it is absent, and from position 512 on.
    pub fn text(&self, slot: Slot) -> Option<&[u8]>
        ensures value { option_map (λ t. t.now) result ≡ text_at self.now slot.0 }
        ensures whole { IfSome result (λ t. has_nul t.now ≡ false) }
    {
        match self.texts.get(usize::from(slot.0)) {
            Some(Some(text)) => Some(text.0.as_slice()),
            _ => None,
        }
    }

    /// Makes a flag present or absent. Refused with `SlotTooBig` from position 64 on.
    pub fn set_flag(&mut self, slot: Slot, present: bool) -> Result<(), CapFault>
        ensures too_big { IsErrOf result CapFault.SlotTooBig ↔ (64 ≤ slot.0) }
        ensures fits { slot.0 < 64 → IsOk result }
        ensures ok { OnOk result (self.new ≡ record self.old { flags = slice_set self.old.flags slot.0 present }) }
        ensures err { OnErr result (self.new ≡ self.old) }
    {
        let index = usize::from(slot.0);
        if index >= MOST_FLAGS {
            return Err(CapFault::SlotTooBig);
        }
        self.flags[index] = present;
        Ok(())
    }

    /// Sets a number, at most 32,767, or makes it absent. Refused with `SlotTooBig` from position
    /// 64 on.
    pub fn set_number(&mut self, slot: Slot, number: Option<u16>) -> Result<(), CapFault>
        requires { IfSome number (λ n. n ≤ 32767) }
        ensures too_big { IsErrOf result CapFault.SlotTooBig ↔ (64 ≤ slot.0) }
        ensures fits { slot.0 < 64 → IsOk result }
        ensures ok { OnOk result (self.new ≡ record self.old { numbers = slice_set self.old.numbers slot.0 number }) }
        ensures err { OnErr result (self.new ≡ self.old) }
    {
        let index = usize::from(slot.0);
        if index >= MOST_NUMBERS {
            return Err(CapFault::SlotTooBig);
        }
        self.numbers[index] = number;
        Ok(())
    }

    /// Sets a text or makes it absent.
    ///
    /// Refused with `SlotTooBig` from position 512 on, then with `NulInText` if the text has a byte
    /// 0, then with `NoMemory`, which does not happen for an absent text.
    pub fn set_text(&mut self, slot: Slot, text: Option<&[u8]>) -> Result<(), CapFault>
        ensures too_big { IsErrOf result CapFault.SlotTooBig ↔ (512 ≤ slot.0) }
        ensures nul { IsErrOf result CapFault.NulInText ↔ ((slot.0 < 512) × (text_has_nul (option_map (λ t. t.now) text.entry) ≡ true)) }
        ensures good { slot.0 < 512 → text_has_nul (option_map (λ t. t.now) text.entry) ≡ false → IsOkUnless result CapFault.NoMemory }
        ensures absent { slot.0 < 512 → text.entry ≡ None → IsOk result }
        ensures ok { OnOk result (self.new ≡ record self.old { texts = slice_set self.old.texts slot.0 (option_map (λ t. t.now) text.entry) }) }
        ensures err { OnErr result (self.new ≡ self.old) }
    {
        let index = usize::from(slot.0);
        if index >= MOST_TEXTS {
            return Err(CapFault::SlotTooBig);
        }
        if text.is_some_and(has_nul) {
            return Err(CapFault::NulInText);
        }
        let owned = owned(*self.texts.allocator(), text)?;
        self.texts[index] = owned;
        Ok(())
    }

    /// The number of present capabilities that have no name in the table.
    pub fn unnamed(&self) -> usize
        ensures { result ≡ unnamed_count self.now }
    {
        unnamed_flags(&self.flags)
            + unnamed_options(Kind::Number, &self.numbers)
            + unnamed_options(Kind::Text, &self.texts)
    }
}

/// A copy has memory of its own, and is made only where there is enough.
impl Clone for Entry {
    ghost use Rattle.std.specs.Prelude.{◌≡◌};

    ghost is_clone = { λ entry copy. copy ≡ entry };

    fn clone(&self) -> Result<Entry, AllocError> {
        let alloc = *self.texts.allocator();
        let names = Bytes(Vec::from_slice(alloc, self.names())?);
        let texts = copied(alloc, &self.texts)?;
        Ok(Entry {
            names,
            flags: self.flags,
            numbers: self.numbers,
            texts,
        })
    }
}

fn copied(alloc: Global, texts: &[Option<Bytes>]) -> Result<Vec<Option<Bytes>>, AllocError>
    ensures { IfOk result (λ copy. copy.items ≡ texts.now) }
{
    let mut copy = Vec::with_capacity(alloc, texts.len())?;
    for text in texts {
        copy.push(copied_text(alloc, text)?)?;
    }
    Ok(copy)
}

fn copied_text(alloc: Global, text: &Option<Bytes>) -> Result<Option<Bytes>, AllocError>
    ensures { IfOk result (λ copy. copy ≡ text.now) }
{
    match text {
        Some(bytes) => Ok(Some(Bytes(Vec::from_slice(alloc, bytes)?))),
        None => Ok(None),
    }
}

fn no_texts(alloc: Global) -> Result<Vec<Option<Bytes>>, AllocError>
    ensures { IfOk result (λ v. v.items ≡ replicate 512 None) }
{
    let mut texts = Vec::with_capacity(alloc, MOST_TEXTS)?;
    for filled in 0..MOST_TEXTS {
        texts.push(None)?;
    }
    Ok(texts)
}

/// The elements of a byte slice are bytes.
fn holds_bytes(text: &[u8])
    ensures { AreBytes text.now }
{}

fn owned(alloc: Global, text: Option<&[u8]>) -> Result<Option<Bytes>, AllocError>
    ensures ok { IfOk result (λ t. t ≡ option_map (λ s. s.now) text.entry) }
    ensures none { text.entry ≡ None → IsOk result }
    ensures bytes { IfOk result (λ t. IfSome t AreBytes) }
{
    match text {
        Some(bytes) => {
            holds_bytes(bytes);
            Ok(Some(Bytes(Vec::from_slice(alloc, bytes)?)))
        }
        None => Ok(None),
    }
}

fn has_nul(text: &[u8]) -> bool
    ensures { result ≡ has_nul text.now }
{
    text.iter().any(|b| *b == 0)
}

fn has_no_name(kind: Kind, position: usize) -> bool
    requires { position < 65536 }
    ensures { result ≡ is_none (name_at kind position) }
{
    name_of(kind, Slot(position as u16)).is_none()
}

fn unnamed_flags(flags: &[bool]) -> usize
    requires { length flags.now ≤ 512 }
    ensures count { result ≡ unnamed_from Kind.Flag 0 flags.now }
    ensures few { result ≤ length flags.now }
{
    let mut count = 0;
    for (position, present) in flags.iter().enumerate() {
        if *present && has_no_name(Kind::Flag, position) {
            count += 1;
        }
    }
    count
}

fn unnamed_options<T>(kind: Kind, options: &[Option<T>]) -> usize
    requires { length options.now ≤ 512 }
    ensures count { result ≡ unnamed_from kind 0 (map is_some options.now) }
    ensures few { result ≤ length options.now }
{
    let mut count = 0;
    for (position, option) in options.iter().enumerate() {
        if option.is_some() && has_no_name(kind, position) {
            count += 1;
        }
    }
    count
}
