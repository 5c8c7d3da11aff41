//! Extended capabilities: those whose names are an entry's own.
ghost use Rattle.std.specs.Prelude.{◌≡◌, ◌+◌, ◌&&◌, ◌∷◌, [], true, false, nat_le, length, IfErr, IfOk, IfNone, IfSome, OnErr, OnSome, Some};
ghost use Rattle.std.specs.List.{list_all};
ghost use Rattle.std.specs.Str.{bytes_eq};
ghost use Rattle.ti_extended.specs.Refusals.{capabilities_refusal};
ghost use Rattle.ti_extended.specs.Whole.{are_capabilities, begins_field, is_extended_name, is_field_byte, is_small, is_whole_text, no_capabilities};

use crate::distinct::are_distinct;
use crate::faults::WholeFault;
use std::alloc::Global;
use std::marker::Model;
use ti_binary::has_nul;
use ti_caps::Bytes;
use ti_caps::standard::find_name;

/// The greatest value of a number.
pub(crate) const MOST_WHOLE: u32 = 2_147_483_647;

/// Extended (user-defined) capabilities (term(5), 'Extended Storage Format'): flags, numbers and
/// texts that have names of an entry's own. No name is one of term.h, and none occurs twice.
#[derive(Drop)]
pub struct Extended {
    names: Vec<Bytes>,
    numbers: Vec<u32>,
    texts: Vec<Bytes>,
}

impl Model for Extended {
    ghost use Rattle.std.specs.Prelude.{◌≡◌, true};
    ghost use Rattle.ti_extended.specs.Whole.{Capabilities, are_capabilities};

    ghost Value = { Capabilities };

    ghost view = { λ e. record { names = e.names.items; numbers = e.numbers.items; texts = e.texts.items } };

    ghost invariant = { λ e. are_capabilities (record { names = e.names.items; numbers = e.numbers.items; texts = e.texts.items }) ≡ true };
}

impl Extended {
    /// No capabilities.
    pub fn none(alloc: Global) -> Extended
        ensures { result ≡ no_capabilities }
    {
        Extended {
            names: Vec::new(alloc),
            numbers: Vec::new(alloc),
            texts: Vec::new(alloc),
        }
    }

    /// Capabilities with these names: those of the flags, then those of the numbers, then those of
    /// the texts; and with these values of the numbers and texts.
    ///
    /// Refused with `BadName` if a name is empty, has a byte that a source cannot have in a name of
    /// a field, begins with a full stop, or is `use` or a name of term.h; then with `RepeatedName`
    /// if two are the same; and then with `BadValue` if there are more values than names, a number
    /// is above 2,147,483,647, or a text has a byte 0.
    pub fn new(
        names: Vec<Bytes>,
        numbers: Vec<u32>,
        texts: Vec<Bytes>,
    ) -> Result<Extended, WholeFault>
        ensures ok { IfOk result (λ e. e ≡ record { names = names.items; numbers = numbers.items; texts = texts.items }) }
        ensures good { IfOk result (λ e. are_capabilities e ≡ true) }
        ensures err { OnErr result (are_capabilities (record { names = names.items; numbers = numbers.items; texts = texts.items }) ≡ false) }
        ensures fault { IfErr result (λ f. capabilities_refusal (record { names = names.items; numbers = numbers.items; texts = texts.items }) ≡ Some f) }
    {
        if let Some(fault) = fault_of(*names.allocator(), &names, &numbers, &texts) {
            return Err(fault);
        }
        Ok(Extended {
            names,
            numbers,
            texts,
        })
    }

    /// The names of the flags, then those of the numbers, then those of the texts.
    pub fn names(&self) -> &[Bytes]
        ensures names { result.now ≡ self.now.names }
        ensures good { are_capabilities self.now ≡ true }
    {
        self.names.as_slice()
    }

    /// The values of the numbers.
    pub fn numbers(&self) -> &[u32]
        ensures { result.now ≡ self.now.numbers }
    {
        self.numbers.as_slice()
    }

    /// The texts.
    pub fn texts(&self) -> &[Bytes]
        ensures { result.now ≡ self.now.texts }
    {
        self.texts.as_slice()
    }
}

// Why these are no capabilities.
fn fault_of(alloc: Global, names: &[Bytes], numbers: &[u32], texts: &[Bytes]) -> Option<WholeFault>
    ensures none { IfNone result (are_capabilities (record { names = names.now; numbers = numbers.now; texts = texts.now }) ≡ true) }
    ensures some { OnSome result (are_capabilities (record { names = names.now; numbers = numbers.now; texts = texts.now }) ≡ false) }
    ensures fault { IfSome result (λ f. capabilities_refusal (record { names = names.now; numbers = numbers.now; texts = texts.now }) ≡ Some f) }
{
    if !are_good(names) {
        return Some(WholeFault::BadName);
    }
    if !are_distinct(alloc, names) {
        return Some(WholeFault::RepeatedName);
    }
    if !are_values(names.len(), numbers, texts) {
        return Some(WholeFault::BadValue);
    }
    None
}

fn are_values(most: usize, numbers: &[u32], texts: &[Bytes]) -> bool
    ensures { result ≡ (nat_le (length numbers.now + length texts.now) most && (list_all is_small numbers.now && list_all is_whole_text texts.now)) }
{
    numbers.len() <= most
        && texts.len() <= most - numbers.len()
        && are_small(numbers)
        && are_whole(texts)
}

fn are_small(numbers: &[u32]) -> bool
    ensures { result ≡ list_all is_small numbers.now }
{
    numbers.iter().all(|n| *n <= MOST_WHOLE)
}

fn are_whole(texts: &[Bytes]) -> bool
    ensures { result ≡ list_all is_whole_text texts.now }
{
    for text in texts {
        if !is_whole_text(text) {
            return false;
        }
    }
    true
}

fn is_whole_text(text: &[u8]) -> bool
    ensures { result ≡ is_whole_text text.now }
{
    !has_nul(text)
}

fn are_good(names: &[Bytes]) -> bool
    ensures { result ≡ list_all is_extended_name names.now }
{
    for name in names {
        if !is_extended_name(name) {
            return false;
        }
    }
    true
}

/// Whether a name is one that a source can give an extended capability: it has graphic bytes alone,
/// none of which is a comma, `#`, `=`, `@`, `\` or `^`, does not begin with a full stop, and is
/// neither `use` nor a name of term.h.
#[tactic(auto, unfolding(crate::specs::Whole::is_extended_name))]
pub fn is_extended_name(name: &[u8]) -> bool
    ensures { result ≡ is_extended_name name.now }
{
    are_field_bytes(name) && begins_field(name) && !is_use(name) && find_name(name).is_none()
}

fn is_use(name: &[u8]) -> bool
    ensures { result ≡ bytes_eq name.now (117 ∷ 115 ∷ 101 ∷ []) }
{
    name == b"use".as_slice()
}

fn are_field_bytes(name: &[u8]) -> bool
    ensures { result ≡ list_all is_field_byte name.now }
{
    for b in name {
        if !is_field_byte(*b) {
            return false;
        }
    }
    true
}

fn is_field_byte(b: u8) -> bool
    ensures { result ≡ is_field_byte b }
{
    33 <= b
        && b <= 126
        && !(b == b',' || b == b'#' || b == b'=' || b == b'@' || b == b'\\' || b == b'^')
}

fn begins_field(name: &[u8]) -> bool
    ensures { result ≡ begins_field name.now }
{
    match name {
        [first, ..] => *first != b'.',
        [] => false,
    }
}
