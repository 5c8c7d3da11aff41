//! The keys of a terminal, and how they are found.
ghost use Rattle.std.specs.Prelude.{◌≡◌, ◌+◌, ◌<◌, ◌≤◌, ◌≢◌, ◌==◌, [], ◌∷◌, ◌++◌, None, IfErr, IfOk, IfSome, IsErrOf, OnErr, length, nat_lt};
ghost use Rattle.std.specs.Prelude.{option_map};
ghost use Rattle.scr_keys.specs.Tables.{AreKeysOf, AreRefused, HasKeyAt, HasKeys, is_key, is_new, text_name_at, text_of_key, too_long, with_key};
ghost use Rattle.scr_keys.specs.Keys.{first_of, goes_on, key_of, longest, longest_text};

use crate::faults::KeyFault;
use crate::keys::Key;
use crate::maps::{KeyMaps, position_of};
use crate::sets::KeySet;
use out_of_memory::NoMemory;
use std::alloc::Global;
use std::marker::Model;
use ti_caps::{Entry, Kind, MOST_TEXTS, Slot, name_of, standard};
use ti_param::{padding_is_removed, padding_is_removed_once, strip_padding, stripped_length};

/// The keys of a terminal, each with the text that it sends.
#[derive(Drop)]
pub struct KeyTable {
    maps: KeyMaps,
}

impl Model for KeyTable {
    ghost use Rattle.std.specs.Prelude.{ℕ, List};
    ghost use Rattle.scr_keys.specs.Code.Maps.{IsTable};

    ghost Value = { List (List ℕ × ℕ) };

    ghost view = { λ t. t.maps.keys };

    ghost invariant = { λ t. IsTable t.maps };
}

impl KeyTable {
    /// Makes the table of an entry's keys by the names of the capability table: `of_set` with `KeySet::Table`.
    pub fn of(alloc: Global, entry: &Entry) -> Result<KeyTable, KeyFault>
        ensures ok { IfOk result (AreKeysOf KeySet.Table entry.now) }
        ensures err { IfErr result (AreRefused KeySet.Table entry.now) }
        ensures memory { IsErrOf result KeyFault.NoMemory → HasKeys KeySet.Table entry.now }
        ensures few { IsErrOf result KeyFault.NoMemory → too_long KeySet.Table entry.now ≡ None }
    {
        KeyTable::of_set(alloc, entry, KeySet::Table)
    }

    /// Makes the table of an entry's keys by all names of term.h: `of_set` with `KeySet::All`.
    pub fn of_all(alloc: Global, entry: &Entry) -> Result<KeyTable, KeyFault>
        ensures ok { IfOk result (AreKeysOf KeySet.All entry.now) }
        ensures err { IfErr result (AreRefused KeySet.All entry.now) }
        ensures memory { IsErrOf result KeyFault.NoMemory → HasKeys KeySet.All entry.now }
        ensures few { IsErrOf result KeyFault.NoMemory → too_long KeySet.All entry.now ≡ None }
    {
        KeyTable::of_set(alloc, entry, KeySet::All)
    }

    /// Makes the table of an entry's keys: the texts that have one of these names, without padding, all other bytes as
    /// they are. An empty text is not a key; of two keys that send the same, the one at the lower position counts.
    ///
    /// Refused: KeyTooLong with the lowest position whose text has more than 64 bytes, which is found before any
    /// allocation; NoMemory if memory runs out, which it cannot if no key has a text. terminfo(5), 'Function Keys'.
    pub fn of_set(alloc: Global, entry: &Entry, set: KeySet) -> Result<KeyTable, KeyFault>
        ensures ok { IfOk result (AreKeysOf set entry.now) }
        ensures err { IfErr result (AreRefused set entry.now) }
        ensures memory { IsErrOf result KeyFault.NoMemory → HasKeys set entry.now }
        ensures few { IsErrOf result KeyFault.NoMemory → too_long set entry.now ≡ None }
    {
        if let Some(slot) = too_long(entry, set) {
            return Err(KeyFault::KeyTooLong(Slot(slot)));
        }
        let mut maps = KeyMaps::empty(alloc);
        for slot in 0..MOST_TEXTS as u16 {
            let text = text_of_key(alloc, entry, set, Slot(slot))?;
            maps.add_key(alloc, text, slot)?;
        }
        Ok(KeyTable { maps })
    }

    // The key that sends exactly this text.
    fn key(&self, text: &[u8]) -> Option<u16>
        ensures { result ≡ key_of self.now text.now }
    {
        position_of(&self.maps.texts, text)
    }

    /// Whether any key begins with these bytes and has more.
    pub(crate) fn goes_on(&self, bytes: &[u8]) -> bool
        ensures { result ≡ goes_on self.now bytes.now }
    {
        bytes.len() < self.maps.longest_like(bytes)
            && position_of(&self.maps.beginnings, bytes).is_some()
    }

    /// How many bytes the longest text of a key has, at most 64.
    pub(crate) fn longest(&self) -> usize
        ensures value { result ≡ longest_text self.now }
        ensures few { result ≤ 64 }
    {
        self.maps.longest
    }

    /// The first key of some bytes, and how many of them it has.
    pub(crate) fn first_key(&self, bytes: &[u8]) -> (Key, usize)
        requires { bytes.now ≢ [] }
        ensures first { result ≡ first_of self.now bytes.now }
        ensures some { 1 ≤ result.1 }
        ensures few { result.1 ≤ length bytes.now }
    {
        match self.longest_key(bytes) {
            Some((slot, len)) => (Key::Slot(slot), len),
            None => (Key::Byte(bytes[0]), 1),
        }
    }

    // The key with the longest text that some bytes begin with, and how many bytes it has.
    fn longest_key(&self, bytes: &[u8]) -> Option<(u16, usize)>
        ensures longest { result ≡ longest self.now bytes.now (length bytes.now) }
        ensures some { IfSome result (λ key. 1 ≤ key.1) }
        ensures few { IfSome result (λ key. key.1 ≤ length bytes.now) }
    {
        let mut len = bytes.len().min(self.maps.longest_like(bytes));
        while len > 0 {
            if let Some(slot) = self.key(&bytes[..len]) {
                return Some((slot, len));
            }
            len -= 1;
        }
        None
    }
}

// The lowest position of a key whose text is too long.
fn too_long(entry: &Entry, set: KeySet) -> Option<u16>
    ensures { result ≡ too_long set entry.now }
{
    for slot in 0..MOST_TEXTS as u16 {
        if is_too_long(entry, set, Slot(slot)) {
            return Some(slot);
        }
    }
    None
}

// Whether the text of the key at a position is too long.
fn is_too_long(entry: &Entry, set: KeySet, slot: Slot) -> bool
    ensures { result ≡ nat_lt 64 (length (text_of_key set entry.now slot.0)) }
{
    match entry.text(slot) {
        Some(text) => stripped_length(text) > 64 && is_key(set, slot),
        None => false,
    }
}

// What the key at a position sends, without padding; nothing if there is no key.
fn text_of_key(alloc: Global, entry: &Entry, set: KeySet, slot: Slot) -> Result<Vec<u8>, NoMemory>
    ensures text { IfOk result (λ text. text.items ≡ text_of_key set entry.now slot.0) }
    ensures some { IfOk result (λ text. text.items ≢ [] → HasKeyAt set entry.now slot.0) }
    ensures memory { OnErr result (HasKeyAt set entry.now slot.0) }
{
    padding_is_removed();
    padding_is_removed_once();
    match entry.text(slot) {
        Some(text) if is_key(set, slot) => strip_padding(alloc, text),
        _ => Ok(Vec::new(alloc)),
    }
}

// Whether a position is a key's: its name begins with `k`.
fn is_key(set: KeySet, slot: Slot) -> bool
    ensures { result ≡ is_key set slot.0 }
{
    match text_name(set, slot) {
        Some(name) => name.as_bytes().first() == Some(&b'k'),
        None => false,
    }
}

// The name of the text at a position, if there is one.
fn text_name(set: KeySet, slot: Slot) -> Option<&'static str>
    ensures { option_map (λ name. name.now) result ≡ text_name_at set slot.0 }
{
    match set {
        KeySet::Table => name_of(Kind::Text, slot),
        KeySet::All => standard::name_of(Kind::Text, slot),
    }
}
