//! Maps from texts to positions, and what else finds a key.
ghost use Rattle.std.specs.Prelude.{ℕ, List, [], ◌∷◌, ◌++◌, ◌≡◌, ◌≢◌, ◌≤◌, ◌||◌, None, OnErr, OnOk, is_some, length};
ghost use Rattle.scr_keys.specs.Code.Maps.{IsClosed, IsTable, longest_like, seen};
ghost use Rattle.scr_keys.specs.Keys.{is_beginning, key_of};
ghost use Rattle.scr_keys.specs.Tables.{is_new, with_key};

use crate::firsts::{add_text, no_texts};
use indexmap::IndexMap;
use out_of_memory::NoMemory;
use std::alloc::Global;
use std::marker::Model;

// How many keys there is room for from the first on.
const ROOM: usize = 100;

/// What the keys of a terminal are found by.
#[derive(Drop)]
pub(crate) struct KeyMaps {
    // What each key sends, in the order of their positions.
    pub(crate) texts: IndexMap<Vec<u8>, u16>,
    // The beginnings of these texts.
    pub(crate) beginnings: IndexMap<Vec<u8>, u16>,
    // How many bytes the longest text has.
    pub(crate) longest: usize,
    // For each byte, how many bytes the longest text has that begins with it.
    pub(crate) firsts: [u8; 256],
}

impl Model for KeyMaps {
    ghost use Rattle.scr_keys.specs.Code.Maps.{MapsView, seen};

    ghost Value = { MapsView };

    ghost view = { λ m. record { keys = seen (λ k. k.items) m.texts.entries; beginnings = seen (λ k. k.items) m.beginnings.entries; longest = m.longest; firsts = m.firsts } };
}

impl KeyMaps {
    // No keys.
    pub(crate) fn empty(alloc: Global) -> KeyMaps
        ensures keys { result.keys ≡ [] }
        ensures table { IsTable result }
    {
        KeyMaps {
            texts: IndexMap::new(alloc),
            beginnings: IndexMap::new(alloc),
            longest: 0,
            firsts: no_texts(),
        }
    }

    // Adds a key, unless it sends nothing, or what a key before it sends.
    pub(crate) fn add_key(
        &mut self,
        alloc: Global,
        text: Vec<u8>,
        slot: u16,
    ) -> Result<(), NoMemory>
        requires table { IsTable self.old }
        requires few { length text.items ≤ 64 }
        ensures keys { OnOk result (self.new.keys ≡ with_key self.old.keys text.items slot) }
        ensures table { OnOk result (IsTable self.new) }
        ensures memory { OnErr result (text.items ≢ []) }
    {
        if !self.is_new(&text) {
            return Ok(());
        }
        self.make_room()?;
        put_beginnings(alloc, &mut self.beginnings, &text, slot)?;
        add_text(&mut self.firsts, &text);
        self.longest = self.longest.max(text.len());
        add(&mut self.texts, text, slot)
    }

    // How many bytes the longest text has that begins with the same byte as these; if there are none, the longest of
    // all. With this, most bytes are decided without a look-up in a map.
    pub(crate) fn longest_like(&self, bytes: &[u8]) -> usize
        requires { IsTable self.now }
        ensures { result ≡ longest_like self.now.keys bytes.now }
    {
        match bytes.first() {
            Some(byte) => usize::from(self.firsts[usize::from(*byte)]),
            None => self.longest,
        }
    }

    // Makes room before the first key, for as many as most terminals have: maps that grow are made anew each time.
    fn make_room(&mut self) -> Result<(), NoMemory>
        ensures { self.new ≡ self.old }
    {
        if self.texts.is_empty() {
            self.texts.reserve(ROOM)?;
            self.beginnings.reserve(ROOM)?;
        }
        Ok(())
    }

    // Whether a text makes a new key: it is not empty, and no other key sends the same.
    fn is_new(&self, text: &[u8]) -> bool
        ensures { result ≡ is_new self.now.keys text.now }
    {
        !text.is_empty() && position_of(&self.texts, text).is_none()
    }
}

// The position that a map has for a text.
pub(crate) fn position_of(map: &IndexMap<Vec<u8>, u16>, text: &[u8]) -> Option<u16>
    ensures { result ≡ key_of (seen (λ k. k.items) map.now.entries) text.now }
{
    map.get(text).copied()
}

// Gives a position to a text that has none.
fn add(map: &mut IndexMap<Vec<u8>, u16>, text: Vec<u8>, slot: u16) -> Result<(), NoMemory>
    requires { key_of (seen (λ k. k.items) map.old.entries) text.items ≡ None }
    ensures { OnOk result (seen (λ k. k.items) map.new.entries ≡ seen (λ k. k.items) map.old.entries ++ (text.items, slot) ∷ []) }
{
    map.insert(text, slot)?;
    Ok(())
}

// Gives a position to each beginning of a text that has none. The longest comes first: if a beginning has a position,
// all shorter ones do.
fn put_beginnings(
    alloc: Global,
    map: &mut IndexMap<Vec<u8>, u16>,
    text: &[u8],
    slot: u16,
) -> Result<(), NoMemory>
    requires { IsClosed (seen (λ k. k.items) map.old.entries) }
    ensures { OnOk result ((bytes : List ℕ) → is_some (key_of (seen (λ k. k.items) map.new.entries) bytes) ≡ (is_some (key_of (seen (λ k. k.items) map.old.entries) bytes) || is_beginning bytes text.now)) }
{
    let mut len = text.len();
    while len > 0 {
        len -= 1;
        if position_of(map, &text[..len]).is_some() {
            return Ok(());
        }
        add(map, Vec::from_slice(alloc, &text[..len])?, slot)?;
    }
    Ok(())
}
