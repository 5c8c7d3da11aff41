//! Reading keys: bytes come in one at a time, and keys go out.
ghost use Rattle.std.specs.Prelude.{◌≡◌, ◌+◌, ◌-◌, ◌<◌, ◌≤◌, ◌++◌, ◌&&◌, [], None, IfErr, IfOk, IfSome, length, take, drop, vec_capacity};
ghost use Rattle.scr_keys.specs.Keys.{goes_on, keys_read, bytes_left, longest_text};
ghost use Rattle.scr_keys.specs.declared.faults.KeyFault.{KeyFault};
ghost use Rattle.scr_keys.specs.Readers.{byte_read, idle_read, key_taken};

use crate::faults::KeyFault;
use crate::keys::Key;
use crate::tables::KeyTable;
use out_of_memory::NoMemory;
use std::alloc::Global;
use std::marker::Model;

/// Reads keys from bytes that come in one at a time (X/Open Curses Issue 7, getch(), keypad()).
///
/// A byte that could begin a longer key waits for those that follow. The caller owns the clock, and calls `idle` when
/// no byte has come for a while. Keys are queued until `next` takes them, at most 16 more than the longest text of a
/// key has bytes. No call but `new` allocates memory.
#[derive(Drop)]
pub struct KeyReader {
    table: KeyTable,
    queue: Vec<Key>,
    waiting: Vec<u8>,
}

impl Model for KeyReader {
    ghost use Rattle.std.specs.Prelude.{vec_capacity};
    ghost use Rattle.scr_keys.specs.Readers.{ReaderView};
    ghost use Rattle.scr_keys.specs.Code.Rooms.{HasRoom};

    ghost Value = { ReaderView };

    ghost view = { λ r. record { keys = r.table; queue = r.queue.items; waiting = r.waiting.items } };

    ghost invariant = { λ r. HasRoom (record { keys = r.table; queue = r.queue.items; waiting = r.waiting.items }) (vec_capacity r.queue) (vec_capacity r.waiting) };
}

impl KeyReader {
    /// Makes a reader of these keys, which has read nothing. Fails only when memory runs out.
    pub fn new(alloc: Global, table: KeyTable) -> Result<KeyReader, KeyFault>
        ensures ok { IfOk result (λ reader. reader ≡ record { keys = table; queue = []; waiting = [] }) }
        ensures err { IfErr result (λ fault. fault ≡ KeyFault.NoMemory) }
    {
        let (queue, waiting) = rooms(alloc, 16 + table.longest())?;
        Ok(KeyReader {
            table,
            queue,
            waiting,
        })
    }

    /// Reads a byte: the keys that it decides are queued, and bytes that could still become a key wait for more.
    ///
    /// Refused: QueueFull if the keys queued and those that it decides would be more than 16 plus the number of bytes
    /// of the longest key; nothing is read then, not even the byte. X/Open Curses Issue 7, getch().
    pub fn byte(&mut self, byte: u8) -> Result<(), KeyFault>
        ensures { (self.new, result) ≡ byte_read self.old byte }
    {
        let before = self.waiting.len();
        self.waiting.push_reserved(byte);
        let waited = self.queue.len();
        match decide(&self.table, &self.waiting, true, &mut self.queue) {
            Some(count) => {
                drop_front(&mut self.waiting, count);
                Ok(())
            }
            None => {
                self.queue.truncate(waited);
                self.waiting.truncate(before);
                Err(KeyFault::QueueFull)
            }
        }
    }

    /// Tells the reader that no byte has come for a while: the bytes that wait become the keys that they are, and none
    /// waits any more.
    ///
    /// Refused: QueueFull, as for a byte; the bytes go on waiting then. X/Open Curses Issue 7, notimeout().
    pub fn idle(&mut self) -> Result<(), KeyFault>
        ensures { (self.new, result) ≡ idle_read self.old }
    {
        let before = self.queue.len();
        if decide(&self.table, &self.waiting, false, &mut self.queue).is_none() {
            self.queue.truncate(before);
            return Err(KeyFault::QueueFull);
        }
        self.waiting.clear();
        Ok(())
    }

    /// Takes the first key of the queue; `None` if no key is queued. X/Open Curses Issue 7, getch().
    pub fn next(&mut self) -> Option<Key>
        ensures { (self.new, result) ≡ key_taken self.old }
    {
        if self.queue.is_empty() {
            return None;
        }
        Some(self.queue.remove(0))
    }
}

// Room for this many keys, and for 64 waiting bytes, as many as the longest text of a key may have.
fn rooms(alloc: Global, keys: usize) -> Result<(Vec<Key>, Vec<u8>), NoMemory>
    ensures empty { IfOk result (λ both. (both.0.items ≡ []) × (both.1.items ≡ [])) }
    ensures keys { IfOk result (λ both. keys ≤ vec_capacity both.0) }
    ensures bytes { IfOk result (λ both. 64 ≤ vec_capacity both.1) }
{
    let queue = Vec::with_capacity(alloc, keys)?;
    let waiting = Vec::with_capacity(alloc, 64)?;
    Ok((queue, waiting))
}

// Adds the keys of bytes to the queue. If more bytes may follow, it stops where the rest could still become a key.
// Gives how many bytes these keys have, or `None` if there is no room for all of them.
fn decide(table: &KeyTable, bytes: &[u8], more: bool, queue: &mut Vec<Key>) -> Option<usize>
    requires few { length queue.old.items ≤ 16 + longest_text table.now }
    requires room { 16 + longest_text table.now ≤ vec_capacity queue.old }
    ensures keys { IfSome result (λ _. queue.new.items ≡ queue.old.items ++ keys_read more table.now 0 bytes.now) }
    ensures left { IfSome result (λ count. drop count bytes.now ≡ bytes_left more table.now 0 bytes.now) }
    ensures inside { IfSome result (λ count. count ≤ length bytes.now) }
    ensures few { IfSome result (λ _. length queue.new.items ≤ 16 + longest_text table.now) }
    ensures full { result ≡ None → 16 + longest_text table.now < length queue.old.items + length (keys_read more table.now 0 bytes.now) }
    ensures kept { result ≡ None → take (length queue.old.items) queue.new.items ≡ queue.old.items }
    ensures capacity { vec_capacity queue.new ≡ vec_capacity queue.old }
{
    let room = 16 + table.longest();
    let mut start = 0;
    while start < bytes.len() && !waits(table, &bytes[start..], more) {
        if queue.len() >= room {
            return None;
        }
        let (key, count) = table.first_key(&bytes[start..]);
        queue.push_reserved(key);
        start += count;
    }
    Some(start)
}

// Whether bytes could still become a key, if more may follow.
fn waits(table: &KeyTable, bytes: &[u8], more: bool) -> bool
    ensures { result ≡ (more && goes_on table.now bytes.now) }
{
    more && table.goes_on(bytes)
}

// Drops bytes from the front; the room stays.
fn drop_front(waiting: &mut Vec<u8>, count: usize)
    requires { count ≤ length waiting.old.items }
    ensures rest { waiting.new.items ≡ drop count waiting.old.items }
    ensures capacity { vec_capacity waiting.new ≡ vec_capacity waiting.old }
{
    let rest = waiting.len() - count;
    waiting.copy_within(count.., 0);
    waiting.truncate(rest);
}
