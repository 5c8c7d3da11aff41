//! Keys: bytes of the keyboard come in one at a time, and keys go out.
ghost use Rattle.std.specs.Prelude.{◌≡◌};
ghost use Rattle.scr_keys.specs.Readers.{byte_read, idle_read, key_taken};
ghost use Rattle.huttavel_c.specs.Asking.{Asked, on_keys};
ghost use Rattle.huttavel_c.specs.Pressing.{key_reply, read_number};
ghost use Rattle.huttavel_c.specs.Replies.{refused};

use crate::answers::{Reply, refused, two};
use crate::faults::{CLOSED, NO_KEY, key_number};
use crate::handles::Handle;
use curses::{Key, KeyFault};

// The answer of a call that reads bytes.
fn read(answer: Result<(), KeyFault>) -> u32
    ensures { result ≡ read_number answer }
{
    match answer {
        Ok(()) => 0,
        Err(fault) => key_number(fault),
    }
}

// A key's kind, 0 for a byte and 1 for a key of the entry, and its code.
fn pressed(key: Option<Key>) -> Reply
    ensures { result ≡ key_reply key }
{
    match key {
        Some(Key::Byte(byte)) => two((0, u32::from(byte))),
        Some(Key::Slot(slot)) => two((1, u32::from(slot))),
        None => refused(NO_KEY),
    }
}

/// Reads a byte of the keyboard, by `Screen::key_byte`. Refused: CLOSED; QUEUE_FULL, and the byte is not read.
#[unsafe(no_mangle)]
pub extern "C" fn huttavel_held_key_byte(handle: &mut Handle, byte: u8) -> u32
    ensures { Asked (λ screen. on_keys screen (byte_read screen.keys byte)) read_number 1 handle.old.held.value handle.new.held.value result }
{
    handle.lend(CLOSED, |session| read(session.screen.key_byte(byte)))
}

/// Says that no byte came for a while: those that wait become the keys that they are, by `Screen::key_idle`. Refused:
/// CLOSED; QUEUE_FULL.
#[unsafe(no_mangle)]
pub extern "C" fn huttavel_held_key_idle(handle: &mut Handle) -> u32
    ensures { Asked (λ screen. on_keys screen (idle_read screen.keys)) read_number 1 handle.old.held.value handle.new.held.value result }
{
    handle.lend(CLOSED, |session| read(session.screen.key_idle()))
}

/// Takes the first key of the queue, by `Screen::key`: its kind, 0 for a byte and 1 for a key of the entry, and the
/// byte or the position of the key's text. Refused: CLOSED; NO_KEY.
#[unsafe(no_mangle)]
pub extern "C" fn huttavel_held_next_key(handle: &mut Handle) -> Reply
    ensures { Asked (λ screen. on_keys screen (key_taken screen.keys)) key_reply (refused 1) handle.old.held.value handle.new.held.value result }
{
    handle.lend(refused(CLOSED), |session| pressed(session.screen.key()))
}
