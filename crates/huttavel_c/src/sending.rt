//! Starts, updates and finishes: the bytes that they make wait until the terminal has accepted them.
ghost use Rattle.std.specs.Prelude.{◌≡◌, ◌++◌, ◌≤◌, ◌⊎◌, None, drop, length, min, take};
ghost use Rattle.huttavel_c.specs.Asking.{Asked, Makes, OfEntry, OfScreen};
ghost use Rattle.huttavel_c.specs.Giving.{unchanged};
ghost use Rattle.huttavel_c.specs.Sending.{Copies, Finishes, Starts, Takes, Updates, Waits, forgetting, sent_number};

use crate::faults::{CLOSED, NOT_WAITING, send_number, update_number};
use crate::handles::Handle;
use crate::sessions::{Kept, Session};
use curses::SendFault;
use std::alloc::Global;

impl Session {
    // The opening text, which waits.
    fn start(&mut self) -> u32
        ensures { Starts self.old self.new result }
    {
        sent(self.screen.start(&mut self.out))
    }

    // The closing text, which waits.
    fn finish(&mut self) -> u32
        ensures { Finishes self.old self.new result }
    {
        sent(self.screen.close(&mut self.out))
    }

    // An update, whose bytes wait.
    fn update(&mut self, alloc: Global) -> u32
        ensures { Updates self.old self.new result }
    {
        match self.screen.doupdate(alloc, &mut self.out) {
            Ok(_) => 0,
            Err(fault) => update_number(&fault),
        }
    }

    // The terminal accepted bytes.
    fn took(&mut self, count: usize) -> u32
        ensures { Takes count self.old self.new result }
    {
        let waiting = self.out.writer.len();
        if count > waiting {
            return NOT_WAITING;
        }
        drop_front(&mut self.out.writer, count);
        0
    }
}

// The answer of a start or a finish.
fn sent(answer: Result<u64, SendFault>) -> u32
    ensures { result ≡ sent_number answer }
{
    match answer {
        Ok(_) => 0,
        Err(fault) => send_number(fault),
    }
}

// Drops bytes from the front.
fn drop_front(waiting: &mut Vec<u8>, count: usize)
    requires { count ≤ length waiting.old.items }
    ensures { waiting.new.items ≡ drop count waiting.old.items }
{
    let rest = waiting.len() - count;
    waiting.copy_within(count.., 0);
    waiting.truncate(rest);
}

// Copies bytes that wait for the terminal of a screen.
fn copy_waiting(kept: &Kept, bytes: &mut [u8]) -> usize
    ensures screen { OfScreen (λ session. Copies bytes.old bytes.new session session result) kept.now ⊎ (OfEntry (λ _. Unit {0}) kept.now × (result ≡ 0) × (bytes.new ≡ bytes.old)) }
{
    match kept {
        Kept::Screen(session) => copy_front(&session.out.writer, bytes),
        Kept::Entry(_) => 0,
    }
}

// Copies as many bytes as both have.
pub(crate) fn copy_front(waiting: &[u8], bytes: &mut [u8]) -> usize
    ensures count { result ≡ min (length waiting.now) (length bytes.old) }
    ensures bytes { bytes.new ≡ take result waiting.now ++ drop result bytes.old }
{
    let count = waiting.len().min(bytes.len());
    bytes[..count].copy_from_slice(&waiting[..count]);
    count
}

/// Makes the bytes of `Screen::start`, which wait. Refused: CLOSED; WRITE_FAILED if memory ran out for them: those that
/// were made wait, and the next call that makes bytes begins with the rest of the text that was cut.
#[unsafe(no_mangle)]
pub extern "C" fn huttavel_held_start(handle: &mut Handle) -> u32
    ensures { Makes Starts 1 handle.old.held.value handle.new.held.value result }
{
    handle.lend(CLOSED, |session| session.start())
}

/// Makes the bytes of `Screen::close`, which wait. Refused as `huttavel_held_start` is.
#[unsafe(no_mangle)]
pub extern "C" fn huttavel_held_finish(handle: &mut Handle) -> u32
    ensures { Makes Finishes 1 handle.old.held.value handle.new.held.value result }
{
    handle.lend(CLOSED, |session| session.finish())
}

/// Makes the bytes of `Screen::doupdate`, which wait. Refused: CLOSED; NO_MEMORY if memory ran out before the first
/// byte was made, and nothing changes; WRITE_FAILED as in `huttavel_held_start`.
#[unsafe(no_mangle)]
pub extern "C" fn huttavel_held_doupdate(alloc: Global, handle: &mut Handle) -> u32
    ensures { Makes Updates 1 handle.old.held.value handle.new.held.value result }
{
    handle.lend(CLOSED, |session| session.update(alloc))
}

/// How many bytes wait; 0 of a closed handle.
#[unsafe(no_mangle)]
pub extern "C" fn huttavel_held_waiting(handle: &mut Handle) -> usize
    ensures { Makes Waits 0 handle.old.held.value handle.new.held.value result }
{
    handle.lend(0, |session| session.out.writer.len())
}

/// Copies bytes that wait, from the first on, as many as there is room for, and gives how many. They go on waiting.
/// 0 of a closed handle.
#[unsafe(no_mangle)]
pub extern "C" fn huttavel_held_bytes(alloc: Global, handle: &mut Handle, bytes: &mut [u8]) -> usize
    ensures copied { Makes (Copies bytes.old bytes.new) 0 handle.old.held.value handle.new.held.value result }
    ensures closed { handle.old.held.value ≡ None → bytes.new ≡ bytes.old }
{
    let Some(kept) = handle.take(alloc) else {
        return 0;
    };
    let count = copy_waiting(&kept, bytes);
    handle.put(kept);
    count
}

/// The terminal accepted this many of the bytes that wait. Refused: CLOSED; NOT_WAITING if fewer wait.
#[unsafe(no_mangle)]
pub extern "C" fn huttavel_held_took(handle: &mut Handle, count: usize) -> u32
    ensures { Makes (Takes count) 1 handle.old.held.value handle.new.held.value result }
{
    handle.lend(CLOSED, |session| session.took(count))
}

/// A write failed, or others wrote to the terminal: nothing is known of what it shows. Bytes that wait go on waiting.
/// Refused: CLOSED.
#[unsafe(no_mangle)]
pub extern "C" fn huttavel_held_failed(handle: &mut Handle) -> u32
    ensures { Asked forgetting unchanged 1 handle.old.held.value handle.new.held.value result }
{
    handle.lend(CLOSED, |session| {
        session.screen.forget();
        0
    })
}
