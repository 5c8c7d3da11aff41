//! Sending: texts go to a writer one at a time, each whole, and what a failed put did not accept of one waits in a
//! buffer.
ghost use Rattle.std.specs.Prelude.{◌≡◌, ◌≢◌, ◌≤◌, ◌<◌, ◌+◌, ◌^◌, [], ◌∷◌, All, None, true, length, take, drop, vec_capacity};
ghost use Rattle.std.specs.Option.{is_some};
ghost use Rattle.std.specs.Io.KnownBytes.{Appends};
ghost use Rattle.scr_term.specs.declared.operations.operation.Op.{Op};
ghost use Rattle.scr_term.specs.Operations.Texts.{all_bytes, bytes_of, has};
ghost use Rattle.curses.specs.Cuts.{IsCut};
ghost use Rattle.curses.specs.Updates.{IsOfOneText};
ghost use Rattle.curses.specs.Writers.{counted};

use crate::writers::Counted;
use scr_term::{Op, Profile};
use std::io::ErrorKind;

// How many operations were begun, how many of their bytes a writer accepted, and why it took no more.
#[derive(Clone, Copy)]
pub(crate) struct Progress {
    pub begun: usize,
    pub bytes: u64,
    pub fault: Option<ErrorKind>,
}

// Sends what waits in a buffer, and then the texts of operations.
pub(crate) fn send_all<W: Counted>(
    profile: &Profile,
    ops: &[Op],
    waiting: &mut Vec<u8>,
    out: &mut W,
) -> Progress
    requires has { All (λ op. has profile.now op ≡ true) ops.now }
    requires few { length ops.now ≤ 2 ^ 32 }
    requires room { (op : Op) → length (bytes_of profile.now op) ≤ vec_capacity waiting.old }
    ensures begun { result.begun ≤ length ops.now }
    ensures cut { IsCut waiting.old.items (all_bytes profile.now (take result.begun ops.now)) (W.told out.old).taken (W.told out.new).taken result.bytes waiting.new.items }
    ensures one { result.fault ≢ None → IsOfOneText profile.now waiting.old.items (take result.begun ops.now) waiting.new.items }
    ensures few { result.bytes ≤ length waiting.old.items + 2 ^ 43 }
    ensures whole { result.fault ≡ None → result.begun ≡ length ops.now }
    ensures nothing { result.fault ≡ None → waiting.new.items ≡ [] }
    ensures fault { result.fault ≢ None → waiting.new.items ≢ [] }
    ensures room { vec_capacity waiting.old ≤ vec_capacity waiting.new }
    ensures puts { (W.told out.new).failed_puts ≡ counted (is_some result.fault) (W.told out.old).failed_puts }
    ensures finishes { (W.told out.new).finishes ≡ (W.told out.old).finishes }
{
    let owed = send_waiting(waiting, out);
    if owed.fault.is_some() {
        return Progress {
            begun: 0,
            bytes: owed.bytes as u64,
            fault: owed.fault,
        };
    }
    let sent = send_operations(profile, ops, waiting, out);
    Progress {
        begun: sent.begun,
        bytes: owed.bytes as u64 + sent.bytes,
        fault: sent.fault,
    }
}

// Sends the texts of operations, one at a time, from a buffer that has room for each. What a failed put did not accept
// of one waits in the buffer, and the operations after it are not begun.
fn send_operations<W: Counted>(
    profile: &Profile,
    ops: &[Op],
    waiting: &mut Vec<u8>,
    out: &mut W,
) -> Progress
    requires has { All (λ op. has profile.now op ≡ true) ops.now }
    requires few { length ops.now ≤ 2 ^ 32 }
    requires nothing { waiting.old.items ≡ [] }
    requires room { (op : Op) → length (bytes_of profile.now op) ≤ vec_capacity waiting.old }
    ensures begun { result.begun ≤ length ops.now }
    ensures cut { IsCut [] (all_bytes profile.now (take result.begun ops.now)) (W.told out.old).taken (W.told out.new).taken result.bytes waiting.new.items }
    ensures one { result.fault ≢ None → IsOfOneText profile.now [] (take result.begun ops.now) waiting.new.items }
    ensures few { result.bytes ≤ 2 ^ 43 }
    ensures whole { result.fault ≡ None → result.begun ≡ length ops.now }
    ensures nothing { result.fault ≡ None → waiting.new.items ≡ [] }
    ensures fault { result.fault ≢ None → waiting.new.items ≢ [] }
    ensures room { vec_capacity waiting.old ≤ vec_capacity waiting.new }
    ensures puts { (W.told out.new).failed_puts ≡ counted (is_some result.fault) (W.told out.old).failed_puts }
    ensures finishes { (W.told out.new).finishes ≡ (W.told out.old).finishes }
{
    let _longest = profile.longest();
    let mut begun = 0;
    let mut bytes = 0;
    while begun < ops.len() {
        let taken = send_operation(profile, ops[begun], waiting, out);
        begun += 1;
        bytes += taken.bytes as u64;
        if taken.fault.is_some() {
            return Progress {
                begun,
                bytes,
                fault: taken.fault,
            };
        }
    }
    Progress {
        begun,
        bytes,
        fault: None,
    }
}

// Sends the text of one operation from an empty buffer that has room for it.
fn send_operation<W: Counted>(
    profile: &Profile,
    op: Op,
    waiting: &mut Vec<u8>,
    out: &mut W,
) -> Taken
    requires has { has profile.now op ≡ true }
    requires nothing { waiting.old.items ≡ [] }
    requires room { length (bytes_of profile.now op) ≤ vec_capacity waiting.old }
    ensures cut { IsCut [] (bytes_of profile.now op) (W.told out.old).taken (W.told out.new).taken result.bytes waiting.new.items }
    ensures nothing { result.fault ≡ None → waiting.new.items ≡ [] }
    ensures fault { result.fault ≢ None → waiting.new.items ≢ [] }
    ensures room { vec_capacity waiting.old ≤ vec_capacity waiting.new }
    ensures few { result.bytes ≤ length (bytes_of profile.now op) }
    ensures puts { (W.told out.new).failed_puts ≡ counted (is_some result.fault) (W.told out.old).failed_puts }
    ensures finishes { (W.told out.new).finishes ≡ (W.told out.old).finishes }
{
    if let Op::Put(byte) = op {
        return send_character(byte, waiting, out);
    }
    append(profile, op, waiting);
    send_waiting(waiting, out)
}

// Sends a character, which is its own text. Most operations of a repaint are characters, so a character goes to the
// buffer only if its put fails.
#[inline(always)]
fn send_character<W: Counted>(byte: u8, waiting: &mut Vec<u8>, out: &mut W) -> Taken
    requires nothing { waiting.old.items ≡ [] }
    requires room { 1 ≤ vec_capacity waiting.old }
    ensures cut { IsCut [] (byte ∷ []) (W.told out.old).taken (W.told out.new).taken result.bytes waiting.new.items }
    ensures nothing { result.fault ≡ None → waiting.new.items ≡ [] }
    ensures fault { result.fault ≢ None → waiting.new.items ≢ [] }
    ensures room { vec_capacity waiting.old ≤ vec_capacity waiting.new }
    ensures few { result.bytes ≤ 1 }
    ensures puts { (W.told out.new).failed_puts ≡ counted (is_some result.fault) (W.told out.old).failed_puts }
    ensures finishes { (W.told out.new).finishes ≡ (W.told out.old).finishes }
{
    let taken = put_whole(&[byte], out);
    if taken.fault.is_none() {
        return taken;
    }
    let _pushed = waiting.push(byte);
    taken
}

// Appends the text of an operation to an empty buffer that has room for it, so this cannot fail.
fn append(profile: &Profile, op: Op, waiting: &mut Vec<u8>)
    requires has { has profile.now op ≡ true }
    requires nothing { waiting.old.items ≡ [] }
    requires room { length (bytes_of profile.now op) ≤ vec_capacity waiting.old }
    ensures text { waiting.new.items ≡ bytes_of profile.now op }
    ensures room { vec_capacity waiting.old ≤ vec_capacity waiting.new }
{
    let _rendered = profile.render(op, waiting);
}

// Sends a text from an empty buffer that has room for it.
pub(crate) fn send_text<W: Counted>(text: &[u8], waiting: &mut Vec<u8>, out: &mut W) -> Taken
    requires nothing { waiting.old.items ≡ [] }
    requires room { length text.now ≤ vec_capacity waiting.old }
    ensures cut { IsCut [] text.now (W.told out.old).taken (W.told out.new).taken result.bytes waiting.new.items }
    ensures nothing { result.fault ≡ None → waiting.new.items ≡ [] }
    ensures fault { result.fault ≢ None → waiting.new.items ≢ [] }
    ensures room { vec_capacity waiting.old ≤ vec_capacity waiting.new }
    ensures few { result.bytes ≤ length text.now }
    ensures puts { (W.told out.new).failed_puts ≡ counted (is_some result.fault) (W.told out.old).failed_puts }
    ensures finishes { (W.told out.new).finishes ≡ (W.told out.old).finishes }
{
    wait(text, waiting);
    send_waiting(waiting, out)
}

// Puts a text into an empty buffer that has room for it, so this cannot fail.
fn wait(text: &[u8], waiting: &mut Vec<u8>)
    requires nothing { waiting.old.items ≡ [] }
    requires room { length text.now ≤ vec_capacity waiting.old }
    ensures text { waiting.new.items ≡ text.now }
    ensures room { vec_capacity waiting.old ≤ vec_capacity waiting.new }
{
    let _extended = waiting.extend_from_slice(text);
}

// How many bytes a writer accepted, and why it took no more.
#[derive(Clone, Copy)]
pub(crate) struct Taken {
    pub bytes: usize,
    pub fault: Option<ErrorKind>,
}

// Sends what waits in a buffer, if anything does. What a failed put did not accept stays there.
#[inline(always)]
fn send_waiting<W: Counted>(waiting: &mut Vec<u8>, out: &mut W) -> Taken
    ensures cut { IsCut waiting.old.items [] (W.told out.old).taken (W.told out.new).taken result.bytes waiting.new.items }
    ensures whole { result.fault ≡ None → waiting.new.items ≡ [] }
    ensures fault { result.fault ≢ None → waiting.new.items ≢ [] }
    ensures capacity { vec_capacity waiting.new ≡ vec_capacity waiting.old }
    ensures few { result.bytes ≤ length waiting.old.items }
    ensures puts { (W.told out.new).failed_puts ≡ counted (is_some result.fault) (W.told out.old).failed_puts }
    ensures finishes { (W.told out.new).finishes ≡ (W.told out.old).finishes }
{
    if waiting.is_empty() {
        return Taken {
            bytes: 0,
            fault: None,
        };
    }
    let taken = put_whole(waiting, out);
    drop_front(waiting, taken.bytes);
    taken
}

// Puts a text into a writer until all of it is accepted, or a put fails or accepts nothing. Inlined, so that a character
// is written without a call for a text of any length: that takes 83 instructions less.
#[inline(always)]
fn put_whole<W: Counted>(text: &[u8], out: &mut W) -> Taken
    ensures inside { result.bytes ≤ length text.now }
    ensures writer { Appends (W.told out.old).taken (W.told out.new).taken (take result.bytes text.now) }
    ensures whole { result.fault ≡ None → result.bytes ≡ length text.now }
    ensures part { result.fault ≢ None → result.bytes < length text.now }
    ensures puts { (W.told out.new).failed_puts ≡ counted (is_some result.fault) (W.told out.old).failed_puts }
    ensures finishes { (W.told out.new).finishes ≡ (W.told out.old).finishes }
{
    let mut bytes = 0;
    while bytes < text.len() {
        match out.put(&text[bytes..]) {
            Ok(0) => return failed_at(bytes, ErrorKind::WriteZero),
            Ok(count) => bytes += count,
            Err(error) => return failed_at(bytes, error.kind()),
        }
    }
    Taken { bytes, fault: None }
}

// The result of a put that failed after this many bytes were accepted.
fn failed_at(bytes: usize, kind: ErrorKind) -> Taken
    ensures bytes { result.bytes ≡ bytes }
    ensures fault { is_some result.fault ≡ true }
{
    Taken {
        bytes,
        fault: Some(kind),
    }
}

// Drops bytes from the front of a buffer, whose room stays.
fn drop_front(waiting: &mut Vec<u8>, count: usize)
    requires { count ≤ length waiting.old.items }
    ensures rest { waiting.new.items ≡ drop count waiting.old.items }
    ensures capacity { vec_capacity waiting.new ≡ vec_capacity waiting.old }
{
    if count == waiting.len() {
        waiting.clear();
        return;
    }
    let rest = waiting.len() - count;
    waiting.copy_within(count.., 0);
    waiting.truncate(rest);
}
