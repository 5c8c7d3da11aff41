//! Entries and parameter strings without a screen.
ghost use Rattle.std.specs.Prelude.{◌≡◌, Some, None, IfErr, IfOk};
ghost use Rattle.std.specs.Option.{option_map};
ghost use Rattle.ti_caps.specs.Description.{flag_at, number_at, text_at};
ghost use Rattle.ti_caps.specs.Table.{capability_of};
ghost use Rattle.ti_database.specs.Search.{IsEntry};
ghost use Rattle.ti_param.specs.Tree.{start, value};
ghost use Rattle.huttavel_c.specs.Asking.{MakesOfEntry, OfEntry};
ghost use Rattle.huttavel_c.specs.Entries.{CopiesText, Expands, IsCopied, IsCopiedIfAny, IsFresh, IsRun, Tells, capability_reply, list_of, number_reply, param_number};
ghost use Rattle.huttavel_c.specs.Opening.{IsNoEntryOrMemory, IsNoMemory, Opens};
ghost use Rattle.huttavel_c.specs.Replies.{as_number, no_length, refused, with_one};

use crate::answers::{Length, Reply, no_length, one, refused, two};
use crate::faults::{ABSENT, CLOSED, IS_OPEN, NO_MEMORY, STACK_FULL, param_number};
use crate::handles::Handle;
use crate::opening::{boxed, bundled_entry, entry_of, keep, kind_number};
use crate::sending::copy_front;
use crate::sessions::{Described, Kept};
use curses::{Entry, Slot};
use std::alloc::Global;
use ti_caps::find_name;
use ti_param::{Program, RunFault, Vars};

/// The nine parameters of a text.
#[repr(C)]
#[derive(Clone, Copy)]
pub struct Numbers {
    /// `%p1`.
    pub first: i32,
    /// `%p2`.
    pub second: i32,
    /// `%p3`.
    pub third: i32,
    /// `%p4`.
    pub fourth: i32,
    /// `%p5`.
    pub fifth: i32,
    /// `%p6`.
    pub sixth: i32,
    /// `%p7`.
    pub seventh: i32,
    /// `%p8`.
    pub eighth: i32,
    /// `%p9`.
    pub ninth: i32,
}

// An entry with all variables 0, to be held.
fn described(alloc: Global, entry: Entry) -> Result<Box<Kept>, Reply>
    ensures ok { IfOk result (λ kept. OfEntry (IsFresh (λ e. e ≡ entry)) kept.value) }
    ensures err { IfErr result IsNoMemory }
{
    let vars = Vars::new();
    boxed(alloc, Kept::Entry(Described { entry, vars }))
}

// The entry of a compiled file, to be held.
fn read(alloc: Global, file: &[u8]) -> Result<Box<Kept>, Reply>
    ensures ok { IfOk result (λ kept. OfEntry (IsFresh (IsEntry file.now)) kept.value) }
    ensures err { IfErr result (IsNoEntryOrMemory file.now) }
{
    let entry = entry_of(alloc, file)?;
    match described(alloc, entry) {
        Ok(kept) => Ok(kept),
        Err(reply) => Err(reply),
    }
}

/// Opens the entry of a compiled file, with 16-bit or 32-bit numbers. Refused: IS_OPEN; the errors in a compiled entry;
/// NO_MEMORY.
#[unsafe(no_mangle)]
pub extern "C" fn huttavel_held_entry_open(alloc: Global, handle: &mut Handle, file: &[u8]) -> Reply
    ensures { Opens (OfEntry (IsFresh (IsEntry file.now))) (IsNoEntryOrMemory file.now) handle.old.held.value handle.new.held.value result }
{
    if handle.is_open() {
        return refused(IS_OPEN);
    }
    keep(handle, read(alloc, file))
}

/// Whether the entry has a flag. Refused: CLOSED.
#[unsafe(no_mangle)]
pub extern "C" fn huttavel_held_entry_flag(handle: &mut Handle, position: u16) -> Reply
    ensures { MakesOfEntry (Tells (λ entry. with_one (as_number (flag_at entry position)))) (refused 1) handle.old.held.value handle.new.held.value result }
{
    handle.lend_entry(refused(CLOSED), |described| {
        one(u32::from(described.entry.flag(Slot(position))))
    })
}

/// A number of the entry. Refused: CLOSED; ABSENT.
#[unsafe(no_mangle)]
pub extern "C" fn huttavel_held_entry_number(handle: &mut Handle, position: u16) -> Reply
    ensures { MakesOfEntry (Tells (λ entry. number_reply (number_at entry position))) (refused 1) handle.old.held.value handle.new.held.value result }
{
    handle.lend_entry(refused(CLOSED), |described| {
        match described.entry.number(Slot(position)) {
            Some(number) => one(u32::from(number)),
            None => refused(ABSENT),
        }
    })
}

/// The kind and the position of the capability of a name. Refused: ABSENT.
#[unsafe(no_mangle)]
pub extern "C" fn huttavel_held_capability(name: &[u8]) -> Reply
    ensures { result ≡ capability_reply (capability_of name.now) }
{
    match find_name(name) {
        Some((kind, slot)) => two((kind_number(kind), u32::from(slot.0))),
        None => refused(ABSENT),
    }
}

/// Copies a text of the entry, as far as there is room, and tells its length. Refused: CLOSED; ABSENT.
#[unsafe(no_mangle)]
pub extern "C" fn huttavel_held_entry_text(
    alloc: Global,
    handle: &mut Handle,
    position: u16,
    bytes: &mut [u8],
) -> Length
    ensures { MakesOfEntry (CopiesText (λ entry. text_at entry position) bytes.old bytes.new) (no_length 1) handle.old.held.value handle.new.held.value result }
{
    let Some(kept) = handle.take(alloc) else {
        return no_length(CLOSED);
    };
    let length = match &*kept {
        Kept::Screen(_) => no_length(CLOSED),
        Kept::Entry(described) => copied(described.entry.text(Slot(position)), bytes),
    };
    handle.put(kept);
    length
}

/// Copies the names of the entry in the same way. Refused: CLOSED.
#[unsafe(no_mangle)]
pub extern "C" fn huttavel_held_entry_names(
    alloc: Global,
    handle: &mut Handle,
    bytes: &mut [u8],
) -> Length
    ensures { MakesOfEntry (CopiesText (λ entry. Some entry.names) bytes.old bytes.new) (no_length 1) handle.old.held.value handle.new.held.value result }
{
    let Some(kept) = handle.take(alloc) else {
        return no_length(CLOSED);
    };
    let length = match &*kept {
        Kept::Screen(_) => no_length(CLOSED),
        Kept::Entry(described) => copied(Some(described.entry.names()), bytes),
    };
    handle.put(kept);
    length
}

/// Runs a text with nine parameters and the static variables of the entry, copies what it gives, as far as there is room,
/// and tells its length (terminfo(5), 'Parameterized Strings'). Padding is not removed.
///
/// Refused: CLOSED; CUT_DIRECTIVE, BAD_DIRECTIVE, STRING_OPERATOR, TOO_DEEP; STACK_FULL; NO_MEMORY.
#[unsafe(no_mangle)]
pub extern "C" fn huttavel_held_parameters(
    alloc: Global,
    handle: &mut Handle,
    text: &[u8],
    numbers: &Numbers,
    bytes: &mut [u8],
) -> Length
    ensures { MakesOfEntry (Expands text.now (list_of numbers.now) bytes.old bytes.new) (no_length 1) handle.old.held.value handle.new.held.value result }
{
    let Some(mut kept) = handle.take(alloc) else {
        return no_length(CLOSED);
    };
    let length = match &mut *kept {
        Kept::Screen(_) => no_length(CLOSED),
        Kept::Entry(described) => expanded(alloc, described, text, numbers, bytes),
    };
    handle.put(kept);
    length
}

// A text, if there is one, copied as far as there is room.
fn copied(text: Option<&[u8]>, bytes: &mut [u8]) -> Length
    ensures { IsCopiedIfAny (option_map (λ t. t.now) text.entry) bytes.old bytes.new result }
{
    match text {
        None => no_length(ABSENT),
        Some(text) => put(text, bytes),
    }
}

// A text copied as far as there is room.
fn put(text: &[u8], bytes: &mut [u8]) -> Length
    ensures { IsCopied text.now bytes.old bytes.new result }
{
    let _copied = copy_front(text, bytes);
    Length {
        fault: 0,
        count: text.len(),
    }
}

// What a text gives with these parameters.
fn expanded(
    alloc: Global,
    described: &mut Described,
    text: &[u8],
    numbers: &Numbers,
    bytes: &mut [u8],
) -> Length
    ensures { Expands text.now (list_of numbers.now) bytes.old bytes.new described.old described.new result }
{
    let program = match Program::read(alloc, text) {
        Ok(program) => program,
        Err(fault) => return no_length(param_number(fault)),
    };
    run(alloc, &program, described, numbers, bytes)
}

// What a program gives with these parameters.
fn run(
    alloc: Global,
    program: &Program,
    described: &mut Described,
    numbers: &Numbers,
    bytes: &mut [u8],
) -> Length
    ensures { IsRun (value program.now (start (list_of numbers.now) described.old.vars)) bytes.old bytes.new described.old described.new result }
{
    let mut made = Vec::new(alloc);
    match program.run(list_of(numbers), &mut described.vars, &mut made) {
        Ok(()) => put(&made, bytes),
        Err(RunFault::StackFull) => no_length(STACK_FULL),
        Err(RunFault::NoMemory) => no_length(NO_MEMORY),
    }
}

// The nine parameters.
fn list_of(numbers: &Numbers) -> [i32; 9]
    ensures { result ≡ list_of numbers.now }
{
    [
        numbers.first,
        numbers.second,
        numbers.third,
        numbers.fourth,
        numbers.fifth,
        numbers.sixth,
        numbers.seventh,
        numbers.eighth,
        numbers.ninth,
    ]
}
