//! Opening and closing.
ghost use Rattle.std.specs.Prelude.{◌≡◌, IfErr, IfOk, IfSome, IsErrOf, None, Some};
ghost use Rattle.curses.specs.Adapted.{IsOpenedAdapted, IsUnopenedAdapted, adapted};
ghost use Rattle.scr_term.specs.Operations.Admission.{IsSuitable};
ghost use Rattle.ti_caps.specs.Bundled.{IsBundled};
ghost use Rattle.ti_database.specs.Search.{IsEntry};
ghost use Rattle.huttavel_c.specs.Asking.{OfScreen};
ghost use Rattle.huttavel_c.specs.Opening.{IsClosedFrom, IsNoEntry, IsNoMemory, IsNoSize, IsOpenedFrom, IsOpenedOn, IsSizeGiven, IsUnopenedOn, OpensAs, about, asked_in, close_number, fresh_writer, kind_number, open_reply, opening_given, profile_reply};
ghost use Rattle.huttavel_c.specs.Replies.{refused};
ghost use Rattle.huttavel_c.specs.Sending.{writer};

use crate::answers::{Reply, refused};
use crate::faults::{
    BAD_CHARSET, BAD_SIZE, CLOSED, IS_OPEN, KEY_TOO_LONG, NO_MEMORY, binary_number, profile_number,
};
use crate::handles::Handle;
use crate::sessions::{Kept, Session};
use curses::{
    AdaptedEntry, Charset, Device, Entry, KeySet, Kind, OpenFault, Opening, ProfileFault, Screen,
    Size, Slot, bundled,
};
use std::alloc::Global;
use ti_database::read_entry;

// The size that is given: 0 rows and 0 columns stand for the entry's own. Refused with BAD_SIZE.
fn size_given(rows: u32, columns: u32) -> Result<Option<Size>, Reply>
    ensures ok { IfOk result (IsSizeGiven rows columns) }
    ensures err { IfErr result (IsNoSize rows columns) }
{
    if rows == 0 && columns == 0 {
        return Ok(None);
    }
    match Size::new(rows, columns) {
        Some(size) => Ok(Some(size)),
        None => Err(refused(BAD_SIZE)),
    }
}

// The opening that a number is given for.
fn opening_given(number: u32) -> Option<Opening>
    ensures value { result ≡ opening_given number }
    ensures keys { IfSome result (λ asked. asked.keys ≡ KeySet.All) }
{
    match number {
        0 => Some(asked_in(Charset::Ascii, false)),
        1 => Some(asked_in(Charset::Utf8, false)),
        2 => Some(asked_in(Charset::Ascii, true)),
        3 => Some(asked_in(Charset::Utf8, true)),
        _ => None,
    }
}

// How a session's screen is opened.
fn asked_in(charset: Charset, is_larger: bool) -> Opening
    ensures { result ≡ asked_in charset is_larger }
{
    Opening {
        charset,
        keys: KeySet::All,
        is_larger,
    }
}

// The entry of a compiled file, in either format.
pub(crate) fn entry_of(alloc: Global, bytes: &[u8]) -> Result<Entry, Reply>
    ensures ok { IfOk result (IsEntry bytes.now) }
    ensures err { IfErr result (IsNoEntry bytes.now) }
{
    match read_entry(alloc, bytes) {
        Ok(entry) => Ok(entry),
        Err(fault) => Err(refused(binary_number(fault))),
    }
}

// The bundled entry.
pub(crate) fn bundled_entry(alloc: Global) -> Result<Entry, Reply>
    ensures ok { IfOk result IsBundled }
    ensures err { IfErr result IsNoMemory }
{
    match bundled(alloc) {
        Ok(entry) => Ok(entry),
        Err(_) => Err(refused(NO_MEMORY)),
    }
}

// The number of a kind.
pub(crate) fn kind_number(kind: Kind) -> u32
    ensures { result ≡ kind_number kind }
{
    match kind {
        Kind::Flag => 0,
        Kind::Number => 1,
        Kind::Text => 2,
    }
}

// An error about a capability.
fn about(fault: u32, capability: (Kind, Slot)) -> Reply
    ensures { result ≡ about fault capability }
{
    Reply {
        fault,
        first: kind_number(capability.0),
        second: u32::from(capability.1.0),
        third: 0,
    }
}

// An error in an entry.
fn profile_reply(fault: ProfileFault) -> Reply
    ensures { result ≡ profile_reply fault }
{
    let number = profile_number(fault);
    match fault {
        ProfileFault::Unsuitable(capability)
        | ProfileFault::Missing(capability)
        | ProfileFault::BadString(capability)
        | ProfileFault::LongString(capability) => about(number, capability),
        _ => refused(number),
    }
}

// Why a screen cannot be opened.
fn open_reply(fault: OpenFault) -> Reply
    ensures { result ≡ open_reply fault }
{
    match fault {
        OpenFault::Profile(fault) => profile_reply(fault),
        OpenFault::KeyTooLong(slot) => about(KEY_TOO_LONG, (Kind::Text, slot)),
        OpenFault::NoMemory => refused(NO_MEMORY),
    }
}

// What a handle is to hold, in memory of its own.
pub(crate) fn boxed(alloc: Global, kept: Kept) -> Result<Box<Kept>, Reply>
    ensures ok { IfOk result (λ it. it.value ≡ kept) }
    ensures err { IfErr result IsNoMemory }
{
    match Box::new(alloc, kept) {
        Ok(kept) => Ok(kept),
        Err(_) => Err(refused(NO_MEMORY)),
    }
}

// A session on a screen, for which no bytes wait.
fn session_on(alloc: Global, screen: Screen) -> Session
    ensures screen { result.screen ≡ screen }
    ensures writer { writer result ≡ fresh_writer }
{
    Session {
        screen,
        out: Device::new(Vec::new(alloc)),
    }
}

// A screen on the terminal of an entry, as programs take it.
fn screen_on(
    alloc: Global,
    entry: Entry,
    asked: Opening,
    size: Option<Size>,
) -> Result<Screen, OpenFault>
    requires keys { asked.keys ≡ KeySet.All }
    ensures ok { IfOk result (IsOpenedAdapted asked (adapted entry) size) }
    ensures err { IfErr result (IsUnopenedAdapted KeySet.All (adapted entry) size) }
    ensures suitable { IfOk result (λ _. IsSuitable (adapted entry).entry) }
    ensures memory { IsErrOf result OpenFault.NoMemory → IsSuitable (adapted entry).entry }
{
    let adapted = AdaptedEntry::of(entry);
    adapted.open(alloc, size, asked)
}

// A session on the terminal of an entry.
fn opened_on(
    alloc: Global,
    entry: Entry,
    asked: Opening,
    size: Option<Size>,
) -> Result<Box<Kept>, Reply>
    requires keys { asked.keys ≡ KeySet.All }
    ensures ok { IfOk result (λ kept. OfScreen (IsOpenedOn asked entry size) kept.value) }
    ensures err { IfErr result (IsUnopenedOn entry size) }
{
    match screen_on(alloc, entry, asked, size) {
        Ok(screen) => boxed(alloc, Kept::Screen(session_on(alloc, screen))),
        Err(fault) => Err(open_reply(fault)),
    }
}

// A session on the terminal of a compiled entry.
fn opened(
    alloc: Global,
    bytes: &[u8],
    asked: Opening,
    rows: u32,
    columns: u32,
) -> Result<Box<Kept>, Reply>
    requires keys { asked.keys ≡ KeySet.All }
    ensures ok { IfOk result (λ kept. OfScreen (IsOpenedFrom (IsEntry bytes.now) asked rows columns) kept.value) }
    ensures err { IfErr result (IsClosedFrom (IsEntry bytes.now) (IsNoEntry bytes.now) rows columns) }
{
    let size = size_given(rows, columns)?;
    let entry = entry_of(alloc, bytes)?;
    opened_on(alloc, entry, asked, size)
}

// A session on the terminal of the bundled entry.
fn opened_bundled(
    alloc: Global,
    asked: Opening,
    rows: u32,
    columns: u32,
) -> Result<Box<Kept>, Reply>
    requires keys { asked.keys ≡ KeySet.All }
    ensures ok { IfOk result (λ kept. OfScreen (IsOpenedFrom IsBundled asked rows columns) kept.value) }
    ensures err { IfErr result (IsClosedFrom IsBundled IsNoMemory rows columns) }
{
    let size = size_given(rows, columns)?;
    let entry = bundled_entry(alloc)?;
    opened_on(alloc, entry, asked, size)
}

// Puts what was opened into a closed handle.
pub(crate) fn keep(handle: &mut Handle, opened: Result<Box<Kept>, Reply>) -> Reply
    requires { handle.old.held.value ≡ None }
    ensures ok { IfOk opened (λ kept. (handle.new.held.value ≡ Some kept.value) × (result ≡ refused 0)) }
    ensures err { IfErr opened (λ reply. (handle.new.held.value ≡ None) × (result ≡ reply)) }
{
    match opened {
        Ok(kept) => {
            handle.put(kept);
            refused(0)
        }
        Err(reply) => reply,
    }
}

/// Opens a screen on the terminal of a compiled entry, with 16-bit or 32-bit numbers; 0 rows and 0 columns stand for
/// the entry's own size. The entry is taken as `AdaptedEntry` says: colours come before the attributes that they
/// exclude, and where a character in the last column would scroll, the screen has one column less. The terminal is sent
/// ASCII if the opening is 0 or 2, and UTF-8 if it is 1 or 3; with 2 and 3 it may be larger than the screen. Gives the
/// error's number and, if it is about a capability, its kind,
/// 0 for a flag, 1 for a number and 2 for a text, and its position in the table.
///
/// Refused: IS_OPEN; BAD_CHARSET for another opening; BAD_SIZE; the errors in a compiled entry; those of
/// `AdaptedEntry::open`; NO_MEMORY.
#[unsafe(no_mangle)]
pub extern "C" fn huttavel_held_open(
    alloc: Global,
    handle: &mut Handle,
    entry: &[u8],
    opening: u32,
    rows: u32,
    columns: u32,
) -> Reply
    ensures { OpensAs (λ given. OfScreen (IsOpenedFrom (IsEntry entry.now) given rows columns)) (IsClosedFrom (IsEntry entry.now) (IsNoEntry entry.now) rows columns) opening handle.old.held.value handle.new.held.value result }
{
    if handle.is_open() {
        return refused(IS_OPEN);
    }
    let Some(asked) = opening_given(opening) else {
        return refused(BAD_CHARSET);
    };
    keep(handle, opened(alloc, entry, asked, rows, columns))
}

/// Opens a screen on the terminal of the bundled entry, with an opening in the same way. Refused: IS_OPEN; BAD_CHARSET;
/// BAD_SIZE; NO_MEMORY.
#[unsafe(no_mangle)]
pub extern "C" fn huttavel_held_open_bundled(
    alloc: Global,
    handle: &mut Handle,
    opening: u32,
    rows: u32,
    columns: u32,
) -> Reply
    ensures { OpensAs (λ given. OfScreen (IsOpenedFrom IsBundled given rows columns)) (IsClosedFrom IsBundled IsNoMemory rows columns) opening handle.old.held.value handle.new.held.value result }
{
    if handle.is_open() {
        return refused(IS_OPEN);
    }
    let Some(asked) = opening_given(opening) else {
        return refused(BAD_CHARSET);
    };
    keep(handle, opened_bundled(alloc, asked, rows, columns))
}

/// Closes a handle and frees what it held; bytes that wait are lost.
#[unsafe(no_mangle)]
pub extern "C" fn huttavel_held_close(alloc: Global, handle: &mut Handle) -> u32
    ensures closed { handle.new.held.value ≡ None }
    ensures answer { result ≡ close_number handle.old.held.value }
{
    let Some(_kept) = handle.take(alloc) else {
        return CLOSED;
    };
    0
}
