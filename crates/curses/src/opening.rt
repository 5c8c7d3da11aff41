//! Opening a screen on a terminal. The definitions are in `specs/Opening.antt`.
ghost use Rattle.std.specs.Prelude.{◌≡◌, ◌≤◌, [], true, IfErr, IfOk, IsErrOf, OnOk, None, Some, length, vec_capacity};
ghost use Rattle.curses.specs.Code.Openings.{IsReaderOf, first_screen};
ghost use Rattle.curses.specs.Opening.{IsOpened, IsOpenedAs, IsUnopened, IsUnopenedWith, default_opening, served};
ghost use Rattle.curses.specs.ScreenStates.{HasRoom, HasTextRoom};
ghost use Rattle.curses.specs.Texts.{texts_or_none};
ghost use Rattle.ti_caps.specs.declared.slots.TheConstants.{RMCUP, RMKX, SMCUP, SMKX};
ghost use Rattle.scr_term.specs.Operations.Admission.{IsAdmittedAs, IsEquipped, IsSuitable, refusal};
ghost use Rattle.scr_term.specs.Operations.Larger.{MovesNothing};
ghost use Rattle.ti_caps.specs.Adapted.{without_moves};
ghost use Rattle.scr_windows.specs.DeskViews.{first_desk};
ghost use Rattle.scr_virtual.specs.VirtualViews.{blank_virtual};
ghost use Rattle.scr_memory.specs.Memories.{unknown};
ghost use Rattle.scr_memory.specs.Spares.{IsReady};

use crate::faults::OpenFault;
use crate::screens::Screen;
use crate::texts::texts_or_none;
use scr_cells::{Charset, NoMemory, Size};
use scr_keys::{KeyFault, KeyReader, KeySet, KeyTable};
use scr_memory::{Memory, Spare, memory_runs};
use scr_plan::up_to_date_laws;
use scr_term::{Profile, ProfileFault, moves_refuse_nothing};
use scr_virtual::Virtual;
use scr_windows::Desk;
use std::alloc::Global;
use ti_caps::{Entry, slots};

/// How a screen is opened.
#[derive(Clone, Copy, Debug)]
pub struct Opening {
    /// The characters that the terminal is sent.
    pub charset: Charset,
    /// Which texts of the entry are keys.
    pub keys: KeySet,
    /// Whether the terminal may have more rows or columns than the screen. Nothing is inserted, deleted or scrolled
    /// then, since that would bring in what is beyond the screen.
    pub is_larger: bool,
}

impl Opening {
    /// What `Screen::open` opens a screen with: the terminal has ASCII alone and the screen's size, and the keys are
    /// those of the capability table.
    pub fn new() -> Opening
        ensures { result ≡ default_opening }
    {
        Opening {
            charset: Charset::Ascii,
            keys: KeySet::Table,
            is_larger: false,
        }
    }
}

impl Default for Opening {
    /// `Opening::new`.
    fn default() -> Opening
        ensures { result ≡ default_opening }
    {
        Opening::new()
    }
}

impl Screen {
    /// Opens a screen on the terminal of an entry, of this size, or of the entry's `lines` and `cols` if none is given.
    /// Nothing is sent.
    ///
    /// It has one blank window over the whole screen, `Win(0)`, a blank virtual screen, and the keys of the entry, none
    /// of them pressed. Nothing is known of what the terminal shows. `start` and `close` send the entry's opening and
    /// closing text, or nothing in place of one that `opening_text` or `closing_text` refuses.
    ///
    /// Refused: Profile if the entry makes no profile, for the first reason that `Profile::admit` has; KeyTooLong with
    /// the lowest position of a key whose text has more than 64 bytes; NoMemory if memory runs out, which hides none of
    /// the first five reasons of `Profile::admit`. X/Open Curses Issue 7, newterm(), keypad().
    pub fn open(alloc: Global, entry: &Entry, size: Option<Size>) -> Result<Screen, OpenFault>
        ensures ok { IfOk result (IsOpened entry.now size) }
        ensures err { IfErr result (IsUnopened entry.now size) }
        ensures suitable { IfOk result (λ _. IsSuitable entry.now) }
        ensures memory { IsErrOf result OpenFault.NoMemory → IsSuitable entry.now }
        ensures equipped { IsErrOf result OpenFault.NoMemory → IsEquipped entry.now size }
    {
        Screen::open_as(alloc, entry, size, Opening::new())
    }

    /// Opens a screen with these options; `open` is it with those of `Opening::new`. The rest, refusals included, is as
    /// with `open`.
    ///
    /// With `Charset::Utf8` characters are sent in UTF-8, and the terminal has to show each of them in one column: some
    /// terminals can be set to show characters of ambiguous width in two. With `Charset::Ascii` their stand-ins are
    /// sent. With `KeySet::All` more of the entry's texts are keys: those with shift, and `kmous`.
    pub fn open_as(
        alloc: Global,
        entry: &Entry,
        size: Option<Size>,
        opening: Opening,
    ) -> Result<Screen, OpenFault>
        ensures ok { IfOk result (IsOpenedAs opening entry.now size) }
        ensures err { IfErr result (IsUnopenedWith opening.keys entry.now size) }
        ensures suitable { IfOk result (λ _. IsSuitable entry.now) }
        ensures memory { IsErrOf result OpenFault.NoMemory → IsSuitable entry.now }
        ensures equipped { IsErrOf result OpenFault.NoMemory → IsEquipped entry.now size }
        ensures still { IfOk result (λ screen. opening.is_larger ≡ true → MovesNothing screen.profile) }
    {
        let profile = admitted(alloc, entry, size, opening)?;
        let keys = keys_of(alloc, entry, size, opening)?;
        let texts = texts_of(alloc, entry)?;
        let screen = Screen::on(alloc, profile, keys, texts)?;
        Ok(screen)
    }

    /// Opens a screen of this size on the terminal of an entry. The rest, refusals included, is as with `open`.
    pub fn open_sized(alloc: Global, entry: &Entry, size: Size) -> Result<Screen, OpenFault>
        ensures ok { IfOk result (IsOpened entry.now (Some size)) }
        ensures err { IfErr result (IsUnopened entry.now (Some size)) }
        ensures suitable { IfOk result (λ _. IsSuitable entry.now) }
        ensures memory { IsErrOf result OpenFault.NoMemory → IsSuitable entry.now }
        ensures equipped { IsErrOf result OpenFault.NoMemory → IsEquipped entry.now (Some size) }
    {
        Screen::open(alloc, entry, Some(size))
    }

    /// Opens a screen of the entry's own `lines` and `cols`. The rest, refusals included, is as with `open`.
    ///
    /// The terminal may have another size by now: a program that can ask for it opens a screen of that size.
    pub fn open_at_own_size(alloc: Global, entry: &Entry) -> Result<Screen, OpenFault>
        ensures ok { IfOk result (IsOpened entry.now None) }
        ensures err { IfErr result (IsUnopened entry.now None) }
        ensures suitable { IfOk result (λ _. IsSuitable entry.now) }
        ensures memory { IsErrOf result OpenFault.NoMemory → IsSuitable entry.now }
        ensures equipped { IsErrOf result OpenFault.NoMemory → IsEquipped entry.now None }
    {
        Screen::open(alloc, entry, None)
    }

    // A screen on the terminal of a profile. Fails only when memory runs out.
    fn on(
        alloc: Global,
        profile: Profile,
        keys: KeyReader,
        texts: Texts,
    ) -> Result<Screen, NoMemory>
        requires opening { length texts.opening.items ≤ 2048 }
        requires closing { length texts.closing.items ≤ 2048 }
        ensures { IfOk result (λ screen. screen ≡ first_screen profile keys texts.opening.items texts.closing.items) }
    {
        memory_runs();
        up_to_date_laws();
        let _size = profile.size();
        let blank = blank_on(alloc, &profile, &texts)?;
        Ok(Screen {
            desk: blank.surfaces.desk,
            wanted: blank.surfaces.wanted,
            profile,
            memory: blank.memory,
            spare: blank.spare,
            owed: blank.owed,
            keys,
            opening: texts.opening,
            closing: texts.closing,
        })
    }
}

// What is sent before the first update and after the last.
#[derive(Drop)]
struct Texts {
    opening: Vec<u8>,
    closing: Vec<u8>,
}

// The texts of an entry. Fails only when memory runs out.
fn texts_of(alloc: Global, entry: &Entry) -> Result<Texts, NoMemory>
    ensures opening { IfOk result (λ texts. texts.opening.items ≡ texts_or_none entry.now SMCUP SMKX) }
    ensures closing { IfOk result (λ texts. texts.closing.items ≡ texts_or_none entry.now RMKX RMCUP) }
    ensures opening_few { IfOk result (λ texts. length texts.opening.items ≤ 2048) }
    ensures closing_few { IfOk result (λ texts. length texts.closing.items ≤ 2048) }
{
    let opening = texts_or_none(alloc, entry, slots::SMCUP, slots::SMKX)?;
    let closing = texts_or_none(alloc, entry, slots::RMKX, slots::RMCUP)?;
    Ok(Texts { opening, closing })
}

// The windows and the virtual screen.
#[derive(Drop)]
struct Surfaces {
    desk: Desk,
    wanted: Virtual,
}

// What a screen has besides its terminal and its keyboard.
#[derive(Drop)]
struct Blank {
    surfaces: Surfaces,
    memory: Memory,
    spare: Spare,
    owed: Vec<u8>,
}

// What a new screen on the terminal of a profile has. Fails only when memory runs out.
fn blank_on(alloc: Global, profile: &Profile, texts: &Texts) -> Result<Blank, NoMemory>
    requires opening { length texts.now.opening.items ≤ 2048 }
    requires closing { length texts.now.closing.items ≤ 2048 }
    ensures desk { IfOk result (λ blank. blank.surfaces.desk ≡ first_desk profile.now.rows profile.now.columns) }
    ensures wanted { IfOk result (λ blank. blank.surfaces.wanted ≡ blank_virtual profile.now.rows profile.now.columns) }
    ensures memory { IfOk result (λ blank. blank.memory ≡ unknown profile.now.rows profile.now.columns) }
    ensures ready { IfOk result (λ blank. IsReady blank.memory blank.spare) }
    ensures owed { IfOk result (λ blank. blank.owed.items ≡ []) }
    ensures room { IfOk result (λ blank. HasRoom profile.now (vec_capacity blank.owed)) }
    ensures text_room { IfOk result (λ blank. HasTextRoom texts.now.opening.items texts.now.closing.items (vec_capacity blank.owed)) }
{
    let size = profile.size();
    let owed = buffer_for(alloc, profile, texts)?;
    let memory = Memory::unknown(alloc, size)?;
    let spare = Spare::new(alloc, size)?;
    let surfaces = surfaces_of(alloc, size)?;
    Ok(Blank {
        surfaces,
        memory,
        spare,
        owed,
    })
}

// One window over a screen of this size, and a blank virtual screen. Fails only when memory runs out.
fn surfaces_of(alloc: Global, size: Size) -> Result<Surfaces, NoMemory>
    ensures desk { IfOk result (λ surfaces. surfaces.desk ≡ first_desk size.rows size.columns) }
    ensures wanted { IfOk result (λ surfaces. surfaces.wanted ≡ blank_virtual size.rows size.columns) }
{
    let Ok(desk) = Desk::new(alloc, size) else {
        return Err(NoMemory);
    };
    let wanted = Virtual::new(alloc, size)?;
    Ok(Surfaces { desk, wanted })
}

// A buffer with room for the text of each operation, and for each of two other texts. Fails only when memory runs out.
fn buffer_for(alloc: Global, profile: &Profile, texts: &Texts) -> Result<Vec<u8>, NoMemory>
    requires opening { length texts.now.opening.items ≤ 2048 }
    requires closing { length texts.now.closing.items ≤ 2048 }
    ensures empty { IfOk result (λ buffer. buffer.items ≡ []) }
    ensures room { IfOk result (λ buffer. HasRoom profile.now (vec_capacity buffer)) }
    ensures text_room { IfOk result (λ buffer. HasTextRoom texts.now.opening.items texts.now.closing.items (vec_capacity buffer)) }
{
    let most = profile
        .longest()
        .max(texts.opening.len())
        .max(texts.closing.len());
    let buffer = Vec::with_capacity(alloc, most)?;
    Ok(buffer)
}

// A reader for the keys of an entry that has made a profile.
fn keys_of(
    alloc: Global,
    entry: &Entry,
    size: Option<Size>,
    opening: Opening,
) -> Result<KeyReader, OpenFault>
    requires { refusal entry.now size ≡ None }
    ensures ok { IfOk result (IsReaderOf opening.keys entry.now) }
    ensures err { IfErr result (IsUnopenedWith opening.keys entry.now size) }
{
    let table = match KeyTable::of_set(alloc, entry, opening.keys) {
        Ok(table) => table,
        Err(KeyFault::KeyTooLong(slot)) => return Err(OpenFault::KeyTooLong(slot)),
        Err(_) => return Err(OpenFault::NoMemory),
    };
    match KeyReader::new(alloc, table) {
        Ok(keys) => Ok(keys),
        Err(_) => Err(OpenFault::NoMemory),
    }
}

// The profile of an entry.
fn admitted(
    alloc: Global,
    entry: &Entry,
    size: Option<Size>,
    opening: Opening,
) -> Result<Profile, OpenFault>
    ensures ok { IfOk result (IsAdmittedAs opening.charset (served opening entry.now) size) }
    ensures accepted { OnOk result (refusal entry.now size ≡ None) }
    ensures err { IfErr result (IsUnopenedWith opening.keys entry.now size) }
    ensures suitable { IfOk result (λ _. IsSuitable entry.now) }
    ensures memory { IsErrOf result OpenFault.NoMemory → IsSuitable entry.now }
    ensures equipped { IsErrOf result OpenFault.NoMemory → IsEquipped entry.now size }
    ensures still { IfOk result (λ profile. opening.is_larger ≡ true → MovesNothing profile) }
{
    let profile = admitted_whole(alloc, entry, size, opening)?;
    if opening.is_larger {
        admitted_still(alloc, entry, size, opening)
    } else {
        Ok(profile)
    }
}

// The profile of the whole entry.
fn admitted_whole(
    alloc: Global,
    entry: &Entry,
    size: Option<Size>,
    opening: Opening,
) -> Result<Profile, OpenFault>
    ensures ok { IfOk result (IsAdmittedAs opening.charset entry.now size) }
    ensures err { IfErr result (IsUnopenedWith opening.keys entry.now size) }
    ensures suitable { IfOk result (λ _. IsSuitable entry.now) }
    ensures memory { IsErrOf result OpenFault.NoMemory → IsSuitable entry.now }
    ensures equipped { IsErrOf result OpenFault.NoMemory → IsEquipped entry.now size }
{
    match Profile::admit_as(alloc, entry, size, opening.charset) {
        Ok(profile) => Ok(profile),
        Err(ProfileFault::NoMemory) => Err(OpenFault::NoMemory),
        Err(fault) => Err(OpenFault::Profile(fault)),
    }
}

// The profile of an entry that makes one, without the texts that insert, delete or scroll. Fails only when memory runs
// out.
fn admitted_still(
    alloc: Global,
    entry: &Entry,
    size: Option<Size>,
    opening: Opening,
) -> Result<Profile, OpenFault>
    requires { refusal entry.now size ≡ None }
    ensures ok { IfOk result (IsAdmittedAs opening.charset (without_moves entry.now) size) }
    ensures err { IfErr result (λ fault. fault ≡ OpenFault.NoMemory) }
    ensures still { IfOk result MovesNothing }
{
    moves_refuse_nothing();
    let Ok(still) = entry.clone() else {
        return Err(OpenFault::NoMemory);
    };
    let mut still = still;
    still.without_moves();
    match Profile::admit_as(alloc, &still, size, opening.charset) {
        Ok(profile) => Ok(profile),
        Err(_) => Err(OpenFault::NoMemory),
    }
}
