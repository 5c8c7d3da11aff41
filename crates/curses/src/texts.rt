//! What a program sends to a terminal before its first update and after its last. The definitions are in
//! `specs/Texts.antt`.
ghost use Rattle.std.specs.Prelude.{◌≡◌, ◌≢◌, ◌||◌, ◌++◌, ◌∷◌, ◌≤◌, [], length, IfErr, IfOk, IfSome, IsErrOf, OnErr, OnOk, true};
ghost use Rattle.std.specs.Option.{is_some};
ghost use Rattle.ti_caps.specs.Description.{text_at};
ghost use Rattle.ti_caps.specs.declared.slots.TheConstants.{RMCUP, RMKX, SMCUP, SMKX};
ghost use Rattle.ti_param.specs.Tree.{depth};
ghost use Rattle.scr_term.specs.Operations.Admission.{bad_text, first_some, program_at};
ghost use Rattle.scr_term.specs.Operations.Texts.{nine, written};
ghost use Rattle.curses.specs.Code.Texts.{Judges, long_program};
ghost use Rattle.curses.specs.Texts.{AreRefused, AreTexts, IsClosingText, IsNoClosingText, IsNoOpeningText, IsOpeningText, HasEither, texts_or_none};

use crate::faults::OpenFault;
use scr_cells::NoMemory;
use scr_term::{ProfileFault, program_at};
use std::alloc::Global;
use ti_caps::{Bytes, Entry, Kind, Slot, slots};
use ti_param::{Program, RunFault, Vars, stack_is_enough, text_is_bounded};

// The most bytes that a text may give.
const MOST_BYTES: usize = 1_024;

/// The bytes that a program sends before its first update: the text of `smcup`, which enters the mode for cursor
/// addresses, and then that of `smkx`, which makes the keypad transmit (terminfo(5), 'Cursor Motions', 'Keypad and
/// Function Keys'). Each is without padding, and run with all parameters and variables 0; an absent one gives nothing.
/// There are at most 2,048 bytes. `Screen::start` sends them.
///
/// Refused: Profile with BadString if the text of `smcup`, or else of `smkx`, is not a parameter string, or its stack
/// could hold more than 20 values; Profile with LongString if that of `smcup`, or else of `smkx`, could give more than
/// 1,024 bytes; NoMemory if memory runs out.
pub fn opening_text(alloc: Global, entry: &Entry) -> Result<Bytes, OpenFault>
    ensures ok { IfOk result (IsOpeningText entry.now) }
    ensures err { IfErr result (IsNoOpeningText entry.now) }
    ensures memory { IsErrOf result OpenFault.NoMemory → HasEither entry.now SMCUP SMKX }
    ensures few { IfOk result (λ text. length text ≤ 2048) }
{
    two_texts(alloc, entry, slots::SMCUP, slots::SMKX)
}

/// The bytes that a program sends after its last update: the text of `rmkx`, and then that of `rmcup`, which end what
/// the opening text began (terminfo(5), as there). Each is as in `opening_text`. `Screen::close` sends them.
///
/// Refused as `opening_text` is, for `rmkx` before `rmcup`.
pub fn closing_text(alloc: Global, entry: &Entry) -> Result<Bytes, OpenFault>
    ensures ok { IfOk result (IsClosingText entry.now) }
    ensures err { IfErr result (IsNoClosingText entry.now) }
    ensures memory { IsErrOf result OpenFault.NoMemory → HasEither entry.now RMKX RMCUP }
    ensures few { IfOk result (λ text. length text ≤ 2048) }
{
    two_texts(alloc, entry, slots::RMKX, slots::RMCUP)
}

// One text and then another, or nothing if either is refused. Fails only when memory runs out.
pub(crate) fn texts_or_none(
    alloc: Global,
    entry: &Entry,
    first: Slot,
    second: Slot,
) -> Result<Vec<u8>, NoMemory>
    ensures texts { IfOk result (λ text. text.items ≡ texts_or_none entry.now first second) }
    ensures few { IfOk result (λ text. length text.items ≤ 2048) }
{
    match two_texts(alloc, entry, first, second) {
        Ok(text) => Ok(text.0),
        Err(OpenFault::NoMemory) => Err(NoMemory),
        Err(_) => Ok(Vec::new(alloc)),
    }
}

// One text and then another.
fn two_texts(alloc: Global, entry: &Entry, first: Slot, second: Slot) -> Result<Bytes, OpenFault>
    ensures ok { IfOk result (AreTexts entry.now first second) }
    ensures err { IfErr result (AreRefused entry.now first second) }
    ensures memory { IsErrOf result OpenFault.NoMemory → HasEither entry.now first second }
    ensures few { IfOk result (λ text. length text ≤ 2048) }
{
    let begin = text_program(alloc, entry, first)?;
    let end = text_program(alloc, entry, second)?;
    both(alloc, &begin, first, &end, second)
}

// What one program gives, and then what another gives, with all parameters and variables 0, if neither can give too
// many bytes.
fn both(
    alloc: Global,
    begin: &Option<Program>,
    first: Slot,
    end: &Option<Program>,
    second: Slot,
) -> Result<Bytes, OpenFault>
    requires begin { IfSome begin.now (λ p. depth p ≤ 20) }
    requires end { IfSome end.now (λ p. depth p ≤ 20) }
    ensures bytes { IfOk result (λ bytes. bytes ≡ written begin.now (nine []) ++ written end.now (nine [])) }
    ensures judged { Judges result (first_some (long_program begin.now first ∷ long_program end.now second ∷ [])) }
    ensures memory { IsErrOf result OpenFault.NoMemory → (is_some begin.now || is_some end.now) ≡ true }
    ensures few { IfOk result (λ text. length text ≤ 2048) }
{
    text_is_bounded();
    is_short(begin, first)?;
    is_short(end, second)?;
    let mut bytes = Vec::new(alloc);
    append(begin, &mut bytes)?;
    append(end, &mut bytes)?;
    Ok(Bytes(bytes))
}

// The program of a text, if it is there.
fn text_program(alloc: Global, entry: &Entry, slot: Slot) -> Result<Option<Program>, OpenFault>
    ensures program { IfOk result (λ program. program ≡ program_at entry.now slot) }
    ensures depth { IfOk result (λ program. IfSome program (λ p. depth p ≤ 20)) }
    ensures judged { Judges result (bad_text entry.now slot) }
    ensures memory { IsErrOf result OpenFault.NoMemory → is_some (text_at entry.now slot.0) ≡ true }
{
    match program_at(alloc, entry, slot) {
        Ok(program) => Ok(program),
        Err(ProfileFault::NoMemory) => Err(OpenFault::NoMemory),
        Err(fault) => Err(OpenFault::Profile(fault)),
    }
}

// Refuses a program that could give too many bytes; an absent one gives none.
fn is_short(program: &Option<Program>, slot: Slot) -> Result<(), OpenFault>
    ensures judged { Judges result (long_program program.now slot) }
    ensures lasting { IfErr result (λ fault. fault ≢ OpenFault.NoMemory) }
{
    match program {
        Some(program) if program.bound() > MOST_BYTES => Err(OpenFault::Profile(
            ProfileFault::LongString((Kind::Text, slot)),
        )),
        _ => Ok(()),
    }
}

// Appends what a program gives with all parameters and variables 0.
fn append(program: &Option<Program>, bytes: &mut Vec<u8>) -> Result<(), NoMemory>
    requires { IfSome program.now (λ p. depth p ≤ 20) }
    ensures bytes { OnOk result (bytes.new.items ≡ bytes.old.items ++ written program.now (nine [])) }
    ensures memory { OnErr result (is_some program.now ≡ true) }
{
    stack_is_enough();
    let Some(program) = program else {
        return Ok(());
    };
    program
        .run([0; 9], &mut Vars::new(), bytes)
        .map_err(|_: RunFault| NoMemory)
}
