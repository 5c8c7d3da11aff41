//! Sessions: lists of calls on one screen. The definitions are in `specs/Sessions.antt`.
ghost use Rattle.std.specs.Prelude.{◌≡◌, IfErr, IfOk, IsErrOf, OnErr, false};
ghost use Rattle.screen_calls.specs.declared.calls.Call.TheVariants.{Doupdate};
ghost use Rattle.screen_sessions.specs.Code.Progress.{AreMadeAfresh, IsFresh};
ghost use Rattle.screen_sessions.specs.Making.{IsMade};
ghost use Rattle.curses.specs.Adapted.{IsUnopenedAdapted};
ghost use Rattle.curses.specs.Opening.{IsUnopened, IsUnopenedWith};
ghost use Rattle.scr_term.specs.Operations.Admission.{IsSuitable};
ghost use Rattle.screen_sessions.specs.Sessions.{AreMade, DisturbedRowsHoldAgain, IsReport, IsReportAdapted, IsReportAs, ended_well, is_update};

use crate::answers::{Answer, done_answer};
use crate::calls::make_window_call;
use curses::{AdaptedEntry, Counted, OpenFault, Opening, Screen};
use scr_cells::{NoMemory, Size};
use scr_memory::{known_memories, memory_laws, memory_runs};
use scr_plan::plan_is_cheap;
use scr_term::{bytes_act_as_their_operations, run_laws};
use screen_calls::Call;
use std::alloc::Global;
use std::marker::Model;
use ti_caps::Entry;

/// Answers, one for each call.
#[derive(Debug, Drop)]
pub struct Answers(pub Vec<Answer>);

impl Model for Answers {
    ghost use Rattle.std.specs.Prelude.{List};
    ghost use Rattle.screen_sessions.specs.declared.answers.Answer.{Answer};

    ghost Value = { List Answer };

    ghost view = { λ a. a.0.items };
}

/// The result of a session.
#[derive(Debug, Drop)]
pub struct Report {
    /// One answer for each call.
    pub answers: Answers,
    /// Whether there was an update, and the last one ended well.
    pub last_ok: bool,
}

/// Opens a screen on the terminal of an entry and makes calls one after another, whatever they answer. The memory for
/// all answers is allocated at opening.
///
/// - Each answer is that of the call, as `specs/Sessions.antt` defines it. What an update began is a plan, or after a
///   failed write the first operations of one.
/// - Right after each update that ended well, the terminal shows the virtual screen, with its cursor where it is
///   wanted, and nothing is owed. This holds whatever writes failed before it and whatever state of its profile the
///   terminal was in at opening. On the bundled ECMA-48 entry the bytes that were accepted lead there.
/// - After every call, the bytes accepted so far followed by those that are owed are the texts of all operations begun.
///
/// Refused exactly if `Screen::open` is, memory aside, for its reasons; nothing is written then. curs_refresh(3X).
pub fn session<W: Counted>(
    alloc: Global,
    entry: &Entry,
    size: Option<Size>,
    calls: &[Call],
    out: &mut W,
) -> Result<Report, OpenFault>
    ensures ok { IfOk result (IsReport entry.now size calls.now (W.told out.old) (W.told out.new)) }
    ensures err { IfErr result (IsUnopened entry.now size) }
    ensures memory { IsErrOf result OpenFault.NoMemory → IsSuitable entry.now }
    ensures untouched { OnErr result (out.new ≡ out.old) }
{
    session_as(alloc, entry, size, Opening::new(), calls, out)
}

/// The same on a screen that is opened with these options (`Screen::open_as`).
pub fn session_as<W: Counted>(
    alloc: Global,
    entry: &Entry,
    size: Option<Size>,
    opening: Opening,
    calls: &[Call],
    out: &mut W,
) -> Result<Report, OpenFault>
    ensures ok { IfOk result (IsReportAs opening entry.now size calls.now (W.told out.old) (W.told out.new)) }
    ensures err { IfErr result (IsUnopenedWith opening.keys entry.now size) }
    ensures memory { IsErrOf result OpenFault.NoMemory → IsSuitable entry.now }
    ensures untouched { OnErr result (out.new ≡ out.old) }
{
    let screen = Screen::open_as(alloc, entry, size, opening)?;
    made_on(screen, alloc, calls, out)
}

/// The same on an entry as programs take it, on a terminal of this size (`AdaptedEntry::open`).
pub fn session_adapted<W: Counted>(
    alloc: Global,
    entry: &AdaptedEntry,
    size: Option<Size>,
    opening: Opening,
    calls: &[Call],
    out: &mut W,
) -> Result<Report, OpenFault>
    ensures ok { IfOk result (IsReportAdapted opening entry.now size calls.now (W.told out.old) (W.told out.new)) }
    ensures err { IfErr result (IsUnopenedAdapted opening.keys entry.now size) }
    ensures memory { IsErrOf result OpenFault.NoMemory → IsSuitable entry.now.entry }
    ensures untouched { OnErr result (out.new ≡ out.old) }
{
    let screen = entry.open(alloc, size, opening)?;
    made_on(screen, alloc, calls, out)
}

// Makes calls one after another on a screen that was just opened, and drops it. Fails only when memory runs out for the
// answers, before the first call.
fn made_on<W: Counted>(
    mut screen: Screen,
    alloc: Global,
    calls: &[Call],
    out: &mut W,
) -> Result<Report, OpenFault>
    requires { IsFresh screen }
    ensures ok { IfOk result (AreMadeAfresh screen.profile calls.now (W.told out.old) (W.told out.new)) }
    ensures err { IfErr result (λ fault. fault ≡ OpenFault.NoMemory) }
    ensures untouched { OnErr result (out.new ≡ out.old) }
{
    make_afresh(alloc, &mut screen, calls, out)
}

/// Makes a call that is given as a value, by the method of `Screen` of its name, and gives its answer.
/// `specs/Making.antt` says what that does to the screen and to the writer; only an update writes to it.
pub fn make_call<W: Counted>(alloc: Global, screen: &mut Screen, call: &Call, out: &mut W) -> Answer
    ensures made { IsMade screen.old screen.new call.now result (W.told out.old) (W.told out.new) }
    ensures quiet { is_update call.now ≡ false → out.new ≡ out.old }
{
    memory_laws();
    match call {
        Call::Doupdate => make_update(alloc, screen, out),
        Call::Noutrefresh(win) => done_answer(screen.noutrefresh(*win)),
        Call::PadNoutrefresh(win, row, column, top, left, bottom, right) => done_answer(
            screen.pad_noutrefresh(*win, *row, *column, *top, *left, *bottom, *right),
        ),
        Call::SetPair(pair, foreground, background) => {
            done_answer(screen.set_pair(*pair, *foreground, *background))
        }
        Call::SetPairOf(pair, foreground, background) => {
            done_answer(screen.set_pair_of(*pair, *foreground, *background))
        }
        Call::RedrawWindow(win) => done_answer(screen.redraw_window(*win)),
        Call::RedrawLines(win, first, n) => done_answer(screen.redraw_lines(*win, *first, *n)),
        _ => make_window_call(alloc, screen, call),
    }
}

/// Makes calls one after another on a screen, whatever they answer. The memory for all answers is allocated before the
/// first call.
///
/// What `session` says of a screen that was just opened holds of any: from every state of the terminal that agrees with
/// what is remembered of it, and, if nothing was owed at the beginning, also through the bytes. So calls may be made in
/// parts; and if others wrote on the terminal in between, `redraw_lines` or `redraw_window` marks the rows that they
/// changed (`disturbed_rows_hold_again`). curs_refresh(3X).
///
/// Refused: NoMemory if there is no room for the answers; no call is made then.
pub fn make_calls<W: Counted>(
    alloc: Global,
    screen: &mut Screen,
    calls: &[Call],
    out: &mut W,
) -> Result<Report, NoMemory>
    ensures ok { IfOk result (AreMade screen.old screen.new calls.now (W.told out.old) (W.told out.new)) }
    ensures same { OnErr result (screen.new ≡ screen.old) }
    ensures untouched { OnErr result (out.new ≡ out.old) }
{
    run_laws();
    bytes_act_as_their_operations();
    memory_runs();
    known_memories();
    plan_is_cheap();
    let _size = screen.screen();
    let mut answers = Vec::with_capacity(alloc, calls.len())?;
    let mut last_ok = false;
    for call in calls {
        let answer = make_call(alloc, screen, call, out);
        last_ok = is_last_ok(last_ok, &answer);
        answers.push(answer)?;
    }
    Ok(Report {
        answers: Answers(answers),
        last_ok,
    })
}

// Makes calls as `make_calls` does; if memory runs out, the error is the one that an opening gives for it.
fn make_afresh<W: Counted>(
    alloc: Global,
    screen: &mut Screen,
    calls: &[Call],
    out: &mut W,
) -> Result<Report, OpenFault>
    requires { IsFresh screen.old }
    ensures ok { IfOk result (AreMadeAfresh screen.old.profile calls.now (W.told out.old) (W.told out.new)) }
    ensures err { IfErr result (λ fault. fault ≡ OpenFault.NoMemory) }
    ensures untouched { OnErr result (out.new ≡ out.old) }
{
    memory_runs();
    let _size = screen.screen();
    let report = make_calls(alloc, screen, calls, out)?;
    Ok(report)
}

// Makes an update.
fn make_update<W: Counted>(alloc: Global, screen: &mut Screen, out: &mut W) -> Answer
    ensures { IsMade screen.old screen.new Doupdate result (W.told out.old) (W.told out.new) }
{
    memory_laws();
    memory_runs();
    let _size = screen.screen();
    match screen.doupdate(alloc, out) {
        Ok(sent) => Answer::Sent(sent),
        Err(fault) => Answer::Failed(fault),
    }
}

/// If others changed rows of the terminal, and the next calls of a session (`make_calls`) mark all of them before
/// any update, everything that a session promises holds again from there on. X/Open Curses Issue 7, redrawwin(),
/// wredrawln().
///
/// The others wrote before these calls, while nothing was owed, and left the terminal in a state of its profile. From
/// the marks on, the next update that ends well shows the picture, with its bytes, and the one after it is bounded by
/// the joined repaint again. There has to be at least one mark; it may be of no line, if only the cursor or the
/// rendition changed.
pub fn disturbed_rows_hold_again()
    ensures { DisturbedRowsHoldAgain }
{
    memory_laws();
}

// Whether the last update so far ended well, with one answer more.
fn is_last_ok(before: bool, answer: &Answer) -> bool
    ensures { result ≡ ended_well before answer.now }
{
    match answer {
        Answer::Sent(_) => true,
        Answer::Failed(_) => false,
        _ => before,
    }
}
