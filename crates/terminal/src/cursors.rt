//! The cursor of the terminal: whether it is shown, and the texts that hide it and show it again.
ghost use Rattle.std.specs.Prelude.{◌≡◌, ◌||◌, IfErr, IfOk, OnErr, OnOk, Some, None, Bool, true, length};
ghost use Rattle.std.specs.Option.{is_some};
ghost use Rattle.terminal.specs.Cursors.{IsFailed, IsSent, cursor_texts, due, is_due, is_wanted, shown_after, text_due};

use curses::{Counted, Entry, SendFault, Slot};
use scr_cells::NoMemory;
use scr_term::sent_at;
use std::alloc::Global;
use std::io::ErrorKind;
use std::marker::Model;

// `civis` and `cnorm` (terminfo(5), 'Cursor Motions').
const CIVIS: Slot = Slot(13);

const CNORM: Slot = Slot(16);

/// The cursor of the terminal.
#[derive(Drop)]
pub(crate) struct Cursor {
    // Where the entry has both.
    texts: Option<CursorTexts>,
    // Whether it is shown; `None` after a write that failed.
    shown: Option<bool>,
    // What the program asks for. It counts while the screen is started.
    asked: bool,
    is_started: bool,
}

// The texts that hide the cursor and show it.
#[derive(Drop)]
struct CursorTexts {
    hide: Vec<u8>,
    show: Vec<u8>,
}

impl Model for CursorTexts {
    ghost use Rattle.std.specs.Prelude.{List, ℕ};

    ghost Value = { List ℕ × List ℕ };

    ghost view = { λ t. (t.hide.items, t.show.items) };
}

impl Model for Cursor {
    ghost use Rattle.terminal.specs.Cursors.{CursorView};

    ghost Value = { CursorView };

    ghost view = { λ c. record { texts = c.texts; shown = c.shown; asked = c.asked; is_started = c.is_started } };
}

impl Cursor {
    /// The cursor of a terminal with this entry, shown. Fails only when memory runs out.
    pub(crate) fn new(alloc: Global, entry: &Entry) -> Result<Cursor, NoMemory>
        ensures texts { IfOk result (λ cursor. cursor.texts ≡ cursor_texts entry.now) }
        ensures shown { IfOk result (λ cursor. (cursor.shown ≡ Some true) × (cursor.asked ≡ true)) }
    {
        Ok(Cursor {
            texts: texts_of(alloc, entry)?,
            shown: Some(true),
            asked: true,
            is_started: false,
        })
    }

    /// Takes up what the program asks for. Answers whether the entry can do it: the cursor is shown on every terminal.
    pub(crate) fn ask(&mut self, visible: bool) -> bool
        ensures asked { self.new ≡ record self.old { asked = visible } }
        ensures can { result ≡ (visible || is_some self.old.texts) }
    {
        self.asked = visible;
        visible || self.texts.is_some()
    }

    /// Takes up that the screen was started, or closed.
    pub(crate) fn set_started(&mut self, is_started: bool)
        ensures { self.new ≡ record self.old { is_started = is_started } }
    {
        self.is_started = is_started;
    }

    /// Sends what makes the cursor as it is to be, and flushes; nothing where it is known to be so. After an error nothing
    /// is known of it, so the next call sends the text again.
    pub(crate) fn settle<W: Counted>(&mut self, out: &mut W) -> Result<(), SendFault>
        ensures ok { OnOk result (self.new ≡ record self.old { shown = shown_after self.old.texts self.old.shown (is_wanted self.old) }) }
        ensures sent { OnOk result (IsSent (W.told out.old) (W.told out.new) (due self.old)) }
        ensures err { OnErr result (self.new ≡ record self.old { shown = None }) }
        ensures failed { IfErr result (IsFailed (W.told out.old) (W.told out.new) (due self.old)) }
    {
        let wanted = self.asked || !self.is_started;
        let Some(texts) = &self.texts else {
            return Ok(());
        };
        if !is_due(self.shown, wanted) {
            return Ok(());
        }
        let sent = send(texts.text(wanted), out);
        self.shown = if sent.is_ok() { Some(wanted) } else { None };
        sent
    }
}

impl CursorTexts {
    // The text that makes the cursor so.
    fn text(&self, shown: bool) -> &[u8]
        ensures { result.now ≡ text_due (Some self.now) true shown }
    {
        if shown {
            self.show.as_slice()
        } else {
            self.hide.as_slice()
        }
    }
}

// Whether a text has to be sent, so that the cursor is as wanted.
fn is_due(shown: Option<bool>, wanted: bool) -> bool
    ensures { result ≡ is_due shown wanted }
{
    shown != Some(wanted)
}

// Sends a text whole, and flushes; nothing if it is empty.
fn send<W: Counted>(text: &[u8], out: &mut W) -> Result<(), SendFault>
    ensures ok { OnOk result (IsSent (W.told out.old) (W.told out.new) text.now) }
    ensures err { IfErr result (IsFailed (W.told out.old) (W.told out.new) text.now) }
{
    if text.is_empty() {
        return Ok(());
    }
    let mut sent = 0;
    while sent < text.len() {
        match out.put(&text[sent..]) {
            Ok(0) => return Err(cut(sent, ErrorKind::WriteZero)),
            Ok(count) => sent += count,
            Err(error) => return Err(cut(sent, error.kind())),
        }
    }
    match out.finish() {
        Ok(()) => Ok(()),
        Err(error) => Err(SendFault::Flush {
            sent: sent as u64,
            kind: error.kind(),
        }),
    }
}

// A write failed after so many bytes.
fn cut(sent: usize, kind: ErrorKind) -> SendFault
    ensures { result ≡ SendFault.Write sent kind }
{
    SendFault::Write {
        sent: sent as u64,
        kind,
    }
}

// The texts of an entry, if it has both.
fn texts_of(alloc: Global, entry: &Entry) -> Result<Option<CursorTexts>, NoMemory>
    ensures { IfOk result (λ texts. texts ≡ cursor_texts entry.now) }
{
    let hide = sent_at(alloc, entry, CIVIS)?;
    let show = sent_at(alloc, entry, CNORM)?;
    match (hide, show) {
        (Some(hide), Some(show)) => Ok(Some(CursorTexts { hide, show })),
        _ => Ok(None),
    }
}
