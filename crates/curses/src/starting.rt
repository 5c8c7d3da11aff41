//! The beginning and the end of a program's use of a screen. The definitions are in `specs/Starting.antt`.
ghost use Rattle.std.specs.Prelude.{◌≡◌, ◌≤◌, ◌^◌, All, IfErr, IfOk, length, true, vec_capacity};
ghost use Rattle.scr_term.specs.declared.operations.operation.Op.{Op};
ghost use Rattle.scr_term.specs.Operations.Profiles.{IsProfile};
ghost use Rattle.scr_term.specs.Operations.Texts.{bytes_of, has};
ghost use Rattle.curses.specs.Starting.{AfterSendFault, AfterSending, AlwaysClosesPlain, ClosingLaws, IsClosed, IsNotClosed, IsNotStarted, IsStarted, closing_ops};

use crate::faults::SendFault;
use crate::screens::Screen;
use crate::sending::{send_all, send_text};
use crate::updates::finish_after;
use crate::writers::Counted;
use scr_term::{Op, Profile, bytes_act_as_their_operations, profiles_have, run_laws};

impl Screen {
    /// Begins a program's use of the screen: sends what is owed, then the opening text of the entry that the screen was
    /// opened on, and flushes the writer if it accepted something. The text is `smcup` and `smkx`, as `opening_text`
    /// gives them, or nothing if that is refused. Gives how many bytes the writer accepted. Nothing is known of the
    /// terminal then, so the next update repaints everything.
    ///
    /// Allocates no memory. Ends early with Write if a write failed or accepted nothing, and what was not accepted of
    /// the text that it cut is then owed; with Flush if everything was accepted and the flush failed. X/Open Curses
    /// Issue 7, initscr(); terminfo(5), 'Cursor Motions'.
    pub fn start<W: Counted>(&mut self, out: &mut W) -> Result<u64, SendFault>
        ensures ok { IfOk result (IsStarted self.old self.new (W.told out.old) (W.told out.new)) }
        ensures err { IfErr result (IsNotStarted self.old self.new (W.told out.old) (W.told out.new)) }
    {
        self.forget();
        let none: [Op; 0] = [];
        send_whole(&self.profile, &none, &self.opening, &mut self.owed, out)
    }

    /// Ends a program's use of the screen: sends what is owed; then what turns all attributes off, makes the colours
    /// default and moves the cursor to the beginning of the last line; then the closing text of the entry that the
    /// screen was opened on; and flushes the writer if it accepted something. Gives how many bytes the writer accepted.
    ///
    /// What turns all off and moves the cursor is defined whatever the terminal shows and writes with. The closing text
    /// is `rmkx` and `rmcup`, as `closing_text` gives them, or nothing if that is refused. Nothing is known of the
    /// terminal then: a program may `start` again, and its next update repaints everything.
    ///
    /// Allocates no memory. Ends early with Write if a write failed or accepted nothing, and what was not accepted of
    /// the text that it cut is then owed; with Flush if everything was accepted and the flush failed. Call `close`
    /// again when the terminal is back. X/Open Curses Issue 7, endwin(); terminfo(5), 'Cursor Motions'.
    pub fn close<W: Counted>(&mut self, out: &mut W) -> Result<u64, SendFault>
        ensures ok { IfOk result (IsClosed self.old self.new (W.told out.old) (W.told out.new)) }
        ensures err { IfErr result (IsNotClosed self.old self.new (W.told out.old) (W.told out.new)) }
        ensures plain { AlwaysClosesPlain self.old.profile }
    {
        closing_laws();
        self.forget();
        send_closing(&self.profile, &self.closing, &mut self.owed, out)
    }
}

// Sends what waits in a buffer, what turns everything off and takes the cursor to the last line, and then a text.
fn send_closing<W: Counted>(
    profile: &Profile,
    text: &[u8],
    waiting: &mut Vec<u8>,
    out: &mut W,
) -> Result<u64, SendFault>
    requires room { (op : Op) → length (bytes_of profile.now op) ≤ vec_capacity waiting.old }
    requires text_room { length text.now ≤ vec_capacity waiting.old }
    requires short { length text.now ≤ 2048 }
    ensures ok { IfOk result (λ bytes. AfterSending profile.now (closing_ops profile.now) text.now waiting.old.items (W.told out.old) (W.told out.new) bytes waiting.new.items) }
    ensures err { IfErr result (λ fault. AfterSendFault profile.now (closing_ops profile.now) text.now waiting.old.items (W.told out.old) (W.told out.new) fault waiting.new.items) }
    ensures room { vec_capacity waiting.old ≤ vec_capacity waiting.new }
    ensures profile { IsProfile profile.now }
{
    profiles_have();
    let last = Op::Move(profile.size().rows - 1, 0);
    if profile.can_reset() {
        send_whole(profile, &[Op::Reset, last], text, waiting, out)
    } else {
        send_whole(profile, &[last], text, waiting, out)
    }
}

// Sends what waits in a buffer, the texts of operations, and then a text, and flushes the writer if it accepted
// something.
fn send_whole<W: Counted>(
    profile: &Profile,
    ops: &[Op],
    text: &[u8],
    waiting: &mut Vec<u8>,
    out: &mut W,
) -> Result<u64, SendFault>
    requires has { All (λ op. has profile.now op ≡ true) ops.now }
    requires few { length ops.now ≤ 2 ^ 32 }
    requires room { (op : Op) → length (bytes_of profile.now op) ≤ vec_capacity waiting.old }
    requires text_room { length text.now ≤ vec_capacity waiting.old }
    requires short { length text.now ≤ 2048 }
    ensures ok { IfOk result (λ bytes. AfterSending profile.now ops.now text.now waiting.old.items (W.told out.old) (W.told out.new) bytes waiting.new.items) }
    ensures err { IfErr result (λ fault. AfterSendFault profile.now ops.now text.now waiting.old.items (W.told out.old) (W.told out.new) fault waiting.new.items) }
    ensures room { vec_capacity waiting.old ≤ vec_capacity waiting.new }
{
    let first = send_all(profile, ops, waiting, out);
    if let Some(kind) = first.fault {
        return Err(SendFault::Write {
            sent: first.bytes,
            kind,
        });
    }
    let last = send_text(text, waiting, out);
    let sent = first.bytes + last.bytes as u64;
    if let Some(kind) = last.fault {
        return Err(SendFault::Write { sent, kind });
    }
    if let Some(kind) = finish_after(sent, out) {
        return Err(SendFault::Flush { sent, kind });
    }
    Ok(sent)
}

/// From every state of every profile, what is sent before the closing text is defined, turns everything off, and leaves
/// the cursor at the beginning of the last line.
pub fn closing_laws()
    ensures { ClosingLaws }
{
    profiles_have();
    run_laws();
    bytes_act_as_their_operations();
}
