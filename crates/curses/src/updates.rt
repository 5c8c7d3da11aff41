//! Updates: the operations that bring the terminal to a picture are made first, and then sent. The definitions are in
//! `specs/Updates.antt`.
ghost use Rattle.std.specs.Prelude.{◌≡◌, ◌≢◌, ◌≤◌, ◌^◌, None, IfOk, IfErr, IsErrOf, length, vec_capacity};
ghost use Rattle.std.specs.Io.KnownBytes.{Keeps};
ghost use Rattle.scr_term.specs.declared.operations.operation.Op.{Op};
ghost use Rattle.scr_term.specs.Operations.Texts.{bytes_of};
ghost use Rattle.scr_term.specs.Operations.Profiles.{IsProfile, abilities};
ghost use Rattle.scr_virtual.specs.VirtualViews.{settled};
ghost use Rattle.scr_memory.specs.Memories.{MayBe, all_followed, forgotten};
ghost use Rattle.scr_memory.specs.Spares.{IsReady, IsSpareOf};
ghost use Rattle.scr_plan.specs.Checks.{IsLed};
ghost use Rattle.scr_plan.specs.Plans.{IsPlan};
ghost use Rattle.curses.specs.ScreenStates.{IsRemembered};
ghost use Rattle.curses.specs.Updates.{AfterFault, IsDefinedAnew, IsFailed, IsShown, IsUpdated, begun_before, memory_after};
ghost use Rattle.curses.specs.Writers.{IsFinishFailed, IsFinished};

use crate::faults::{Sent, UpdateFault};
use crate::screens::Screen;
use crate::sending::send_all;
use crate::writers::Counted;
use scr_cells::NoMemory;
use scr_memory::{Memory, Spare, known_memories, memory_laws, memory_runs, spare_laws};
use scr_plan::{plan_checked, up_to_date_laws};
use scr_term::{Op, Ops, Profile, run_laws};
use scr_virtual::Virtual;
use std::alloc::Global;
use std::io::ErrorKind;

impl Screen {
    /// Brings the terminal to the virtual screen. Sends what is *owed*, the rest of a text that a failed write cut off;
    /// then the operations that lead from what is known of the terminal to the picture.
    ///
    /// Nothing is sent if nothing differs and the cursor is where it is wanted. If nothing is known of the terminal, or
    /// a repaint was requested, attributes are turned off first, where the terminal can. After Ok the terminal shows
    /// the picture with its cursor where it is wanted, all that it shows is known, nothing is owed, and no requested
    /// repaint is pending.
    ///
    /// If the writer accepted something, it was then asked once to finish, with no text after that.
    ///
    /// Tested, not proved: rows that are not known are erased and painted, or the whole screen instead, if that is
    /// shorter or a repaint was requested; the pen stays as the last text needed it.
    ///
    /// The operations are made before the first byte is sent, and no memory is allocated after that. Windows, virtual
    /// screen and requested repaints stay as they were if it ends early:
    ///
    /// - NoMemory: memory ran out. Nothing was sent, and nothing changes.
    /// - Write: a write failed or accepted nothing. The first operations of the plan were begun, up to the one whose
    ///   text was cut, and what was not accepted of that text is owed. The next update repaints everything.
    /// - Flush: everything was accepted, and the flush failed. The next update repaints everything.
    ///
    /// curs_refresh(3X) and X/Open Curses Issue 7, doupdate().
    pub fn doupdate<W: Counted>(&mut self, alloc: Global, out: &mut W) -> Result<Sent, UpdateFault>
        ensures ok { IfOk result (IsShown self.old self.new (W.told out.old) (W.told out.new)) }
        ensures err { IfErr result (IsFailed self.old self.new (W.told out.old) (W.told out.new)) }
        ensures anew { IfErr result (λ fault. IsDefinedAnew self.old.profile self.old.virtual (begun_before fault)) }
        ensures untouched { IsErrOf result UpdateFault.NoMemory → out.new ≡ out.old }
    {
        let sent = update(
            alloc,
            &self.profile,
            &self.memory,
            &self.wanted,
            &mut self.spare,
            &mut self.owed,
            out,
        );
        remember(
            &self.profile,
            &sent,
            &mut self.memory,
            &mut self.wanted,
            &mut self.spare,
        );
        sent
    }

    /// Forgets what is known of what the terminal shows, so the next update repaints everything: for a program that
    /// writes the bytes itself, and whose write failed. Windows, virtual screen, requested repaints and what is owed
    /// stay as they were.
    pub fn forget(&mut self)
        ensures { self.new ≡ record self.old { memory = forgotten self.old.memory } }
    {
        memory_laws();
        up_to_date_laws();
        self.memory.forget();
    }
}

// What is known of the terminal, and what is to be repainted, after an update that ended so.
fn remember(
    profile: &Profile,
    sent: &Result<Sent, UpdateFault>,
    memory: &mut Memory,
    wanted: &mut Virtual,
    spare: &mut Spare,
)
    requires remembered { IsRemembered profile.now memory.old wanted.old }
    requires of { IsSpareOf memory.old spare.old }
    requires plan { IfOk sent.now (λ sent. IsPlan profile.now memory.old wanted.old sent.begun) }
    requires led { IfOk sent.now (λ sent. IsLed profile.now memory.old sent.begun spare.old) }
    ensures remembered { IsRemembered profile.now memory.new wanted.new }
    ensures ready { IsReady memory.new spare.new }
    ensures followed { IfOk sent.now (λ sent. memory.new ≡ all_followed profile.now sent.begun memory.old) }
    ensures settled { IfOk sent.now (λ _. wanted.new ≡ settled wanted.old) }
    ensures lost { IfErr sent.now (λ fault. memory.new ≡ memory_after fault memory.old) }
    ensures same { IfErr sent.now (λ _. wanted.new ≡ wanted.old) }
{
    match sent {
        Ok(sent) => follow(profile, &sent.begun.0, memory, wanted, spare),
        Err(UpdateFault::NoMemory) => spare.back(memory),
        Err(_) => lose(profile, memory, wanted, spare),
    }
}

// The terminal was sent a plan, which the spare is ahead by unless there is no operation: it shows the picture.
fn follow(
    profile: &Profile,
    ops: &[Op],
    memory: &mut Memory,
    wanted: &mut Virtual,
    spare: &mut Spare,
)
    requires remembered { IsRemembered profile.now memory.old wanted.old }
    requires of { IsSpareOf memory.old spare.old }
    requires plan { IsPlan profile.now memory.old wanted.old ops.now }
    requires led { IsLed profile.now memory.old ops.now spare.old }
    ensures remembered { IsRemembered profile.now memory.new wanted.new }
    ensures ready { IsReady memory.new spare.new }
    ensures followed { memory.new ≡ all_followed profile.now ops.now memory.old }
    ensures settled { wanted.new ≡ settled wanted.old }
{
    memory_runs();
    up_to_date_laws();
    let _profile = profile.size();
    let _wanted = wanted.size();
    catch_up(profile, ops, memory, spare);
    wanted.settle();
}

// Takes over what operations led to on the spare; nothing if there is none.
fn catch_up(profile: &Profile, ops: &[Op], memory: &mut Memory, spare: &mut Spare)
    requires rows { memory.old.rows ≡ profile.now.rows }
    requires columns { memory.old.columns ≡ profile.now.columns }
    requires possible { MayBe (abilities profile.now) memory.old }
    requires of { IsSpareOf memory.old spare.old }
    requires led { IsLed profile.now memory.old ops.now spare.old }
    ensures ready { IsReady memory.new spare.new }
    ensures followed { memory.new ≡ all_followed profile.now ops.now memory.old }
{
    memory_runs();
    known_memories();
    let _profile = profile.size();
    if ops.is_empty() {
        spare.back(memory);
        return;
    }
    memory.take(spare);
}

// Nothing is known of the terminal any more.
fn lose(profile: &Profile, memory: &mut Memory, wanted: &Virtual, spare: &mut Spare)
    requires remembered { IsRemembered profile.now memory.old wanted.now }
    requires of { IsSpareOf memory.old spare.old }
    ensures remembered { IsRemembered profile.now memory.new wanted.now }
    ensures ready { IsReady memory.new spare.new }
    ensures lost { memory.new ≡ forgotten memory.old }
{
    memory_laws();
    up_to_date_laws();
    spare.back(memory);
    memory.forget();
}

// Brings a terminal to a picture: sends what waits in the buffer, which has room for the text of each operation, and
// then what is planned.
pub(crate) fn update<W: Counted>(
    alloc: Global,
    profile: &Profile,
    memory: &Memory,
    wanted: &Virtual,
    spare: &mut Spare,
    waiting: &mut Vec<u8>,
    out: &mut W,
) -> Result<Sent, UpdateFault>
    requires remembered { IsRemembered profile.now memory.now wanted.now }
    requires ready { IsReady memory.now spare.old }
    requires room { (op : Op) → length (bytes_of profile.now op) ≤ vec_capacity waiting.old }
    ensures ok { IfOk result (λ sent. IsUpdated profile.now memory.now wanted.now waiting.old.items (W.told out.old) (W.told out.new) sent.begun sent.bytes waiting.new.items) }
    ensures err { IfErr result (λ fault. AfterFault profile.now memory.now wanted.now waiting.old.items (W.told out.old) (W.told out.new) fault waiting.new.items) }
    ensures anew { IfErr result (λ fault. IsDefinedAnew profile.now wanted.now (begun_before fault)) }
    ensures room { vec_capacity waiting.old ≤ vec_capacity waiting.new }
    ensures untouched { IsErrOf result UpdateFault.NoMemory → out.new ≡ out.old }
    ensures led { IfOk result (λ sent. IsLed profile.now memory.now sent.begun spare.new) }
    ensures of { IsSpareOf memory.now spare.new }
{
    run_laws();
    let mut plan = planned(alloc, profile, memory, wanted, spare)?;
    let sent = send_all(profile, &plan.0, waiting, out);
    plan.0.truncate(sent.begun);
    if let Some(kind) = sent.fault {
        return Err(UpdateFault::Write {
            begun: plan,
            sent: sent.bytes,
            kind,
        });
    }
    if let Some(kind) = finish_after(sent.bytes, out) {
        return Err(UpdateFault::Flush {
            begun: plan,
            sent: sent.bytes,
            kind,
        });
    }
    Ok(Sent {
        begun: plan,
        bytes: sent.bytes,
    })
}

// The operations that show the picture from every state of a terminal that agrees with what is remembered. The spare is
// ahead by them.
fn planned(
    alloc: Global,
    profile: &Profile,
    memory: &Memory,
    wanted: &Virtual,
    spare: &mut Spare,
) -> Result<Ops, NoMemory>
    requires remembered { IsRemembered profile.now memory.now wanted.now }
    requires ready { IsReady memory.now spare.old }
    ensures plan { IfOk result (IsPlan profile.now memory.now wanted.now) }
    ensures few { IfOk result (λ ops. length ops ≤ 2 ^ 32) }
    ensures profile { IsProfile profile.now }
    ensures led { IfOk result (λ ops. IsLed profile.now memory.now ops spare.new) }
    ensures of { IsSpareOf memory.now spare.new }
{
    spare_laws();
    let _profile = profile.size();
    let _wanted = wanted.size();
    plan_checked(alloc, profile, memory, wanted, spare)
}

// Flushes the writer if something was sent, and gives the kind of the error if that failed.
pub(crate) fn finish_after<W: Counted>(sent: u64, out: &mut W) -> Option<ErrorKind>
    ensures bytes { Keeps (W.told out.old).taken (W.told out.new).taken }
    ensures puts { (W.told out.new).failed_puts ≡ (W.told out.old).failed_puts }
    ensures finished { result ≡ None → IsFinished sent (W.told out.old) (W.told out.new) }
    ensures failed { result ≢ None → IsFinishFailed (W.told out.old) (W.told out.new) }
{
    if sent == 0 {
        return None;
    }
    match out.finish() {
        Ok(()) => None,
        Err(error) => Some(error.kind()),
    }
}
