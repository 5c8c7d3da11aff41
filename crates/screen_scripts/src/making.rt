//! Making the calls of a script on its screen.
ghost use Rattle.std.specs.Prelude.{◌≡◌, false, IfOk};
ghost use Rattle.screen_sessions.specs.Sessions.{is_update as is_update_of};
ghost use Rattle.screen_scripts.specs.Stories.{made, updated};
ghost use Rattle.screen_scripts.specs.Showing.{IsQuiet, IsReady, IsRefusalOf, Obeys, Updates, stage_of};

use crate::effects::Effects;
use curses::{Device, Screen};
use scr_cells::NoMemory;
use scr_memory::memory_runs;
use scr_term::ecma48_laws;
use scr_windows::WinFault;
use screen_sessions::{Answer, Call, make_call};
use std::alloc::Global;

/// Makes any call, also an update. Fails only when memory runs out.
pub fn make(alloc: Global, screen: &mut Screen, call: &Call) -> Result<Effects, NoMemory>
    requires { IsReady screen.old }
    ensures { IfOk result (λ effects. Obeys screen.old screen.new effects (made (stage_of screen.old) call.now)) }
{
    if is_update(call) {
        return update(alloc, screen);
    }
    let fault = make_quietly(alloc, screen, call)?;
    Effects::refused(alloc, fault)
}

/// Makes a call that is not an update, and returns the reason if it was refused. Fails only when
/// memory runs out.
pub fn make_quietly(
    alloc: Global,
    screen: &mut Screen,
    call: &Call,
) -> Result<Option<WinFault>, NoMemory>
    requires update { is_update_of call.now ≡ false }
    requires ready { IsReady screen.old }
    ensures { IfOk result (λ fault. IsQuiet screen.old screen.new call.now fault) }
{
    let mut device = Device::new(Vec::new(alloc));
    let answer = make_call(alloc, screen, call, &mut device);
    refusal(answer)
}

/// Updates the terminal, and returns the bytes that are sent. Fails only when memory runs out.
pub fn update_bytes(alloc: Global, screen: &mut Screen) -> Result<Vec<u8>, NoMemory>
    requires { IsReady screen.old }
    ensures { IfOk result (λ bytes. Updates screen.old screen.new bytes.items) }
{
    ecma48_laws();
    memory_runs();
    let mut device = Device::new(Vec::new(alloc));
    match screen.doupdate(alloc, &mut device) {
        Ok(_) => Ok(device.writer),
        Err(_) => Err(NoMemory),
    }
}

// Updates the terminal.
fn update(alloc: Global, screen: &mut Screen) -> Result<Effects, NoMemory>
    requires { IsReady screen.old }
    ensures { IfOk result (λ effects. Obeys screen.old screen.new effects (updated (stage_of screen.old))) }
{
    let bytes = update_bytes(alloc, screen)?;
    Ok(Effects::none(alloc).and_update(bytes))
}

// Whether a call is an update.
fn is_update(call: &Call) -> bool
    ensures { result ≡ is_update_of call.now }
{
    matches!(call, Call::Doupdate)
}

// The reason for which a call was refused, if it was. Fails if memory ran out, or if the answer is
// that of an update.
fn refusal(answer: Answer) -> Result<Option<WinFault>, NoMemory>
    ensures { IfOk result (λ fault. IsRefusalOf answer fault) }
{
    match answer {
        Answer::Refused(WinFault::NoMemory) | Answer::Failed(_) | Answer::Sent(_) => Err(NoMemory),
        Answer::Refused(fault) => Ok(Some(fault)),
        _ => Ok(None),
    }
}
