//! The keys of a script: giving bytes of the keyboard to a screen.
ghost use Rattle.std.specs.Prelude.{◌≡◌, ◌++◌, [], IfOk, OnOk, map};
ghost use Rattle.scr_keys.specs.Readers.{idle_read};
ghost use Rattle.screen_scripts.specs.Stories.{Pressed, after_bytes, after_read, idled, key_refusal, pressed};
ghost use Rattle.screen_scripts.specs.Showing.{IsReady, Obeys, events_in, stage_of};

use crate::effects::{Effects, Note};
use curses::Screen;
use scr_cells::NoMemory;
use scr_keys::KeyFault;
use std::alloc::Global;

/// Gives bytes from the keyboard to a screen one by one, then takes all keys. Fails only when
/// memory runs out.
#[tactic(auto, using(crate::proofs::MakingLaws::keys_obey))]
pub fn press(alloc: Global, screen: &mut Screen, bytes: &[u8]) -> Result<Effects, NoMemory>
    requires { IsReady screen.old }
    ensures { IfOk result (λ effects. Obeys screen.old screen.new effects (pressed (stage_of screen.old) bytes.now)) }
{
    let mut effects = Effects::none(alloc);
    read_bytes(screen, bytes, &mut effects.notes)?;
    take_keys(screen, &mut effects.notes)?;
    Ok(effects)
}

/// Tells a screen that no byte came for a while, then takes all keys. Fails only when memory runs
/// out.
#[tactic(auto, using(crate::proofs::MakingLaws::keys_obey))]
pub fn idle(alloc: Global, screen: &mut Screen) -> Result<Effects, NoMemory>
    requires { IsReady screen.old }
    ensures { IfOk result (λ effects. Obeys screen.old screen.new effects (idled (stage_of screen.old))) }
{
    let mut effects = Effects::none(alloc);
    let read = screen.key_idle();
    note_refusal(read, &mut effects.notes)?;
    take_keys(screen, &mut effects.notes)?;
    Ok(effects)
}

/// Gives bytes to a screen one by one, and notes what is refused. Fails only when memory runs out.
pub(crate) fn read_bytes(
    screen: &mut Screen,
    bytes: &[u8],
    notes: &mut Vec<Note>,
) -> Result<(), NoMemory>
    ensures notes { OnOk result (events_in notes.new.items ≡ events_in notes.old.items ++ (after_bytes (stage_of screen.old) bytes.now).events) }
    ensures stage { OnOk result (stage_of screen.new ≡ (after_bytes (stage_of screen.old) bytes.now).stage) }
    ensures rest { OnOk result (screen.new ≡ record screen.old { keys = screen.new.keys }) }
{
    for byte in bytes {
        let read = screen.key_byte(*byte);
        note_refusal(read, notes)?;
    }
    Ok(())
}

/// Notes what the reader of keys refused, if anything.
pub(crate) fn note_refusal(
    read: Result<(), KeyFault>,
    notes: &mut Vec<Note>,
) -> Result<(), NoMemory>
    ensures { OnOk result (events_in notes.new.items ≡ events_in notes.old.items ++ key_refusal read) }
{
    if let Err(fault) = read {
        notes.push(Note::NotTaken(fault))?;
    }
    Ok(())
}

/// Takes all keys, and notes them.
pub(crate) fn take_keys(screen: &mut Screen, notes: &mut Vec<Note>) -> Result<(), NoMemory>
    ensures notes { OnOk result (events_in notes.new.items ≡ events_in notes.old.items ++ map Pressed screen.old.keys.queue) }
    ensures screen { OnOk result (screen.new ≡ record screen.old { keys = record screen.old.keys { queue = [] } }) }
{
    while let Some(key) = screen.key() {
        notes.push(Note::Pressed(key))?;
    }
    Ok(())
}
