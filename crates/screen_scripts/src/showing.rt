//! The output of a line: what is written of its effects.
ghost use Rattle.std.specs.Prelude.{◌≡◌, ◌++◌, not, true, Some, IfOk, OnOk};
ghost use Rattle.scr_memory.specs.Memories.{MemoryView};
ghost use Rattle.scr_term.specs.Operations.Painted.{ShowsNegative};
ghost use Rattle.scr_virtual.specs.VirtualViews.{VirtualView};
ghost use Rattle.screen_scripts.specs.Printing.{abilities_for, refusals_of};
ghost use Rattle.screen_scripts.specs.Showing.{AddsScreen, IsAhead, IsOutputBetween, IsReadyStage, IsSending, events_in, events_of, note_line, notes_lines, update_in};

use crate::effects::{Effects, Note};
use crate::faults::{fault_name, key_fault_name};
use crate::printing::{print_key, print_refusal, print_screen};
use crate::stages::Stage;
use scr_cells::NoMemory;
use scr_term::{bytes_act_as_their_operations, ecma48_laws, run_laws};
use scr_terminal::screens_follow_texts;
use std::alloc::Global;

/// The output for the effects of a line that left this stage: its lines, or, if `raw`, the bytes of
/// its update. Fails only when memory runs out.
pub fn effects_text(
    alloc: Global,
    raw: bool,
    effects: Effects,
    stage: &mut Stage,
) -> Result<Vec<u8>, NoMemory>
    requires { IsAhead (not raw) stage.old (update_in effects) }
    ensures text { (before : MemoryView) (virtual : VirtualView)
        → IsSending stage.old.screen.profile before stage.old.screen.memory virtual stage.old.screen.virtual.picture (update_in effects)
        → IfOk result (λ text. IsOutputBetween raw stage.old.screen.profile before stage.old.screen.memory (events_of effects virtual) text.items) }
    ensures screen { OnOk result (stage.new.screen ≡ stage.old.screen) }
    ensures ready { OnOk result (IsReadyStage (not raw) stage.new) }
{
    let Effects { notes, update } = effects;
    if raw {
        return Ok(update.unwrap_or(Vec::new(alloc)));
    }
    let mut text = Vec::new(alloc);
    print_notes(&notes, &mut text)?;
    if let Some(bytes) = update {
        show(&bytes, stage, &mut text)?;
    }
    Ok(text)
}

/// Adds the lines for a line's notes. Fails only when memory runs out; what was added until then
/// stays.
pub fn print_notes(notes: &[Note], text: &mut Vec<u8>) -> Result<(), NoMemory>
    ensures { OnOk result (text.new.items ≡ text.old.items ++ notes_lines notes.now) }
{
    for note in notes {
        print_note(*note, text)?;
    }
    Ok(())
}

// Adds the line for a note.
fn print_note(note: Note, text: &mut Vec<u8>) -> Result<(), NoMemory>
    ensures { OnOk result (text.new.items ≡ text.old.items ++ note_line note) }
{
    match note {
        Note::Refused(fault) => print_refusal(fault_name(fault), text),
        Note::NotTaken(fault) => print_refusal(key_fault_name(fault), text),
        Note::Pressed(key) => print_key(key, text),
    }
}

/// Adds the lines for the refusals among a line's notes. Fails only when memory runs out; what was
/// added until then stays.
pub fn print_refusals(notes: &[Note], text: &mut Vec<u8>) -> Result<(), NoMemory>
    ensures { OnOk result (text.new.items ≡ text.old.items ++ refusals_of (events_in notes.now)) }
{
    for note in notes {
        if !matches!(note, Note::Pressed(_)) {
            print_note(*note, text)?;
        }
    }
    Ok(())
}

// Feeds the terminal the bytes of an update, and adds the lines that it shows then.
fn show(bytes: &[u8], stage: &mut Stage, text: &mut Vec<u8>) -> Result<(), NoMemory>
    requires { IsAhead true stage.old (Some bytes.now) }
    ensures text { OnOk result (AddsScreen stage.old.screen.profile.charset stage.old.screen.virtual.picture text.old.items text.new.items) }
    ensures screen { stage.new.screen ≡ stage.old.screen }
    ensures ready { IsReadyStage true stage.new }
{
    feed(bytes, stage);
    print_screen(&stage.terminal, text)
}

// Feeds the terminal the bytes of an update.
fn feed(bytes: &[u8], stage: &mut Stage)
    requires { IsAhead true stage.old (Some bytes.now) }
    ensures shows { ShowsNegative (abilities_for stage.old.screen.profile.charset stage.old.screen.virtual.picture) stage.new.terminal.state stage.old.screen.virtual.picture }
    ensures screen { stage.new.screen ≡ stage.old.screen }
    ensures ready { IsReadyStage true stage.new }
{
    ecma48_laws();
    bytes_act_as_their_operations();
    screens_follow_texts();
    // By these laws, all the bytes are defined.
    let _ = stage.terminal.feed(bytes);
}
