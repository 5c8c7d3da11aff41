//! The effects of a line of a script.
ghost use Rattle.std.specs.Prelude.{◌≡◌, [], None, Some, IfOk};
ghost use Rattle.screen_scripts.specs.Showing.{event_if, events_in};

use scr_cells::NoMemory;
use scr_keys::{Key, KeyFault};
use scr_windows::WinFault;
use std::alloc::Global;

/// One thing that a line prints.
#[derive(Clone, Copy)]
pub enum Note {
    /// A call was refused.
    Refused(WinFault),
    /// A byte of the keyboard, or an idle time, was refused.
    NotTaken(KeyFault),
    /// A key was pressed.
    Pressed(Key),
}

/// The effects of a line: what it prints, in order, and then the bytes of its update, if it had
/// one.
#[derive(Drop)]
pub struct Effects {
    /// What the line prints.
    pub notes: Vec<Note>,
    /// The bytes sent to the terminal.
    pub update: Option<Vec<u8>>,
}

impl Effects {
    /// No effects.
    pub fn none(alloc: Global) -> Effects
        ensures notes { result.notes.items ≡ [] }
        ensures update { result.update ≡ None }
    {
        Effects {
            notes: Vec::new(alloc),
            update: None,
        }
    }

    /// A refusal, if there is one. Fails only when memory runs out.
    pub fn refused(alloc: Global, fault: Option<WinFault>) -> Result<Effects, NoMemory>
        ensures notes { IfOk result (λ effects. events_in effects.notes.items ≡ event_if fault) }
        ensures update { IfOk result (λ effects. effects.update ≡ None) }
    {
        let mut effects = Effects::none(alloc);
        if let Some(fault) = fault {
            effects.notes.push(Note::Refused(fault))?;
        }
        Ok(effects)
    }

    /// These effects, followed by an update that sent these bytes.
    pub fn and_update(self, bytes: Vec<u8>) -> Effects
        ensures { result ≡ record self { update = Some bytes } }
    {
        Effects {
            notes: self.notes,
            update: Some(bytes),
        }
    }
}
