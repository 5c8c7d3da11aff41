//! The stage of a script: its screen, and an emulated terminal.
ghost use Rattle.std.specs.Prelude.{◌≡◌, None, true, IfOk, IsErrOf};
ghost use Rattle.screen_scripts.specs.Stories.{opened};
ghost use Rattle.screen_scripts.specs.Showing.{IsFirst, IsReadyStage, Opens};
ghost use Rattle.screen_scripts.specs.Running.{IsOpenedOn};

use crate::commands::Command;
use crate::line_faults::LineFault;
use curses::{KeySet, Opening, Screen};
use scr_cells::{Charset, NoMemory, Size};
use scr_memory::memory_runs;
use scr_term::{blank_laws, bundled_is_ecma48, ecma48_laws};
use scr_terminal::EcmaScreen;
use std::alloc::Global;
use ti_caps::bundled;

/// A screen on the terminal of the bundled entry, and an emulated terminal that is fed what updates
/// send.
#[derive(Drop)]
pub struct Stage {
    /// The screen.
    pub screen: Screen,
    /// The terminal.
    pub terminal: EcmaScreen,
}

/// The stage that a script's first command opens, for a terminal with this charset. Refused with `Bad` if the command
/// is not a size of 1 to 500 rows and columns, or with `NoMemory`.
pub fn open_stage(alloc: Global, charset: Charset, command: Command) -> Result<Stage, LineFault>
    ensures ok { IfOk result (λ stage. Opens charset command stage) }
    ensures bad { IsErrOf result LineFault.Bad → opened command ≡ None }
{
    let Command::Size(rows, columns) = command else {
        return Err(LineFault::Bad);
    };
    let size = Size::new(rows, columns).ok_or(LineFault::Bad)?;
    Ok(blank_stage(alloc, charset, size)?)
}

// A blank stage.
fn blank_stage(alloc: Global, charset: Charset, size: Size) -> Result<Stage, NoMemory>
    ensures ready { IfOk result (IsReadyStage true) }
    ensures first { IfOk result (λ stage. IsFirst charset size.rows size.columns stage) }
{
    blank_laws();
    bundled_is_ecma48();
    ecma48_laws();
    memory_runs();
    let screen = open_screen(alloc, charset, size)?;
    let terminal = EcmaScreen::new_as(alloc, size, charset)?;
    let _size = terminal.size();
    Ok(Stage { screen, terminal })
}

// A screen of this size on the terminal of the bundled entry.
fn open_screen(alloc: Global, charset: Charset, size: Size) -> Result<Screen, NoMemory>
    ensures { IfOk result (IsOpenedOn charset size) }
{
    let Ok(entry) = bundled(alloc) else {
        return Err(NoMemory);
    };
    let opening = Opening {
        charset,
        keys: KeySet::Table,
        is_larger: false,
    };
    match Screen::open_as(alloc, &entry, Some(size), opening) {
        Ok(screen) => Ok(screen),
        Err(_) => Err(NoMemory),
    }
}
