//! Executing the commands of a script on its screen.
ghost use Rattle.std.specs.Prelude.{◌≡◌, None, Some, IfOk, IsErrOf};
ghost use Rattle.screen_scripts.specs.declared.commands.Command.{Command};
ghost use Rattle.screen_scripts.specs.declared.commands.Command.TheVariants.{Text};
ghost use Rattle.screen_scripts.specs.Stories.{added, continued, shown};
ghost use Rattle.screen_scripts.specs.Showing.{IsReady, Obeys, ObeysSome, stage_of};

use crate::commands::Command;
use crate::effects::Effects;
use crate::line_faults::LineFault;
use crate::making::{make, make_quietly, update_bytes};
use crate::pressing::{idle, press};
use curses::Screen;
use scr_cells::NoMemory;
use scr_windows::Win;
use screen_sessions::Call;
use std::alloc::Global;
use ti_caps::Bytes;

// The window that exists from the beginning.
const FIRST: Win = Win(0);

/// Executes a command on an open screen.
///
/// Refused with `Bad` for another `size` and for a text that is not UTF-8, or with `NoMemory`.
pub fn obey(alloc: Global, screen: &mut Screen, command: Command) -> Result<Effects, LineFault>
    requires { IsReady screen.old }
    ensures ok { IfOk result (λ effects. ObeysSome screen.old screen.new effects (continued (stage_of screen.old) command)) }
    ensures bad { IsErrOf result LineFault.Bad → continued (stage_of screen.old) command ≡ None }
{
    match command {
        Command::Add(row, column, text) => Ok(add(alloc, screen, row, column, text)?),
        Command::Show => Ok(show(alloc, screen)?),
        Command::Make(call) => Ok(make(alloc, screen, &call)?),
        Command::Key(bytes) => Ok(press(alloc, screen, &bytes.0)?),
        Command::Text(window, text) => add_string(alloc, screen, window, text),
        Command::Idle => Ok(idle(alloc, screen)?),
        Command::Size(_, _) => Err(LineFault::Bad),
    }
}

// Moves the cursor of the first window, and adds a text there unless the place is refused.
fn add(
    alloc: Global,
    screen: &mut Screen,
    row: u32,
    column: u32,
    text: Bytes,
) -> Result<Effects, NoMemory>
    requires { IsReady screen.old }
    ensures { IfOk result (λ effects. Obeys screen.old screen.new effects (added (stage_of screen.old) row column text)) }
{
    let moved = make_quietly(alloc, screen, &Call::MoveCursor(FIRST, row, column))?;
    if moved.is_some() {
        return Effects::refused(alloc, moved);
    }
    make(alloc, screen, &Call::AddText(FIRST, text))
}

// Adds a text of characters to a window.
fn add_string(
    alloc: Global,
    screen: &mut Screen,
    window: u32,
    text: Bytes,
) -> Result<Effects, LineFault>
    requires { IsReady screen.old }
    ensures ok { IfOk result (λ effects. ObeysSome screen.old screen.new effects (continued (stage_of screen.old) (Text window text))) }
    ensures bad { IsErrOf result LineFault.Bad → continued (stage_of screen.old) (Text window text) ≡ None }
{
    match String::from_utf8(text.0) {
        Ok(text) => Ok(make(alloc, screen, &Call::AddStr(Win(window), text))?),
        Err(_) => Err(LineFault::Bad),
    }
}

// Takes the first window onto the virtual screen, and updates the terminal.
fn show(alloc: Global, screen: &mut Screen) -> Result<Effects, NoMemory>
    requires { IsReady screen.old }
    ensures { IfOk result (λ effects. Obeys screen.old screen.new effects (shown (stage_of screen.old))) }
{
    let taken = make_quietly(alloc, screen, &Call::Noutrefresh(FIRST))?;
    let effects = Effects::refused(alloc, taken)?;
    let bytes = update_bytes(alloc, screen)?;
    Ok(effects.and_update(bytes))
}
