//! Running a script up to its last update.

use curses::{Device, KeySet, Opening, Screen};
use scr_cells::{Charset, NoMemory, Size};
use scr_term::{Op, Ops, Profile};
use scr_terminal::Terminal;
use scr_windows::{Win, WinFault};
use screen_scripts::{Command, cut_line, read_command};
use screen_sessions::{Answer, Call, make_call};
use std::alloc::Global;
use ti_caps::{Bytes, bundled};

// The window that exists from the beginning.
const FIRST: Win = Win(0);

/// A screen on the terminal of the bundled entry, the terminal's profile, and what the last update
/// sends.
#[derive(Drop)]
pub struct LastUpdate {
    /// The screen.
    pub screen: Screen,
    /// The terminal's profile.
    pub profile: Profile,
    /// The terminal as the last update finds it.
    pub terminal: Terminal,
    /// What the last update sends.
    pub plan: Ops,
    /// Whether there is an update before the last, so that what the terminal shows is known.
    pub is_known: bool,
    // How many updates are made; those behind them are not.
    left: u32,
}

/// A blank screen, and no update yet. Fails only when memory runs out.
pub fn open(alloc: Global, charset: Charset, size: Size) -> Result<LastUpdate, NoMemory> {
    let Ok(entry) = bundled(alloc) else {
        return Err(NoMemory);
    };
    let profile = Profile::admit_as(alloc, &entry, Some(size), charset).map_err(|_| NoMemory)?;
    let terminal = Terminal::new(alloc, size)?;
    let opening = Opening {
        charset,
        keys: KeySet::Table,
        is_larger: false,
    };
    let screen = Screen::open_as(alloc, &entry, Some(size), opening).map_err(|_| NoMemory)?;
    Ok(LastUpdate {
        screen,
        profile,
        terminal,
        plan: Ops(Vec::new(alloc)),
        is_known: false,
        left: u32::MAX,
    })
}

/// Executes lines up to the update with this number, counted from 1, which is not made: the screen is then as it finds it.
/// Fails only when memory runs out.
pub fn run_before_update(
    alloc: Global,
    lines: &[u8],
    updates: u32,
    last: &mut LastUpdate,
) -> Result<(), NoMemory> {
    last.left = updates.saturating_sub(1);
    run_to_update(alloc, lines, updates, last)
}

/// Executes lines up to the update with this number, counted from 1. Fails only when memory runs
/// out.
pub fn run_to_update(
    alloc: Global,
    lines: &[u8],
    updates: u32,
    last: &mut LastUpdate,
) -> Result<(), NoMemory> {
    let mut rest = lines;
    let mut count: u32 = 0;
    while !rest.is_empty() {
        let (line, after) = cut_line(rest);
        if run_line(alloc, line, last)? {
            count = count.saturating_add(1);
            last.is_known = count > 1;
        }
        if count == updates {
            break;
        }
        rest = after;
    }
    Ok(())
}

// Executes a line, and returns whether it is an update. All lines have been checked before, so only
// memory can run out.
fn run_line(alloc: Global, line: &[u8], last: &mut LastUpdate) -> Result<bool, NoMemory> {
    match read_command(alloc, line) {
        Ok(command) => run_command(alloc, command, last),
        Err(_) => Err(NoMemory),
    }
}

// Executes a command, and returns whether it is an update. Keys change nothing that is shown.
fn run_command(alloc: Global, command: Command, last: &mut LastUpdate) -> Result<bool, NoMemory> {
    match command {
        Command::Add(row, column, text) => {
            add(alloc, row, column, text, &mut last.screen)?;
            Ok(false)
        }
        Command::Show => {
            make(alloc, &Call::Noutrefresh(FIRST), &mut last.screen)?;
            update(alloc, last)
        }
        Command::Make(call) => make_or_update(alloc, &call, last),
        Command::Text(window, text) => {
            add_string(alloc, window, text, &mut last.screen)?;
            Ok(false)
        }
        Command::Key(_) | Command::Idle | Command::Size(_, _) => Ok(false),
    }
}

// Makes a call, and returns whether it is an update.
fn make_or_update(alloc: Global, call: &Call, last: &mut LastUpdate) -> Result<bool, NoMemory> {
    if matches!(call, Call::Doupdate) {
        return update(alloc, last);
    }
    make(alloc, call, &mut last.screen)?;
    Ok(false)
}

// Moves the cursor of the first window, and adds a text there unless the place is refused.
fn add(
    alloc: Global,
    row: u32,
    column: u32,
    text: Bytes,
    screen: &mut Screen,
) -> Result<(), NoMemory> {
    if make(alloc, &Call::MoveCursor(FIRST, row, column), screen)? {
        make(alloc, &Call::AddText(FIRST, text), screen)?;
    }
    Ok(())
}

// Adds a text of characters to a window; a text that is not UTF-8 was found before.
fn add_string(
    alloc: Global,
    window: u32,
    text: Bytes,
    screen: &mut Screen,
) -> Result<(), NoMemory> {
    let text = String::from_utf8(text.0).map_err(|_| NoMemory)?;
    make(alloc, &Call::AddStr(Win(window), text), screen)?;
    Ok(())
}

// Makes a call that is not an update, and returns whether it was accepted.
fn make(alloc: Global, call: &Call, screen: &mut Screen) -> Result<bool, NoMemory> {
    let mut device = Device::new(Vec::new(alloc));
    match make_call(alloc, screen, call, &mut device) {
        Answer::Refused(WinFault::NoMemory) | Answer::Failed(_) => Err(NoMemory),
        Answer::Refused(_) => Ok(false),
        _ => Ok(true),
    }
}

// Sends the terminal what the previous update sends, and makes another update, unless none is left to be made. Returns
// true: it is one.
fn update(alloc: Global, last: &mut LastUpdate) -> Result<bool, NoMemory> {
    follow(&last.profile, &last.plan, &mut last.terminal);
    if last.left > 0 {
        last.left -= 1;
        last.plan = planned(alloc, &mut last.screen)?;
    }
    Ok(true)
}

// The operations that an update sends.
fn planned(alloc: Global, screen: &mut Screen) -> Result<Ops, NoMemory> {
    let mut device = Device::new(Vec::new(alloc));
    match screen.doupdate(alloc, &mut device) {
        Ok(sent) => Ok(sent.begun),
        Err(_) => Err(NoMemory),
    }
}

// Executes operations on a terminal. Each operation of an update is defined.
fn follow(profile: &Profile, ops: &Ops, terminal: &mut Terminal) {
    for op in &ops.0 {
        step(profile, *op, terminal);
    }
}

/// Executes an operation on a terminal, and returns whether it is defined there and the terminal has the profile's size.
pub fn step(profile: &Profile, op: Op, terminal: &mut Terminal) -> bool {
    let (size, other) = (profile.size(), terminal.size());
    size.rows == other.rows && size.columns == other.columns && terminal.step(profile, op).is_ok()
}
