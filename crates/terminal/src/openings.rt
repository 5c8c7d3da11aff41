//! Opening the screen of the terminal that a program runs on.

ghost use Rattle.std.specs.Prelude.{◌≡◌, ◌||◌};
ghost use Rattle.terminal.specs.Openings.{may_be_larger};

use crate::cursors::Cursor;
use crate::faults::TerminalFault;
use crate::keyboards::Keyboard;
use crate::lines::TerminalLine;
use crate::locales::opening_of_locale;
use crate::outputs::TerminalOutput;
use crate::received::Received;
use crate::screens::TerminalScreen;
use curses::{AdaptedEntry, Device, Entry, OpenFault, Opening, Size};
use std::alloc::Global;
use std::env;
use std::env::VarError;
use std::io::BufWriter;
use ti_database::find;

impl TerminalScreen {
    /// Opens a screen of the terminal's size, or of the entry's own if nothing says what that is, on the entry of the
    /// machine's database that `TERM` names, and starts it. Characters above ASCII are sent in UTF-8 where the locale
    /// says UTF-8: the first of `LC_ALL`, `LC_CTYPE` and `LANG` that is set and not empty names a locale with `.UTF-8`
    /// or `.utf8`, in any case. Elsewhere their ASCII stand-ins are sent.
    ///
    /// Refused if `TERM` is not set, if there is no such entry or it cannot be served, if the standard input is a
    /// terminal that is not in raw mode, or if memory runs out. Nothing was written then.
    /// X/Open Base Definitions, 8.2, 'Internationalization Variables'.
    pub fn open(rt: &HostRuntime) -> Result<TerminalScreen, TerminalFault> {
        let opening = opening_of_locale(rt)?;
        TerminalScreen::open_as(rt, opening)
    }

    /// Like `open`, but with these options, whatever the locale says.
    pub fn open_as(rt: &HostRuntime, opening: Opening) -> Result<TerminalScreen, TerminalFault> {
        let name = terminal_name(rt)?;
        match find(rt, name.as_str()) {
            Ok(entry) => open_named(rt, name, entry, opening),
            Err(fault) => Err(TerminalFault::Entry { name, fault }),
        }
    }

    /// Like `open`, on an entry that the caller supplies, such as the bundled one.
    pub fn open_entry(rt: &HostRuntime, entry: Entry) -> Result<TerminalScreen, TerminalFault> {
        let opening = opening_of_locale(rt)?;
        TerminalScreen::open_entry_as(rt, entry, opening)
    }

    /// Like `open_entry`, but with these options, whatever the locale says.
    pub fn open_entry_as(
        rt: &HostRuntime,
        entry: Entry,
        opening: Opening,
    ) -> Result<TerminalScreen, TerminalFault> {
        let line = TerminalLine::open(rt)?;
        if !line.is_ready(rt) {
            return Err(TerminalFault::NotRaw);
        }
        let received = Received::new(rt.alloc())?;
        let cursor = Cursor::new(rt.alloc(), &entry)?;
        let out = device(rt.alloc(), line.output(rt))?;
        let entry = AdaptedEntry::of(entry);
        let asked = opening_on(opening, line.size());
        let screen = entry.open(rt.alloc(), line.size(), asked)?;
        Ok(started(TerminalScreen {
            entry,
            opening,
            line,
            received,
            keyboard: Keyboard::new(),
            waiting: None,
            screen,
            out,
            is_whole: false,
            is_started: false,
            cursor,
        }))
    }
}

/// These options for a screen of this size on the terminal of the program. A screen of the most rows or
/// columns that there can be may be smaller than its terminal, and so may one of the entry's own size (`None`).
pub(crate) fn opening_on(opening: Opening, size: Option<Size>) -> Opening
    ensures { result ≡ record opening { is_larger = opening.is_larger || may_be_larger size } }
{
    Opening {
        charset: opening.charset,
        keys: opening.keys,
        is_larger: opening.is_larger || may_be_larger(size),
    }
}

// Whether a screen of this size may be smaller than its terminal.
fn may_be_larger(size: Option<Size>) -> bool
    ensures { result ≡ may_be_larger size }
{
    match size {
        Some(size) => size.rows == Size::MOST || size.columns == Size::MOST,
        None => true,
    }
}

// Opens a screen on the entry of this name.
fn open_named(
    rt: &HostRuntime,
    name: String,
    entry: Entry,
    opening: Opening,
) -> Result<TerminalScreen, TerminalFault> {
    match TerminalScreen::open_entry_as(rt, entry, opening) {
        Err(TerminalFault::Open(OpenFault::NoMemory)) => Err(TerminalFault::NoMemory),
        Err(TerminalFault::Open(fault)) => Err(TerminalFault::Unserved { name, fault }),
        opened => opened,
    }
}

// Starts a screen. What a failed write leaves of the opening text is sent by the first update.
fn started(opened: TerminalScreen) -> TerminalScreen {
    let mut terminal = opened;
    let _ = terminal.start();
    terminal
}

// The name of the terminal.
fn terminal_name(rt: &HostRuntime) -> Result<String, TerminalFault> {
    match env::var(rt, "TERM") {
        Ok(name) => Ok(name),
        Err(VarError::OutOfMemory) => Err(TerminalFault::NoMemory),
        Err(_) => Err(TerminalFault::NoName),
    }
}

fn device(
    alloc: Global,
    output: TerminalOutput,
) -> Result<Device<BufWriter<TerminalOutput>>, TerminalFault> {
    match BufWriter::new(alloc, output) {
        Ok(writer) => Ok(Device::new(writer)),
        Err(_) => Err(TerminalFault::NoMemory),
    }
}
