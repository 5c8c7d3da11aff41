//! A test of a full-screen program without a terminal: a dialog is drawn, its bytes are fed to an emulated terminal,
//! and the rows that this shows are compared with text. Then a program from its start to its close, which has to leave
//! the terminal without attributes and on its last line.

use anyhow::{Context, Result, bail};
use curses::{Attrs, Bytes, Device, EcmaScreen, Entry, Look, Screen, Size, Spot, Win, bundled};
use screen_sessions::{Call, session};
use std::alloc::Global;

// The rows that the terminal is to show, with a star where reverse video begins and where it ends.
const WANTED: [&str; 5] = [
    "+----------------------+",
    "| Delete all files?    |",
    "|                      |",
    "|   [ Yes ]  *[ No ]*    |",
    "+----------------------+",
];

// The calls that draw the dialog: a border on the screen's first window, and a text in a window inside it, the second.
fn dialog(alloc: Global) -> Result<Vec<Call>> {
    let (screen, inside) = (Win(0), Win(1));
    let question = Bytes(Vec::from_slice(alloc, b"Delete all files?\n\n  [ Yes ]  ")?);
    let default = Bytes(Vec::from_slice(alloc, b"[ No ]")?);
    let calls = vec![in alloc;
        Call::Border(screen, *b"||--++++"),
        Call::Derive(screen, 3, 20, 1, 2),
        Call::AddText(inside, question),
        Call::AttrOn(inside, Attrs::REVERSE),
        Call::AddText(inside, default),
        Call::Noutrefresh(screen),
        Call::Noutrefresh(inside),
        Call::Doupdate,
    ]?;
    Ok(calls)
}

// Makes calls on a screen by one session, whose bytes go to the device.
fn send(alloc: Global, size: Size, calls: &[Call], device: &mut Device<Vec<u8>>) -> Result<()> {
    let entry = bundled(alloc)?;
    match session(alloc, &entry, Some(size), calls, device) {
        Ok(report) if report.last_ok => Ok(()),
        Ok(_) => bail!("the update ended early"),
        Err(fault) => bail!("{fault}"),
    }
}

// What the dialog's session writes.
fn sent(alloc: Global, size: Size) -> Result<Vec<u8>> {
    let calls = dialog(alloc)?;
    let mut device = Device::new(Vec::new(alloc));
    send(alloc, size, &calls, &mut device)?;
    Ok(device.writer)
}

// What a terminal shows after it was sent those bytes.
fn shown(alloc: Global, size: Size) -> Result<EcmaScreen> {
    let bytes = sent(alloc, size)?;
    let mut terminal = EcmaScreen::new(alloc, size)?;
    terminal.feed(&bytes)?;
    Ok(terminal)
}

// Shows a word in reverse video.
fn show(alloc: Global, screen: &mut Screen, out: &mut Device<Vec<u8>>) -> Result<()> {
    screen.attr_on(Win(0), Attrs::REVERSE)?;
    let _ = screen.add_text(Win(0), b"Goodbye")?;
    screen.noutrefresh(Win(0))?;
    let _ = screen.doupdate(alloc, out)?;
    Ok(())
}

// A program on a screen that is opened: it starts, shows a word, and closes, however that ended.
fn run(alloc: Global, screen: &mut Screen, out: &mut Device<Vec<u8>>) -> Result<()> {
    screen.start(out)?;
    let shown = show(alloc, screen, out);
    let closed = screen.close(out);
    shown?;
    closed?;
    Ok(())
}

// Opens a screen, and runs the program on it.
fn run_on(alloc: Global, entry: &Entry, size: Size, out: &mut Device<Vec<u8>>) -> Result<()> {
    let mut screen = Screen::open_sized(alloc, entry, size)?;
    run(alloc, &mut screen, out)
}

// Whether a terminal that was sent this has its cursor at the beginning of the last line, and no attribute on.
fn is_plain_after(alloc: Global, size: Size, bytes: &[u8]) -> Result<bool> {
    let mut terminal = EcmaScreen::new(alloc, size)?;
    terminal.feed(bytes)?;
    let last = terminal.size().rows - 1;
    Ok(terminal.spot() == Spot::At(last, 0) && terminal.rendition() == Attrs(0))
}

// Whether that holds after all that such a program writes.
fn is_left_plain(alloc: Global, size: Size) -> Result<bool> {
    let entry = bundled(alloc)?;
    let mut out = Device::new(Vec::new(alloc));
    run_on(alloc, &entry, size, &mut out)?;
    is_plain_after(alloc, size, &out.writer)
}

// The text of a row, with its stars.
fn text_of(alloc: Global, looks: &[Look]) -> Result<String> {
    let mut text = String::new(alloc);
    let mut reverse = false;
    for look in looks {
        if reverse != (look.attrs() == Attrs::REVERSE) {
            text.push('*')?;
            reverse = !reverse;
        }
        text.push(look.character())?;
    }
    Ok(text)
}

// Compares what is shown with what is wanted.
fn compare(rt: &HostRuntime, terminal: &EcmaScreen) -> Result<()> {
    for row in 0..terminal.size().rows {
        let text = text_of(rt.alloc(), terminal.row(row))?;
        if text.as_str() != WANTED[row as usize % 5] {
            bail!("row {row} differs: {text}");
        }
    }
    println!(rt; "shown as wanted")?;
    Ok(())
}

/// Compares what the dialog shows with what is wanted, and prints whether the program leaves the terminal plain.
pub(crate) fn check(rt: &HostRuntime) -> Result<()> {
    let size = Size::new(5, 24).context("no size")?;
    let terminal = shown(rt.alloc(), size)?;
    compare(rt, &terminal)?;
    if is_left_plain(rt.alloc(), size)? {
        println!(rt; "left plain")?;
    }
    Ok(())
}
