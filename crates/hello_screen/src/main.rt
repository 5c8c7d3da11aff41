//! A first program: a greeting in a box, until a key is pressed. Any argument selects the bundled entry, in UTF-8.
#![tactic(auto)]

use anyhow::Result;
use curses::{Attrs, BOX, Charset, KeySet, Opening, Screen, Win, WinFault, bundled};
use terminal::{Event, Program, TerminalScreen};

#[derive(Drop)]
struct Greeting;

impl Program for Greeting {
    fn draw(&mut self, screen: &mut Screen) -> Result<(), WinFault> {
        let (rows, columns) = screen.size(Win(0))?;
        screen.border_of(Win(0), BOX)?;
        screen.move_cursor(Win(0), rows.min(5) / 2, columns.min(9) / 2)?;
        screen.attr_on(Win(0), Attrs::REVERSE)?;
        let _ = screen.add_str(Win(0), " Hello from Huttavel ")?;
        screen.attr_off(Win(0), Attrs::REVERSE)?;
        screen.move_cursor(Win(0), rows.min(8) / 2, columns.min(9) / 2)?;
        let _ = screen.add_str(Win(0), "À bientôt: press a key ")?;
        screen.noutrefresh(Win(0))
    }

    fn answer(&mut self, event: Event) -> bool {
        !matches!(event, Event::Key(_) | Event::Character(_))
    }
}

fn main(rt: HostRuntime) -> Result<()> {
    let opening = Opening {
        charset: Charset::Utf8,
        keys: KeySet::All,
        is_larger: false,
    };
    let mut terminal = match std::env::args(&rt)?.count() {
        0 | 1 => TerminalScreen::open(&rt)?,
        _ => TerminalScreen::open_entry_as(&rt, bundled(rt.alloc())?, opening)?,
    };
    Ok(terminal.run(&rt, &mut Greeting)?)
}
