//! A list of a hundred lines with a highlight, which keys move; `q` ends.

use curses::{Attrs, Key, Screen, Win, WinFault, keys};
use terminal::{Event, Program};

const LINES: u32 = 100;

#[derive(Default, Drop)]
pub(crate) struct List {
    chosen: u32,
    top: u32,
    rows: u32,
}

impl Program for List {
    fn draw(&mut self, screen: &mut Screen) -> Result<(), WinFault> {
        (self.rows, _) = screen.size(Win(0))?;
        let lowest = self.chosen.saturating_add(1).saturating_sub(self.rows);
        self.top = self.top.min(self.chosen).max(lowest);
        screen.erase(Win(0))?;
        for line in self.top..self.top.saturating_add(self.rows).min(LINES) {
            let is_chosen = line == self.chosen;
            screen.attr_set(Win(0), if is_chosen { Attrs::REVERSE } else { Attrs(0) })?;
            screen.move_cursor(Win(0), line.saturating_sub(self.top), 0)?;
            let _ = screen.add_text(Win(0), b"line ")?;
            let _ = screen.add_text(Win(0), itoa::Buffer::new().format(line).as_bytes())?;
        }
        screen.move_cursor(Win(0), self.chosen.saturating_sub(self.top), 0)?;
        screen.noutrefresh(Win(0))
    }

    fn shows_cursor(&self) -> bool {
        false
    }

    fn answer(&mut self, event: Event) -> bool {
        self.chosen = match event {
            Event::Key(Key::Byte(b'q')) => return false,
            Event::Key(keys::UP) => self.chosen.saturating_sub(1),
            Event::Key(keys::DOWN) => self.chosen.saturating_add(1),
            Event::Key(keys::PAGE_UP) => self.chosen.saturating_sub(self.rows),
            Event::Key(keys::PAGE_DOWN) => self.chosen.saturating_add(self.rows),
            Event::Key(keys::HOME) => 0,
            Event::Key(keys::END) => LINES,
            _ => self.chosen,
        }
        .min(LINES - 1);
        true
    }
}
