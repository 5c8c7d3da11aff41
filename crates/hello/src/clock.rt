//! A clock in a window of its own, in the middle of the screen: it counts the seconds since it was started, until a key is
//! pressed.

use curses::{Screen, Win, WinFault};
use std::io;
use std::time::Instant;
use terminal::{Event, Program};

const WIDTH: u32 = 20;

#[derive(Drop)]
pub(crate) struct Clock<'a> {
    rt: &'a HostRuntime,
    start: Instant,
    window: Option<Win>,
}

impl Clock<'_> {
    /// A clock that begins to count now.
    pub(crate) fn started(rt: &HostRuntime) -> io::Result<Clock<'_>> {
        let start = Instant::now(rt)?;
        Ok(Clock {
            rt,
            start,
            window: None,
        })
    }

    // The window. A new screen has none yet, and a window that does not fit is refused: there is none on a screen that is
    // too narrow.
    fn window(&mut self, screen: &mut Screen) -> Result<Option<Win>, WinFault> {
        let (rows, columns) = screen.size(Win(0))?;
        if self.window.is_none() && columns >= WIDTH {
            let column = (columns - WIDTH) / 2;
            let window = screen.new_window(self.rt.alloc(), 1, WIDTH, rows / 2, column)?;
            self.window = Some(window);
        }
        Ok(self.window)
    }
}

impl Program for Clock<'_> {
    fn draw(&mut self, screen: &mut Screen) -> Result<(), WinFault> {
        let Some(window) = self.window(screen)? else {
            return Ok(());
        };
        let seconds = match self.start.elapsed(self.rt) {
            Ok(passed) => passed.as_secs(),
            Err(_) => 0,
        };
        screen.move_cursor(window, 0, 0)?;
        let _ = screen.add_text(window, itoa::Buffer::new().format(seconds).as_bytes())?;
        let _ = screen.add_text(window, b" seconds ")?;
        screen.noutrefresh(window)
    }

    fn answer(&mut self, event: Event) -> bool {
        if event == Event::Resized {
            self.window = None;
        }
        !matches!(event, Event::Key(_) | Event::Character(_))
    }

    fn shows_cursor(&self) -> bool {
        false
    }

    fn wait(&self) -> Option<u32> {
        Some(2)
    }
}
