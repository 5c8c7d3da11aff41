//! The editor as a program on a terminal.

use crate::answering::answer_request;
use crate::drawing::{draw, prepare, text_rows};
use crate::editor::{Editor, Mode, Request};
use curses::{Screen, Win, WinFault};
use std::time::{Duration, Instant};
use terminal::{Event, Program};

/// After so many tenths of a second without a key it is looked what is to be kept of a changed text.
const WAIT: u32 = 20;

/// While keys go on coming and nothing is shown, changes are kept after so many of them.
const MOST_CHANGES: u32 = 20;

/// And they are kept after so many milliseconds: with the tenth of a second that a read of the keyboard takes, three
/// seconds. A text whose changes no journal takes is copied as often.
const MOST_MILLISECONDS: u64 = 2900;

/// An editor, and what it is run on and for.
#[derive(Drop)]
pub(crate) struct Session<'a> {
    pub(crate) rt: &'a HostRuntime,
    /// The file that is edited.
    pub(crate) path: &'a str,
    pub(crate) editor: &'a mut Editor,
    // Whether a text that was not saved is kept; a script's is not.
    keeps: bool,
    // When the first change was made that is not kept.
    since: Option<Instant>,
    // Whether the screen is a new one.
    is_new: bool,
    // Whether everything is to be painted anew.
    repaints: bool,
    /// Whether the input has ended.
    pub(crate) has_ended: bool,
}

impl<'a> Session<'a> {
    /// An editor of a file, on a screen that is new. A text that was not saved is kept, or is not.
    pub(crate) fn new(
        rt: &'a HostRuntime,
        path: &'a str,
        editor: &'a mut Editor,
        keeps: bool,
    ) -> Session<'a> {
        Session {
            rt,
            path,
            editor,
            keeps,
            since: None,
            is_new: true,
            repaints: false,
            has_ended: false,
        }
    }

    /// Begins on a screen that is new.
    pub(crate) fn begin_screen(&mut self, screen: &mut Screen) {
        prepare(screen);
        self.editor.page = text_rows(screen.screen()) as usize;
        self.is_new = false;
    }

    // Nothing was typed for a while: a sequence of bytes is over, or what was typed is brought to the disk.
    fn pass_time(&mut self) {
        if self.editor.is_in_sequence() {
            self.editor.pause();
        } else if self.keeps {
            self.editor.look_at_file(self.rt, self.path);
            self.keep_at_once();
            self.keep();
            self.editor.sync_kept();
        }
    }

    // Does what a key or a character asks for. Answers whether the editor goes on.
    fn answer_request(&mut self, request: Request) -> bool {
        match request {
            Request::Leave => {
                self.editor.forget_kept(self.rt);
                return false;
            }
            Request::Repaint => self.repaints = true,
            request => answer_request(self.rt, self.path, self.editor, request),
        }
        if self.keeps {
            self.keep();
        }
        true
    }

    // Keeps what was changed in the journal, if that is possible.
    fn keep_at_once(&mut self) {
        if !self.editor.is_to_keep() || self.editor.keep_changes(self.rt, self.path) {
            self.since = None;
        }
    }

    // Keeps what was changed, if it is much or waits for long: in the journal, or in a copy.
    fn keep(&mut self) {
        if !self.editor.is_to_keep() {
            self.since = None;
        } else if self.editor.notes.count() >= MOST_CHANGES || self.is_late() {
            if !self.editor.keep_changes(self.rt, self.path) {
                self.editor.keep_text(self.rt, self.path);
            }
            self.since = None;
        }
    }

    // Whether changes wait for long; their time begins with the first that does. Where there is no clock, they do.
    fn is_late(&mut self) -> bool {
        match self.since {
            Some(since) => self.is_past(since),
            None => {
                self.since = Instant::now(self.rt).ok();
                self.since.is_none()
            }
        }
    }

    fn is_past(&self, since: Instant) -> bool {
        match since.elapsed(self.rt) {
            Ok(passed) => passed >= Duration::from_millis(MOST_MILLISECONDS),
            Err(_) => true,
        }
    }
}

impl Program for Session<'_> {
    fn draw(&mut self, screen: &mut Screen) -> Result<(), WinFault> {
        if self.is_new {
            self.begin_screen(screen);
        }
        if self.repaints {
            screen.clear_ok(Win(0), true)?;
            self.repaints = false;
        }
        // What is shown is kept.
        if self.keeps {
            self.keep_at_once();
        }
        draw(screen, self.editor);
        Ok(())
    }

    fn answer(&mut self, event: Event) -> bool {
        match event {
            Event::Key(key) => {
                let request = self.editor.take_key(key);
                return self.answer_request(request);
            }
            Event::Character(character) => {
                let request = self.editor.take_character(character);
                return self.answer_request(request);
            }
            Event::Resized => self.is_new = true,
            Event::Idle => self.pass_time(),
            Event::Continued => {}
            Event::Ended => self.has_ended = true,
        }
        true
    }

    fn wait(&self) -> Option<u32> {
        if self.editor.is_in_sequence() || self.since.is_some() {
            Some(1)
        } else if self.editor.is_changed() {
            Some(WAIT)
        } else {
            None
        }
    }

    fn reads_byte(&self) -> bool {
        self.editor.mode == Mode::Literal
    }
}
