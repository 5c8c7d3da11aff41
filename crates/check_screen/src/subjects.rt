//! What the lines of a script work on. A line `about WHAT` begins anew with nothing, and says what those after it are
//! about: `values`, `keys`, `texts`, `terminals` or `screens`.

use crate::dumps::{dump_entry, dump_picture, dump_screen};
use crate::ecma_screens::{answer_of_ecma, print_state};
use crate::encoded::check_texts;
use crate::entries::answer_of_entry;
use crate::keys::{Keyboard, answer_of_keys};
use crate::pictures::answer_of_picture;
use crate::profiles::answer_of_profile;
use crate::repaints::answer_of_repaint;
use crate::screens::answer_of_screen;
use crate::scripts::answer_of_script;
use crate::terminals::{answer_of_memory, answer_of_terminal, dump_memory, dump_terminal};
use crate::texts::{answer_of_text, dump_text};
use crate::values::answer_of_values;
use check_harness::answers::add_word;
use check_harness::buffers::Buffer;
use check_harness::checking::{Subject, put};
use check_harness::troubles::Trouble;
use check_harness::words::{CallLine, Words};
use edit_text::Text;
use generated_sessions::Recorded;
use scr_cells::{Charset, Picture};
use scr_memory::Memory;
use scr_term::Profile;
use scr_terminal::{EcmaScreen, Terminal};
use std::alloc::Global;
use ti_caps::Entry;

// What lines are about.
#[derive(Clone, Copy)]
enum About {
    Values,
    Keys,
    Texts,
    Terminals,
    Screens,
}

/// What lines work on.
#[derive(Drop)]
pub struct Subjects {
    alloc: Global,
    about: About,
    pub entry: Option<Entry>,
    pub keyboard: Option<Keyboard>,
    // A keyboard that was opened beside that, and is not used.
    pub beside: Option<Keyboard>,
    pub text: Option<Text>,
    pub profile: Option<Profile>,
    pub terminal: Option<Terminal>,
    pub memory: Option<Memory>,
    pub picture: Option<Picture>,
    pub ecma: Option<EcmaScreen>,
    // A screen with its terminal, and that of the sessions that are made up.
    pub opened: Option<Recorded>,
    pub made_up: Option<Recorded>,
}

impl Subject for Subjects {
    fn new(alloc: Global) -> Subjects {
        Subjects::none(alloc, About::Values)
    }

    fn answer(&mut self, words: &mut Words<'_>, got: &mut Buffer) {
        let mut line = CallLine::new(self.alloc, *words, got.take(self.alloc));
        match self.is_answered(&mut line) {
            Ok(true) => {}
            Ok(false) => line
                .words
                .fail(Trouble::Bad("no such call, or nothing that it is about")),
            // What was to be made was refused memory, and all is as before. Lines on screens tell that themselves.
            Err(Trouble::NoMemory) if !matches!(self.about, About::Screens) => line.refuse(),
            Err(trouble) => line.words.fail(trouble),
        }
        *words = line.words;
        *got = line.got;
    }

    fn dump(&self, bytes: &mut Buffer) {
        if let Some(entry) = &self.entry {
            dump_entry(entry, bytes);
        }
        if let Some(text) = &self.text {
            dump_text(text, bytes);
        }
        if let Some(terminal) = &self.terminal {
            dump_terminal(terminal, bytes);
        }
        if let Some(memory) = &self.memory {
            dump_memory(memory, bytes);
        }
        if let Some(picture) = &self.picture {
            dump_picture(picture, bytes);
        }
        if let Some(screen) = &self.ecma {
            print_state(screen, bytes);
        }
        if let Some(opened) = &self.opened {
            dump_screen(opened, bytes);
        }
    }
}

impl Subjects {
    fn none(alloc: Global, about: About) -> Subjects {
        Subjects {
            alloc,
            about,
            entry: None,
            keyboard: None,
            beside: None,
            text: None,
            profile: None,
            terminal: None,
            memory: None,
            picture: None,
            ecma: None,
            opened: None,
            made_up: None,
        }
    }

    // Makes the call of a line, and tells whether it is one.
    fn is_answered(&mut self, line: &mut CallLine<'_>) -> Result<bool, Trouble> {
        if line.name == "about" {
            return self.begin(line);
        }
        match self.about {
            About::Values => answer_of_values(line),
            About::Keys => Ok(answer_of_entry(self, line)? || answer_of_keys(self, line)?),
            About::Texts => answer_of_text(self, line),
            About::Terminals => self.answer_of_terminals(line),
            About::Screens => answer_of_screen(self, line).and(Ok(true)),
        }
    }

    fn answer_of_terminals(&mut self, line: &mut CallLine<'_>) -> Result<bool, Trouble> {
        Ok(
            answer_of_entry(self, line)?
                || answer_of_profile(self, line)?
                || self.make_sized(line)?
                || answer_of_terminal(self, line)?
                || answer_of_memory(self, line)?
                || answer_of_picture(self, line)?
                || answer_of_ecma(self, line)?
                || answer_of_script(self, line)?
                || answer_of_repaint(self, line)?,
        )
    }

    // The lines `terminal R C`, `memory R C`, a terminal of this size of which nothing is known, `picture R C` and
    // `screen R C`, an emulated screen, or `utf8_screen R C`, one that speaks UTF-8; and `fed_texts`. Tells whether a
    // line is one of them.
    fn make_sized(&mut self, line: &mut CallLine<'_>) -> Result<bool, Trouble> {
        let (alloc, words, got) = (line.alloc, &mut line.words, &mut line.got);
        match line.name {
            "terminal" => keep(
                Terminal::new(alloc, words.size()?)?,
                &mut self.terminal,
                got,
            ),
            "memory" => keep(
                Memory::unknown(alloc, words.size()?)?,
                &mut self.memory,
                got,
            ),
            "picture" => keep(Picture::new(alloc, words.size()?)?, &mut self.picture, got),
            "screen" => keep(EcmaScreen::new(alloc, words.size()?)?, &mut self.ecma, got),
            "utf8_screen" => keep(
                EcmaScreen::new_as(alloc, words.size()?, Charset::Utf8)?,
                &mut self.ecma,
                got,
            ),
            "fed_texts" => check_texts(line)?,
            _ => return Ok(false),
        }
        Ok(true)
    }

    // The line `about WHAT`: nothing is there yet for the lines after it.
    fn begin(&mut self, line: &mut CallLine<'_>) -> Result<bool, Trouble> {
        let about = match line.words.name() {
            "values" => About::Values,
            "keys" => About::Keys,
            "texts" => About::Texts,
            "terminals" => About::Terminals,
            "screens" => About::Screens,
            _ => return Err(Trouble::Bad("no such kind of lines")),
        };
        put(self, Subjects::none(line.alloc, about));
        add_word("Ok", &mut line.got);
        Ok(true)
    }
}

/// Keeps what was made.
pub fn keep<T: Drop>(made: T, place: &mut Option<T>, got: &mut Buffer) {
    *place = Some(made);
    add_word("Ok", got);
}

/// What a line works on, which has to be there.
pub fn ready<'a, T>(there: &'a Option<T>, lacking: &'static str) -> Result<&'a T, Trouble> {
    there.as_ref().ok_or(Trouble::Bad(lacking))
}
