//! What the editor holds, and what each key does to it.

use crate::commands::{Command, command_of, command_of_meta};
use crate::files::{Seen, Stamp};
use crate::history::History;
use crate::keeping::Kept;
use crate::messages::{Message, Said};
use crate::notes::Notes;
use crate::questions::{Typed, typed_at, typed_character_at};
use crate::sequences::Sequence;
use crate::view::column_of;
use curses::Key;
use edit_text::{Text, TextPart, TextPlace};
use std::alloc::Global;

/// How the next key is read.
#[derive(Clone, Copy, PartialEq, Eq)]
pub(crate) enum Mode {
    /// As a command, or as a character of the text.
    Text,
    /// Not at all: the next byte of the keyboard is inserted as it is.
    Literal,
    /// As a character of what is looked for.
    Find,
    /// As a character of the name that the text is to be saved under.
    Name,
    /// As in `Text`; but `^X` leaves now, with the text not saved.
    Leaving,
    /// As in `Text`; but `^S` saves now over what another program wrote.
    Overwriting,
}

/// What a key asks of the program around the editor.
#[derive(Clone, Copy, PartialEq, Eq)]
pub(crate) enum Request {
    Nothing,
    Save,
    // To save over what another program wrote.
    Overwrite,
    // To save under the name that was typed.
    SaveAs,
    Leave,
    Suspend,
    Repaint,
}

/// A text that is edited, and the place where.
#[derive(Drop)]
pub struct Editor {
    /// The file's name, as it is shown.
    pub(crate) name: Vec<u8>,
    pub(crate) text: Text,
    pub(crate) cursor: TextPlace,
    /// The column that the cursor keeps to while it goes up and down.
    pub(crate) goal: usize,
    /// The first line that is shown.
    pub(crate) top: usize,
    /// How many lines are shown.
    pub(crate) page: usize,
    pub(crate) mode: Mode,
    /// What is typed at a question.
    pub(crate) answer: Vec<u8>,
    /// What was looked for last.
    pub(crate) needle: Vec<u8>,
    /// The lines that were cut last.
    pub(crate) cut_text: Vec<u8>,
    /// What was done to the text.
    pub(crate) history: History,
    /// The column at which lines are wrapped that become longer, if they are.
    pub(crate) wrap_column: Option<usize>,
    /// The name under which the text was saved last, if that is not the file's first one.
    pub(crate) renamed: Option<String>,
    /// What is to be said of the last key.
    pub(crate) message: Message,
    /// The file that the message names, if it names one.
    pub(crate) named: Option<String>,
    // How far the sequence of a key is read that the terminal's entry does not have.
    sequence: Sequence,
    // Whether the last key cut a line.
    is_cutting: bool,
    /// The version of the text that the file has.
    pub(crate) saved: u64,
    /// The changes that were not saved and are in no journal yet.
    pub(crate) notes: Notes,
    /// What is kept of the text, if it was changed.
    pub(crate) kept: Option<Kept>,
    /// What the file had when it was read or saved last.
    pub(crate) seen: Seen,
    /// The stamp that the file had then.
    pub(crate) stamp: Option<Stamp>,
}

impl Editor {
    /// An editor of a text that the file has.
    pub(crate) fn new(
        alloc: Global,
        name: Vec<u8>,
        text: Text,
        seen: Seen,
        stamp: Option<Stamp>,
        said: Said,
    ) -> Editor {
        let saved = text.version();
        Editor {
            name,
            text,
            cursor: TextPlace { line: 0, column: 0 },
            goal: 0,
            top: 0,
            page: 1,
            mode: Mode::Text,
            answer: Vec::new(alloc),
            needle: Vec::new(alloc),
            cut_text: Vec::new(alloc),
            history: History::new(alloc),
            wrap_column: None,
            renamed: None,
            message: said.message,
            named: said.named,
            sequence: Sequence::Outside,
            is_cutting: false,
            saved,
            notes: Notes::new(alloc),
            kept: None,
            seen,
            stamp,
        }
    }

    /// Whether the text was changed since it was saved.
    pub fn is_changed(&self) -> bool {
        self.text.version() != self.saved
    }

    /// Says that the file has the text now.
    pub(crate) fn mark_saved(&mut self, seen: Seen, stamp: Option<Stamp>) {
        self.saved = self.text.version();
        self.seen = seen;
        self.stamp = stamp;
        self.notes.begin_anew();
    }

    /// Has lines wrapped that become longer than so many columns: a word that is typed past them begins a new line.
    pub fn wrap_at(&mut self, columns: usize) {
        self.wrap_column = Some(columns);
    }

    /// The line in which the cursor is.
    pub(crate) fn line(&self) -> &[u8] {
        match self.text.line(self.cursor.line) {
            Some(line) => line,
            None => &[],
        }
    }

    /// The column, from its line's first, in which the cursor is shown.
    pub(crate) fn column(&self) -> usize {
        column_of(self.line(), self.cursor.column)
    }

    /// Does what a key asks for, or inserts it as it is if that was asked for.
    pub(crate) fn take_key(&mut self, key: Key) -> Request {
        if let Key::Byte(byte) = key
            && self.mode == Mode::Literal
        {
            self.insert_literally(byte);
            return Request::Nothing;
        }
        let before = self.sequence;
        self.sequence = before.after(key);
        self.message = Message::Nothing;
        if before.has(key) {
            return self.press_command(command_of_meta(before, key));
        }
        if let Some(request) = self.press_in_question(key) {
            return request;
        }
        self.press_command(command_of(key))
    }

    /// Inserts a character above ASCII that was typed, or takes it as a part of an answer.
    pub(crate) fn take_character(&mut self, character: char) -> Request {
        self.sequence = Sequence::Outside;
        self.message = Message::Nothing;
        if self.is_asking() {
            let typed = typed_character_at(&mut self.answer, character);
            if let Some(request) = self.settle_answer(typed) {
                return request;
            }
        }
        self.press_command(Command::Insert(TextPart::Character(character)))
    }

    /// Whether a sequence of bytes has begun that are not text; a pause ends it.
    pub(crate) fn is_in_sequence(&self) -> bool {
        self.sequence != Sequence::Outside
    }

    /// No key came for a while: what comes next does not follow an escape.
    pub(crate) fn pause(&mut self) {
        self.sequence = Sequence::Outside;
    }

    // Inserts a byte as it is, in place of reading it as a key; a line feed splits the line.
    fn insert_literally(&mut self, byte: u8) {
        self.message = Message::Nothing;
        self.mode = Mode::Text;
        self.is_cutting = false;
        self.insert(TextPart::Byte(byte));
    }

    // Reads a key of what a question asks for, if there is one; enter ends it. `None` if it was not one: any other key
    // leaves the question, and does what it does else.
    fn press_in_question(&mut self, key: Key) -> Option<Request> {
        if !self.is_asking() {
            return None;
        }
        let typed = typed_at(&mut self.answer, key);
        self.settle_answer(typed)
    }

    // What a key asks for that was typed at a question; `None` if it was not for the question.
    fn settle_answer(&mut self, typed: Typed) -> Option<Request> {
        match typed {
            Typed::Ended => Some(self.answer_question()),
            Typed::Taken => Some(Request::Nothing),
            Typed::NoMemory => {
                self.message = Message::NoMemory;
                Some(Request::Nothing)
            }
            Typed::Other => None,
        }
    }

    /// Whether the last row asks something.
    pub(crate) fn is_asking(&self) -> bool {
        self.mode == Mode::Find || self.mode == Mode::Name
    }

    // Does what the answer to a question is for. Without a name, the text is saved under its own.
    fn answer_question(&mut self) -> Request {
        let asked = self.mode;
        self.mode = Mode::Text;
        if asked == Mode::Find {
            self.find_answer();
            return Request::Nothing;
        }
        if self.answer.is_empty() {
            Request::Save
        } else {
            Request::SaveAs
        }
    }

    fn press_command(&mut self, command: Command) -> Request {
        let before = self.mode;
        let was_cutting = self.is_cutting;
        self.mode = Mode::Text;
        self.is_cutting = false;
        match command {
            Command::Save if before == Mode::Overwriting => return Request::Overwrite,
            Command::Save => return Request::Save,
            Command::Quit => return self.quit(before == Mode::Leaving),
            Command::Suspend => return Request::Suspend,
            Command::Repaint => return Request::Repaint,
            Command::Move(motion) => self.move_by(motion),
            Command::Cut => {
                self.cut(was_cutting);
                self.is_cutting = true;
            }
            _ => self.change(command),
        }
        Request::Nothing
    }

    // Leaves if nothing would be lost, or if the key before said that something would.
    fn quit(&mut self, leaving: bool) -> Request {
        if leaving || !self.is_changed() {
            return Request::Leave;
        }
        self.mode = Mode::Leaving;
        self.message = Message::NotSaved;
        Request::Nothing
    }

    fn change(&mut self, command: Command) {
        match command {
            Command::Insert(part) => self.insert(part),
            Command::InsertNext => self.mode = Mode::Literal,
            Command::DeleteBefore => self.delete_before(),
            Command::DeleteHere => self.delete(self.cursor),
            Command::Paste => self.paste(),
            Command::Find => self.begin_find(),
            Command::SaveAs => {
                self.mode = Mode::Name;
                self.answer.clear();
            }
            Command::FindNext => self.find(),
            Command::Undo => self.undo(),
            Command::Redo => self.redo(),
            Command::Unknown => self.message = Message::NoCommand,
            _ => {}
        }
    }
}
