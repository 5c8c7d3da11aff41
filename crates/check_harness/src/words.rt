//! A line as words, divided by blanks outside of quotation marks.

use crate::buffers::Buffer;
use crate::texts::read_text;
use crate::troubles::Trouble;
use scr_cells::Size;
use std::alloc::Global;

/// A call that a line makes, and its answer.
#[derive(Drop)]
pub struct CallLine<'a> {
    /// What allocates.
    pub alloc: Global,
    /// The name of the call.
    pub name: &'a str,
    // The line from that name on.
    from: &'a [u8],
    /// The words after it.
    pub words: Words<'a>,
    /// What it answers, in words.
    pub got: Buffer,
}

impl<'a> CallLine<'a> {
    /// A call whose name is the next word. Its answer is put into a buffer that may be used again.
    pub fn new(alloc: Global, words: Words<'a>, got: Buffer) -> CallLine<'a> {
        let mut words = words;
        let from = words.rest;
        let name = words.name();
        CallLine {
            alloc,
            name,
            from,
            words,
            got,
        }
    }

    /// Takes the next word as the name of the call.
    pub fn rename(&mut self) {
        self.from = self.words.rest;
        self.name = self.words.name();
    }

    /// The call as it is written: its name and the words after it, up to what is wanted of the line.
    pub fn call(&self) -> &'a [u8] {
        let mut words = self.words;
        words.skip();
        let end = self.from.len().saturating_sub(words.rest.len());
        self.from.get(..end).unwrap_or(&[]).trim_ascii()
    }

    /// The next word as a text.
    pub fn text(&mut self) -> Buffer {
        let mut text = Buffer::new(self.alloc);
        self.words.text(&mut text);
        text
    }

    /// Answers that memory ran out, where all is as before.
    pub fn refuse(&mut self) {
        self.words.skip();
        self.got.extend(b" NoMemory");
    }
}

/// What is left of a line, and the first trouble with the words that were read. A word that is not of the kind that is
/// read counts as 0, and those who read words need not ask each time.
#[derive(Clone, Copy)]
pub struct Words<'a> {
    rest: &'a [u8],
    trouble: Option<Trouble>,
}

impl<'a> Words<'a> {
    /// The words of a line, none of them read yet.
    pub fn new(line: &'a [u8]) -> Words<'a> {
        Words {
            rest: line,
            trouble: None,
        }
    }

    /// Refuses a line that there was trouble with.
    pub fn done(&self) -> Result<(), Trouble> {
        match self.trouble {
            Some(trouble) => Err(trouble),
            None => Ok(()),
        }
    }

    /// There is trouble with the line.
    pub fn fail(&mut self, trouble: Trouble) {
        self.trouble = self.trouble.or(Some(trouble));
    }

    /// There is trouble with the line, unless something went well.
    pub fn check(&mut self, done: Result<(), Trouble>) {
        if let Err(trouble) = done {
            self.fail(trouble);
        }
    }

    /// The next word, empty where there is none.
    pub fn next(&mut self) -> &'a [u8] {
        let (word, rest) = cut_word(self.rest.trim_ascii_start());
        self.rest = rest;
        word
    }

    /// The next word as a text, empty where it is none.
    pub fn name(&mut self) -> &'a str {
        str::from_utf8(self.next()).unwrap_or("")
    }

    /// The word that follows, which stays.
    pub fn peek(&self) -> &'a [u8] {
        let mut words = *self;
        words.next()
    }

    /// Whether no word is left before what is wanted of the line, which a word `=` begins.
    pub fn is_at_end(&self) -> bool {
        matches!(self.peek(), b"" | b"=")
    }

    /// Leaves out the words before what is wanted of the line.
    pub fn skip(&mut self) {
        for _ in 0..self.rest.len() {
            if self.is_at_end() {
                break;
            }
            let _word = self.next();
        }
    }

    /// The next word as a number with a sign.
    pub fn integer(&mut self) -> i64 {
        match self.name().parse::<i64>() {
            Ok(number) => number,
            Err(_) => {
                self.fail(Trouble::Bad("no number"));
                0
            }
        }
    }

    /// The next word as a number.
    pub fn number(&mut self) -> u32 {
        match u32::try_from(self.integer()) {
            Ok(number) => number,
            Err(_) => {
                self.fail(Trouble::Bad("a number is out of range"));
                0
            }
        }
    }

    /// The next two words as the rows and columns of a screen.
    pub fn size(&mut self) -> Result<Size, Trouble> {
        Size::new(self.number(), self.number()).ok_or(Trouble::Bad("no size"))
    }

    /// The next word as a number if one comes before a `=`, else 0.
    pub fn number_if_any(&mut self) -> u32 {
        if self.is_at_end() { 0 } else { self.number() }
    }

    /// The next word as a byte, which may be written as a text of one character.
    pub fn byte(&mut self) -> u8 {
        if let [b'"', byte, b'"'] = self.peek() {
            let _byte = self.next();
            return *byte;
        }
        match u8::try_from(self.integer()) {
            Ok(byte) => byte,
            Err(_) => {
                self.fail(Trouble::Bad("no byte"));
                0
            }
        }
    }

    /// The next word as a text, in place of what is in the buffer.
    pub fn text(&mut self, text: &mut Buffer) {
        text.clear();
        let read = read_text(self.next(), text);
        self.check(read);
    }
}

// What comes before the first blank outside of quotation marks, and what comes after it.
fn cut_word(text: &[u8]) -> (&[u8], &[u8]) {
    let mut quoted = false;
    let mut escaped = false;
    for (place, byte) in text.iter().enumerate() {
        if *byte == b' ' && !quoted {
            return (&text[..place], &text[place + 1..]);
        }
        if *byte == b'"' && !escaped {
            quoted = !quoted;
        }
        escaped = quoted && *byte == b'\\' && !escaped;
    }
    (text, &[])
}
