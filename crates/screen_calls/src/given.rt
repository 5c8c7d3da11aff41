//! What a call is given, field by field.

use crate::fields::{count_fault, integer, number, setting, up_to};
use crate::reasons::Reason;
use scr_cells::{Attrs, Cell};
use scr_windows::Win;

/// The fields behind the name of a call, which are read in order. What is wrong with the first that is not of the kind
/// that is read is kept, and those who read need not ask each time.
#[derive(Drop)]
pub(crate) struct Given<'f, 'a> {
    fields: &'f [&'a [u8]],
    read: usize,
    wrong: Option<Reason<'a>>,
}

impl<'f, 'a> Given<'f, 'a> {
    /// No field is read yet.
    pub(crate) fn new(fields: &'f [&'a [u8]]) -> Given<'f, 'a> {
        Given {
            fields,
            read: 0,
            wrong: None,
        }
    }

    /// How many fields there are.
    pub(crate) fn count(&self) -> usize {
        self.fields.len()
    }

    /// Refuses the fields if more or fewer were read than there are, and then for the first that was not of its kind.
    pub(crate) fn done(&self) -> Result<(), Reason<'a>> {
        match self.wrong {
            _ if self.read != self.fields.len() => Err(count_fault(self.fields)),
            Some(reason) => Err(reason),
            None => Ok(()),
        }
    }

    fn next(&mut self) -> &'a [u8] {
        let field = self.fields.get(self.read).copied().unwrap_or(&[]);
        self.read = self.read.saturating_add(1);
        field
    }

    // What was read, or another value in its place.
    fn kept<T: Copy>(&mut self, read: Result<T, Reason<'a>>, other: T) -> T {
        match read {
            Ok(value) => value,
            Err(reason) => {
                self.fail(reason);
                other
            }
        }
    }

    fn fail(&mut self, reason: Reason<'a>) {
        self.wrong = self.wrong.or(Some(reason));
    }

    /// A number below 2^32.
    pub(crate) fn number(&mut self) -> u32 {
        let field = self.next();
        self.kept(number(field), 0)
    }

    /// A number of 32 bits with a sign.
    pub(crate) fn integer(&mut self) -> i32 {
        let field = self.next();
        self.kept(integer(field), 0)
    }

    /// A window by its number.
    pub(crate) fn window(&mut self) -> Win {
        Win(self.number())
    }

    /// A setting, 0 or 1.
    pub(crate) fn setting(&mut self) -> bool {
        let field = self.next();
        self.kept(setting(field), false)
    }

    /// A byte by its number, or a character of ASCII in quotation marks.
    pub(crate) fn byte(&mut self) -> u8 {
        match self.next() {
            [b'"', byte, b'"'] => *byte,
            field => {
                let number = self.kept(up_to(255, field), 0);
                u8::try_from(number).unwrap_or(u8::MAX)
            }
        }
    }

    /// Eight bytes.
    pub(crate) fn bytes(&mut self) -> [u8; 8] {
        let mut bytes = [0; 8];
        for place in &mut bytes {
            *place = self.byte();
        }
        bytes
    }

    /// Attributes by their number.
    pub(crate) fn attributes(&mut self) -> Attrs {
        Attrs(self.byte())
    }

    /// The character of a code; U+FFFD where there is none.
    pub(crate) fn character(&mut self) -> char {
        char::from_u32(self.number()).unwrap_or(char::REPLACEMENT_CHARACTER)
    }

    /// Eight characters.
    pub(crate) fn characters(&mut self) -> [char; 8] {
        let mut characters = [' '; 8];
        for place in &mut characters {
            *place = self.character();
        }
        characters
    }

    /// A cell: a byte, attributes, and a colour pair if there is one more field.
    pub(crate) fn cell(&mut self) -> Cell {
        let sign = self.fields.get(self.read).copied().unwrap_or(&[]);
        let (byte, attrs) = (self.byte(), self.attributes());
        let pair = if self.read < self.fields.len() {
            self.number()
        } else {
            0
        };
        match Cell::paired(byte, attrs, pair) {
            Some(cell) => cell,
            None => {
                self.fail(Reason::NotCharacter(sign));
                Cell::blank()
            }
        }
    }
}
