//! What a program on a terminal waits for.
ghost use Rattle.std.specs.Prelude.{◌≡◌};
ghost use Rattle.terminal.specs.Events.{event_of};

use curses::{Key, Typed};

/// What a program on a terminal waits for.
#[derive(Clone, Copy, Debug, PartialEq, Eq)]
pub enum Event {
    /// A key was pressed, or a byte came that belongs to no key and no character beyond ASCII.
    Key(Key),
    /// A character beyond ASCII was typed: the bytes of its UTF-8 encoding came. Those of ASCII are keys, as
    /// `Key::Byte(b'a')`.
    Character(char),
    /// The terminal has a new size, and the screen is a new one of that size, blank and with its first window alone.
    Resized,
    /// The program was suspended, by `^Z` or by a stop from elsewhere, or could not be. Nothing is known of what the
    /// terminal shows: update the screen.
    Continued,
    /// The input has ended, or the program is asked to end.
    Ended,
    /// Nothing came in the time that `event_within` was given.
    Idle,
}

impl Event {
    /// What was typed, as an event.
    pub fn of(typed: Typed) -> Event
        ensures { result ≡ event_of typed }
    {
        match typed {
            Typed::Character(character) => Event::Character(character),
            Typed::Key(slot) => Event::Key(Key::Slot(slot)),
            Typed::Byte(byte) => Event::Key(Key::Byte(byte)),
        }
    }
}
