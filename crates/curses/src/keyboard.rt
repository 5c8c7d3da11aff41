//! Keys: bytes of the keyboard come in, and keys go out. The definitions are in `specs/Keyboard.antt` and in the crate
//! `scr_keys`.
//!
//! The program reads the keyboard itself and owns the clock. In place of calling getch() and waiting, it gives each
//! byte that it reads to `key_byte`, and takes keys with `key`. It calls `key_idle` when no byte has come for as long
//! as it lets the bytes of one key take, which is what notimeout() and ESCDELAY set in curses. Bytes are always read as
//! keys, as after keypad() with true.
ghost use Rattle.scr_keys.specs.Readers.{byte_read, idle_read, key_taken};
ghost use Rattle.curses.specs.Keyboard.{OnKeys};

use crate::screens::Screen;
use scr_keys::{Key, KeyFault};

impl Screen {
    /// Reads a byte of the keyboard. The keys that it decides are queued for `key`; bytes that could still become a key
    /// of the terminal wait for more.
    ///
    /// Refused: QueueFull if the keys queued and those that it decides would be more than 16 plus the number of bytes
    /// of the longest key; nothing is read then, not even the byte. X/Open Curses Issue 7, getch(), keypad().
    pub fn key_byte(&mut self, byte: u8) -> Result<(), KeyFault>
        ensures { OnKeys self.old self.new result (byte_read self.old.keys byte) }
    {
        self.keys.byte(byte)
    }

    /// Tells the screen that no byte has come from the keyboard for a while: the bytes that wait for more become the
    /// keys that they are, for example a lone escape.
    ///
    /// Refused: QueueFull, as for a byte; the bytes go on waiting then. X/Open Curses Issue 7, getch(), notimeout().
    pub fn key_idle(&mut self) -> Result<(), KeyFault>
        ensures { OnKeys self.old self.new result (idle_read self.old.keys) }
    {
        self.keys.idle()
    }

    /// Takes the first key of the queue; `None` if no key is queued, which is not the end of the input. No window is
    /// refreshed, and nothing is echoed. X/Open Curses Issue 7, getch().
    pub fn key(&mut self) -> Option<Key>
        ensures { OnKeys self.old self.new result (key_taken self.old.keys) }
    {
        self.keys.next()
    }
}
