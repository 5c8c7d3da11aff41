//! A screen that is fed the bytes of an ECMA-48 text. The files beside this one say which bytes
//! make a control function, and what it changes.
ghost use Rattle.std.specs.Prelude.{◌≡◌, ◌+◌, ◌<◌, ◌≤◌, ◌↔◌, false, length, [], ◌∷◌, bit_and, option_map, IfOk, IsOk, IsTrue};
ghost use Rattle.std.specs.Option.{ForSome};
ghost use Rattle.scr_cells.specs.declared.charsets.Charset.TheVariants.{Ascii};
ghost use Rattle.scr_cells.specs.Attributes.{every_attribute};
ghost use Rattle.scr_cells.specs.Characters.{IsAscii};
ghost use Rattle.scr_cells.specs.Grids.{grid_at, grid_row};
ghost use Rattle.scr_cells.specs.LookViews.{IsLook, LookView};
ghost use Rattle.scr_cells.specs.PictureViews.{IsPlace};
ghost use Rattle.scr_term.specs.Operations.States.{IsSpot, character_written};
ghost use Rattle.scr_term.specs.Ecma.Meanings.{meaning};
ghost use Rattle.scr_term.specs.Ecma.Units.{IsWaiting, Spelled};
ghost use Rattle.scr_terminal.specs.Ecma.Screens.{IsScreen, IsFed, blank_screen};
ghost use Rattle.scr_terminal.specs.Code.Changes.{IsChange, changed};
ghost use Rattle.scr_terminal.specs.Code.Readings.{IsLast, IsReading, acted};

use crate::changes::Change;
use crate::ecma::controls::{control_character, control_sequence};
use crate::ecma::readings::{Reading, read_byte};
use crate::terminal::Terminal;
use crate::undefined::Undefined;
use arrayvec::ArrayVec;
use scr_cells::{Attrs, Charset, Look, NoMemory, Size};
use scr_term::Spot;
use std::alloc::Global;
use std::marker::Model;

/// An emulated ECMA-48 screen: it reads a text in pieces, and shows what the text does.
///
/// These have a meaning: graphic characters of ASCII and, where the text is UTF-8, the other
/// characters (`is_character`); BS, CR, CUU, CUD, CUF, CUB, CHA, VPA, CUP, ED with 0 or 2, EL with
/// 0, ECH, and SGR with its colours. Every other unit is undefined. After the first undefined unit
/// the screen stays as it is.
#[derive(Drop)]
pub struct EcmaScreen {
    terminal: Terminal,
    charset: Charset,
    // The beginning of a unit, after the last whole one.
    waiting: ArrayVec<u8, 64>,
    undefined: bool,
}

impl Model for EcmaScreen {
    ghost use Rattle.scr_terminal.specs.Ecma.Screens.{ScreenView, IsScreen};

    ghost Value = { ScreenView };

    ghost view = { λ a. record {
      rows = a.terminal.rows;
      columns = a.terminal.columns;
      charset = a.charset;
      state = a.terminal.state;
      waiting = a.waiting.items;
      undefined = a.undefined;
    } };

    ghost invariant = { λ a. IsScreen (record {
      rows = a.terminal.rows;
      columns = a.terminal.columns;
      charset = a.charset;
      state = a.terminal.state;
      waiting = a.waiting.items;
      undefined = a.undefined;
    }) };
}

impl EcmaScreen {
    /// A blank screen for a text in ASCII: cursor at row 0, column 0, no attribute on, default
    /// colours. Fails only when memory runs out.
    pub fn new(alloc: Global, size: Size) -> Result<EcmaScreen, NoMemory>
        ensures { IfOk result (λ screen. screen ≡ blank_screen Ascii size.rows size.columns) }
    {
        EcmaScreen::new_as(alloc, size, Charset::Ascii)
    }

    /// A blank screen, as `new` makes it, for a text in ASCII or in UTF-8. In UTF-8 each scalar
    /// value from U+00A0 to U+FFFF is a unit, which is undefined if it is no character
    /// (`is_character`); C1 control functions and scalar values above U+FFFF are no units (RFC 3629,
    /// 4). Fails only when memory runs out.
    pub fn new_as(alloc: Global, size: Size, charset: Charset) -> Result<EcmaScreen, NoMemory>
        ensures { IfOk result (λ screen. screen ≡ blank_screen charset size.rows size.columns) }
    {
        let terminal = Terminal::new(alloc, size)?;
        let _size = terminal.size();
        Ok(EcmaScreen {
            terminal,
            charset,
            waiting: ArrayVec::new(),
            undefined: false,
        })
    }

    /// Reads the next piece of the text, which may end anywhere.
    ///
    /// Returns `Undefined` if something in the text so far is undefined. The screen then stays as
    /// it was after the last unit before that, and every later piece gives `Undefined` too
    /// (ECMA-48, 5.4 'Control sequences').
    pub fn feed(&mut self, piece: &[u8]) -> Result<(), Undefined>
        ensures fed { IsFed self.old piece.now self.new }
        ensures answer { IsOk result ↔ (self.new.undefined ≡ false) }
        ensures screen { IsScreen self.new }
    {
        if self.undefined {
            return Err(Undefined);
        }
        for byte in piece {
            self.feed_byte(*byte);
        }
        if self.undefined {
            Err(Undefined)
        } else {
            Ok(())
        }
    }

    /// The number of rows and columns.
    pub fn size(&self) -> Size
        ensures rows { result.rows ≡ self.now.rows }
        ensures columns { result.columns ≡ self.now.columns }
        ensures screen { IsScreen self.now }
    {
        self.terminal.size()
    }

    /// The look at a row and a column, which count from 0 at the top left.
    pub fn cell(&self, row: u32, column: u32) -> Look
        requires { IsPlace self.now.rows self.now.columns (row, column) }
        ensures value { (other : LookView) → result ≡ grid_at other self.now.state.grid row column }
        ensures look { IsLook result }
    {
        self.terminal.cell(row, column)
    }

    /// The looks of a row, from the left; rows count from 0 at the top.
    pub fn row(&self, row: u32) -> &[Look]
        requires { row < self.now.rows }
        ensures cells { result.now ≡ grid_row self.now.state.grid row }
        ensures width { length result.now ≡ self.now.columns }
    {
        self.terminal.row(row)
    }

    /// Where the cursor is (ECMA-48, 'active presentation position').
    pub fn spot(&self) -> Spot
        ensures value { result ≡ self.now.state.spot }
        ensures inside { IsSpot self.now.rows self.now.columns result }
    {
        self.terminal.spot()
    }

    /// The attributes that are on (ECMA-48, 8.3.117 SGR).
    pub fn rendition(&self) -> Attrs
        ensures value { result.0 ≡ self.now.state.pen.attrs }
        ensures shown { bit_and every_attribute result.0 ≡ result.0 }
    {
        self.terminal.pen().attrs()
    }

    /// The current foreground and background, each `None` if it is the default (ECMA-48, 8.3.117
    /// SGR).
    pub fn colours(&self) -> (Option<u8>, Option<u8>)
        ensures foreground { result.0 ≡ self.now.state.pen.foreground }
        ensures background { result.1 ≡ self.now.state.pen.background }
    {
        let pen = self.terminal.pen();
        (pen.foreground(), pen.background())
    }

    /// The charset of the text.
    pub fn charset(&self) -> Charset
        ensures { result ≡ self.now.charset }
    {
        self.charset
    }

    /// Whether the text so far ends inside a unit: a control sequence (ECMA-48, 5.4 'Control
    /// sequences'), or a character of more than one byte (RFC 3629, 4).
    pub fn waiting(&self) -> bool
        ensures { IsTrue result ↔ IsWaiting self.now.charset self.now.waiting }
    {
        !self.waiting.as_slice().is_empty()
    }

    /// Reads the next byte.
    fn feed_byte(&mut self, byte: u8)
        ensures { IsFed self.old (byte ∷ []) self.new }
    {
        if self.undefined {
            return;
        }
        let part = self.waiting.as_slice();
        match read_byte(self.charset, part, byte) {
            Reading::Graphic => self.write(byte),
            Reading::Spelled(character) => self.take_character(character),
            Reading::Control => self.take_control(byte),
            Reading::Held => self.waiting.push(byte),
            Reading::Last => self.take_last(byte),
            Reading::Other => self.apply(None),
        }
    }

    // Reads the last byte of a character above ASCII. This function and the next two are separate so
    // that characters of ASCII set up neither a character nor a change.
    #[inline(never)]
    fn take_character(&mut self, character: char)
        requires { 160 ≤ character }
        ensures { self.new ≡ acted self.old (meaning self.old.rows self.old.columns self.old.state (Spelled character)) }
    {
        self.waiting.clear();
        let is_defined = match Look::of(character, self.terminal.pen()) {
            Some(look) => self.terminal.lay(look),
            None => false,
        };
        if !is_defined {
            self.undefined = true;
        }
        let _size = self.terminal.size();
    }

    // Reads a control function of one byte.
    #[inline(never)]
    fn take_control(&mut self, byte: u8)
        requires defined { self.old.undefined ≡ false }
        requires reading { IsReading self.old.charset self.old.waiting byte Reading.Control }
        ensures { IsFed self.old (byte ∷ []) self.new }
    {
        let change = control_character(self.terminal.size(), self.terminal.spot(), byte);
        self.apply(change);
    }

    // Reads the final byte of a control sequence.
    #[inline(never)]
    fn take_last(&mut self, byte: u8)
        requires defined { self.old.undefined ≡ false }
        requires reading { IsLast self.old.waiting byte }
        ensures { IsFed self.old (byte ∷ []) self.new }
    {
        let part = self.waiting.as_slice();
        let size = self.terminal.size();
        let change = control_sequence(size, self.terminal.spot(), self.terminal.pen(), part, byte);
        self.apply(change);
    }

    /// Writes a graphic character at the cursor, which goes right; undefined at the margin.
    fn write(&mut self, byte: u8)
        requires character { IsAscii byte }
        requires whole { self.old.waiting ≡ [] }
        ensures { self.new ≡ acted self.old (character_written self.old.columns self.old.state byte) }
    {
        if !self.terminal.write(char::from(byte)) {
            self.undefined = true;
        }
        let _size = self.terminal.size();
    }

    /// Makes a change, or becomes undefined if there is none.
    fn apply(&mut self, change: Option<Change>)
        requires { ForSome change (IsChange self.old.rows self.old.columns) }
        ensures { self.new ≡ acted self.old (option_map (changed self.old.rows self.old.columns self.old.state) change) }
    {
        self.waiting.clear();
        match change {
            Some(change) => self.terminal.make(change),
            None => self.undefined = true,
        }
        let _size = self.terminal.size();
    }
}
