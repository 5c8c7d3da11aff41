//! The terminal line that a program reads.
ghost use Rattle.std.specs.Prelude.{◌≡◌, ◌⊎◌, ◌||◌, [], not, Bool, false, true, IfErr, IfOk, List, Option, ℕ};
ghost use Rattle.std.specs.Duration.{as_nanos};
ghost use Rattle.std.specs.Io.KnownBytes.{Consumes};
ghost use Rattle.terminal.specs.Inputs.{IsWithin, bytes_of, empty_input, sudden_after};
ghost use Rattle.terminal.specs.Lines.{IsFailedRead, IsKeyboardRead, IsLineRead, IsLook, IsNoRead, IsOpened, after_told};
ghost use Rattle.terminal.specs.Sizes.{Finds, SaySize};

use crate::folders::Folder;
use crate::input::{Input, empty_input, failed_input, heard, sudden_after};
use crate::outputs::TerminalOutput;
use crate::sizes::{SizeMessage, size_said};
use crate::variables::{said_by, text_of};
use scr_cells::{NoMemory, Size};
use std::fs::File;
use std::io::{self, IsTerminal, Read};
use std::marker::Model;
use std::rt::{Clock, Env, Files};
use std::time::{Duration, Instant};

/// The line of the terminal that a program runs on, or whatever else its standard input is.
#[derive(Drop)]
pub struct TerminalLine {
    folder: Option<Folder>,
    size: Option<Size>,
    is_ending: bool,
    is_stopping: bool,
    // How many empty reads came back at once, one after another.
    sudden: u32,
}

impl Model for TerminalLine {
    ghost use Rattle.std.specs.Option.{is_some};
    ghost use Rattle.terminal.specs.Lines.{LineView};

    ghost Value = { LineView };

    ghost view = { λ l. record { size = l.size; is_ending = l.is_ending; is_stopping = l.is_stopping; sudden = l.sudden; has_folder = is_some l.folder } };
}

impl TerminalLine {
    /// Takes the folder that `TERMINAL_FOLDER` names, if it is set, and the terminal's size from there; where there is
    /// none, the size that `LINES` and `COLUMNS` say, if they are numbers. Fails only when memory runs out.
    pub fn open<R: Env + Files + AllocGlobal>(rt: &R) -> Result<TerminalLine, NoMemory>
        ensures { IfOk result (λ line. IsOpened line) }
    {
        let mut line = TerminalLine {
            folder: folder_of(rt)?,
            size: size_of(rt)?,
            is_ending: false,
            is_stopping: false,
            sudden: 0,
        };
        line.look(rt);
        Ok(line)
    }

    /// The terminal's size as of the last read or suspension; `None` if nothing says what it is. A terminal of more
    /// than 500 rows or columns is used at 500.
    pub fn size(&self) -> Option<Size>
        ensures { result ≡ self.now.size }
    {
        self.size
    }

    /// Whether a full-screen program can run: its standard input is no terminal, or one that `run-on-terminal` has set to
    /// raw mode. On another terminal keys come line by line, and `^C` ends the program before it has closed its screen.
    /// Without a folder the answer is the system's.
    pub fn is_ready(&self, rt: &HostRuntime) -> bool
        ensures { self.now.has_folder ≡ true → result ≡ true }
    {
        may_draw(self.folder.is_some(), rt.stdin().is_terminal())
    }

    /// Where the screen goes: to the terminal that `run-on-terminal` hands in, also where the standard output is a file or
    /// a pipe; otherwise to the standard output.
    pub fn output(&self, rt: &HostRuntime) -> TerminalOutput {
        match self.terminal(rt) {
            Some(file) => TerminalOutput::Terminal(file),
            None => TerminalOutput::Standard(rt.stdout()),
        }
    }

    // The terminal that was handed in.
    fn terminal(&self, rt: &HostRuntime) -> Option<File> {
        self.folder.as_ref()?.terminal(rt)
    }

    /// Reads a piece of the keyboard's bytes by one read of the standard input, and looks once whether the size has
    /// changed.
    ///
    /// Idle if nothing came while the read waited, or a signal ended it. Ended if the program is asked to end, at once
    /// if it was asked before, else if no byte came; and if the input has ended. How that differs from silence: three
    /// empty reads in a row return within 20 milliseconds, while a line in raw mode lets each wait for a tenth of a
    /// second. So a program whose input is a file gets Idle twice first. Stop if nothing came and the program is asked to
    /// stop. Failed if the piece is empty, the read fails or the clock cannot be read.
    /// POSIX, read(); General Terminal Interface, 'Non-Canonical Mode Input Processing', case C.
    pub fn read<R: io::Input + Files + Clock>(&mut self, rt: &R, piece: &mut [u8]) -> Input
        ensures within { IsWithin piece.new result }
        ensures ending { self.old.is_ending ≡ true → (self.new ≡ self.old) × (piece.new ≡ piece.old) × (result ≡ Input.Ended) }
        ensures reads { self.old.is_ending ≡ false
            → (before : Option (List ℕ)) × (after : Option (List ℕ))
            × IsLineRead before after piece.new self.old self.new result }
    {
        self.read_from(rt, &mut rt.reader(), piece)
    }

    /// Like `read`, from any reader in the place of the standard input. The bytes that it gives are the next ones of the
    /// reader, and no others are gone from there.
    pub fn read_from<R: Files + Clock, T: Read>(
        &mut self,
        rt: &R,
        reader: &mut T,
        piece: &mut [u8],
    ) -> Input
        ensures within { IsWithin piece.new result }
        ensures gives { Consumes (T.remaining reader.old) (T.remaining reader.new) (bytes_of piece.new result) }
        ensures ending { self.old.is_ending ≡ true → (self.new ≡ self.old) × (piece.new ≡ piece.old) × (reader.new ≡ reader.old) × (result ≡ Input.Ended) }
        ensures reads { self.old.is_ending ≡ false → IsLineRead (T.remaining reader.old) (T.remaining reader.new) piece.new self.old self.new result }
    {
        // A program that was suspended and is asked to end may not be the one that the terminal's keys are for.
        if self.is_ending {
            return Input::Ended;
        }
        let found = self.read_keyboard(rt, reader, piece);
        self.look(rt);
        heard(self.is_ending, self.is_stopping, found)
    }

    /// Suspends the program until its user continues it, as with `fg`. Call it when the screen is closed; start the
    /// screen again after it, or another one if the size has changed. Answers whether there is anyone who suspends
    /// programs: if not, it does nothing.
    pub fn suspend<R: Files>(&mut self, rt: &R) -> bool
        ensures looks { IsLook self.old self.new }
        ensures alone { self.old.has_folder ≡ false → result ≡ false }
    {
        let suspended = match &self.folder {
            Some(folder) => folder.suspend(rt),
            None => false,
        };
        self.look(rt);
        suspended
    }

    // Looks at what the folder says.
    fn look<R: Files>(&mut self, rt: &R)
        ensures { IsLook self.old self.new }
    {
        let told = match &self.folder {
            Some(folder) => folder.told(rt),
            None => SizeMessage::Nothing,
        };
        self.take(told);
    }

    // Adopts what the folder said.
    fn take(&mut self, told: SizeMessage)
        ensures { self.new ≡ after_told self.old told }
    {
        match told {
            SizeMessage::Size(size) => {
                self.size = Some(size);
                self.is_stopping = false;
            }
            SizeMessage::End => self.is_ending = true,
            SizeMessage::Stop => self.is_stopping = true,
            SizeMessage::Nothing => {}
        }
    }

    // Reads the keyboard once.
    fn read_keyboard<R: Clock, T: Read>(
        &mut self,
        rt: &R,
        reader: &mut T,
        piece: &mut [u8],
    ) -> Input
        ensures within { IsWithin piece.new result }
        ensures gives { Consumes (T.remaining reader.old) (T.remaining reader.new) (bytes_of piece.new result) }
        ensures reads { IsNoRead (T.remaining reader.old) (T.remaining reader.new) self.old self.new result
            ⊎ IsKeyboardRead (T.remaining reader.old) (T.remaining reader.new) piece.new self.old self.new result }
    {
        if piece.is_empty() {
            return Input::Failed;
        }
        let Ok(start) = Instant::now(rt) else {
            return Input::Failed;
        };
        self.read_once(rt, start, reader, piece)
    }

    // Reads once; the read began then.
    fn read_once<R: Clock, T: Read>(
        &mut self,
        rt: &R,
        start: Instant,
        reader: &mut T,
        piece: &mut [u8],
    ) -> Input
        ensures within { IsWithin piece.new result }
        ensures gives { Consumes (T.remaining reader.old) (T.remaining reader.new) (bytes_of piece.new result) }
        ensures reads { IsKeyboardRead (T.remaining reader.old) (T.remaining reader.new) piece.new self.old self.new result }
    {
        match reader.read(piece) {
            Ok(0) => self.empty(start.elapsed(rt)),
            Ok(count) => {
                self.sudden = 0;
                Input::Bytes(count)
            }
            Err(error) => failed_input(error.kind()),
        }
    }

    // What an empty read means that took this long, if the clock says how long.
    fn empty(&mut self, took: io::Result<Duration>) -> Input
        ensures none { (piece : List ℕ) → bytes_of piece result ≡ [] }
        ensures known { IfOk took (λ t. (self.new ≡ record self.old { sudden = sudden_after self.old.sudden (as_nanos t) })
            × (result ≡ empty_input self.new.sudden)) }
        ensures unknown { IfErr took (λ _. IsFailedRead self.old self.new result) }
    {
        let Ok(took) = took else {
            return Input::Failed;
        };
        self.sudden = sudden_after(self.sudden, took);
        empty_input(self.sudden)
    }
}

// Whether a full-screen program can run, where there is a folder or not, and its input is a terminal or not.
fn may_draw(has_folder: bool, is_terminal: bool) -> bool
    ensures { result ≡ (has_folder || not is_terminal) }
{
    has_folder || !is_terminal
}

// The folder that the environment names.
fn folder_of<R: Env + AllocGlobal>(rt: &R) -> Result<Option<Folder>, NoMemory> {
    match text_of(rt, "TERMINAL_FOLDER")? {
        Some(path) => Ok(Some(Folder::new(rt.alloc(), path.as_str())?)),
        None => Ok(None),
    }
}

// The size that the environment says.
fn size_of<R: Env + AllocGlobal>(rt: &R) -> Result<Option<Size>, NoMemory>
    ensures { IfOk result (λ size. (rows : List ℕ) × (columns : List ℕ) × Finds (SaySize rows columns) size) }
{
    let rows = said_by(rt, "LINES")?;
    let columns = said_by(rt, "COLUMNS")?;
    Ok(size_said(rows.as_str(), columns.as_str()))
}
