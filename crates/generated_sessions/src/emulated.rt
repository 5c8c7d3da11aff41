//! The terminal of an entry, emulated: by the operations of its updates, and by the bytes that it is sent.

use check_harness::troubles::Trouble;
use scr_cells::{Attrs, Look, NoMemory, Size};
use scr_term::{Op, Profile, Spot};
use scr_terminal::{EcmaScreen, Terminal};
use std::alloc::Global;

/// An emulated terminal.
#[derive(Drop)]
pub struct Emulated {
    /// It executes the operations that updates begin.
    pub(crate) terminal: Terminal,
    // It reads the bytes that are sent, where these are ECMA-48, and what it shows counts then. It does not know the
    // texts that move lines and characters or repeat these: a terminal that has one of them is the other alone.
    screen: Option<EcmaScreen>,
    // The same terminal with what its screen leaves out, one column and perhaps some rows, and its profile, if it leaves
    // anything out.
    whole: Option<(Profile, Terminal)>,
}

impl Emulated {
    /// A blank terminal.
    pub fn new(alloc: Global, profile: &Profile) -> Result<Emulated, NoMemory> {
        let terminal = Terminal::new(alloc, profile.size())?;
        let screen = if can_move(profile) {
            None
        } else {
            Some(EcmaScreen::new_as(alloc, profile.size(), profile.charset())?)
        };
        Ok(Emulated {
            terminal,
            screen,
            whole: None,
        })
    }

    /// Has a blank column behind those of the screen, and perhaps blank rows below, by a profile of the same entry with
    /// as many more. No operation may reach them.
    pub fn enlarge(&mut self, alloc: Global, profile: Profile) -> Result<(), NoMemory> {
        let terminal = Terminal::new(alloc, profile.size())?;
        self.whole = Some((profile, terminal));
        Ok(())
    }

    /// Reads bytes, and tells whether they are defined. One that reads none wants none.
    pub fn feed(&mut self, bytes: &[u8]) -> bool {
        match &mut self.screen {
            Some(screen) => screen.feed(bytes).is_ok(),
            None => bytes.is_empty(),
        }
    }

    /// Executes the operations of an update and reads its bytes, and tells whether all are defined, and show the same
    /// where the terminal is larger.
    pub fn take(&mut self, profile: &Profile, bytes: &[u8], ops: &[Op]) -> bool {
        for op in ops {
            if !matches!(step_on(&mut self.terminal, profile, *op), Ok(true)) {
                return false;
            }
            if let Some((profile, whole)) = &mut self.whole
                && (!matches!(step_on(whole, profile, *op), Ok(true))
                    || !are_alike(&self.terminal, whole))
            {
                return false;
            }
        }
        self.screen.is_none() || self.feed(bytes)
    }

    /// What it shows by the bytes that it read, if it reads any.
    pub fn screen(&self) -> Option<&EcmaScreen> {
        self.screen.as_ref()
    }

    /// The number of rows and columns.
    pub fn size(&self) -> Size {
        self.terminal.size()
    }

    /// The looks of a row; none where there is no such row.
    pub fn row(&self, row: u32) -> &[Look] {
        match &self.screen {
            Some(screen) if row < screen.size().rows => screen.row(row),
            None => row_of(&self.terminal, row),
            _ => &[],
        }
    }

    /// Where the cursor is.
    pub fn spot(&self) -> Spot {
        match &self.screen {
            Some(screen) => screen.spot(),
            None => self.terminal.spot(),
        }
    }

    /// Whether others may write on it: it reads bytes, and waits for the rest of none.
    pub fn is_free(&self) -> bool {
        match &self.screen {
            Some(screen) => !screen.waiting(),
            None => false,
        }
    }

    /// The attributes that a place has where these are wanted. By the bytes standout is seen as reverse video (`smso`
    /// of the bundled entry is SGR 7).
    pub fn seen(&self, wanted: u8) -> u8 {
        let standout = Attrs::STANDOUT.0;
        if self.screen.is_some() && wanted & standout != 0 {
            wanted & !standout | Attrs::REVERSE.0
        } else {
            wanted
        }
    }
}

// Whether a terminal shows the same with a blank last column, and has its cursor in the same place; behind the last
// column of the other, it is in its own.
fn are_alike(terminal: &Terminal, whole: &Terminal) -> bool {
    let spot = match terminal.spot() {
        Spot::Margin(row) => Spot::At(row, terminal.size().columns),
        spot => spot,
    };
    whole.spot() == spot && (0..terminal.size().rows).all(|row| has_same_row(terminal, whole, row))
}

fn has_same_row(terminal: &Terminal, whole: &Terminal, row: u32) -> bool {
    match row_of(whole, row).split_last() {
        Some((last, looks)) => *last == Look::blank() && looks == row_of(terminal, row),
        None => false,
    }
}

// The looks of a terminal's row; none where there is no such row.
fn row_of(terminal: &Terminal, row: u32) -> &[Look] {
    if row < terminal.size().rows {
        terminal.row(row)
    } else {
        &[]
    }
}

// Whether a terminal can move lines or characters, or repeat a character.
fn can_move(profile: &Profile) -> bool {
    profile.has(Op::InsertLines(1))
        || profile.has(Op::DeleteLines(1))
        || profile.has(Op::InsertChars(1))
        || profile.has(Op::DeleteChars(1))
        || profile.has(Op::ScrollUp(1))
        || profile.has(Op::ScrollDown(1))
        || profile.has(Op::Repeat(b'-', 2))
}

/// Executes an operation on a terminal, and tells whether it is defined.
pub fn step_on(terminal: &mut Terminal, profile: &Profile, op: Op) -> Result<bool, Trouble> {
    let (size, other) = (terminal.size(), profile.size());
    if size.rows != other.rows || size.columns != other.columns {
        return Err(Trouble::Bad("the profile has another size"));
    }
    Ok(terminal.step(profile, op).is_ok())
}
