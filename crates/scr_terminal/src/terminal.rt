//! An emulated terminal that executes operations: what it is and what it shows. `characters` writes,
//! `making` makes every other change.
ghost use Rattle.std.specs.Prelude.{◌≡◌, ◌<◌, ◌↔◌, IfOk, IsOk, IsTrue, bit_and, is_some, length};
ghost use Rattle.scr_cells.specs.declared.charsets.Charset.TheVariants.{Utf8};
ghost use Rattle.scr_cells.specs.Attributes.{every_attribute};
ghost use Rattle.scr_cells.specs.Grids.{grid_at, grid_row};
ghost use Rattle.scr_cells.specs.LookViews.{IsLook, LookView};
ghost use Rattle.scr_cells.specs.PictureViews.{IsPlace};
ghost use Rattle.scr_term.specs.Operations.Abilities.{full_abilities};
ghost use Rattle.scr_term.specs.Operations.States.{IsShownPen, IsSpot};
ghost use Rattle.scr_term.specs.Operations.Steps.{step};
ghost use Rattle.scr_terminal.specs.Terminals.{IsTerminal, blank_terminal, gone_on};

mod characters;
mod making;
mod marking;

use crate::undefined::Undefined;
use scr_cells::{Attrs, Grid, Look, NoMemory, Pen, Size, grid_laws};
use scr_term::{Op, Profile, Spot, look_grid_laws, shown_pen_laws};
use std::alloc::Global;
use std::marker::Model;

/// An emulated terminal: it does what each operation of a profile means (terminfo(5)), and shows
/// the result. Use it to test a program without a terminal.
#[derive(Drop)]
pub struct Terminal {
    grid: Grid<Look>,
    spot: Spot,
    pen: Pen,
}

impl Model for Terminal {
    ghost use Rattle.scr_terminal.specs.Terminals.{TerminalView, IsTerminal};

    ghost Value = { TerminalView };

    ghost view = { λ a. record { rows = a.grid.rows; columns = a.grid.columns; state = record { grid = a.grid.lines; spot = a.spot; pen = a.pen } } };

    ghost invariant = { λ a. IsTerminal (record { rows = a.grid.rows; columns = a.grid.columns; state = record { grid = a.grid.lines; spot = a.spot; pen = a.pen } }) };
}

impl Terminal {
    /// A blank terminal: cursor at row 0, column 0, no attribute on, default colours. Fails only
    /// when memory runs out.
    pub fn new(alloc: Global, size: Size) -> Result<Terminal, NoMemory>
        ensures { IfOk result (λ terminal. terminal ≡ blank_terminal size.rows size.columns) }
    {
        grid_laws::<Look>();
        look_grid_laws();
        shown_pen_laws();
        Ok(Terminal {
            grid: Grid::new(alloc, size.rows, size.columns, Look::blank())?,
            spot: Spot::At(0, 0),
            pen: Pen::plain(),
        })
    }

    /// A terminal that shows the same, with the same cursor and pen. Fails only when memory runs
    /// out.
    pub fn try_clone(&self, alloc: Global) -> Result<Terminal, NoMemory>
        ensures { IfOk result (λ terminal. terminal ≡ self.now) }
    {
        Ok(Terminal {
            grid: self.grid.try_clone(alloc)?,
            spot: self.spot,
            pen: self.pen,
        })
    }

    /// Does what an operation means on a terminal of this profile, which has to be of this
    /// terminal's size.
    ///
    /// Returns `Undefined`, and changes nothing, if
    ///
    /// - the terminal does not have the operation, or it leads off the screen;
    /// - it erases, inserts, deletes or scrolls while an attribute or a colour is on, or moves then
    ///   without `msgr`, or it is `ExitAttributes` while a colour is on;
    /// - the cursor is at the margin and the operation is not `Home`, `Move`, `Clear`, `Reset`,
    ///   `ExitAttributes`, `Enter` or `Set`;
    /// - it is `EraseBelow`, `InsertLines` or `DeleteLines`, and the cursor is not in the first
    ///   column;
    /// - it is `ScrollUp` and the cursor is not in the first column of the last row, or `ScrollDown`
    ///   and the cursor is not in that of the first;
    /// - it inserts or deletes more lines or characters than there are from the cursor's on, or
    ///   scrolls by more lines than there are;
    /// - it is `Repeat`, and would write in the last column.
    pub fn step(&mut self, profile: &Profile, op: Op) -> Result<(), Undefined>
        requires rows { profile.now.rows ≡ self.old.rows }
        requires columns { profile.now.columns ≡ self.old.columns }
        ensures answer { IsOk result ↔ IsTrue (is_some (step profile.now self.old.state op)) }
        ensures state { self.new ≡ gone_on self.old (step profile.now self.old.state op) }
    {
        if !profile.has(op) {
            return Err(Undefined);
        }
        let is_defined = match op {
            Op::Put(byte) => self.write(char::from(byte)),
            Op::Write(character) => self.write(character),
            Op::Repeat(byte, count) => self.repeat(byte, count),
            _ => self.change(profile, op),
        };
        if is_defined { Ok(()) } else { Err(Undefined) }
    }

    /// The number of rows and columns.
    pub fn size(&self) -> Size
        ensures rows { result.rows ≡ self.now.rows }
        ensures columns { result.columns ≡ self.now.columns }
        ensures terminal { IsTerminal self.now }
    {
        Size {
            rows: self.grid.rows(),
            columns: self.grid.columns(),
        }
    }

    /// The look at a row and a column, which count from 0 at the top left.
    pub fn cell(&self, row: u32, column: u32) -> Look
        requires { IsPlace self.now.rows self.now.columns (row, column) }
        ensures value { (other : LookView) → result ≡ grid_at other self.now.state.grid row column }
        ensures look { IsLook result }
    {
        let look = self.grid.at(row, column);
        let _code = look.code();
        look
    }

    /// The looks of a row, from the left; rows count from 0 at the top.
    pub fn row(&self, row: u32) -> &[Look]
        requires { row < self.now.rows }
        ensures cells { result.now ≡ grid_row self.now.state.grid row }
        ensures width { length result.now ≡ self.now.columns }
    {
        self.grid.row(row)
    }

    /// Where the cursor is.
    pub fn spot(&self) -> Spot
        ensures value { result ≡ self.now.state.spot }
        ensures inside { IsSpot self.now.rows self.now.columns result }
    {
        self.spot
    }

    /// The pen: the attributes that are on, and the current colours.
    pub fn pen(&self) -> Pen
        ensures value { result ≡ self.now.state.pen }
        ensures shown { IsShownPen (full_abilities Utf8 self.now.rows self.now.columns) result }
    {
        self.pen
    }

    /// The attributes that are on.
    pub fn attrs(&self) -> Attrs
        ensures value { result.0 ≡ self.now.state.pen.attrs }
        ensures shown { bit_and every_attribute result.0 ≡ result.0 }
    {
        self.pen.attrs()
    }

    /// The current foreground and background, each `None` if it is the default.
    pub fn colours(&self) -> (Option<u8>, Option<u8>)
        ensures foreground { result.0 ≡ self.now.state.pen.foreground }
        ensures background { result.1 ≡ self.now.state.pen.background }
    {
        (self.pen.foreground(), self.pen.background())
    }
}
