//! What is remembered of a terminal between updates; `specs/Memories.antt` says what is true of it.
ghost use Rattle.std.specs.Prelude.{◌≡◌, ◌+◌, ◌≤◌, ◌<◌, ◌&&◌, false, true, Some, IfOk, IfSome, length, option_map, replicate, slice_set, take};
ghost use Rattle.std.specs.Option.{is_some};
ghost use Rattle.scr_term.specs.Operations.Profiles.{abilities};
ghost use Rattle.scr_term.specs.Operations.States.{IsSpot};
ghost use Rattle.scr_term.specs.Operations.Steps.{step};
ghost use Rattle.scr_memory.specs.Memories.{IsMemory, all_followed, changes_cells, clears, disturbed, followed, forgotten, has_one_pen, is_known, is_known_row, is_placed, known_from, loses_rows, made_plain, moves_rows, pen_if_known, places_spot, remembered, row_looks, rows_erased, rows_followed, sets_pen, spot_if_known, stepped, unknown};
ghost use Rattle.scr_cells.specs.Grids.{grid_row};
ghost use Rattle.scr_memory.specs.Code.Remembering.{gone_to};
ghost use Rattle.scr_memory.specs.Spares.{are_sure};

use crate::known_rows::{are_all, rows_there, set_all, set_one, set_run};
use scr_cells::{Look, NoMemory, Pen, Size};
use scr_term::{Op, Profile, Spot};
use scr_terminal::Terminal;
use std::alloc::Global;
use std::marker::Model;

/// What is remembered of a terminal between updates (curs_refresh(3X), 'physical screen'): a state that the terminal
/// may be in, and how much of it is known. Each row can be known, and so can the cursor's place and the pen, which is
/// the attributes and colours that it writes with.
///
/// Only `unknown` and `of` allocate. If all is known, following an operation takes time in proportion to the cells that it
/// changes.
#[derive(Drop)]
pub struct Memory {
    pub(crate) terminal: Terminal,
    // For each row, whether what it shows is known.
    pub(crate) rows: Vec<bool>,
    // Whether every row is known.
    pub(crate) all_rows: bool,
    pub(crate) spot: bool,
    pub(crate) pen: bool,
}

impl Model for Memory {
    ghost use Rattle.scr_memory.specs.Memories.{MemoryView};
    ghost use Rattle.scr_memory.specs.Code.Remembering.{IsKept};

    ghost Value = { MemoryView };

    ghost view = { λ a. record { rows = a.terminal.rows; columns = a.terminal.columns; state = a.terminal.state; known_rows = a.rows.items; known_spot = a.spot; known_pen = a.pen } };

    ghost invariant = { λ a. IsKept (record { rows = a.terminal.rows; columns = a.terminal.columns; state = a.terminal.state; known_rows = a.rows.items; known_spot = a.spot; known_pen = a.pen }) a.all_rows };
}

impl Memory {
    /// Memory of a terminal of this size of which nothing is known. Fails only when memory runs out.
    pub fn unknown(alloc: Global, size: Size) -> Result<Memory, NoMemory>
        ensures { IfOk result (λ memory. memory ≡ unknown size.rows size.columns) }
    {
        let terminal = Terminal::new(alloc, size)?;
        let _size = terminal.size();
        let mut rows = Vec::with_capacity(alloc, size.rows as usize)?;
        rows.resize(size.rows as usize, false)?;
        Ok(Memory {
            terminal,
            rows,
            all_rows: false,
            spot: false,
            pen: false,
        })
    }

    /// Memory of a terminal of which all is known: it shows what this one shows. Fails only when memory runs out.
    pub fn of(alloc: Global, terminal: Terminal) -> Result<Memory, NoMemory>
        ensures { IfOk result (λ memory. memory ≡ remembered terminal.rows terminal.columns terminal.state) }
    {
        let size = terminal.size();
        let mut rows = Vec::with_capacity(alloc, size.rows as usize)?;
        rows.resize(size.rows as usize, true)?;
        Ok(Memory {
            terminal,
            rows,
            all_rows: true,
            spot: true,
            pen: true,
        })
    }

    /// Memory of the same, with the same known of it. Fails only when memory runs out.
    pub fn try_clone(&self, alloc: Global) -> Result<Memory, NoMemory>
        ensures { IfOk result (λ memory. memory ≡ self.now) }
    {
        let _size = self.size();
        Ok(Memory {
            terminal: self.terminal.try_clone(alloc)?,
            rows: Vec::from_slice(alloc, &self.rows)?,
            all_rows: self.all_rows,
            spot: self.spot,
            pen: self.pen,
        })
    }

    /// The number of rows and columns of the terminal.
    pub fn size(&self) -> Size
        ensures rows { result.rows ≡ self.now.rows }
        ensures columns { result.columns ≡ self.now.columns }
        ensures memory { IsMemory self.now }
    {
        self.terminal.size()
    }

    /// Whether all is known: every row, the cursor's place and the pen.
    pub fn known(&self) -> bool
        ensures { result ≡ is_known self.now }
    {
        self.all_rows && self.spot && self.pen
    }

    /// The looks of a row, counted from 0 at the top; `None` if they are not known.
    pub fn row(&self, row: u32) -> Option<&[Look]>
        requires { row < self.now.rows }
        ensures looks { option_map (λ looks. looks.now) result ≡ row_looks self.now row }
        ensures width { IfSome result (λ looks. length looks.now ≡ self.now.columns) }
    {
        if self.rows[row as usize] {
            Some(self.terminal.row(row))
        } else {
            None
        }
    }

    /// Whether a row, counted from 0 at the top, is known.
    pub fn is_known_row(&self, row: u32) -> bool
        requires { row < length self.now.known_rows }
        ensures { result ≡ is_known_row self.now row }
    {
        self.rows[row as usize]
    }

    /// The looks of a row in the remembered state, known or not.
    pub fn looks(&self, row: u32) -> &[Look]
        requires { row < self.now.rows }
        ensures cells { result.now ≡ grid_row self.now.state.grid row }
        ensures width { length result.now ≡ self.now.columns }
    {
        self.terminal.row(row)
    }

    /// Whether the cursor is known to be where it is wanted, as a row and a column, or may be anywhere.
    pub fn is_placed(&self, wish: Option<(u32, u32)>) -> bool
        ensures { result ≡ is_placed self.now wish }
    {
        match wish {
            Some((row, column)) => self.spot && self.terminal.spot() == Spot::At(row, column),
            None => true,
        }
    }

    /// Where the cursor is; `None` if that is not known.
    pub fn spot(&self) -> Option<Spot>
        ensures value { result ≡ spot_if_known self.now }
        ensures inside { IfSome result (IsSpot self.now.rows self.now.columns) }
    {
        if self.spot {
            Some(self.terminal.spot())
        } else {
            None
        }
    }

    /// The pen: attributes and colours; `None` if it is not known.
    pub fn pen(&self) -> Option<Pen>
        ensures { result ≡ pen_if_known self.now }
    {
        if self.pen {
            Some(self.terminal.pen())
        } else {
            None
        }
    }

    /// The cursor's spot in the remembered state, known or not.
    pub fn remembered_spot(&self) -> Spot
        ensures { result ≡ self.now.state.spot }
    {
        self.terminal.spot()
    }

    /// The pen of the remembered state, known or not.
    pub fn remembered_pen(&self) -> Pen
        ensures { result ≡ self.now.state.pen }
    {
        self.terminal.pen()
    }

    /// Forgets everything, as after a failed write.
    pub fn forget(&mut self)
        ensures { self.new ≡ forgotten self.old }
    {
        self.set_rows(false);
        self.forget_spot_and_pen();
    }

    /// Forgets `n` rows from `first` on (as many as there are), the cursor's spot and the pen, because others wrote
    /// there. X/Open Curses Issue 7, redrawwin().
    pub fn disturb(&mut self, first: u32, n: u32)
        ensures { self.new ≡ disturbed first n self.old }
    {
        let size = self.terminal.size();
        let (from, end) = rows_there(first, n, size.rows);
        set_run(&mut self.rows, from as usize, end as usize, false);
        self.all_rows = are_all(&self.rows);
        self.forget_spot_and_pen();
    }

    /// Follows an operation that was sent to the terminal. If it is defined from the remembered state, that state takes
    /// its step, and what the operation makes the same from every state becomes known. Otherwise everything is
    /// forgotten.
    ///
    /// The profile has the terminal's size.
    pub fn follow(&mut self, profile: &Profile, op: Op)
        requires rows { profile.now.rows ≡ self.old.rows }
        requires columns { profile.now.columns ≡ self.old.columns }
        ensures { self.new ≡ followed profile.now op self.old }
    {
        if self.step(profile, op) {
            self.learn(profile, op);
        } else {
            self.forget();
        }
    }

    /// Follows operations that were sent to the terminal, one after another. The profile has the terminal's size.
    pub fn follow_all(&mut self, profile: &Profile, ops: &[Op])
        requires rows { profile.now.rows ≡ self.old.rows }
        requires columns { profile.now.columns ≡ self.old.columns }
        ensures { self.new ≡ all_followed profile.now ops.now self.old }
    {
        let mut done = 0;
        while done < ops.len() {
            done += self.follow_next(profile, &ops[done..]);
        }
    }

    // Follows the characters that `ops` begins with and that fit in one row, or one operation. Returns how many.
    fn follow_next(&mut self, profile: &Profile, ops: &[Op]) -> usize
        requires some { 0 < length ops.now }
        requires rows { profile.now.rows ≡ self.old.rows }
        requires columns { profile.now.columns ≡ self.old.columns }
        ensures some { 0 < result }
        ensures inside { result ≤ length ops.now }
        ensures followed { self.new ≡ all_followed profile.now (take result ops.now) self.old }
    {
        if self.spot && self.pen {
            let characters = self.follow_characters(profile, ops);
            if characters > 0 {
                return characters;
            }
        }
        self.follow(profile, ops[0]);
        1
    }

    // Follows the leading characters of `ops` that fit in the cursor's row, and returns how many. What is known stays
    // the same.
    pub(crate) fn follow_characters(&mut self, profile: &Profile, ops: &[Op]) -> usize
        requires rows { profile.now.rows ≡ self.old.rows }
        requires columns { profile.now.columns ≡ self.old.columns }
        requires spot { self.old.known_spot ≡ true }
        requires pen { self.old.known_pen ≡ true }
        ensures inside { result ≤ length ops.now }
        ensures sure { are_sure profile.now (take result ops.now) self.old ≡ true }
        ensures followed { self.new ≡ all_followed profile.now (take result ops.now) self.old }
    {
        let count = self.terminal.step_characters(profile, ops);
        let _size = self.terminal.size();
        count
    }

    // Steps the remembered state by an operation; if that is undefined, returns false and changes nothing.
    pub(crate) fn step(&mut self, profile: &Profile, op: Op) -> bool
        requires rows { profile.now.rows ≡ self.old.rows }
        requires columns { profile.now.columns ≡ self.old.columns }
        ensures answer { result ≡ is_some (step profile.now self.old.state op) }
        ensures state { self.new ≡ gone_to self.old (step profile.now self.old.state op) }
    {
        let is_defined = self.terminal.step(profile, op).is_ok();
        let _size = self.terminal.size();
        is_defined
    }

    // Forgets the cursor's spot and the pen, which is the plain one then, since every terminal can have that.
    fn forget_spot_and_pen(&mut self)
        ensures { self.new ≡ record self.old { state = made_plain self.old.state; known_spot = false; known_pen = false } }
    {
        self.terminal.make_plain();
        let _size = self.terminal.size();
        self.spot = false;
        self.pen = false;
    }

    // Updates what is known, after an operation that was defined and led to the remembered state.
    pub(crate) fn learn(&mut self, profile: &Profile, op: Op)
        ensures { self.new ≡ stepped (abilities profile.now) op self.old (Some self.old.state) }
    {
        self.learn_rows(op);
        self.spot = self.spot || places_spot(op);
        self.pen = self.pen || sets_pen(op) || has_one_pen(profile);
    }

    // Updates which rows are known, after an operation that was defined and led to the remembered state.
    fn learn_rows(&mut self, op: Op)
        ensures { self.new ≡ record self.old { known_rows = rows_followed op self.old self.old.state } }
    {
        if clears(op) {
            self.know_rows();
        } else if self.loses_rows(op) {
            self.set_rows(false);
        } else {
            self.learn_erased(op);
        }
    }

    // Whether no row is known after an operation, since what it changed or moved is not known.
    fn loses_rows(&self, op: Op) -> bool
        ensures { result ≡ loses_rows op self.now }
    {
        (changes_cells(op) && !(self.spot && self.pen)) || (moves_rows(op) && !self.known())
    }

    // Rows that were erased from the first column on become known: the cursor's, or it and all below it.
    fn learn_erased(&mut self, op: Op)
        ensures { self.new ≡ record self.old { known_rows = rows_erased op self.old.state.spot self.old.known_rows } }
    {
        let Spot::At(row, 0) = self.terminal.spot() else {
            return;
        };
        match op {
            Op::EraseLine => self.know_row(row),
            Op::EraseBelow => self.know_rows_from(row),
            _ => {}
        }
    }

    // A row becomes known; if all were, there is nothing to do.
    fn know_row(&mut self, row: u32)
        ensures { self.new ≡ record self.old { known_rows = slice_set self.old.known_rows row true } }
    {
        if self.all_rows {
            return;
        }
        set_one(&mut self.rows, row as usize);
        self.all_rows = are_all(&self.rows);
    }

    // The rows from one on become known; if all were, there is nothing to do.
    fn know_rows_from(&mut self, row: u32)
        ensures { self.new ≡ record self.old { known_rows = known_from row self.old.known_rows } }
    {
        if self.all_rows {
            return;
        }
        let size = self.terminal.size();
        let from = row.min(size.rows);
        set_run(&mut self.rows, from as usize, size.rows as usize, true);
        self.all_rows = are_all(&self.rows);
    }

    // Every row becomes known; if all were, there is nothing to do.
    pub(crate) fn know_rows(&mut self)
        ensures { self.new ≡ record self.old { known_rows = replicate (length self.old.known_rows) true } }
    {
        if !self.all_rows {
            self.set_rows(true);
        }
    }

    // Every row becomes known, or none is.
    fn set_rows(&mut self, known: bool)
        ensures { self.new ≡ record self.old { known_rows = replicate (length self.old.known_rows) known } }
    {
        set_all(&mut self.rows, known);
        self.all_rows = known;
    }
}

// Whether an operation leaves the cursor in the same place wherever it was before.
pub(crate) fn places_spot(op: Op) -> bool
    ensures { result ≡ places_spot op }
{
    matches!(op, Op::Home | Op::Move(..) | Op::Clear)
}

// Whether an operation leaves the same attributes and colours whatever they were before.
fn sets_pen(op: Op) -> bool
    ensures { result ≡ sets_pen op }
{
    matches!(op, Op::Reset | Op::Set(_))
}

// Whether an operation changes cells where the cursor is.
fn changes_cells(op: Op) -> bool
    ensures { result ≡ changes_cells op }
{
    matches!(
        op,
        Op::EraseLine
            | Op::EraseBelow
            | Op::EraseChars(_)
            | Op::InsertChars(_)
            | Op::DeleteChars(_)
            | Op::Put(_)
            | Op::Write(_)
            | Op::Repeat(..)
    )
}

// Whether an operation moves rows.
fn moves_rows(op: Op) -> bool
    ensures { result ≡ moves_rows op }
{
    matches!(
        op,
        Op::InsertLines(_) | Op::DeleteLines(_) | Op::ScrollUp(_) | Op::ScrollDown(_)
    )
}

// Whether an operation makes the whole screen blank.
fn clears(op: Op) -> bool
    ensures { result ≡ clears op }
{
    matches!(op, Op::Clear)
}

// Whether a terminal shows no attribute and no colour.
pub(crate) fn has_one_pen(profile: &Profile) -> bool
    ensures { result ≡ has_one_pen (abilities profile.now) }
{
    profile.shows().0 == 0 && !profile.colours()
}
