//! What operations change on an emulated terminal, other than the characters that they write.
ghost use Rattle.std.specs.Prelude.{◌≡◌, ◌≢◌, ◌+◌, ◌≤◌, ◌<◌, ℕ, IsTrue, is_some, option_map};
ghost use Rattle.std.specs.Option.{ForSome};
ghost use Rattle.scr_cells.specs.Grids.{grid_at, grid_filled, grid_of, is_in_run, places_left, places_right, rows_down, rows_up};
ghost use Rattle.scr_cells.specs.LookViews.{blank};
ghost use Rattle.scr_cells.specs.PenViews.{plain_pen};
ghost use Rattle.scr_term.specs.declared.operations.operation.Op.TheVariants.{Put, Write, Repeat};
ghost use Rattle.scr_term.specs.Operations.States.{is_from_place};
ghost use Rattle.scr_term.specs.Operations.Steps.{act};
ghost use Rattle.scr_term.specs.Operations.Texts.{has};
ghost use Rattle.scr_terminal.specs.Code.Changes.{IsChange, changed};
ghost use Rattle.scr_terminal.specs.Terminals.{gone_on};

use crate::changes::Change;
use crate::steps::change_of;
use crate::terminal::Terminal;
use scr_cells::{Grid, Look, Pen, grid_laws};
use scr_term::{Op, Profile, Spot, look_grid_laws, shown_pen_laws};

impl Terminal {
    /// Turns attributes off and makes the colours default, whatever the terminal has for it.
    pub fn make_plain(&mut self)
        ensures { self.new ≡ record self.old { state = record self.old.state { pen = plain_pen } } }
    {
        shown_pen_laws();
        self.make(Change::Rendered(Pen::plain()));
    }

    /// Makes a change.
    pub(crate) fn make(&mut self, change: Change)
        requires { IsChange self.old.rows self.old.columns change }
        ensures { self.new ≡ record self.old { state = changed self.old.rows self.old.columns self.old.state change } }
    {
        grid_laws::<Look>();
        look_grid_laws();
        match change {
            Change::Moved(spot) => self.spot = spot,
            Change::ErasedRun(row, from, end) => erase_run(&mut self.grid, row, from, end),
            Change::ErasedFrom(row, column) => erase_from(&mut self.grid, row, column),
            Change::ErasedAll => self.grid.fill_every(Look::blank()),
            Change::Cleared => {
                self.grid.fill_every(Look::blank());
                self.spot = Spot::At(0, 0);
            }
            Change::LinesInserted(row, count) => insert_lines(&mut self.grid, row, count),
            Change::LinesDeleted(row, count) => delete_lines(&mut self.grid, row, count),
            Change::CharactersInserted(row, column, count) => {
                insert_characters(&mut self.grid, row, column, count)
            }
            Change::CharactersDeleted(row, column, count) => {
                delete_characters(&mut self.grid, row, column, count)
            }
            Change::Rendered(pen) => self.pen = pen,
        }
    }

    /// Does what an operation means that writes no characters; if that is undefined, returns false and changes nothing.
    pub(crate) fn change(&mut self, profile: &Profile, op: Op) -> bool
        requires has { IsTrue (has profile.now op) }
        requires rows { profile.now.rows ≡ self.old.rows }
        requires columns { profile.now.columns ≡ self.old.columns }
        requires one { (byte : ℕ) → op ≢ Put byte }
        requires written { (code : ℕ) → op ≢ Write code }
        requires several { (byte n : ℕ) → op ≢ Repeat byte n }
        ensures answer { result ≡ is_some (act profile.now self.old.state op) }
        ensures state { self.new ≡ gone_on self.old (act profile.now self.old.state op) }
    {
        let change = change_of(profile, self.spot, self.pen, op);
        self.apply(change)
    }

    // Makes a change; returns false if there is none.
    fn apply(&mut self, change: Option<Change>) -> bool
        requires { ForSome change (IsChange self.old.rows self.old.columns) }
        ensures answer { result ≡ is_some change }
        ensures state { self.new ≡ gone_on self.old (option_map (changed self.old.rows self.old.columns self.old.state) change) }
    {
        match change {
            Some(change) => {
                self.make(change);
                true
            }
            None => false,
        }
    }
}

// Erases columns `from..end` of a row.
fn erase_run(grid: &mut Grid<Look>, row: u32, from: u32, end: u32)
    requires row { row < grid.old.rows }
    requires order { from ≤ end }
    requires end { end ≤ grid.old.columns }
    ensures { grid.new ≡ record grid.old { lines = grid_filled grid.old.rows grid.old.columns (is_in_run row from end) (λ _ _. blank) (grid_at blank grid.old.lines) } }
{
    grid_laws::<Look>();
    let _grid = grid.rows();
    grid.fill(row, from, end, Look::blank());
}

// Erases the places from a row and a column to the end of the screen.
fn erase_from(grid: &mut Grid<Look>, row: u32, column: u32)
    requires row { row < grid.old.rows }
    requires column { column < grid.old.columns }
    ensures { grid.new ≡ record grid.old { lines = grid_filled grid.old.rows grid.old.columns (is_from_place row column) (λ _ _. blank) (grid_at blank grid.old.lines) } }
{
    let (rows, columns) = (grid.rows(), grid.columns());
    grid_laws::<Look>();
    erase_run(grid, row, column, columns);
    let mut below = row + 1;
    while below < rows {
        erase_run(grid, below, 0, columns);
        below += 1;
    }
}

// Inserts blank lines before a row. The last ones are lost.
fn insert_lines(grid: &mut Grid<Look>, row: u32, count: u32)
    requires { row + count ≤ grid.old.rows }
    ensures { grid.new ≡ record grid.old { lines = grid_of grid.old.rows grid.old.columns (rows_down row grid.old.rows count blank (grid_at blank grid.old.lines)) } }
{
    let rows = grid.rows();
    grid.move_rows_down(row, rows, count, Look::blank());
}

// Deletes lines from a row on. As many at the end become blank.
fn delete_lines(grid: &mut Grid<Look>, row: u32, count: u32)
    requires { row + count ≤ grid.old.rows }
    ensures { grid.new ≡ record grid.old { lines = grid_of grid.old.rows grid.old.columns (rows_up row grid.old.rows count blank (grid_at blank grid.old.lines)) } }
{
    let rows = grid.rows();
    grid.move_rows_up(row, rows, count, Look::blank());
}

// Inserts blanks into a row. The last places of the row are lost.
fn insert_characters(grid: &mut Grid<Look>, row: u32, column: u32, count: u32)
    requires row { row < grid.old.rows }
    requires end { column + count ≤ grid.old.columns }
    ensures { grid.new ≡ record grid.old { lines = grid_of grid.old.rows grid.old.columns (places_right row column grid.old.columns count blank (grid_at blank grid.old.lines)) } }
{
    let columns = grid.columns();
    grid.move_places_right(row, column, columns, count, Look::blank());
}

// Deletes characters of a row. As many places at its end become blank.
fn delete_characters(grid: &mut Grid<Look>, row: u32, column: u32, count: u32)
    requires row { row < grid.old.rows }
    requires end { column + count ≤ grid.old.columns }
    ensures { grid.new ≡ record grid.old { lines = grid_of grid.old.rows grid.old.columns (places_left row column grid.old.columns count blank (grid_at blank grid.old.lines)) } }
{
    let columns = grid.columns();
    grid.move_places_left(row, column, columns, count, Look::blank());
}
