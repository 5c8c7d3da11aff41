//! Characters that an emulated terminal writes.
ghost use Rattle.std.specs.Prelude.{◌≡◌, ◌≤◌, is_some, length, take, true};
ghost use Rattle.std.specs.List.{list_all};
ghost use Rattle.scr_cells.specs.Characters.{IsAscii, IsCharacter};
ghost use Rattle.scr_terminal.specs.Characters.{LeavesOthers, characters_ahead, is_character_op};
ghost use Rattle.scr_term.specs.Operations.States.{character_repeated, character_written};
ghost use Rattle.scr_term.specs.Operations.Steps.{runs};
ghost use Rattle.scr_terminal.specs.Code.Writing.{look_of, looks_ahead, looks_written, spot_after};
ghost use Rattle.scr_terminal.specs.Terminals.{gone_on};

use crate::terminal::Terminal;
use scr_cells::{Look, Pen, grid_laws};
use scr_term::{Op, Profile, Spot, look_grid_laws, shown_pen_laws};

impl Terminal {
    /// Writes the characters of ASCII that `ops` begins with, as many as fit in the cursor's row, and
    /// returns their number: for callers that write many. At the margin it writes none.
    pub fn step_characters(&mut self, profile: &Profile, ops: &[Op]) -> usize
        requires columns { profile.now.columns ≡ self.old.columns }
        ensures count { result ≡ characters_ahead self.old.columns self.old.state.spot ops.now }
        ensures inside { result ≤ length ops.now }
        ensures characters { list_all is_character_op (take result ops.now) ≡ true }
        ensures defined { is_some (runs profile.now self.old.state (take result ops.now)) ≡ true }
        ensures state { self.new ≡ gone_on self.old (runs profile.now self.old.state (take result ops.now)) }
        ensures others { LeavesOthers self.old.rows self.old.columns self.old.state.spot result self.old.state.grid self.new.state.grid }
    {
        look_grid_laws();
        grid_laws::<Look>();
        let _size = self.size();
        self.write_ahead(ops)
    }

    /// Writes a character at the cursor, which goes right. At the margin it returns false and
    /// changes nothing.
    pub(crate) fn write(&mut self, character: char) -> bool
        requires { IsCharacter character }
        ensures answer { result ≡ is_some (character_written self.old.columns self.old.state character) }
        ensures state { self.new ≡ gone_on self.old (character_written self.old.columns self.old.state character) }
    {
        match Look::of(character, self.pen) {
            Some(look) => self.lay(look),
            None => false,
        }
    }

    /// Writes a character by its look with the pen, as `write` does.
    pub(crate) fn lay(&mut self, look: Look) -> bool
        requires { look.pen ≡ self.old.state.pen }
        ensures answer { result ≡ is_some (character_written self.old.columns self.old.state look.character) }
        ensures state { self.new ≡ gone_on self.old (character_written self.old.columns self.old.state look.character) }
    {
        let Spot::At(row, column) = self.spot else {
            return false;
        };
        let _code = look.code();
        look_grid_laws();
        self.grid.put(row, column, look);
        self.spot = if column + 1 < self.grid.columns() {
            Spot::At(row, column + 1)
        } else {
            Spot::Margin(row)
        };
        true
    }

    /// Writes a graphic character `count` times at the cursor, which goes behind the last. At the
    /// margin, and where the last column would be written, it returns false and changes nothing.
    pub(crate) fn repeat(&mut self, byte: u8, count: u32) -> bool
        requires character { IsAscii byte }
        requires few { count ≤ 500 }
        ensures answer { result ≡ is_some (character_repeated self.old.columns self.old.state byte count) }
        ensures state { self.new ≡ gone_on self.old (character_repeated self.old.columns self.old.state byte count) }
    {
        let columns = self.grid.columns();
        match (self.spot, Look::written(byte, self.pen)) {
            (Spot::At(row, column), Some(look)) if column + count < columns => {
                let _code = look.code();
                grid_laws::<Look>();
                self.grid.fill(row, column, column + count, look);
                self.spot = Spot::At(row, column + count);
                true
            }
            _ => false,
        }
    }

    // Writes the leading characters of `ops`, as many as fit in the cursor's row, and moves the
    // cursor after them. Returns their number.
    fn write_ahead(&mut self, ops: &[Op]) -> usize
        ensures count { result ≡ length (looks_ahead self.old.columns self.old.state ops.now) }
        ensures state { self.new ≡ record self.old { state = looks_written self.old.columns self.old.state (looks_ahead self.old.columns self.old.state ops.now) self.old.state.spot } }
    {
        let Spot::At(row, column) = self.spot else {
            return 0;
        };
        grid_laws::<Look>();
        shown_pen_laws();
        let columns = self.grid.columns();
        let pen = self.pen;
        let count = self.grid.lay_while(row, column, ops, |op| look_of(op, pen));
        self.spot = spot_after(columns, row, column + count as u32);
        count
    }
}

// The look of a character written with a pen; `None` if the operation writes no character.
fn look_of(op: Op, pen: Pen) -> Option<Look>
    ensures { result ≡ look_of pen op }
{
    match op {
        Op::Put(byte) => Look::written(byte, pen),
        _ => None,
    }
}

// The place at a row and a column, or the margin if the column is after the last.
fn spot_after(columns: u32, row: u32, column: u32) -> Spot
    ensures { result ≡ spot_after columns row column }
{
    if column < columns {
        Spot::At(row, column)
    } else {
        Spot::Margin(row)
    }
}
