//! Rows over blanks: whether they are seen blank, and what they cost.
//!
//! There are two prices of a row over blanks. One counts the bytes of its characters, and has one motion
//! for all of them: it is exact where the row is one stretch, and too low by a motion, or by the blanks between,
//! for each stretch more. Shifts are compared by it. The other looks for the stretches: runs cost that
//! much if pens and motions are about as usual. Erasures are compared by it, of which many gain little.
ghost use Rattle.std.specs.Prelude.{◌<◌, ◌≤◌, length};

use crate::scenes::Scene;
use scr_cells::{Cell, Pen};

// The code of a blank.
pub(crate) const BLANK: u32 = 32;

// Whether cells are all seen blank: as blanks without attributes, in default colours.
pub(crate) fn is_blank(scene: &Scene<'_>, cells: &[Cell]) -> bool {
    for cell in cells {
        if !is_blank_cell(scene, *cell) {
            return false;
        }
    }
    true
}

// Whether a cell is seen blank.
fn is_blank_cell(scene: &Scene<'_>, cell: Cell) -> bool {
    cell == Cell::blank() || cell.code() == BLANK && scene.pen_of(cell).is_plain()
}

impl Scene<'_> {
    // The price of a row over a blank one: the characters of its places that are not blank, plus an
    // easy motion if there are any.
    pub(crate) fn price_of_row(&self, row: u32) -> u32 {
        let mut places = 0u32;
        let mut unsure = 0u32;
        let cells = self.cells(row);
        for cell in cells {
            let is_other = *cell != Cell::blank();
            places = places.wrapping_add(u32::from(is_other));
            unsure = unsure.wrapping_add(u32::from(is_other & (cell.code() == BLANK)));
        }
        if unsure > 0 {
            places = places.saturating_sub(self.blanks_among(cells));
        }
        if places == 0 {
            return 0;
        }
        places
            .saturating_add(self.extra_of(cells))
            .saturating_add(self.jump)
    }

    // How many cells look blank, though they are not.
    fn blanks_among(&self, cells: &[Cell]) -> u32 {
        let mut blanks = 0u32;
        for cell in cells {
            if *cell != Cell::blank() && cell.code() == BLANK && self.pen_of(*cell).is_plain() {
                blanks = blanks.saturating_add(1);
            }
        }
        blanks
    }
}

// The least that the cells of a row cost over blanks: their characters, plus an easy motion if there
// are any.
pub(crate) fn least_on_blanks(scene: &Scene<'_>, cells: &[Cell]) -> u32 {
    let mut characters = 0u32;
    for cell in cells {
        characters = characters.wrapping_add(u32::from(cell.code() != BLANK));
    }
    if characters == 0 {
        return 0;
    }
    characters
        .saturating_add(scene.extra_of(cells))
        .saturating_add(scene.jump)
}

// The stretches of a row so far: the pen of the last one, the blanks after it, and the price of
// all. A stretch goes on over up to `jump` blanks.
#[derive(Clone, Copy)]
struct Stretches {
    jump: u32,
    pen: Option<Pen>,
    blanks: u32,
    price: u32,
}

impl Stretches {
    // Goes on over `count` blanks, in default colours.
    fn add_blanks(&mut self, count: usize) {
        let count = count.min(u32::MAX as usize) as u32;
        self.blanks = self.blanks.saturating_add(count);
        if self.pen != Some(Pen::plain()) || self.blanks > self.jump {
            self.pen = None;
        }
    }

    // Goes on, or begins another stretch, with `count` places that have one pen, whose characters have
    // so many more bytes.
    fn add(&mut self, pen: Pen, count: usize, extra: u32) {
        let count = count.min(u32::MAX as usize) as u32;
        let before = if self.pen == Some(pen) {
            self.blanks
        } else {
            self.jump
        };
        self.pen = Some(pen);
        self.blanks = 0;
        self.price = self
            .price
            .saturating_add(before)
            .saturating_add(count)
            .saturating_add(extra);
    }
}

// What the cells of a row cost over blanks: its stretches, plus an easy motion for each.
pub(crate) fn price_on_blanks(scene: &Scene<'_>, cells: &[Cell]) -> u32 {
    let mut stretches = Stretches {
        jump: scene.jump,
        pen: None,
        blanks: 0,
        price: 0,
    };
    let mut column = 0;
    while column < cells.len() {
        let blanks_end = blanks_after(cells, column);
        if blanks_end > column {
            stretches.add_blanks(blanks_end - column);
            column = blanks_end;
        } else {
            let end = alike_after(cells, column);
            let pen = scene.pen_of(cells[column]);
            if cells[column].code() == BLANK && pen.is_plain() {
                stretches.add_blanks(end - column);
            } else {
                let extra = scene.extra_of(&cells[column..end]);
                stretches.add(pen, end - column, extra);
            }
            column = end;
        }
    }
    stretches.price
}

// Where the blanks in default colours end that begin in a column; the column itself if it has none.
fn blanks_after(cells: &[Cell], column: usize) -> usize
    requires { column ≤ length cells.now }
    ensures from { column ≤ result }
    ensures end { result ≤ length cells.now }
{
    for after in column..cells.len() {
        if cells[after] != Cell::blank() {
            return after;
        }
    }
    cells.len()
}

// Where the characters, or the blanks, end that begin in a column and have cells like the one
// there.
fn alike_after(cells: &[Cell], column: usize) -> usize
    requires { column < length cells.now }
    ensures from { column < result }
    ensures end { result ≤ length cells.now }
{
    let first = cells[column];
    for after in column + 1..cells.len() {
        let cell = cells[after];
        if !first.has_rendition_of(cell) || (cell.code() == BLANK) != (first.code() == BLANK) {
            return after;
        }
    }
    cells.len()
}
