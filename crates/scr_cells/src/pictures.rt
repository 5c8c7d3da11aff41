//! Pictures: what a screen is to show.
ghost use Rattle.std.specs.Prelude.{◌≡◌, ◌↔◌, ◌+◌, ◌-◌, ◌<◌, ◌≤◌, All, Some, length, slice_set, IfOk, IfSome, IsSome};
ghost use Rattle.std.specs.Option.{ForSome};
ghost use Rattle.scr_cells.specs.CellViews.{IsCell, IsPair};
ghost use Rattle.scr_cells.specs.Grids.{grid_row, grid_with, grid_with_run};
ghost use Rattle.scr_cells.specs.LookViews.{seen_pen};
ghost use Rattle.scr_cells.specs.PenViews.{IsColour, first_pairs, pair_colours};
ghost use Rattle.scr_cells.specs.PictureViews.{AreColours, IsPicture, IsPlace, blank_picture};

use crate::{Attrs, Cell, Grid, NoMemory, Pen, Size, grid_laws};
use std::alloc::Global;
use std::marker::Model;

/// The cells that a screen is to show, the colours of their pairs, and where its cursor is wanted (X/Open Curses Issue
/// 7, 'Screens, Windows and Terminals' and 'Color'; curs_refresh(3X), 'virtual screen').
#[derive(Drop)]
pub struct Picture {
    grid: Grid<Cell>,
    wish: Option<(u32, u32)>,
    // The foreground and the background of each pair, from pair 1 on; `None` is the terminal's default.
    pairs: [(Option<u8>, Option<u8>); 63],
}

impl Model for Picture {
    ghost use Rattle.scr_cells.specs.PictureViews.{PictureView, IsPicture};

    ghost Value = { PictureView };

    ghost view = { λ a. record { rows = a.grid.rows; columns = a.grid.columns; lines = a.grid.lines; wish = a.wish; pairs = a.pairs } };

    ghost invariant = { λ a. IsPicture (record { rows = a.grid.rows; columns = a.grid.columns; lines = a.grid.lines; wish = a.wish; pairs = a.pairs }) };
}

impl Picture {
    /// Makes a picture of blanks, with no place where the cursor is wanted, and each pair colour 7 on colour 0. Fails
    /// only when memory runs out.
    pub fn new(alloc: Global, size: Size) -> Result<Picture, NoMemory>
        ensures { IfOk result (λ picture. picture ≡ blank_picture size.rows size.columns) }
    {
        grid_laws::<Cell>();
        Ok(Picture {
            grid: Grid::new(alloc, size.rows, size.columns, Cell::blank())?,
            wish: None,
            pairs: first_pairs(),
        })
    }

    /// How many rows and columns there are.
    pub fn size(&self) -> Size
        ensures rows { result.rows ≡ self.now.rows }
        ensures columns { result.columns ≡ self.now.columns }
        ensures picture { IsPicture self.now }
    {
        Size {
            rows: self.grid.rows(),
            columns: self.grid.columns(),
        }
    }

    /// The cells of a row, counted from 0 at the top; the picture has this row.
    pub fn row(&self, row: u32) -> &[Cell]
        requires { row < self.now.rows }
        ensures cells { result.now ≡ grid_row self.now.lines row }
        ensures width { length result.now ≡ self.now.columns }
    {
        self.grid.row(row)
    }

    /// Puts a cell in the place at a row and a column of the picture. Nothing else changes.
    pub fn put(&mut self, row: u32, column: u32, cell: Cell)
        requires { IsPlace self.old.rows self.old.columns (row, column) }
        ensures { self.new ≡ record self.old { lines = grid_with self.old.lines row column cell } }
    {
        let _pair = cell.pair();
        self.grid.put(row, column, cell);
    }

    /// Puts cells next to one another into a row, from a column on; they fit in the row. Nothing else changes.
    pub fn put_row(&mut self, row: u32, column: u32, cells: &[Cell])
        requires row { row < self.old.rows }
        requires end { column + length cells.now ≤ self.old.columns }
        ensures { self.new ≡ record self.old { lines = grid_with_run self.old.lines row column cells.now } }
    {
        each_is_cell(cells);
        self.grid.lay(row, column, cells);
    }

    /// The row and the column where the cursor is wanted; `None` if it is wanted nowhere in particular.
    pub fn wish(&self) -> Option<(u32, u32)>
        ensures wish { result ≡ self.now.wish }
        ensures inside { IfSome result (IsPlace self.now.rows self.now.columns) }
    {
        self.wish
    }

    /// Sets the row and the column where the cursor is wanted, or `None` for nowhere in particular. Nothing else
    /// changes.
    pub fn set_wish(&mut self, wish: Option<(u32, u32)>)
        requires { ForSome wish (IsPlace self.old.rows self.old.columns) }
        ensures { self.new ≡ record self.old { wish = wish } }
    {
        self.wish = wish;
    }

    /// The foreground and the background of a colour pair, each 0 to 7; `None` if the pair is not 1 to 63, or one of its
    /// colours is the terminal's default (X/Open Curses Issue 7, 'pair_content').
    pub fn pair(&self, pair: u32) -> Option<(u8, u8)>
        ensures some { IsSome result ↔ (pair < 64 × IsSome (pair_colours self.now.pairs pair).0 × IsSome (pair_colours self.now.pairs pair).1) }
        ensures colours { IfSome result (λ colours. pair_colours self.now.pairs pair ≡ (Some colours.0, Some colours.1)) }
        ensures fits { IfSome result (λ colours. IsColour colours.0 × IsColour colours.1) }
    {
        match self.pair_of(pair) {
            Some((Some(foreground), Some(background))) => Some((foreground, background)),
            _ => None,
        }
    }

    /// The foreground and the background of a colour pair, each 0 to 7, or `None` for the terminal's default; `None` if
    /// the pair is not 1 to 63.
    pub fn pair_of(&self, pair: u32) -> Option<(Option<u8>, Option<u8>)>
        ensures some { IsSome result ↔ (0 < pair × pair < 64) }
        ensures colours { IfSome result (λ colours. colours ≡ pair_colours self.now.pairs pair) }
        ensures fits { IfSome result AreColours }
    {
        if (1..=Cell::MOST_PAIR).contains(&pair) {
            Some(self.pairs[pair as usize - 1])
        } else {
            None
        }
    }

    /// The pen that a cell is shown with on a terminal that shows these attributes, and colours or none: those of its
    /// attributes that are shown, and the colours of its pair.
    #[inline(always)]
    pub fn seen_pen(&self, cell: Cell, shown: Attrs, colours: bool) -> Pen
        ensures { result ≡ seen_pen shown.0 colours self.now.pairs cell }
    {
        let pen = Pen::plain().with_attrs(Attrs(shown.0 & cell.attrs().0));
        if cell.pair() == 0 || !colours {
            return pen;
        }
        match self.pair_of(cell.pair()) {
            Some((foreground, background)) => {
                pen.with_foreground(foreground).with_background(background)
            }
            None => pen,
        }
    }

    /// Sets the foreground and the background of a colour pair. The pair is 1 to 63, and each colour 0 to 7. Nothing
    /// else changes (X/Open Curses Issue 7, 'init_pair').
    pub fn set_pair(&mut self, pair: u32, foreground: u8, background: u8)
        requires some { 0 < pair }
        requires pair { IsPair pair }
        requires foreground { IsColour foreground }
        requires background { IsColour background }
        ensures { self.new ≡ record self.old { pairs = slice_set self.old.pairs (pair - 1) (Some foreground, Some background) } }
    {
        self.set_pair_of(pair, Some(foreground), Some(background));
    }

    /// Sets the foreground and the background of a colour pair. The pair is 1 to 63, and each colour 0 to 7, or `None`
    /// for the terminal's default. Nothing else changes.
    pub fn set_pair_of(&mut self, pair: u32, foreground: Option<u8>, background: Option<u8>)
        requires some { 0 < pair }
        requires pair { IsPair pair }
        requires colours { AreColours (foreground, background) }
        ensures { self.new ≡ record self.old { pairs = slice_set self.old.pairs (pair - 1) (foreground, background) } }
    {
        self.pairs[pair as usize - 1] = (foreground, background);
    }
}

// The colours of each pair at first, from pair 1 on: white on black.
#[tactic(auto, unfolding(crate::specs::PenViews::first_pairs))]
fn first_pairs() -> [(Option<u8>, Option<u8>); 63]
    ensures value { result ≡ first_pairs }
    ensures len { length result ≡ 63 }
    ensures colours { All AreColours result }
{
    [(Some(7), Some(0)); 63]
}

// What holds for every cell holds for each of these. The loop is for the proof alone, which learns what holds for a
// cell from a call on it. It does nothing, and LLVM leaves it out.
fn each_is_cell(cells: &[Cell])
    ensures { All IsCell cells.now }
{
    for cell in cells {
        let _pair = cell.pair();
    }
}
