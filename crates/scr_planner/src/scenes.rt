//! What an update is planned on: the scene that is painted, and what the terminal shows before.

use crate::cuts::CutRuns;
use crate::lines::Line;
use crate::rows::RowChange;
use crate::shown::slide_into;
use crate::slides::Slide;
use scr_cells::{Attrs, Cell, Charset, Look, NoMemory, Pen, Picture};
use scr_memory::Memory;
use scr_term::{FAR, Prices, Profile};

// What is painted: a picture, on the terminal of a profile, with what choices need to know of both, fetched once.
#[derive(Clone, Copy)]
pub(crate) struct Scene<'a> {
    pub(crate) profile: &'a Profile,
    pub(crate) prices: &'a Prices,
    pub(crate) picture: &'a Picture,
    pub(crate) rows: u32,
    pub(crate) columns: u32,
    pub(crate) charset: Charset,
    pub(crate) shown: Attrs,
    colours: bool,
    pub(crate) can_reset: bool,
    pub(crate) moves_in_any_rendition: bool,
    // The price of an easy motion: what a motion in a row usually costs.
    pub(crate) jump: u32,
}

impl<'a> Scene<'a> {
    // The scene of a picture on the terminal of a profile.
    pub(crate) fn new(profile: &'a Profile, picture: &'a Picture) -> Scene<'a> {
        let prices = profile.prices();
        let size = picture.size();
        Scene {
            profile,
            prices,
            picture,
            rows: size.rows,
            columns: size.columns,
            charset: profile.charset(),
            shown: profile.shows(),
            colours: profile.colours(),
            can_reset: profile.can_reset(),
            moves_in_any_rendition: profile.moves_in_any_rendition(),
            jump: prices.easy_motion(),
        }
    }

    // The cells of a row; none if there is no such row.
    pub(crate) fn cells(&self, row: u32) -> &'a [Cell] {
        if row < self.picture.size().rows {
            self.picture.row(row)
        } else {
            &[]
        }
    }

    // The code of the character that is seen of a cell.
    #[inline(always)]
    pub(crate) fn code_of(&self, cell: Cell) -> u32 {
        self.charset.seen(cell)
    }

    // The pen that a cell is seen with.
    #[inline(always)]
    pub(crate) fn pen_of(&self, cell: Cell) -> Pen {
        self.picture.seen_pen(cell, self.shown, self.colours)
    }

    // What is seen of a cell: the code of a character, and the pen that it is written with. Most cells are blank, and
    // their pen is plain.
    #[inline(always)]
    pub(crate) fn seen(&self, cell: Cell) -> (u32, Pen) {
        if cell == Cell::blank() {
            return (Cell::blank().code(), Pen::plain());
        }
        (self.code_of(cell), self.pen_of(cell))
    }
}

// What an update starts from: the scene that is painted, and what is remembered of the terminal.
#[derive(Clone, Copy)]
pub(crate) struct Update<'a> {
    pub(crate) scene: Scene<'a>,
    pub(crate) memory: &'a Memory,
}

impl<'a> Update<'a> {
    // What a row is remembered to show; nothing if there is no such row.
    pub(crate) fn looks(&self, row: u32) -> &'a [Look] {
        if row < self.memory.size().rows {
            self.memory.looks(row)
        } else {
            &[]
        }
    }

    // Whether a row of looks is just what is wanted in a row.
    pub(crate) fn is_shown(&self, row: u32, looks: &[Look]) -> bool {
        let end = self.scene.columns;
        match Line::of(&self.scene, row, Some(looks)) {
            Some(line) => self.scene.unlike_from(&line, 0, end) >= end,
            None => false,
        }
    }

    // The price of a row over a row of looks: that of its runs as they stand, plus an easy motion for each.
    pub(crate) fn price_over(&self, row: u32, looks: &[Look]) -> u32 {
        self.price_of(row, looks, (0, self.scene.columns))
    }

    // The same of a row that differs, over what it shows.
    pub(crate) fn price_of_change(&self, change: &RowChange) -> u32 {
        self.price_of(
            change.row,
            self.looks(change.row),
            (change.start, change.end),
        )
    }

    // The same over what a row of looks becomes by a slide of its characters, which is put together in `room`.
    pub(crate) fn price_slid(
        &self,
        row: u32,
        looks: &[Look],
        slide: Slide,
        room: &mut Vec<Look>,
    ) -> Result<u32, NoMemory> {
        slide_into(room, looks, slide)?;
        Ok(self.price_over(row, room))
    }

    // The price of the runs of a row's columns over a row of looks.
    fn price_of(&self, row: u32, looks: &[Look], columns: (u32, u32)) -> u32 {
        let Some(line) = Line::of(&self.scene, row, Some(looks)) else {
            return FAR;
        };
        let Some(runs) = CutRuns::of(&self.scene, &line, columns) else {
            return 0;
        };
        let mut price = 0u32;
        for run in runs {
            price = price.saturating_add(self.scene.price_as_it_stands(&run));
        }
        price
    }
}
