//! A row of the picture beside what the terminal shows there: where they differ, and which of its cells are blank.

use crate::blanks::BLANK;
use crate::scenes::Scene;
use scr_cells::{Cell, Look, Pen, alike_before, shown_before, unshown_before};

// A row of a picture: its number, its cells, and what the terminal shows there before, or blanks.
#[derive(Clone, Copy)]
pub(crate) struct Line<'a> {
    pub(crate) row: u32,
    pub(crate) cells: &'a [Cell],
    before: Option<&'a [Look]>,
}

impl<'a> Line<'a> {
    // A row of the picture, and what it shows: `before`, or blanks. `None` if there is no such row, or not a look for
    // each of its places.
    pub(crate) fn of(scene: &Scene<'a>, row: u32, before: Option<&'a [Look]>) -> Option<Line<'a>> {
        let cells = scene.cells(row);
        let looks = match before {
            Some(looks) => looks.len(),
            None => cells.len(),
        };
        if cells.is_empty() || looks != cells.len() {
            return None;
        }
        Some(Line { row, cells, before })
    }

    // The cell in a column; a blank if there is none.
    #[inline(always)]
    pub(crate) fn cell(&self, column: u32) -> Cell {
        match self.cells.get(column as usize) {
            Some(cell) => *cell,
            None => Cell::blank(),
        }
    }

    // Whether the row shows a character with a pen in a column.
    #[inline(always)]
    fn shows(&self, column: u32, code: u32, pen: Pen) -> bool {
        let look = match self.before {
            Some(looks) => match looks.get(column as usize) {
                Some(look) => *look,
                None => Look::blank(),
            },
            None => Look::blank(),
        };
        look.code() == code && look.pen() == pen
    }
}

impl Scene<'_> {
    // The first column in `from..end` in which the row does not show what is seen of its cell; `end` if there is none.
    pub(crate) fn unlike_from(&self, line: &Line<'_>, from: u32, end: u32) -> u32 {
        for column in from.saturating_add(self.shown_by_eight(line, from, end))..end {
            let (code, pen) = self.seen(line.cell(column));
            if !line.shows(column, code, pen) {
                return column;
            }
        }
        end
    }

    // Where a stretch that begins in a place that differs ends: after its last place that differs. It goes on while the
    // pen is the same, over places that do not differ if their characters have at most as many bytes as an easy motion.
    pub(crate) fn stretch_end(&self, line: &Line<'_>, start: u32, end: u32) -> u32 {
        let pen = self.pen_of(line.cell(start));
        let mut after = self.unlike_end(line, start, end);
        for _ in start..end {
            if after >= end {
                return end;
            }
            let limit = end.min(after.saturating_add(self.jump).saturating_add(1));
            let next = self.next_unlike(line, after, limit, pen);
            if next >= limit || self.has_more_bytes(line.cells, after, next, self.jump) {
                return after;
            }
            after = self.unlike_end(line, next, end);
        }
        after
    }

    // The first column from `from` on that differs, if it and all before it are seen with a pen; else `end`.
    fn next_unlike(&self, line: &Line<'_>, from: u32, end: u32, pen: Pen) -> u32 {
        for column in from..end {
            let (code, with) = self.seen(line.cell(column));
            if with != pen {
                return end;
            }
            if !line.shows(column, code, with) {
                return column;
            }
        }
        end
    }

    // The first column after `column` in which the row shows what is seen of its cell, or whose cell has other
    // attributes or another colour pair; `end` if there is none before it.
    fn unlike_end(&self, line: &Line<'_>, column: u32, end: u32) -> u32 {
        let first = line.cell(column);
        let pen = self.pen_of(first);
        let second = column.saturating_add(1);
        if second >= end || self.ends(line, first, second, pen) {
            return second;
        }
        for next in column.saturating_add(self.unlike_by_eight(line, column, end).max(1))..end {
            if self.ends(line, first, next, pen) {
                return next;
            }
        }
        end
    }

    // Whether a place shows what is seen of its cell with a pen, or its cell has other attributes or another colour
    // pair than `first`.
    #[inline(always)]
    fn ends(&self, line: &Line<'_>, first: Cell, column: u32, pen: Pen) -> bool {
        let cell = line.cell(column);
        !first.has_rendition_of(cell) || line.shows(column, self.code_of(cell), pen)
    }

    // The first column after `column` whose cell has other attributes or another colour pair; `end` if there is none
    // before it.
    pub(crate) fn alike_end(&self, line: &Line<'_>, column: u32, end: u32) -> u32 {
        let first = line.cell(column);
        for next in column.saturating_add(alike_by_eight(line.cells, column, end).max(1))..end {
            if !first.has_rendition_of(line.cell(next)) {
                return next;
            }
        }
        end
    }

    // How many places from a column on do not show what is seen of their cells, all with the attributes and pair of the
    // first. They are looked at eight at a time, so the count may be too low.
    fn unlike_by_eight(&self, line: &Line<'_>, from: u32, end: u32) -> u32 {
        let Some(cells) = line.cells.get(from as usize..end as usize) else {
            return 0;
        };
        let Some(looks) = line.before else {
            return unshown_before(None, cells, self.charset, self.shown) as u32;
        };
        match looks.get(from as usize..end as usize) {
            Some(looks) => unshown_before(Some(looks), cells, self.charset, self.shown) as u32,
            None => 0,
        }
    }

    // How many places from a column on show what is seen of their cells. They are looked at eight at a time, so the
    // count may be too low.
    fn shown_by_eight(&self, line: &Line<'_>, from: u32, end: u32) -> u32 {
        let Some(cells) = line.cells.get(from as usize..end as usize) else {
            return 0;
        };
        let Some(looks) = line.before else {
            return shown_before(None, cells, self.charset, self.shown) as u32;
        };
        match looks.get(from as usize..end as usize) {
            Some(looks) => shown_before(Some(looks), cells, self.charset, self.shown) as u32,
            None => 0,
        }
    }

    // Whether a row is seen blank from a column on.
    pub(crate) fn is_blank_from(&self, line: &Line<'_>, from: u32) -> bool {
        for column in from..self.columns {
            let (code, pen) = self.seen(line.cell(column));
            if code != BLANK || !pen.is_plain() {
                return false;
            }
        }
        true
    }

    // The blanks at the end of columns `from..end` of a row: the first and the last of them that differ from what it
    // shows.
    pub(crate) fn blank_rest(&self, line: &Line<'_>, from: u32, end: u32) -> Option<(u32, u32)> {
        let mut rest = None;
        for after in 0..end.saturating_sub(from) {
            let column = end - 1 - after;
            let (code, pen) = self.seen(line.cell(column));
            if code != BLANK || !pen.is_plain() {
                return rest;
            }
            if !line.shows(column, code, pen) {
                rest = match rest {
                    Some((_, last)) => Some((column, last)),
                    None => Some((column, column)),
                };
            }
        }
        rest
    }
}

// How many cells from a column on have the attributes and pair of the first. They are looked at eight at a time, so the
// count may be too low.
fn alike_by_eight(cells: &[Cell], from: u32, end: u32) -> u32 {
    match cells.get(from as usize..end as usize) {
        Some(cells) => alike_before(cells) as u32,
        None => 0,
    }
}
