//! The runs of a row: places that one visit paints with one pen. A row is cut into them from the left, and each place
//! that differs is in one.
ghost use Rattle.std.specs.Iterator.{at_most};

use crate::erasures::{blanks_end, is_worth_erasing, least_worth_erasing, next_blanks};
use crate::lines::Line;
use crate::runs::{How, Run};
use crate::scenes::Scene;
use scr_cells::{Look, NoMemory, Pen};
use smallvec::SmallVec;

// The runs of an update: as many as a small one has take no allocation.
pub(crate) type Runs = SmallVec<Run, FEW_RUNS>;

// How many runs a small update has.
pub(crate) const FEW_RUNS: usize = 2;

// The runs of a row, from the left: those of a cut, of which there are at most `left`.
#[derive(Drop)]
pub(crate) struct CutRuns<'a> {
    cut: Cut<'a>,
    left: u32,
}

impl Iterator for CutRuns<'_> {
    type Item = Run;

    ghost remaining = { λ runs. at_most runs.left };

    fn next(&mut self) -> Option<Run> {
        if self.left == 0 {
            return None;
        }
        self.left -= 1;
        self.cut.next_run()
    }
}

impl<'a> CutRuns<'a> {
    // The runs of a row's columns from the first of two up to the second; `None` if none of these differs from what the
    // row shows.
    pub(crate) fn of(
        scene: &'a Scene<'a>,
        line: &Line<'a>,
        columns: (u32, u32),
    ) -> Option<CutRuns<'a>> {
        let (from, last) = columns;
        let column = scene.unlike_from(line, from, last);
        if column >= last {
            return None;
        }
        Some(CutRuns::begun(scene, line, (column, last)))
    }

    // The runs of a row's columns from the first of two, which differs, up to the second.
    fn begun(scene: &'a Scene<'a>, line: &Line<'a>, columns: (u32, u32)) -> CutRuns<'a> {
        CutRuns {
            cut: Cut::begun(scene, line, columns),
            left: columns.1,
        }
    }
}

// A row that is being cut: the next run begins in `column` or after it. Up to `stretch` the columns belong to a stretch
// that was begun, up to `end` stretches are searched, and from there to `last` the rest of the row is to be erased.
#[derive(Clone, Copy)]
struct Cut<'a> {
    scene: &'a Scene<'a>,
    line: Line<'a>,
    column: u32,
    stretch: u32,
    end: u32,
    last: u32,
}

impl<'a> Cut<'a> {
    // The cut of a row's columns from the first of two, which differs, up to the second.
    fn begun(scene: &'a Scene<'a>, line: &Line<'a>, columns: (u32, u32)) -> Cut<'a> {
        let (column, last) = columns;
        let end = scene.erased_rest(line, column, last).unwrap_or(last);
        let stretch = if column < end {
            scene.stretch_end(line, column, end)
        } else {
            column
        };
        Cut {
            scene,
            line: *line,
            column,
            stretch,
            end,
            last,
        }
    }

    // Cuts off the next run, if there is one.
    fn next_run(&mut self) -> Option<Run> {
        if self.column >= self.stretch && !self.find_stretch() {
            return self.rest();
        }
        let pen = self.scene.pen_of(self.line.cell(self.column));
        Some(if pen.is_plain() {
            self.piece()
        } else {
            self.whole(pen)
        })
    }

    // Goes to the next stretch, if there is one.
    fn find_stretch(&mut self) -> bool {
        let start = self.scene.unlike_from(&self.line, self.column, self.end);
        if start >= self.end {
            return false;
        }
        self.column = start;
        self.stretch = self.scene.stretch_end(&self.line, start, self.end);
        true
    }

    // Cuts off the rest of the row, if it is to be erased.
    fn rest(&mut self) -> Option<Run> {
        if self.end >= self.last {
            return None;
        }
        let run = Run {
            row: self.line.row,
            start: self.end,
            end: self.scene.columns,
            pen: Pen::plain(),
            how: How::EraseLine,
        };
        self.column = self.last;
        self.stretch = self.last;
        self.end = self.last;
        Some(run)
    }

    // Cuts off all of a stretch, which is written with a pen.
    fn whole(&mut self, pen: Pen) -> Run {
        self.up_to(self.stretch, pen, How::Write)
    }

    // Cuts off the next run of a stretch with a plain pen: long blanks are erased, what is between them is written.
    fn piece(&mut self) -> Run {
        let Some((first, after)) = self.blanks_to_erase() else {
            return self.whole(Pen::plain());
        };
        if self.column < first {
            return self.up_to(first, Pen::plain(), How::Write);
        }
        self.up_to(after, Pen::plain(), How::EraseChars)
    }

    // Cuts off what is left up to a column.
    fn up_to(&mut self, end: u32, pen: Pen, how: How) -> Run {
        let start = self.column;
        self.column = end;
        Run {
            row: self.line.row,
            start,
            end,
            pen,
            how,
        }
    }

    // The first blanks of a stretch that are worth an erasure, if there are any.
    fn blanks_to_erase(&self) -> Option<(u32, u32)> {
        let many = least_worth_erasing(self.scene.prices);
        let mut column = self.column;
        for _ in self.column..self.stretch {
            let (first, blank) = next_blanks(&self.line, column, self.stretch, many)?;
            let after = blanks_end(&self.line, blank, self.stretch);
            let count = after.saturating_sub(first);
            if is_worth_erasing(self.scene.prices, count, after < self.stretch) {
                return Some((first, after));
            }
            column = after.max(blank.saturating_add(1));
        }
        None
    }
}

impl Scene<'_> {
    // Adds the runs of the places of a row that differ from what it shows, `before` or blanks, from the first of two
    // columns up to the second.
    pub(crate) fn add_row(
        &self,
        row: u32,
        before: Option<&[Look]>,
        columns: (u32, u32),
        runs: &mut Runs,
    ) -> Result<(), NoMemory> {
        let Some(line) = Line::of(self, row, before) else {
            return Ok(());
        };
        match CutRuns::of(self, &line, columns) {
            Some(found) => add_all(found, runs),
            None => Ok(()),
        }
    }

    // Adds these runs where the first of the columns differs.
    pub(crate) fn add_from(
        &self,
        row: u32,
        before: Option<&[Look]>,
        columns: (u32, u32),
        runs: &mut Runs,
    ) -> Result<(), NoMemory> {
        let Some(line) = Line::of(self, row, before) else {
            return Ok(());
        };
        add_all(CutRuns::begun(self, &line, columns), runs)
    }

    // Adds the runs of all places in the rows from `first` on that are not seen blank.
    pub(crate) fn add_rows(&self, first: u32, runs: &mut Runs) -> Result<(), NoMemory> {
        for row in first..self.rows {
            self.add_row(row, None, (0, self.columns), runs)?;
        }
        Ok(())
    }
}

// Adds the runs of a row.
fn add_all(found: CutRuns<'_>, runs: &mut Runs) -> Result<(), NoMemory> {
    for run in found {
        runs.push(run)?;
    }
    Ok(())
}

// The least room for operations. Lists of one size are taken from where the last one was given back; a smaller one took
// the allocator's slow way on screens of some sizes.
const LEAST_ROOM: usize = 16;

// Room for the operations of runs: their characters, and what usually leads to each.
pub(crate) fn room_for(runs: &[Run]) -> usize {
    let mut room = 4usize;
    for run in runs {
        room = room.saturating_add(run.end.saturating_sub(run.start) as usize + 4);
    }
    room.max(LEAST_ROOM)
}
