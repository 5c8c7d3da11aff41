//! Characters of a row that are the same, one after another: they are sent as one that is repeated, where that takes
//! fewer bytes.

use crate::drafts::Draft;
use crate::lines::Line;
use crate::scenes::Scene;
use scr_cells::NoMemory;
use scr_term::{Op, Prices, Spot};

// So many characters are shorter as a repetition on every terminal that can repeat a character.
const MANY: u32 = 500;

impl Draft {
    // Adds the characters of a row from the cursor's column to `end`, where the terminal can repeat a character. Those
    // of cells with other attributes or another pair are repeated apart.
    #[inline(never)]
    pub(crate) fn put_or_repeat(
        &mut self,
        scene: &Scene<'_>,
        line: &Line<'_>,
        from: u32,
        end: u32,
    ) -> Result<(), NoMemory> {
        let mut column = from;
        let mut alike = from;
        for _ in from..end {
            if column >= end {
                return Ok(());
            }
            if column >= alike {
                alike = scene.alike_end(line, column, end);
            }
            column = self.put_some(scene, line, column, alike)?;
        }
        Ok(())
    }

    // Adds those that are repeated, or those before the next that are. Returns where to go on.
    fn put_some(
        &mut self,
        scene: &Scene<'_>,
        line: &Line<'_>,
        column: u32,
        end: u32,
    ) -> Result<u32, NoMemory> {
        let same = scene.same_end(line, column, end);
        // What repeats a character into the last column may leave the cursor anywhere.
        let short = same.min(scene.columns.saturating_sub(1));
        let count = short.saturating_sub(column);
        let code = scene.code_of(line.cell(column));
        if is_repetition(scene.prices, count) && code < 128 {
            let op = Op::Repeat(code as u8, count);
            if scene.profile.has(op) {
                self.ops.push(op)?;
                self.spot = Spot::At(line.row, short);
                return Ok(short);
            }
        }
        let next = scene.repetition_start(line, same, end);
        self.put_each(scene, line, column, next)?;
        Ok(next)
    }
}

impl Scene<'_> {
    // Whether the terminal can repeat a character.
    #[inline(always)]
    pub(crate) fn repeats_many(&self) -> bool {
        is_repetition(self.prices, MANY)
    }

    // The first column after `column` of whose cell another character is seen; `end` if there is none before it.
    fn same_end(&self, line: &Line<'_>, column: u32, end: u32) -> u32 {
        let code = self.code_of(line.cell(column));
        for next in column..end {
            if self.code_of(line.cell(next)) != code {
                return next;
            }
        }
        end
    }

    // The first column from `from` on where characters begin that are worth a repetition; `end` if there is none before
    // it.
    fn repetition_start(&self, line: &Line<'_>, from: u32, end: u32) -> u32 {
        let mut start = from;
        for _ in from..end {
            if start >= end {
                return end;
            }
            let next = self.same_end(line, start, end);
            if is_repetition(self.prices, next.saturating_sub(start)) {
                return start;
            }
            start = next;
        }
        end
    }
}

// Whether a character that is repeated so often has fewer bytes than as many characters.
#[inline(always)]
fn is_repetition(prices: &Prices, count: u32) -> bool {
    count > 1 && prices.of(Op::Repeat(b'-', count)) < count
}
