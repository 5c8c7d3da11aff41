//! A plan in the making, operation by operation. It follows where the cursor and the pen are: what is undefined there
//! is left out, so a choice that was wrong makes a plan longer.

use crate::lines::Line;
use crate::scenes::Scene;
use crate::ways::{Cursor, Target};
use scr_cells::{Attrs, Cell, NoMemory, Pen};
use scr_term::{Op, Profile, Spot};
use scr_terminal::{moved_by, turned};

// The operations, and where they lead.
#[derive(Drop)]
pub(crate) struct Draft {
    pub(crate) ops: Vec<Op>,
    pub(crate) spot: Spot,
    pub(crate) pen: Pen,
}

impl Draft {
    // Where the cursor is, and its pen.
    pub(crate) fn cursor(&self) -> Cursor {
        Cursor {
            spot: self.spot,
            pen: self.pen,
        }
    }

    // Whether the cursor is in a place.
    #[inline(always)]
    pub(crate) fn is_at(&self, row: u32, column: u32) -> bool {
        self.spot == Spot::At(row, column)
    }

    // Adds an operation that moves neither the cursor nor the pen.
    pub(crate) fn add(&mut self, op: Op) -> Result<(), NoMemory> {
        self.ops.push(op)?;
        Ok(())
    }

    // Adds a motion, if it is defined from here.
    pub(crate) fn go(&mut self, profile: &Profile, op: Op) -> Result<(), NoMemory> {
        if !profile.has(op) {
            return Ok(());
        }
        if let Some(spot) = moved_by(profile, self.spot, self.pen, op) {
            self.ops.push(op)?;
            self.spot = spot;
        }
        Ok(())
    }

    // Adds what turns attributes on or off or sets a colour, if it is defined from here.
    pub(crate) fn turn(&mut self, profile: &Profile, op: Op) -> Result<(), NoMemory> {
        if let Some(pen) = turned(profile, self.spot, self.pen, op) {
            self.ops.push(op)?;
            self.pen = pen;
        }
        Ok(())
    }

    // Turns attributes off and makes colours default, where the terminal can.
    pub(crate) fn reset(&mut self, scene: &Scene<'_>) -> Result<(), NoMemory> {
        if scene.can_reset {
            self.ops.push(Op::Reset)?;
        }
        self.pen = Pen::plain();
        Ok(())
    }

    // Leads to a place with a pen, wherever the cursor is.
    #[inline(never)]
    pub(crate) fn lead(&mut self, scene: &Scene<'_>, to: &Target) -> Result<(), NoMemory> {
        if scene.moves_in_any_rendition {
            self.ops.push(Op::Move(to.row, to.column))?;
            self.reset(scene)?;
        } else {
            self.reset(scene)?;
            self.ops.push(Op::Move(to.row, to.column))?;
        }
        for attribute in &Attrs::EACH {
            if to.pen.attrs().0 & attribute.0 == attribute.0 {
                self.ops.push(Op::Enter(*attribute))?;
            }
        }
        if let Some(colour) = to.pen.foreground() {
            self.ops.push(Op::Fore(colour))?;
        }
        if let Some(colour) = to.pen.background() {
            self.ops.push(Op::Back(colour))?;
        }
        self.spot = Spot::At(to.row, to.column);
        self.pen = to.pen;
        Ok(())
    }

    // Paints columns `from..end` of a row, all of which are seen with the pen of the first.
    pub(crate) fn write(
        &mut self,
        scene: &Scene<'_>,
        row: u32,
        from: u32,
        end: u32,
    ) -> Result<(), NoMemory> {
        let Some(line) = Line::of(scene, row, None) else {
            return Ok(());
        };
        if from >= end {
            return Ok(());
        }
        let pen = scene.pen_of(line.cell(from));
        if !self.is_at(row, from) || self.pen != pen {
            let column = from;
            self.lead(scene, &Target { row, column, pen })?;
        }
        if scene.repeats_many() {
            self.put_or_repeat(scene, &line, from, end)
        } else {
            self.put_each(scene, &line, from, end)
        }
    }

    // Adds the characters of a row from the cursor's column to `end`.
    pub(crate) fn put_each(
        &mut self,
        scene: &Scene<'_>,
        line: &Line<'_>,
        from: u32,
        end: u32,
    ) -> Result<(), NoMemory> {
        let Some(cells) = line.cells.get(from as usize..end as usize) else {
            return Ok(());
        };
        self.ops.reserve(cells.len())?;
        for cell in cells {
            self.ops.push_reserved(scene.written(*cell));
        }
        self.spot = if end < scene.columns {
            Spot::At(line.row, end)
        } else {
            Spot::Margin(line.row)
        };
        Ok(())
    }
}

impl Scene<'_> {
    // What writes the character that is seen of a cell. Most are of ASCII: with either charset they are seen as they
    // are.
    #[inline(always)]
    fn written(&self, cell: Cell) -> Op {
        if cell.code() < 128 {
            return Op::Put(cell.code() as u8);
        }
        self.written_beyond(cell)
    }

    // The same of a character beyond ASCII.
    #[inline(never)]
    fn written_beyond(&self, cell: Cell) -> Op {
        let code = self.code_of(cell);
        if code < 128 {
            return Op::Put(code as u8);
        }
        // There is one, since no character is a surrogate.
        Op::Write(char::from_u32(code).unwrap_or(' '))
    }
}
