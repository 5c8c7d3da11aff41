//! The plain repaint: painting each place that differs from what is remembered. It is a bound that
//! is easy to state, and that the joined repaint keeps. `specs/Repaints.antt` defines it.
ghost use Rattle.std.specs.Prelude.{◌≡◌, ◌++◌, ◌<◌, ◌&&◌, ◌==◌, [], IfOk, OnOk, filter, length, if◌then◌else◌};
ghost use Rattle.std.specs.List.{flat_map};
ghost use Rattle.scr_plan.specs.Code.Painters.{painter_differs, painter_paints_place, painter_resets};
ghost use Rattle.scr_memory.specs.Memories.{is_placed};
ghost use Rattle.scr_plan.specs.Repaints.{IsSizeOf, plain_of};
ghost use Rattle.scr_plan.specs.Scratch.{Fits, places_cursor, row_places};

use crate::painting::Painter;
use scr_cells::{NoMemory, Picture};
use scr_memory::Memory;
use scr_term::{Op, Ops, Profile};
use std::alloc::Global;

/// The operations that bring a terminal to a picture by painting each place that differs from what
/// is remembered, and every place of a row that is not known (curs_refresh(3X)). They are those of
/// `scratch` without clearing the screen and without the other places. There are none if no place
/// differs and the cursor is known to be where it is wanted.
///
/// Picture and memory have the profile's size. Fails only when memory runs out.
pub fn plain(
    alloc: Global,
    profile: &Profile,
    memory: &Memory,
    picture: &Picture,
) -> Result<Ops, NoMemory>
    requires fits { Fits profile.now picture.now }
    requires size { IsSizeOf picture.now memory.now }
    ensures { IfOk result (λ ops. ops ≡ plain_of profile.now memory.now picture.now) }
{
    let painter = Painter::of(profile);
    let mut ops = Vec::new(alloc);
    painter.reset(&mut ops)?;
    let begun = ops.len();
    let size = picture.size();
    for row in 0..size.rows {
        painter.paint_differing(picture, memory, row, &mut ops)?;
    }
    painter.end(picture, memory, begun, ops)
}

impl Painter {
    // Adds the operations for the places of a row that differ from what is remembered.
    fn paint_differing(
        self,
        picture: &Picture,
        memory: &Memory,
        row: u32,
        ops: &mut Vec<Op>,
    ) -> Result<(), NoMemory>
        requires size { IsSizeOf picture.now memory.now }
        requires row { row < picture.now.rows }
        ensures { OnOk result (ops.new.items
            ≡ ops.old.items ++ flat_map (painter_paints_place self picture.now) (filter (painter_differs self picture.now memory.now) (row_places picture.now.columns row))) }
    {
        let known = memory.is_known_row(row);
        let looks = memory.looks(row);
        let cells = picture.row(row);
        for column in 0..picture.size().columns {
            let look = looks[column as usize];
            let cell = cells[column as usize];
            self.paint_unless_shown(picture, (row, column), cell, known, look, ops)?;
        }
        Ok(())
    }

    // Ends a repaint that had `begun` operations before its first place. If no place was painted
    // and the cursor is where it is wanted, the repaint is empty.
    pub(crate) fn end(
        self,
        picture: &Picture,
        memory: &Memory,
        begun: usize,
        ops: Vec<Op>,
    ) -> Result<Ops, NoMemory>
        ensures { IfOk result (λ all. all ≡ if length ops.items == begun && is_placed memory.now picture.now.wish then [] else ops.items ++ painter_resets self ++ places_cursor picture.now.wish) }
    {
        let mut ops = ops;
        let wish = picture.wish();
        if ops.len() == begun && memory.is_placed(wish) {
            ops.clear();
            return Ok(Ops(ops));
        }
        self.finish(wish, &mut ops)?;
        Ok(Ops(ops))
    }
}
