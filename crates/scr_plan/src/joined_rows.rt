//! The joined repaint of one row. A place that differs is its character alone if the place before
//! it is painted with the same pen, and the rest of the line is erased if that is worth it.
ghost use Rattle.std.specs.Prelude.{ℕ, ◌≡◌, ◌+◌, ◌++◌, ◌∷◌, [], ◌-◌, ◌<◌, ◌≤◌, ◌⊎◌, IfOk, IfSome, None, Some, OnOk, filter, false, true, length, option_map, if◌then◌else◌};
ghost use Rattle.std.specs.List.{flat_map};
ghost use Rattle.scr_cells.specs.Characters.{IsCharacter};
ghost use Rattle.scr_cells.specs.LookViews.{blank};
ghost use Rattle.scr_term.specs.declared.operations.operation.Op.TheVariants.{EraseLine};
ghost use Rattle.scr_term.specs.declared.operations.operation.Spot.TheVariants.{At};
ghost use Rattle.scr_term.specs.Operations.Texts.{has, put_of};
ghost use Rattle.scr_plan.specs.Code.Joinings.{Continues, IsAfter, ShowsRow, joined_at};
ghost use Rattle.scr_plan.specs.Code.Painters.{is_that_pen, painter_begins, painter_look, painter_writes, part_places, pen_before, row_differs, row_paints};
ghost use Rattle.scr_memory.specs.Memories.{MemoryView};
ghost use Rattle.scr_plan.specs.Repaints.{differs};
ghost use Rattle.scr_plan.specs.Scratch.{row_places};
ghost use Rattle.scr_plan.specs.Code.Scenes.{IsLine, IsScene};

use crate::drafts::Draft;
use crate::looking::{is_shown_in, is_that_pen};
use crate::scenes::{Line, Scene};
use scr_cells::{Look, NoMemory, Pen, character_laws};
use scr_planner::Target;
use scr_term::{profiles_have, run_laws};

impl Draft {
    // Adds what paints the places of a row that differ from what it shows: `before`, or blanks.
    // Only columns `from..end` can differ.
    pub(crate) fn join_row(
        &mut self,
        scene: &Scene<'_>,
        row: u32,
        before: Option<&[Look]>,
        from: u32,
        end: u32,
    ) -> Result<(), NoMemory>
        requires scene { IsScene scene.now }
        requires row { row < scene.now.picture.now.rows }
        requires width { IfSome before (λ looks. length looks.now ≡ scene.now.picture.now.columns) }
        requires from { from ≤ end }
        requires end { end ≤ scene.now.picture.now.columns }
        requires outside { (c : ℕ) → (c < from) ⊎ (end ≤ c) → c < scene.now.picture.now.columns → row_differs scene.now.painter scene.now.picture.now (option_map (λ looks. looks.now) before) (row, c) ≡ false }
        ensures { OnOk result ((memory : MemoryView) → ShowsRow memory row (option_map (λ looks. looks.now) before.entry)
            → Continues scene.now.profile.now self.old self.new (flat_map (joined_at scene.now.profile.now scene.now.picture.now memory) (filter (differs scene.now.profile.now scene.now.picture.now memory) (row_places scene.now.picture.now.columns row)))) }
    {
        let line = &Line {
            row,
            cells: scene.picture.row(row),
            before,
        };
        match scene.erased_column(line, from, end) {
            Some(column) => {
                let left = self.join_part(scene, line, from, column)?;
                self.join_rest(scene, row, column, left)
            }
            None => {
                let _left = self.join_part(scene, line, from, end)?;
                Ok(())
            }
        }
    }

    // Adds what paints the places of columns `from..end` that differ; the place right before them
    // does not. Returns the pen of the last place if it was painted.
    fn join_part(
        &mut self,
        scene: &Scene<'_>,
        line: &Line<'_>,
        from: u32,
        end: u32,
    ) -> Result<Option<Pen>, NoMemory>
        requires scene { IsScene scene.now }
        requires row { line.now.row < scene.now.picture.now.rows }
        requires line { IsLine scene.now.picture.now line.now }
        requires from { from ≤ end }
        requires end { end ≤ scene.now.picture.now.columns }
        requires first { pen_before scene.now.painter scene.now.picture.now (option_map (λ looks. looks.now) line.now.before) line.now.row from ≡ None }
        ensures all { IfOk result (λ left. Continues scene.now.profile.now self.old self.new (flat_map (row_paints scene.now.painter scene.now.picture.now (option_map (λ looks. looks.now) line.now.before)) (filter (row_differs scene.now.painter scene.now.picture.now (option_map (λ looks. looks.now) line.now.before)) (part_places from (end - from) line.now.row)))) }
        ensures left { IfOk result (λ left. left ≡ pen_before scene.now.painter scene.now.picture.now (option_map (λ looks. looks.now) line.now.before) line.now.row end) }
        ensures after { IfOk result (λ left. IsAfter scene.now.picture.now.columns self.new line.now.row end left) }
    {
        let mut left = None;
        let mut column = from;
        while column < end {
            (column, left) = self.join_next(scene, line, column, end, left)?;
        }
        Ok(left)
    }

    // Paints a place that differs, or passes one that does not and those after it that do not.
    // Returns where to go on, and the pen of the place before that if it was painted.
    #[inline(always)]
    fn join_next(
        &mut self,
        scene: &Scene<'_>,
        line: &Line<'_>,
        column: u32,
        end: u32,
        left: Option<Pen>,
    ) -> Result<(u32, Option<Pen>), NoMemory>
        requires scene { IsScene scene.now }
        requires row { line.now.row < scene.now.picture.now.rows }
        requires line { IsLine scene.now.picture.now line.now }
        requires column { column < end }
        requires end { end ≤ scene.now.picture.now.columns }
        requires left { left ≡ pen_before scene.now.painter scene.now.picture.now (option_map (λ looks. looks.now) line.now.before) line.now.row column }
        requires after { IsAfter scene.now.picture.now.columns self.old line.now.row column left }
        ensures more { IfOk result (λ next. column < next.0) }
        ensures end { IfOk result (λ next. next.0 ≤ end) }
        ensures left { IfOk result (λ next. next.1 ≡ pen_before scene.now.painter scene.now.picture.now (option_map (λ looks. looks.now) line.now.before) line.now.row next.0) }
        ensures after { IfOk result (λ next. IsAfter scene.now.picture.now.columns self.new line.now.row next.0 next.1) }
        ensures all { IfOk result (λ next. Continues scene.now.profile.now self.old self.new (flat_map (row_paints scene.now.painter scene.now.picture.now (option_map (λ looks. looks.now) line.now.before)) (filter (row_differs scene.now.painter scene.now.picture.now (option_map (λ looks. looks.now) line.now.before)) (part_places column (next.0 - column) line.now.row)))) }
    {
        character_laws();
        profiles_have();
        let _profile = scene.profile.size();
        let _size = scene.picture.size();
        let (code, pen) = scene.seen_in(line.cells, column);
        if is_shown_in(line.before, column, code, pen) {
            let next = scene.unlike_from(line, column + 1, end);
            return Ok((next, None));
        }
        if self.keeps {
            self.join_write(
                scene,
                &Target {
                    row: line.row,
                    column,
                    pen,
                },
                left,
                code,
            )?;
            return Ok((column + 1, Some(pen)));
        }
        let next = self.count_unlike(scene, line, column, end, left, pen)?;
        Ok((next, Some(pen)))
    }

    // Counts what paints a place that differs, and those after it that differ and have the same
    // pen. Returns where to go on.
    fn count_unlike(
        &mut self,
        scene: &Scene<'_>,
        line: &Line<'_>,
        column: u32,
        end: u32,
        left: Option<Pen>,
        pen: Pen,
    ) -> Result<u32, NoMemory>
        requires scene { IsScene scene.now }
        requires counts { self.old.keeps ≡ false }
        requires row { line.now.row < scene.now.picture.now.rows }
        requires line { IsLine scene.now.picture.now line.now }
        requires column { column < end }
        requires end { end ≤ scene.now.picture.now.columns }
        requires unlike { row_differs scene.now.painter scene.now.picture.now (option_map (λ looks. looks.now) line.now.before) (line.now.row, column) ≡ true }
        requires pen { pen ≡ (painter_look scene.now.painter scene.now.picture.now (line.now.row, column)).pen }
        requires left { left ≡ pen_before scene.now.painter scene.now.picture.now (option_map (λ looks. looks.now) line.now.before) line.now.row column }
        requires after { IsAfter scene.now.picture.now.columns self.old line.now.row column left }
        ensures more { IfOk result (λ next. column < next) }
        ensures end { IfOk result (λ next. next ≤ end) }
        ensures left { IfOk result (λ next. Some pen ≡ pen_before scene.now.painter scene.now.picture.now (option_map (λ looks. looks.now) line.now.before) line.now.row next) }
        ensures after { IfOk result (λ next. IsAfter scene.now.picture.now.columns self.new line.now.row next (Some pen)) }
        ensures all { IfOk result (λ next. Continues scene.now.profile.now self.old self.new (flat_map (row_paints scene.now.painter scene.now.picture.now (option_map (λ looks. looks.now) line.now.before)) (filter (row_differs scene.now.painter scene.now.picture.now (option_map (λ looks. looks.now) line.now.before)) (part_places column (next - column) line.now.row)))) }
    {
        run_laws();
        profiles_have();
        let size = scene.profile.size();
        let _picture = scene.picture.size();
        let next = scene.unlike_end(line, column, end);
        self.join_begin_unless(
            scene,
            &Target {
                row: line.row,
                column,
                pen,
            },
            left,
        )?;
        self.count_each(scene, line.row, column, next);
        Ok(next)
    }

    // Adds the character of a place, after what leads there with its pen, unless the place before
    // it was painted with that pen.
    fn join_write(
        &mut self,
        scene: &Scene<'_>,
        to: &Target,
        left: Option<Pen>,
        code: u32,
    ) -> Result<(), NoMemory>
        requires scene { IsScene scene.now }
        requires row { to.now.row < scene.now.picture.now.rows }
        requires column { to.now.column < scene.now.picture.now.columns }
        requires look { record { character = code; pen = to.now.pen } ≡ painter_look scene.now.painter scene.now.picture.now (to.now.row, to.now.column) }
        requires character { IsCharacter code }
        requires has { has scene.now.profile.now (put_of code) ≡ true }
        requires after { IsAfter scene.now.picture.now.columns self.old to.now.row to.now.column left }
        ensures all { OnOk result (Continues scene.now.profile.now self.old self.new (painter_writes scene.now.painter left (to.now.row, to.now.column) (record { character = code; pen = to.now.pen }))) }
        ensures after { OnOk result (IsAfter scene.now.picture.now.columns self.new to.now.row (to.now.column + 1) (Some to.now.pen)) }
    {
        self.join_begin_unless(scene, to, left)?;
        self.put(scene.profile, to.row, to.column, code)
    }

    // Adds what leads to a place with the pen that is seen there, unless the place before it was
    // painted with that pen.
    fn join_begin_unless(
        &mut self,
        scene: &Scene<'_>,
        to: &Target,
        left: Option<Pen>,
    ) -> Result<(), NoMemory>
        requires scene { IsScene scene.now }
        requires row { to.now.row < scene.now.picture.now.rows }
        requires column { to.now.column < scene.now.picture.now.columns }
        requires pen { to.now.pen ≡ (painter_look scene.now.painter scene.now.picture.now (to.now.row, to.now.column)).pen }
        requires after { IsAfter scene.now.picture.now.columns self.old to.now.row to.now.column left }
        ensures all { OnOk result (Continues scene.now.profile.now self.old self.new (if is_that_pen left to.now.pen then [] else painter_begins scene.now.painter (to.now.row, to.now.column) to.now.pen)) }
        ensures keeps { OnOk result (self.new.keeps ≡ self.old.keeps) }
        ensures spot { OnOk result (self.new.spot ≡ At to.now.row to.now.column) }
        ensures pen { OnOk result (self.new.pen ≡ to.now.pen) }
    {
        if is_that_pen(left, to.pen) {
            return Ok(());
        }
        self.join_begin(scene, to)
    }

    // Erases a row from a column on, where it is seen blank, after what leads there with a plain
    // pen, unless the place before was painted with a plain pen.
    fn join_rest(
        &mut self,
        scene: &Scene<'_>,
        row: u32,
        column: u32,
        left: Option<Pen>,
    ) -> Result<(), NoMemory>
        requires scene { IsScene scene.now }
        requires row { row < scene.now.picture.now.rows }
        requires column { column < scene.now.picture.now.columns }
        requires look { painter_look scene.now.painter scene.now.picture.now (row, column) ≡ blank }
        requires has { has scene.now.profile.now EraseLine ≡ true }
        requires after { IsAfter scene.now.picture.now.columns self.old row column left }
        ensures { OnOk result (Continues scene.now.profile.now self.old self.new ((if is_that_pen left blank.pen then [] else painter_begins scene.now.painter (row, column) blank.pen) ++ EraseLine ∷ [])) }
    {
        self.join_begin_unless(
            scene,
            &Target {
                row,
                column,
                pen: Pen::plain(),
            },
            left,
        )?;
        self.erase(scene.profile, row, column)
    }
}
