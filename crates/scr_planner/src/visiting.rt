//! Painting the runs, each in its way: in the cheapest order, then all that are left.

use crate::cuts::Runs;
use crate::drafts::Draft;
use crate::order::cheapest_order;
use crate::runs::{How, Run};
use crate::scenes::Scene;
use crate::ways::{Stop, Target, Way};
use scr_cells::{NoMemory, Pen};
use scr_term::{Op, Profile};
use std::alloc::Global;

impl Draft {
    // Paints all runs in the cheapest order, and leads the cursor to where the picture wants it. `moved` says whether
    // rows or characters were moved before.
    pub(crate) fn paint_all(
        &mut self,
        alloc: Global,
        scene: &Scene<'_>,
        runs: &mut Runs,
        moved: bool,
    ) -> Result<(), NoMemory> {
        if runs.len() > 1 {
            let cursor = self.cursor();
            let stops = cheapest_order(alloc, scene, &cursor, runs.as_slice(), moved)?;
            for stop in &stops {
                self.visit_at(scene, runs.as_mut_slice(), stop)?;
            }
        }
        for _ in 0..runs.len() {
            if let Some(run) = runs.pop() {
                self.visit(scene, run, None)?;
            }
        }
        self.place(scene)
    }

    // Visits the run with a number, if there is one, after which it has no places.
    fn visit_at(
        &mut self,
        scene: &Scene<'_>,
        runs: &mut [Run],
        stop: &Stop,
    ) -> Result<(), NoMemory> {
        let Some(run) = runs.get_mut(stop.number as usize) else {
            return Ok(());
        };
        let visited = *run;
        *run = Run::default();
        self.visit(scene, visited, stop.way)
    }

    // Paints the places of a run, to which the way was chosen before or is here.
    fn visit(&mut self, scene: &Scene<'_>, run: Run, way: Option<Way>) -> Result<(), NoMemory> {
        if run.start >= run.end {
            return Ok(());
        }
        let to = run.target();
        let path = match way {
            Some(way) => way.path,
            None => self.path_to(scene, &to),
        };
        self.follow(scene, path, &to)?;
        match run.how {
            How::Write => self.write(scene, run.row, run.start, run.end),
            How::EraseLine => self.erase(scene, run, Op::EraseLine),
            How::EraseChars => self.erase(scene, run, Op::EraseChars(run.end - run.start)),
        }
    }

    // Erases a run of blanks, if the cursor is there with a plain pen; else writes them.
    fn erase(&mut self, scene: &Scene<'_>, run: Run, op: Op) -> Result<(), NoMemory> {
        if self.can_erase(scene.profile, run.row, run.start, op) {
            self.add(op)
        } else {
            self.write(scene, run.row, run.start, run.end)
        }
    }

    // Whether the terminal has an erasure, and the cursor is in a place with a plain pen.
    pub(crate) fn can_erase(&self, profile: &Profile, row: u32, column: u32, op: Op) -> bool {
        self.is_at(row, column) && self.pen.is_plain() && profile.has(op)
    }

    // Leads the cursor to where the picture wants it, with the current pen if that works.
    fn place(&mut self, scene: &Scene<'_>) -> Result<(), NoMemory> {
        let Some((row, column)) = scene.picture.wish() else {
            return Ok(());
        };
        let pen = self.pen;
        self.reach(scene, &Target { row, column, pen })?;
        if self.is_at(row, column) {
            return Ok(());
        }
        let pen = Pen::plain();
        self.lead(scene, &Target { row, column, pen })
    }
}
