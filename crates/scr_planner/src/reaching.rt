//! The ways to a place and a pen, as chosen: motions, turns, and places written in place of a motion.

use crate::drafts::Draft;
use crate::motions::turns::cheapest_turn;
use crate::motions::{Motion, cheapest_motion, motion_of_price};
use crate::scenes::Scene;
use crate::ways::{Path, Target};
use scr_cells::{Attrs, NoMemory, Pen};
use scr_term::{Op, Profile};

impl Draft {
    // Follows a motion to a place, unless the cursor is there; with a plain pen if motions need one.
    fn move_by(
        &mut self,
        scene: &Scene<'_>,
        motion: &Motion,
        row: u32,
        column: u32,
    ) -> Result<(), NoMemory> {
        if self.is_at(row, column) {
            return Ok(());
        }
        if !scene.moves_in_any_rendition {
            self.turn_to(scene, Pen::plain())?;
        }
        self.go_if(scene.profile, motion.first)?;
        self.go_if(scene.profile, motion.second)?;
        for _ in 0..motion.times {
            self.go_if(scene.profile, motion.last)?;
        }
        Ok(())
    }

    // Adds a motion, if there is one and it is defined from here.
    #[inline(always)]
    fn go_if(&mut self, profile: &Profile, op: Option<Op>) -> Result<(), NoMemory> {
        match op {
            Some(op) => self.go(profile, op),
            None => Ok(()),
        }
    }

    // Turns to a pen by the cheapest turn.
    pub(crate) fn turn_to(&mut self, scene: &Scene<'_>, pen: Pen) -> Result<(), NoMemory> {
        if self.pen == pen {
            return Ok(());
        }
        let profile = scene.profile;
        if let Some(op) = cheapest_turn(scene.prices, self.pen, pen).first {
            self.turn(profile, op)?;
        }
        self.enter_missing(profile, pen.attrs())?;
        self.set_colours(profile, pen)
    }

    // Turns on the attributes of a set that are not on.
    fn enter_missing(&mut self, profile: &Profile, set: Attrs) -> Result<(), NoMemory> {
        if self.pen.attrs() == set {
            return Ok(());
        }
        for attribute in &Attrs::EACH {
            if set.0 & attribute.0 != 0 && self.pen.attrs().0 & attribute.0 == 0 {
                self.turn(profile, Op::Enter(*attribute))?;
            }
        }
        Ok(())
    }

    // Sets the colours of a pen that are not set.
    fn set_colours(&mut self, profile: &Profile, pen: Pen) -> Result<(), NoMemory> {
        if let Some(colour) = pen.foreground() {
            if self.pen.foreground() != pen.foreground() {
                self.turn(profile, Op::Fore(colour))?;
            }
        }
        if let Some(colour) = pen.background() {
            if self.pen.background() != pen.background() {
                self.turn(profile, Op::Back(colour))?;
            }
        }
        Ok(())
    }

    // Goes to a place and turns to a pen, by the cheapest way.
    pub(crate) fn reach(&mut self, scene: &Scene<'_>, to: &Target) -> Result<(), NoMemory> {
        let path = self.path_to(scene, to);
        self.follow(scene, path, to)
    }

    // Goes to the first place of a row with a plain pen, by the cheapest way.
    pub(crate) fn reach_row(&mut self, scene: &Scene<'_>, row: u32) -> Result<(), NoMemory> {
        let (column, pen) = (0, Pen::plain());
        self.reach(scene, &Target { row, column, pen })
    }

    // The cheapest path to a place and a pen: where the cursor is there, a turn is all.
    pub(crate) fn path_to(&self, scene: &Scene<'_>, to: &Target) -> Path {
        if self.is_at(to.row, to.column) {
            return Path::Moving(0);
        }
        scene.way(&self.cursor(), to).path
    }

    // Follows a path to a place and a pen.
    pub(crate) fn follow(
        &mut self,
        scene: &Scene<'_>,
        path: Path,
        to: &Target,
    ) -> Result<(), NoMemory> {
        match path {
            Path::Moving(price) => self.move_and_turn(scene, price, to),
            Path::Writing(from) => {
                self.write(scene, to.row, from, to.column)?;
                self.turn_to(scene, to.pen)
            }
            Path::MovingToWrite(price) => {
                self.move_and_turn(scene, price, &Target { column: 0, ..*to })?;
                self.write(scene, to.row, 0, to.column)
            }
        }
    }

    // By the motion of a price, and a turn.
    fn move_and_turn(
        &mut self,
        scene: &Scene<'_>,
        price: u32,
        to: &Target,
    ) -> Result<(), NoMemory> {
        let place = (to.row, to.column);
        let motion = motion_of_price(scene.prices, self.spot, place, price);
        self.move_by(scene, &motion, to.row, to.column)?;
        self.turn_to(scene, to.pen)
    }

    // Goes to a place with a plain pen, by a turn and the cheapest motion; at once where that does not lead there.
    pub(crate) fn come_to(
        &mut self,
        scene: &Scene<'_>,
        row: u32,
        column: u32,
    ) -> Result<(), NoMemory> {
        let pen = Pen::plain();
        if self.pen != pen {
            self.turn(scene.profile, Op::Reset)?;
        }
        let motion = cheapest_motion(scene.prices, self.spot, row, column);
        self.move_by(scene, &motion, row, column)?;
        if self.is_at(row, column) && self.pen == pen {
            return Ok(());
        }
        self.lead(scene, &Target { row, column, pen })
    }
}
