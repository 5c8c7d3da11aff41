//! The joined repaint, operation by operation: each is counted, and kept if that is asked for.
//! `specs/Repaints.antt` defines it.
ghost use Rattle.std.specs.Prelude.{◌≡◌, ◌+◌, ◌≤◌, ◌∷◌, [], ◌⊎◌, All, IfOk, IfSome, OnOk, length, true};
ghost use Rattle.scr_cells.specs.Characters.{IsCharacter};
ghost use Rattle.scr_cells.specs.PenViews.{is_plain_pen, plain_pen};
ghost use Rattle.scr_cells.specs.PictureViews.{IsPlace};
ghost use Rattle.scr_term.specs.declared.operations.operation.Op.TheVariants.{EraseLine};
ghost use Rattle.scr_term.specs.declared.operations.operation.Spot.TheVariants.{At};
ghost use Rattle.scr_term.specs.declared.operations.capability.Capability.TheVariants.{Sgr0};
ghost use Rattle.scr_term.specs.Operations.Profiles.{is_there};
ghost use Rattle.scr_term.specs.Operations.States.{blank_state, spot_after};
ghost use Rattle.scr_term.specs.Operations.Texts.{all_bytes, has, put_of};
ghost use Rattle.scr_plan.specs.Code.Joinings.{Continues, IsJoining, counted_up};
ghost use Rattle.scr_plan.specs.Code.Painters.{painter_begins};
ghost use Rattle.scr_plan.specs.Scratch.{look_at, places_cursor, resets};
ghost use Rattle.scr_plan.specs.Code.Scenes.{IsScene};

use crate::drafts::Draft;
use crate::lengths::encoded_length;
use crate::painting::written_by;
use crate::scenes::Scene;
use scr_cells::{NoMemory, Pen, character_laws};
use scr_memory::Memory;
use scr_planner::Target;
use scr_term::{Op, Profile, Spot, blank_laws, profiles_have, run_laws};

impl Draft {
    // An empty repaint, for a terminal that the operations made before have cleared.
    pub(crate) fn on_blanks(profile: &Profile, ops: Vec<Op>, keeps: bool) -> Draft
        ensures { IsJoining profile.now keeps ops.items (blank_state profile.now.rows profile.now.columns) [] result }
    {
        blank_laws();
        let _size = profile.size();
        Draft {
            ops,
            keeps,
            bytes: 0,
            spot: Spot::At(0, 0),
            pen: Pen::plain(),
        }
    }

    // The beginning of a repaint of a terminal in the remembered state: attributes are turned off,
    // in default colours.
    pub(crate) fn on_remembered(
        scene: &Scene<'_>,
        memory: &Memory,
        ops: Vec<Op>,
        keeps: bool,
    ) -> Result<Draft, NoMemory>
        requires scene { IsScene scene.now }
        requires rows { memory.now.rows ≡ scene.now.profile.now.rows }
        requires columns { memory.now.columns ≡ scene.now.profile.now.columns }
        requires pen { (is_there scene.now.profile.now Sgr0 ≡ true) ⊎ (is_plain_pen memory.now.state.pen ≡ true) }
        ensures { IfOk result (IsJoining scene.now.profile.now keeps ops.items memory.now.state (resets scene.now.profile.now)) }
    {
        run_laws();
        profiles_have();
        let _size = scene.profile.size();
        let _memory = memory.size();
        let spot = memory.remembered_spot();
        let pen = memory.remembered_pen();
        let mut ops = ops;
        let begun = ops.len();
        scene.painter.reset_unless_plain(pen, &mut ops)?;
        let mut draft = Draft {
            ops,
            keeps,
            bytes: 0,
            spot,
            pen,
        };
        draft.count(scene.profile, begun, spot, Pen::plain());
        Ok(draft)
    }

    // Turns attributes off and makes colours default.
    pub(crate) fn reset(&mut self, scene: &Scene<'_>) -> Result<(), NoMemory>
        requires scene { IsScene scene.now }
        ensures all { OnOk result (Continues scene.now.profile.now self.old self.new (resets scene.now.profile.now)) }
        ensures pen { OnOk result (self.new.pen ≡ plain_pen) }
    {
        run_laws();
        profiles_have();
        let _size = scene.profile.size();
        let begun = self.ops.len();
        scene.painter.reset_unless_plain(self.pen, &mut self.ops)?;
        self.count(scene.profile, begun, self.spot, Pen::plain());
        Ok(())
    }

    // Leads to a place, and to the pen with which the picture is seen there.
    pub(crate) fn join_begin(&mut self, scene: &Scene<'_>, to: &Target) -> Result<(), NoMemory>
        requires scene { IsScene scene.now }
        requires place { IsPlace scene.now.profile.now.rows scene.now.profile.now.columns (to.now.row, to.now.column) }
        requires pen { to.now.pen ≡ (look_at scene.now.profile.now scene.now.picture.now (to.now.row, to.now.column)).pen }
        ensures all { OnOk result (Continues scene.now.profile.now self.old self.new (painter_begins scene.now.painter (to.now.row, to.now.column) to.now.pen)) }
        ensures keeps { OnOk result (self.new.keeps ≡ self.old.keeps) }
        ensures spot { OnOk result (self.new.spot ≡ At to.now.row to.now.column) }
        ensures pen { OnOk result (self.new.pen ≡ to.now.pen) }
    {
        run_laws();
        profiles_have();
        let _size = scene.profile.size();
        let _picture = scene.picture.size();
        let begun = self.ops.len();
        scene.painter.lead(self.spot, self.pen, to, &mut self.ops)?;
        self.count(scene.profile, begun, Spot::At(to.row, to.column), to.pen);
        Ok(())
    }

    // Adds a character at the cursor: counted, and kept if that is asked for.
    pub(crate) fn put(
        &mut self,
        profile: &Profile,
        row: u32,
        column: u32,
        code: u32,
    ) -> Result<(), NoMemory>
        requires here { self.old.spot ≡ At row column }
        requires place { IsPlace profile.now.rows profile.now.columns (row, column) }
        requires character { IsCharacter code }
        requires has { has profile.now (put_of code) ≡ true }
        ensures all { OnOk result (Continues profile.now self.old self.new (put_of code ∷ [])) }
        ensures spot { OnOk result (self.new.spot ≡ spot_after profile.now.columns row column) }
        ensures pen { OnOk result (self.new.pen ≡ self.old.pen) }
    {
        run_laws();
        profiles_have();
        character_laws();
        let size = profile.size();
        self.keep(written_by(code))?;
        self.bytes = self.bytes.saturating_add(encoded_length(code));
        self.spot = spot_after(row, column, size.columns);
        Ok(())
    }

    // Erases the rest of the line.
    pub(crate) fn erase(&mut self, profile: &Profile, row: u32, column: u32) -> Result<(), NoMemory>
        requires here { self.old.spot ≡ At row column }
        requires plain { is_plain_pen self.old.pen ≡ true }
        requires has { has profile.now EraseLine ≡ true }
        ensures all { OnOk result (Continues profile.now self.old self.new (EraseLine ∷ [])) }
        ensures pen { OnOk result (self.new.pen ≡ self.old.pen) }
    {
        run_laws();
        let _size = profile.size();
        let begun = self.ops.len();
        self.ops.push(Op::EraseLine)?;
        self.count(profile, begun, Spot::At(row, column), self.pen);
        Ok(())
    }

    // Moves the cursor to where it is wanted, with no attribute and default colours.
    pub(crate) fn place_cursor(
        &mut self,
        scene: &Scene<'_>,
        wish: Option<(u32, u32)>,
    ) -> Result<(), NoMemory>
        requires plain { is_plain_pen self.old.pen ≡ true }
        requires wish { IfSome wish (IsPlace scene.now.profile.now.rows scene.now.profile.now.columns) }
        ensures { OnOk result (Continues scene.now.profile.now self.old self.new (places_cursor wish)) }
    {
        let Some((row, column)) = wish else {
            return Ok(());
        };
        run_laws();
        profiles_have();
        let _size = scene.profile.size();
        let begun = self.ops.len();
        scene
            .painter
            .move_unless_there(self.spot, row, column, &mut self.ops)?;
        self.count(scene.profile, begun, Spot::At(row, column), self.pen);
        Ok(())
    }
}

// The cursor's spot after a character.
pub(crate) fn spot_after(row: u32, column: u32, columns: u32) -> Spot
    requires { column ≤ 1000 }
    ensures { result ≡ spot_after columns row column }
{
    if column + 1 < columns {
        Spot::At(row, column + 1)
    } else {
        Spot::Margin(row)
    }
}

// The number of bytes of operations.
pub(crate) fn price_of(profile: &Profile, ops: &[Op]) -> usize
    ensures { All (λ op. has profile.now op ≡ true) ops.now → result ≡ counted_up (length (all_bytes profile.now ops.now)) }
{
    let mut bytes = 0usize;
    for op in ops {
        bytes = bytes.saturating_add(price_of_one(profile, *op));
    }
    bytes
}

// The number of bytes of an operation.
#[inline(always)]
pub(crate) fn price_of_one(profile: &Profile, op: Op) -> usize
    ensures { has profile.now op ≡ true → result ≡ length (all_bytes profile.now (op ∷ [])) }
{
    match op {
        Op::Put(_) => 1,
        _ => profile.cost(op).unwrap_or(0),
    }
}
