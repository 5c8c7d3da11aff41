//! The check of a list of operations before it is sent: whether it is a plan, whoever made it. The definitions are in
//! `specs/Checks.antt`.
ghost use Rattle.std.specs.Prelude.{◌≡◌, ◌+◌, ◌-◌, ◌*◌, ◌<◌, ◌≤◌, ◌&&◌, not, OnErr, OnOk, Some, false, length, true};
ghost use Rattle.std.specs.Option.{is_some};
ghost use Rattle.scr_term.specs.declared.operations.capability.Capability.TheVariants.{Sgr0};
ghost use Rattle.scr_term.specs.Operations.Profiles.{abilities, is_there};
ghost use Rattle.scr_term.specs.Operations.States.{IsShownPen};
ghost use Rattle.scr_term.specs.Operations.Steps.{runs};
ghost use Rattle.scr_term.specs.Operations.Texts.{all_bytes};
ghost use Rattle.scr_terminal.specs.Marks.{AreNone};
ghost use Rattle.scr_memory.specs.Memories.{all_followed, clears, is_known};
ghost use Rattle.scr_memory.specs.Spares.{HasTried, IsAllMarked, IsReady, IsSpare, IsSpareOf, are_sure, is_reset};
ghost use Rattle.scr_plan.specs.Checks.{BeginsAnew, IsAhead, IsNoSurePlan, IsWithin};
ghost use Rattle.scr_plan.specs.Code.Scenes.{IsUpdate};
ghost use Rattle.scr_plan.specs.Plans.{IsPlan, bound_of};
ghost use Rattle.scr_plan.specs.Repaints.{IsSizeOf, IsUpToDate};
ghost use Rattle.scr_plan.specs.Scratch.{Fits};

use crate::looked::Looked;
use crate::painting::Painter;
use crate::plan_laws::plans_are_remembered;
use crate::plans::{may_be, wants_changes_alone};
use crate::scenes::{Scene, Update};
use scr_cells::{Look, NoMemory, Size, grid_laws};
use scr_memory::{Memory, Spare, known_memories, memory_runs, spare_laws};
use scr_term::{Op, Profile, profiles_have, run_laws};
use scr_virtual::Virtual;
use thiserror::Error;

/// Why a list of operations is not let through.
#[derive(Clone, Copy, Debug, PartialEq, Eq, Error)]
pub enum NotAPlan {
    /// Not all is known of the terminal, or all is to be painted anew, and the operations do not begin by making enough
    /// known.
    #[error("needs what is not known")]
    Unsure,
    /// There are more operations than a plan has.
    #[error("too many operations")]
    Long,
    /// An operation is undefined where it comes.
    #[error("undefined")]
    Undefined,
    /// The operations have more bytes than they may.
    #[error("too many bytes")]
    Dear,
    /// The terminal does not show the picture after them, or its cursor is elsewhere.
    #[error("another picture")]
    Unlike,
}

/// Why operations are not let through as an update.
#[derive(Clone, Copy, Debug, PartialEq, Eq, Error)]
pub enum CheckFault {
    /// They are no plan, or cannot be seen to be one, for this reason.
    #[error("{0}")]
    NotAPlan(NotAPlan),
    /// Memory ran out.
    #[error("out of memory")]
    NoMemory,
}

/// Running out of memory is the one error that the calls underneath have.
impl From<NoMemory> for CheckFault {
    ghost use Rattle.std.specs.Prelude.{◌≡◌};
    ghost use Rattle.scr_plan.specs.declared.checking.CheckFault.TheVariants as faults;

    ghost from_gives = { λ _ e. e ≡ faults.NoMemory };

    fn from(_e: NoMemory) -> CheckFault {
        CheckFault::NoMemory
    }
}

/// Checks that operations are a plan (`IsPlan`), whoever made them: they are tried on the spare, and what they change
/// there is compared with the picture. After `Ok` the spare is ahead by them, and `Memory::take` takes over what they
/// lead to. After an error it shows again what is remembered.
///
/// Picture, memory and spare have the profile's size, the spare shows what is remembered, and a known row shows the
/// picture except in the columns that may look different (`Virtual::altered`). `bound` is how many bytes they may have:
/// those of the joined repaint or of `scratch`, or fewer. The time goes with the operations and with what changes.
pub fn check(
    profile: &Profile,
    memory: &Memory,
    wanted: &Virtual,
    spare: &mut Spare,
    ops: &[Op],
    bound: usize,
) -> Result<(), NotAPlan>
    requires fits { Fits profile.now wanted.now.picture }
    requires size { IsSizeOf wanted.now.picture memory.now }
    requires same { IsUpToDate profile.now memory.now wanted.now }
    requires ready { IsReady memory.now spare.old }
    requires bound { bound ≤ length (all_bytes profile.now (bound_of profile.now memory.now wanted.now)) }
    ensures plan { OnOk result (IsPlan profile.now memory.now wanted.now ops.now) }
    ensures ahead { OnOk result (IsAhead profile.now memory.now ops.now spare.new) }
    ensures back { OnErr result (IsReady memory.now spare.new) }
    ensures exact { OnErr result (IsNoSurePlan profile.now memory.now wanted.now bound ops.now) }
{
    let _profile = profile.size();
    let _wanted = wanted.size();
    let _memory = memory.size();
    let scene = Scene {
        painter: Painter::of(profile),
        profile,
        picture: wanted.picture(),
    };
    let update = Update {
        scene,
        memory,
        wanted,
        by: Looked::Altered,
    };
    update.check(spare, ops, bound, false)
}

impl Update<'_> {
    // Checks that operations are a plan; leaves the spare ahead by them, or as it was. If they are counted, their bytes
    // are known to be within the bound.
    pub(crate) fn check(
        &self,
        spare: &mut Spare,
        ops: &[Op],
        bound: usize,
        is_counted: bool,
    ) -> Result<(), NotAPlan>
        requires update { IsUpdate self.now }
        requires ready { IsReady self.now.memory.now spare.old }
        requires counted { IsWithin self.now.scene.profile.now ops.now bound is_counted }
        requires bound { bound ≤ length (all_bytes self.now.scene.profile.now (bound_of self.now.scene.profile.now self.now.memory.now self.now.wanted.now)) }
        ensures plan { OnOk result (IsPlan self.now.scene.profile.now self.now.memory.now self.now.wanted.now ops.now) }
        ensures ahead { OnOk result (IsAhead self.now.scene.profile.now self.now.memory.now ops.now spare.new) }
        ensures back { OnErr result (IsReady self.now.memory.now spare.new) }
        ensures exact { OnErr result (IsNoSurePlan self.now.scene.profile.now self.now.memory.now self.now.wanted.now bound ops.now) }
    {
        let checked = self.try_on(spare, ops, bound, is_counted);
        if checked.is_err() {
            spare.back(self.memory);
        }
        checked
    }

    // Tries operations on the spare, and tells whether they are a plan.
    fn try_on(
        &self,
        spare: &mut Spare,
        ops: &[Op],
        bound: usize,
        is_counted: bool,
    ) -> Result<(), NotAPlan>
        requires update { IsUpdate self.now }
        requires ready { IsReady self.now.memory.now spare.old }
        requires counted { IsWithin self.now.scene.profile.now ops.now bound is_counted }
        requires bound { bound ≤ length (all_bytes self.now.scene.profile.now (bound_of self.now.scene.profile.now self.now.memory.now self.now.wanted.now)) }
        ensures plan { OnOk result (IsPlan self.now.scene.profile.now self.now.memory.now self.now.wanted.now ops.now) }
        ensures ahead { OnOk result (IsAhead self.now.scene.profile.now self.now.memory.now ops.now spare.new) }
        ensures of { IsSpareOf self.now.memory.now spare.new }
        ensures exact { OnErr result (IsNoSurePlan self.now.scene.profile.now self.now.memory.now self.now.wanted.now bound ops.now) }
    {
        spare_laws();
        let _profile = self.scene.profile.size();
        let _memory = self.memory.size();
        let size = self.wanted.size();
        if !may_be(self.scene.profile, self.memory) {
            return Err(NotAPlan::Unsure);
        }
        if !is_few(ops, size) {
            return Err(NotAPlan::Long);
        }
        spare.begin(self.memory);
        if wants_changes_alone(self.memory, self.wanted) {
            return self.check_changes(spare, ops, bound, is_counted);
        }
        if begins_anew(self.scene.profile, ops) {
            return self.check_anew(spare, ops, bound, is_counted);
        }
        if self.wanted.repaint() {
            return Err(NotAPlan::Unsure);
        }
        self.check_surely(spare, ops, bound, is_counted)
    }

    // Where all is known: the operations are executed, and the columns that are looked at are compared, and what the
    // operations changed.
    fn check_changes(
        &self,
        spare: &mut Spare,
        ops: &[Op],
        bound: usize,
        is_counted: bool,
    ) -> Result<(), NotAPlan>
        requires update { IsUpdate self.now }
        requires counted { IsWithin self.now.scene.profile.now ops.now bound is_counted }
        requires known { is_known self.now.memory.now ≡ true }
        requires calm { self.now.wanted.now.repaint ≡ false }
        requires pen { IsShownPen (abilities self.now.scene.profile.now) self.now.memory.now.state.pen }
        requires few { length ops.now ≤ self.now.wanted.now.picture.rows * self.now.wanted.now.picture.columns * 12 + 4 }
        requires begun { spare.old.memory ≡ self.now.memory.now }
        requires none { AreNone spare.old.marks }
        requires bound { bound ≤ length (all_bytes self.now.scene.profile.now (bound_of self.now.scene.profile.now self.now.memory.now self.now.wanted.now)) }
        ensures plan { OnOk result (IsPlan self.now.scene.profile.now self.now.memory.now self.now.wanted.now ops.now) }
        ensures ahead { OnOk result (IsAhead self.now.scene.profile.now self.now.memory.now ops.now spare.new) }
        ensures of { IsSpareOf self.now.memory.now spare.new }
        ensures exact { OnErr result (IsNoSurePlan self.now.scene.profile.now self.now.memory.now self.now.wanted.now bound ops.now) }
    {
        run_laws();
        known_memories();
        memory_runs();
        grid_laws::<Look>();
        let _profile = self.scene.profile.size();
        let _memory = self.memory.size();
        let _wanted = self.wanted.size();
        self.mark_changes(spare);
        let _marked = spare.memory().size();
        run(self.scene.profile, spare, ops)?;
        let _spare = spare.memory().size();
        self.scene.compare(spare, ops, bound, is_counted)?;
        Ok(())
    }
}

impl Update<'_> {
    // Where the operations clear the screen first: they are executed, and everything is compared.
    fn check_anew(
        &self,
        spare: &mut Spare,
        ops: &[Op],
        bound: usize,
        is_counted: bool,
    ) -> Result<(), NotAPlan>
        requires update { IsUpdate self.now }
        requires counted { IsWithin self.now.scene.profile.now ops.now bound is_counted }
        requires due { (is_known self.now.memory.now && not self.now.wanted.now.repaint) ≡ false }
        requires pen { IsShownPen (abilities self.now.scene.profile.now) self.now.memory.now.state.pen }
        requires begins { BeginsAnew self.now.scene.profile.now ops.now }
        requires few { length ops.now ≤ self.now.wanted.now.picture.rows * self.now.wanted.now.picture.columns * 12 + 4 }
        requires begun { spare.old.memory ≡ self.now.memory.now }
        requires bound { bound ≤ length (all_bytes self.now.scene.profile.now (bound_of self.now.scene.profile.now self.now.memory.now self.now.wanted.now)) }
        ensures plan { OnOk result (IsPlan self.now.scene.profile.now self.now.memory.now self.now.wanted.now ops.now) }
        ensures ahead { OnOk result (IsAhead self.now.scene.profile.now self.now.memory.now ops.now spare.new) }
        ensures of { IsSpareOf self.now.memory.now spare.new }
        ensures exact { OnErr result (IsNoSurePlan self.now.scene.profile.now self.now.memory.now self.now.wanted.now bound ops.now) }
    {
        run_laws();
        profiles_have();
        memory_runs();
        plans_are_remembered();
        grid_laws::<Look>();
        let _profile = self.scene.profile.size();
        let _memory = self.memory.size();
        let _wanted = self.wanted.size();
        spare.mark_all();
        let _marked = spare.memory().size();
        run(self.scene.profile, spare, ops)?;
        let _spare = spare.memory().size();
        self.scene.compare(spare, ops, bound, is_counted)?;
        Ok(())
    }

    // Where not all is known: the operations are followed from what is known, and everything is compared.
    fn check_surely(
        &self,
        spare: &mut Spare,
        ops: &[Op],
        bound: usize,
        is_counted: bool,
    ) -> Result<(), NotAPlan>
        requires update { IsUpdate self.now }
        requires counted { IsWithin self.now.scene.profile.now ops.now bound is_counted }
        requires calm { self.now.wanted.now.repaint ≡ false }
        requires unknown { is_known self.now.memory.now ≡ false }
        requires other { BeginsAnew self.now.scene.profile.now ops.now → ⊥ }
        requires pen { IsShownPen (abilities self.now.scene.profile.now) self.now.memory.now.state.pen }
        requires few { length ops.now ≤ self.now.wanted.now.picture.rows * self.now.wanted.now.picture.columns * 12 + 4 }
        requires begun { spare.old.memory ≡ self.now.memory.now }
        requires bound { bound ≤ length (all_bytes self.now.scene.profile.now (bound_of self.now.scene.profile.now self.now.memory.now self.now.wanted.now)) }
        ensures plan { OnOk result (IsPlan self.now.scene.profile.now self.now.memory.now self.now.wanted.now ops.now) }
        ensures ahead { OnOk result (IsAhead self.now.scene.profile.now self.now.memory.now ops.now spare.new) }
        ensures of { IsSpareOf self.now.memory.now spare.new }
        ensures exact { OnErr result (IsNoSurePlan self.now.scene.profile.now self.now.memory.now self.now.wanted.now bound ops.now) }
    {
        run_laws();
        spare_laws();
        known_memories();
        memory_runs();
        grid_laws::<Look>();
        let _profile = self.scene.profile.size();
        let _memory = self.memory.size();
        let _wanted = self.wanted.size();
        follow(self.scene.profile, spare, ops)?;
        let _spare = spare.memory().size();
        if !spare.memory().known() {
            return Err(NotAPlan::Unsure);
        }
        self.scene.compare(spare, ops, bound, is_counted)?;
        Ok(())
    }
}

// Follows operations on the spare, from what is known.
fn follow(profile: &Profile, spare: &mut Spare, ops: &[Op]) -> Result<(), NotAPlan>
    requires rows { spare.old.memory.rows ≡ profile.now.rows }
    requires columns { spare.old.memory.columns ≡ profile.now.columns }
    ensures sure { OnOk result (are_sure profile.now ops.now spare.old.memory ≡ true) }
    ensures unsure { OnErr result (are_sure profile.now ops.now spare.old.memory ≡ false) }
    ensures followed { OnOk result (spare.new.memory ≡ all_followed profile.now ops.now spare.old.memory) }
    ensures rows { spare.new.memory.rows ≡ spare.old.memory.rows }
    ensures columns { spare.new.memory.columns ≡ spare.old.memory.columns }
    ensures marked { IsAllMarked spare.new }
    ensures sizes { IsSpare spare.new }
{
    let followed = spare.follow(profile, ops);
    let _spare = spare.memory();
    match followed {
        Ok(()) => Ok(()),
        Err(_) => Err(NotAPlan::Unsure),
    }
}

// Executes operations on the spare.
fn run(profile: &Profile, spare: &mut Spare, ops: &[Op]) -> Result<(), NotAPlan>
    requires rows { spare.old.memory.rows ≡ profile.now.rows }
    requires columns { spare.old.memory.columns ≡ profile.now.columns }
    ensures run { OnOk result (runs profile.now spare.old.memory.state ops.now ≡ Some spare.new.memory.state) }
    ensures undefined { OnErr result (is_some (runs profile.now spare.old.memory.state ops.now) ≡ false) }
    ensures tried { HasTried spare.old spare.new }
{
    match spare.run(profile, ops) {
        Ok(()) => Ok(()),
        Err(_) => Err(NotAPlan::Undefined),
    }
}

// Whether there are no more operations than a plan has.
fn is_few(ops: &[Op], size: Size) -> bool
    ensures yes { result ≡ true → length ops.now ≤ size.rows * size.columns * 12 + 4 }
    ensures no { result ≡ false → length ops.now ≤ size.rows * size.columns * 12 + 4 → ⊥ }
{
    ops.len() <= size.rows as usize * size.columns as usize * 12 + 4
}

// Whether operations begin by turning attributes off, where the terminal can, and clearing the screen.
fn begins_anew(profile: &Profile, ops: &[Op]) -> bool
    ensures yes { result ≡ true → BeginsAnew profile.now ops.now }
    ensures no { result ≡ false → BeginsAnew profile.now ops.now → ⊥ }
{
    if profile.can_reset() {
        return begins_with_both(profile, ops);
    }
    begins_with_clear(profile, ops)
}

// Whether operations begin with Reset and Clear.
fn begins_with_both(profile: &Profile, ops: &[Op]) -> bool
    requires { is_there profile.now Sgr0 ≡ true }
    ensures yes { result ≡ true → BeginsAnew profile.now ops.now }
    ensures no { result ≡ false → BeginsAnew profile.now ops.now → ⊥ }
{
    if ops.len() < 2 {
        return false;
    }
    if !is_reset(ops[0]) {
        return false;
    }
    is_clear(ops[1])
}

// Whether operations begin with Clear.
fn begins_with_clear(profile: &Profile, ops: &[Op]) -> bool
    requires { is_there profile.now Sgr0 ≡ false }
    ensures yes { result ≡ true → BeginsAnew profile.now ops.now }
    ensures no { result ≡ false → BeginsAnew profile.now ops.now → ⊥ }
{
    if ops.is_empty() {
        return false;
    }
    is_clear(ops[0])
}

// Whether an operation clears the screen.
fn is_clear(op: Op) -> bool
    ensures { result ≡ clears op }
{
    matches!(op, Op::Clear)
}

// Whether an operation turns attributes off, in default colours.
fn is_reset(op: Op) -> bool
    ensures { result ≡ is_reset op }
{
    matches!(op, Op::Reset)
}
