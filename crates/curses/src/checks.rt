//! The check of operations that a program chose itself for an update.
ghost use Rattle.std.specs.Prelude.{◌≡◌, IsErrOf, OnOk};
ghost use Rattle.scr_memory.specs.Spares.{IsReady};
ghost use Rattle.scr_plan.specs.Checks.{IsUnlikely};
ghost use Rattle.scr_plan.specs.Plans.{IsPlan};
ghost use Rattle.curses.specs.ScreenStates.{IsRemembered};

use crate::screens::Screen;
use scr_memory::{Memory, Spare};
use scr_plan::{CheckFault, NotAPlan, check_whole};
use scr_term::{Op, Profile};
use scr_virtual::Virtual;
use std::alloc::Global;

impl Screen {
    /// Whether `doupdate` could send these operations: whether they are a plan, from what is known of the terminal to the
    /// virtual screen, with no more bytes than it would send at most. Nothing is sent, and the screen stays as it is.
    ///
    /// Refused: with `NotAPlan` and the reason, also where not all is known of the terminal and an operation needs
    /// something that is not; with `NoMemory`. curs_refresh(3X), doupdate().
    pub fn check(&mut self, alloc: Global, ops: &[Op]) -> Result<(), CheckFault>
        ensures same { self.new ≡ self.old }
        ensures plan { OnOk result (IsPlan self.old.profile self.old.memory self.old.virtual ops.now) }
        ensures exact { (fault : NotAPlan) → IsErrOf result (CheckFault.NotAPlan fault)
            → IsUnlikely self.old.profile self.old.memory self.old.virtual ops.now }
    {
        checked(
            alloc,
            &self.profile,
            &self.memory,
            &self.wanted,
            &mut self.spare,
            ops,
        )
    }
}

// Whether these operations bring a terminal to a picture as an update does.
fn checked(
    alloc: Global,
    profile: &Profile,
    memory: &Memory,
    wanted: &Virtual,
    spare: &mut Spare,
    ops: &[Op],
) -> Result<(), CheckFault>
    requires remembered { IsRemembered profile.now memory.now wanted.now }
    requires ready { IsReady memory.now spare.old }
    ensures plan { OnOk result (IsPlan profile.now memory.now wanted.now ops.now) }
    ensures exact { (fault : NotAPlan) → IsErrOf result (CheckFault.NotAPlan fault)
        → IsUnlikely profile.now memory.now wanted.now ops.now }
    ensures ready { IsReady memory.now spare.new }
{
    let _profile = profile.size();
    let _wanted = wanted.size();
    check_whole(alloc, profile, memory, wanted, spare, ops)
}
