//! What a handle holds, in memory of its own, as C can hold it: by its address.
ghost use Rattle.std.specs.Prelude.{◌≡◌, Option, Some, None, IsSome};
ghost use Rattle.std.specs.Coded.{coded_option};
ghost use Rattle.huttavel_c.specs.contracts.sessions.Kept as the_kept;
ghost use Rattle.huttavel_c.specs.declared.sessions.Kept.{Kept};

use crate::parts::HeldParts;
use crate::sessions::Kept;
use std::alloc::Global;
use std::marker::Model;
use std::ptr::null_mut;

/// What a handle holds, or nothing, by its address. It owns what is there.
#[repr(C)]
#[derive(Drop)]
pub struct Held {
    pub(crate) at: *mut u8,
    ghost value: { Option Kept } by { coded_option the_kept.the_row.coded },
}

impl Model for Held {
    ghost use Rattle.std.specs.Prelude.{Option};
    ghost use Rattle.huttavel_c.specs.Holding.{maybe_owns};
    ghost use Rattle.huttavel_c.specs.contracts.sessions.Kept as kept;
    ghost use Rattle.huttavel_c.specs.declared.sessions.Kept.{Kept};

    ghost also_owns = { λ h. maybe_owns kept.the_row h.at h.value };
}

impl Held {
    // Nothing.
    pub(crate) fn none() -> Held
        ensures { result.value ≡ None }
    {
        let at = null_mut();
        Held { at }
    }

    // What is to be held.
    pub(crate) fn of(kept: Box<Kept>) -> Held
        ensures { result.value ≡ Some kept.value }
    {
        Held::of_parts(HeldParts::of(kept))
    }

    // What it holds.
    pub(crate) fn into_box(self, alloc: Global) -> Box<Kept>
        requires { IsSome self.value }
        ensures { self.value ≡ Some result.value }
    {
        self.into_parts(alloc).into_box()
    }

    // What the parts of a box own.
    fn of_parts(parts: HeldParts<Kept, Global>) -> Held
        ensures { result.value ≡ Some parts.value }
    {
        let HeldParts { at, alloc: _ } = parts;
        let at = at as *mut u8;
        Held { at }
    }

    // The parts of a box again.
    fn into_parts(self, alloc: Global) -> HeldParts<Kept, Global>
        requires { IsSome self.value }
        ensures { self.value ≡ Some result.value }
    {
        let Held { at } = self;
        let at = at as *mut Kept;
        HeldParts { at, alloc }
    }
}
