//! What is at an address is lent.
ghost use Rattle.std.specs.Prelude.{◌≡◌, IsSome, Some};
ghost use types.Logic.{sem};
ghost use Rattle.huttavel_c.specs.Following.{held_follows};

use crate::held::Held;
use crate::sessions::Kept;

impl Held {
    // Lends what it holds.
    pub(crate) fn lend(&mut self) -> &mut Kept
        requires { IsSome self.old.value }
        ensures* writes_back { sem 𝓛 (held_follows self.entry result) }
        ensures value { self.old.value ≡ Some result.now }
    {
        unsafe { &mut *(self.at as *mut Kept) }
    }
}
