//! Handles: what a C program has of a screen or an entry.
ghost use Rattle.std.specs.Prelude.{◌≡◌, None, Some};
ghost use Rattle.std.specs.Fn.{FnOnceReturnsAtMut};
ghost use Rattle.std.specs.Option.{is_some, option_map};
ghost use Rattle.huttavel_c.specs.Asking.{Makes, MakesOfEntry};

use crate::held::Held;
use crate::sessions::{Described, Kept, Session};
use std::alloc::Global;
use std::mem::replace;

/// A handle: closed, or open and holding a screen or an entry. In C it is the struct `huttavel`; all zero bytes are a
/// closed one.
#[repr(C)]
#[derive(Drop)]
pub struct Handle {
    held: Held,
    is_open: bool,
    ghost says: { is_open ≡ is_some held.value },
}

impl Handle {
    // A closed handle.
    fn closed() -> Handle
        ensures { result.held.value ≡ None }
    {
        Handle {
            held: Held::none(),
            is_open: false,
        }
    }

    // A handle that holds this.
    fn of(kept: Box<Kept>) -> Handle
        ensures { result.held.value ≡ Some kept.value }
    {
        Handle {
            held: Held::of(kept),
            is_open: true,
        }
    }

    // What a handle holds.
    fn into_held(self, alloc: Global) -> Option<Box<Kept>>
        ensures { self.held.value ≡ option_map (λ held. held.value) result }
    {
        let Handle { held, is_open } = self;
        if is_open {
            Some(held.into_box(alloc))
        } else {
            None
        }
    }

    /// Whether the handle holds something.
    pub(crate) fn is_open(&self) -> bool
        ensures { result ≡ is_some self.now.held.value }
    {
        self.is_open
    }

    /// Makes a call on the screen that the handle holds, in its place, and gives the call's answer; of a handle without a
    /// screen, this one.
    #[inline(always)]
    pub(crate) fn lend<R: Copy, F: FnOnce(&mut Session) -> R>(&mut self, closed: R, call: F) -> R
        requires { F.IsAlwaysCallable call }
        ensures { Makes (λ old new answer. FnOnceReturnsAtMut F.FnOnce call old answer new) closed self.old.held.value self.new.held.value result }
    {
        if !self.is_open {
            return closed;
        }
        match self.held.lend() {
            Kept::Screen(session) => call(session),
            Kept::Entry(_) => closed,
        }
    }

    /// The same on an entry.
    pub(crate) fn lend_entry<R: Copy, F: FnOnce(&mut Described) -> R>(
        &mut self,
        closed: R,
        call: F,
    ) -> R
        requires { F.IsAlwaysCallable call }
        ensures { MakesOfEntry (λ old new answer. FnOnceReturnsAtMut F.FnOnce call old answer new) closed self.old.held.value self.new.held.value result }
    {
        if !self.is_open {
            return closed;
        }
        match self.held.lend() {
            Kept::Screen(_) => closed,
            Kept::Entry(entry) => call(entry),
        }
    }

    /// Moves out what the handle holds, and leaves it closed.
    pub(crate) fn take(&mut self, alloc: Global) -> Option<Box<Kept>>
        ensures held { self.old.held.value ≡ option_map (λ held. held.value) result }
        ensures closed { self.new.held.value ≡ None }
    {
        replace(self, Handle::closed()).into_held(alloc)
    }

    /// Puts this into a closed handle.
    pub(crate) fn put(&mut self, kept: Box<Kept>)
        requires { self.old.held.value ≡ None }
        ensures { self.new.held.value ≡ Some kept.value }
    {
        *self = Handle::of(kept);
    }
}
