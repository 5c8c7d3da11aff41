//! A box taken apart: its address, its allocator, and the right to free it.
ghost use Rattle.std.specs.Prelude.{◌≡◌};
ghost use Rattle.std.specs.Box.Ownership.{box_owns};

use std::alloc::Allocator;
use std::marker::Model;

// What a box is made of. It owns what the box owned.
pub(crate) struct HeldParts<T, A: Allocator> {
    pub(crate) at: *mut T,
    pub(crate) alloc: A,
    pub(crate) ghost value: { T },
}

impl<T, A: Allocator> Model for HeldParts<T, A> {
    ghost also_owns = { λ parts. box_owns (A.dealloc_token parts.alloc) T.row parts.at parts.value };
}

impl<T: Drop, A: Allocator> HeldParts<T, A> {
    // The parts of a box.
    pub(crate) fn of(whole: Box<T, A>) -> HeldParts<T, A>
        ensures { result.value ≡ whole.value }
    {
        let (at, alloc) = Box::into_raw_with_allocator(whole);
        HeldParts { at, alloc }
    }

    // The box again.
    pub(crate) fn into_box(self) -> Box<T, A>
        ensures { result.value ≡ self.value }
    {
        let HeldParts { at, alloc } = self;
        unsafe { Box::from_raw(alloc, at) }
    }
}
