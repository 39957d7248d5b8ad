//! A `Box` as a pointer and the handle of its allocator, for one that goes out of Rattle's sight and comes back, as into a struct that C keeps.
#![tactic(auto)]

ghost use Rattle.std.specs.Prelude.{◌≡◌};
ghost use Rattle.std.specs.Box.Ownership.{box_owns};

use std::alloc::Allocator;
use std::marker::Model;

/// What a box is made of. It owns what the box owned: the block under `at`, with `value` in it.
pub struct RawBox<T, A: Allocator> {
    /// Where the value lies.
    pub at: *mut T,
    /// The allocator that the block is from.
    pub alloc: A,
    /// The value.
    pub ghost value: { T },
}

impl<T, A: Allocator> Model for RawBox<T, A> {
    ghost also_owns = { λ raw. box_owns (A.dealloc_token raw.alloc) T.row raw.at raw.value };
}

impl<T, A: Allocator> RawBox<T, A> {
    /// Takes a box apart.
    pub fn of(boxed: Box<T, A>) -> RawBox<T, A>
    where
        T: Drop,
        ensures { result.value ≡ boxed.value }
    {
        let (at, alloc) = Box::into_raw_with_allocator(boxed);
        RawBox { at, alloc }
    }

    /// Puts the box together again.
    pub fn into_box(self) -> Box<T, A>
        ensures { result.value ≡ self.value }
    {
        let RawBox { at, alloc } = self;
        unsafe { Box::from_raw(alloc, at) }
    }
}
