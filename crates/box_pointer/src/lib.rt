//! A box as a raw pointer, for structs that C code holds: they may contain a pointer, but not a `Box`.
#![tactic(auto)]

ghost use Rattle.std.specs.Prelude.{◌≡◌};
ghost use Rattle.std.specs.Box.Ownership.{box_owns};

use std::alloc::Allocator;
use std::marker::Model;

/// The parts of a box: the address of its value, and the allocator that frees it.
pub struct BoxPointer<T, A: Allocator> {
    pub at: *mut T,
    pub alloc: A,
    pub ghost value: { T },
}

impl<T, A: Allocator> Model for BoxPointer<T, A> {
    ghost also_owns = { λ p. box_owns (A.dealloc_token p.alloc) T.row p.at p.value };
}

impl<T: Drop, A: Allocator> BoxPointer<T, A> {
    /// Splits a box into its parts. The value stays at its address.
    pub fn of(boxed: Box<T, A>) -> BoxPointer<T, A>
        ensures { result.value ≡ boxed.value }
    {
        let (at, alloc) = Box::into_raw_with_allocator(boxed);
        BoxPointer { at, alloc }
    }

    /// Makes a box of the parts again, with the same value.
    pub fn into_box(self) -> Box<T, A>
        ensures { result.value ≡ self.value }
    {
        let BoxPointer { at, alloc } = self;
        unsafe { Box::from_raw(alloc, at) }
    }
}
