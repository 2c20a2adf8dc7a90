//! Owns the associations of a handle.

ghost use Rattle.std.specs.Prelude.{◌≡◌, Option, Some, None, true, is_some};
ghost use Rattle.nvme_tcp_library.specs.Holding.{Inside, holds};

use box_pointer::BoxPointer;
use nvme_fabrics::Fabrics;
use std::alloc::Global;
use std::marker::Model;
use std::ptr;

/// The address of associations on the heap, or nothing.
#[repr(C)]
#[derive(Drop)]
pub struct Slot {
    at: *mut u8,
    alloc: Global,
    pub ghost value: { Option Inside },
}

impl Model for Slot {
    ghost also_owns = { λ slot. holds slot.alloc slot.at slot.value };
}

// The associations may move to another thread, and so may the right to free its memory.
unsafe impl Send for Slot {}

impl Slot {
    /// The address of this one.
    pub(crate) fn of(pointer: BoxPointer<Fabrics, Global>) -> Slot
        ensures { result.value ≡ Some pointer.value }
    {
        let BoxPointer { at, alloc } = pointer;
        Slot {
            at: at as *mut u8,
            alloc,
        }
    }

    /// The pointer of the associations.
    pub(crate) fn into_pointer(self) -> BoxPointer<Fabrics, Global>
        requires { is_some self.value ≡ true }
        ensures { self.value ≡ Some result.value }
    {
        let Slot { at, alloc } = self;
        BoxPointer {
            at: at as *mut Fabrics,
            alloc,
        }
    }

    /// Nothing.
    pub(crate) fn empty(alloc: Global) -> Slot
        ensures { result.value ≡ None }
    {
        Slot {
            at: ptr::null_mut(),
            alloc,
        }
    }
}
