//! Owns the commands of a handle.

ghost use Rattle.std.specs.Prelude.{◌≡◌, Option, Some, None, true, is_some};
ghost use Rattle.nvme_tcp_library.specs.HoldingTransfers.{Inside, holds};

use box_pointer::BoxPointer;
use nvme_transfers::Transfers;
use std::alloc::Global;
use std::marker::Model;
use std::ptr;

/// The address of commands on the heap, or nothing.
#[repr(C)]
#[derive(Drop)]
pub struct TransfersSlot {
    at: *mut u8,
    alloc: Global,
    pub ghost value: { Option Inside },
}

impl Model for TransfersSlot {
    ghost also_owns = { λ slot. holds slot.alloc slot.at slot.value };
}

// The commands may move to another thread, and so may the right to free their memory.
unsafe impl Send for TransfersSlot {}

impl TransfersSlot {
    /// The address of these.
    pub(crate) fn of(pointer: BoxPointer<Transfers, Global>) -> TransfersSlot
        ensures { result.value ≡ Some pointer.value }
    {
        let BoxPointer { at, alloc } = pointer;
        TransfersSlot {
            at: at as *mut u8,
            alloc,
        }
    }

    /// The pointer of the commands.
    pub(crate) fn into_pointer(self) -> BoxPointer<Transfers, Global>
        requires { is_some self.value ≡ true }
        ensures { self.value ≡ Some result.value }
    {
        let TransfersSlot { at, alloc } = self;
        BoxPointer {
            at: at as *mut Transfers,
            alloc,
        }
    }

    /// Nothing.
    pub(crate) fn empty(alloc: Global) -> TransfersSlot
        ensures { result.value ≡ None }
    {
        TransfersSlot {
            at: ptr::null_mut(),
            alloc,
        }
    }
}
