//! A handle of C: the commands of a connection whose data a host sends, which may be open.

ghost use Rattle.std.specs.Prelude.{◌≡◌, Some, None, is_some, IfSome, IfNone};

use crate::transfers_slot::TransfersSlot;
use box_pointer::BoxPointer;
use nvme_transfers::Transfers;
use std::alloc::Global;
use std::mem;

/// Commands that are open, or none: `is_open` reports which.
#[repr(C)]
#[derive(Drop)]
pub struct TransfersHandle {
    pub(crate) slot: TransfersSlot,
    is_open: bool,
    ghost agrees: { is_some slot.value ≡ is_open },
}

/// A type that C may pass from one thread to another. Each implementation of this trait is proved to be `Send`.
trait Crosses: Send {}

impl Crosses for TransfersHandle {}

impl TransfersHandle {
    /// None.
    #[inline(always)]
    pub(crate) fn closed(alloc: Global) -> TransfersHandle
        ensures { result.slot.value ≡ None }
    {
        TransfersHandle {
            slot: TransfersSlot::empty(alloc),
            is_open: false,
        }
    }

    /// These.
    #[inline(always)]
    pub(crate) fn of(opened: Box<Transfers>) -> TransfersHandle
        ensures { result.slot.value ≡ Some opened.value }
    {
        TransfersHandle {
            slot: TransfersSlot::of(BoxPointer::of(opened)),
            is_open: true,
        }
    }

    /// Whether commands are open.
    #[inline(always)]
    pub(crate) fn is_open(&self) -> bool
        ensures { result ≡ is_some self.now.slot.value }
    {
        self.is_open
    }

    /// Takes the commands out, if they are open.
    #[inline(always)]
    pub(crate) fn take(&mut self, alloc: Global) -> Option<Box<Transfers>>
        ensures emptied { self.new.slot.value ≡ None }
        ensures some { IfSome result (λ opened. self.old.slot.value ≡ Some opened.value) }
        ensures none { IfNone result (self.old.slot.value ≡ None) }
    {
        let TransfersHandle { slot, is_open } = mem::replace(self, TransfersHandle::closed(alloc));
        if is_open {
            Some(slot.into_pointer().into_box())
        } else {
            None
        }
    }
}
