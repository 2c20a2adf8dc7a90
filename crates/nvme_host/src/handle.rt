//! A handle of C: a driver that may be open.

ghost use Rattle.std.specs.Prelude.{◌≡◌, Some, None, is_some, IfSome, IfNone};

use crate::open_driver::OpenDriver;
use crate::slot::Slot;
use box_pointer::BoxPointer;
use std::alloc::Global;
use std::mem;

/// A driver that is open, or none: `is_open` reports which.
#[repr(C)]
#[derive(Drop)]
pub struct Handle {
    pub(crate) slot: Slot,
    is_open: bool,
    ghost agrees: { is_some slot.value ≡ is_open },
}

impl Handle {
    /// No open driver.
    #[inline(always)]
    pub(crate) fn closed(alloc: Global) -> Handle
        ensures { result.slot.value ≡ None }
    {
        Handle {
            slot: Slot::empty(alloc),
            is_open: false,
        }
    }

    /// This open driver.
    #[inline(always)]
    pub(crate) fn of(open_driver: Box<OpenDriver>) -> Handle
        ensures { result.slot.value ≡ Some open_driver.value }
    {
        Handle {
            slot: Slot::of(BoxPointer::of(open_driver)),
            is_open: true,
        }
    }

    /// Whether a driver is open.
    #[inline(always)]
    pub(crate) fn is_open(&self) -> bool
        ensures { result ≡ is_some self.now.slot.value }
    {
        self.is_open
    }

    /// Takes the driver out, if one is open.
    #[inline(always)]
    pub(crate) fn take(&mut self, alloc: Global) -> Option<Box<OpenDriver>>
        ensures emptied { self.new.slot.value ≡ None }
        ensures some { IfSome result (λ open_driver. self.old.slot.value ≡ Some open_driver.value) }
        ensures none { IfNone result (self.old.slot.value ≡ None) }
    {
        let Handle { slot, is_open } = mem::replace(self, Handle::closed(alloc));
        if is_open {
            Some(slot.into_pointer().into_box())
        } else {
            None
        }
    }
}
