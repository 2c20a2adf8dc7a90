//! A handle of C: the associations of a subsystem, which may be open.

ghost use Rattle.std.specs.Prelude.{◌≡◌, Some, None, is_some, IfSome, IfNone};

use crate::slot::Slot;
use box_pointer::BoxPointer;
use nvme_fabrics::Fabrics;
use std::alloc::Global;
use std::mem;

/// Associations that are open, or none: `is_open` reports which.
#[repr(C)]
#[derive(Drop)]
pub struct FabricsHandle {
    pub(crate) slot: Slot,
    is_open: bool,
    ghost agrees: { is_some slot.value ≡ is_open },
}

/// A type that C may pass from one thread to another. Each implementation of this trait is proved to be `Send`.
trait Crosses: Send {}

impl Crosses for FabricsHandle {}

impl FabricsHandle {
    /// None.
    #[inline(always)]
    pub(crate) fn closed(alloc: Global) -> FabricsHandle
        ensures { result.slot.value ≡ None }
    {
        FabricsHandle {
            slot: Slot::empty(alloc),
            is_open: false,
        }
    }

    /// These.
    #[inline(always)]
    pub(crate) fn of(opened: Box<Fabrics>) -> FabricsHandle
        ensures { result.slot.value ≡ Some opened.value }
    {
        FabricsHandle {
            slot: Slot::of(BoxPointer::of(opened)),
            is_open: true,
        }
    }

    /// Whether associations are open.
    #[inline(always)]
    pub(crate) fn is_open(&self) -> bool
        ensures { result ≡ is_some self.now.slot.value }
    {
        self.is_open
    }

    /// Takes the associations out, if they are open.
    #[inline(always)]
    pub(crate) fn take(&mut self, alloc: Global) -> Option<Box<Fabrics>>
        ensures emptied { self.new.slot.value ≡ None }
        ensures some { IfSome result (λ opened. self.old.slot.value ≡ Some opened.value) }
        ensures none { IfNone result (self.old.slot.value ≡ None) }
    {
        let FabricsHandle { slot, is_open } = mem::replace(self, FabricsHandle::closed(alloc));
        if is_open {
            Some(slot.into_pointer().into_box())
        } else {
            None
        }
    }
}
