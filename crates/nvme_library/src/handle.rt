//! A handle of C: a subsystem that may be open.

ghost use Rattle.std.specs.Prelude.{◌≡◌, Some, None, is_some, IfSome, IfNone};
ghost use Rattle.std.proofs.Props.{props};
ghost use Rattle.nvme_lent.specs.Bytes.{as_lent};
ghost use Rattle.nvme_lent.specs.OwnOrLent.{lent_of};
ghost use Rattle.nvme_library.specs.Whole.{AreWhole, HoldsWhole};

use crate::held::Held;
use crate::slot::Slot;
use box_pointer::BoxPointer;
use nvme_brought::Room;
use nvme_lent::{OwnOrLent, ReturnedBytes};
use std::alloc::Global;
use std::mem;

/// A subsystem that is open, or none: `is_open` reports which. It also has the right to borrowed bytes that the last
/// call returned, which has no size; C takes them before its next call.
#[repr(C)]
#[derive(Drop)]
pub struct Handle {
    pub(crate) slot: Slot,
    is_open: bool,
    pub(crate) returned: ReturnedBytes,
    ghost told: { is_some slot.value ≡ is_open },
    ghost whole: { HoldsWhole slot.value } by { Prim.hlevel props },
}

/// A type that C may pass from one thread to another. Each implementation of this trait is proved to be `Send`.
trait Crosses: Send {}

impl Crosses for Handle {}

impl Handle {
    /// No open subsystem.
    #[inline(always)]
    pub(crate) fn closed(alloc: Global) -> Handle
        ensures closed { result.slot.value ≡ None }
        ensures returned { result.returned.bytes ≡ None }
    {
        Handle {
            slot: Slot::empty(alloc),
            is_open: false,
            returned: ReturnedBytes::none(),
        }
    }

    /// This open subsystem.
    #[inline(always)]
    pub(crate) fn of(subsystem: Box<Held>) -> Handle
        requires { AreWhole subsystem.value.state }
        ensures open { result.slot.value ≡ Some subsystem.value }
        ensures returned { result.returned.bytes ≡ None }
    {
        Handle {
            slot: Slot::of(BoxPointer::of(subsystem)),
            is_open: true,
            returned: ReturnedBytes::none(),
        }
    }

    /// Whether a subsystem is open.
    #[inline(always)]
    pub(crate) fn is_open(&self) -> bool
        ensures { result ≡ is_some self.now.slot.value }
    {
        self.is_open
    }

    /// Takes the subsystem out, if one is open.
    #[inline(always)]
    pub(crate) fn take(&mut self, alloc: Global) -> Option<Box<Held>>
        ensures emptied { self.new.slot.value ≡ None }
        ensures returned { self.new.returned.bytes ≡ None }
        ensures some { IfSome result (λ subsystem. self.old.slot.value ≡ Some subsystem.value) }
        ensures whole { IfSome result (λ subsystem. AreWhole subsystem.value.state) }
        ensures none { IfNone result (self.old.slot.value ≡ None) }
    {
        let Handle { slot, is_open, .. } = mem::replace(self, Handle::closed(alloc));
        if is_open {
            Some(slot.into_pointer().into_box())
        } else {
            None
        }
    }

    /// Returns the borrowed bytes of this medium to C, if there are any.
    pub(crate) fn give_back(&mut self, medium: OwnOrLent)
        ensures kept { self.new.slot ≡ self.old.slot }
        ensures returned { self.new.returned.bytes ≡ lent_of medium }
    {
        self.returned = medium.into_returned();
    }

    /// Returns the bytes of a room to C.
    pub(crate) fn give_back_room(&mut self, room: Room)
        ensures kept { self.new.slot ≡ self.old.slot }
        ensures returned { self.new.returned.bytes ≡ Some (as_lent room.buffer) }
    {
        self.returned = ReturnedBytes::of(room.into_buffer());
    }
}
