//! A completion queue at its controller.

ghost use Rattle.std.specs.Prelude.{◌≡◌, ◌<◌, ◌≤◌, ◌+◌, ◌↔◌, IsTrue};
ghost use Rattle.nvme_spec.specs.Memory.{window_size};
ghost use Rattle.nvme_spec.specs.Queues.{ahead, completion_room, phase_tag, empty_completion_tail, after_post, slot_of};
ghost use Rattle.nvme_spec.specs.RegisterLaws.{IsQueuePlace};
ghost use Rattle.nvme_machine.specs.Controllers.{completion_slot, with_head};

use nvme_ring::CqTail;
use std::marker::Model;

/// A completion queue: its address and its tail. It is in host memory. Contracts see it as the record of these.
#[derive(Clone, Copy, Debug)]
pub struct CompletionQueue {
    base: u64,
    tail: CqTail,
}

impl Model for CompletionQueue {
    ghost use Rattle.nvme_machine.specs.Controllers.{CompletionQueue as Queue};
    ghost use Rattle.nvme_spec.specs.RegisterLaws.{IsQueuePlace};

    ghost Value = { Queue };

    ghost view = { λ q. record { base = q.base; tail = q.tail } };

    ghost invariant = { λ q. IsQueuePlace q.base q.tail.size 16 };

    ghost inverse = { λ q. record { base = q.base; tail = q.tail } };
}

impl CompletionQueue {
    /// An empty queue of `size` entries, 2 to 64, at `base`, which must begin a page. The queue must be in host memory.
    pub fn new(base: u64, size: u16) -> Self
        requires { IsQueuePlace base size 16 }
        ensures { result ≡ record { base = base; tail = empty_completion_tail size } }
    {
        CompletionQueue {
            base,
            tail: CqTail::new(size),
        }
    }

    /// Its address in host memory.
    pub fn base(&self) -> u64
        ensures { result ≡ self.now.base }
    {
        self.base
    }

    /// The number of entries.
    pub fn size(&self) -> u16
        ensures { result ≡ self.now.tail.size }
    {
        self.tail.size()
    }

    /// The tail: the slot of the next completion.
    pub fn tail(&self) -> u16
        ensures { result ≡ slot_of self.now.tail.size self.now.tail.posted }
    {
        self.tail.slot()
    }

    /// The head, by its host's doorbell: the slot of the first completion that the host has not consumed.
    pub fn head(&self) -> u16
        ensures { result ≡ ahead self.now.tail.size (slot_of self.now.tail.size self.now.tail.posted)
            self.now.tail.unread }
    {
        self.tail.head()
    }

    /// Whether a completion can be posted.
    pub fn has_room(&self) -> bool
        ensures { IsTrue result ↔ (0 < completion_room self.now.tail) }
    {
        self.tail.room() > 0
    }

    /// The address of the next completion.
    pub fn entry_address(&self) -> u64
        ensures address { result ≡ completion_slot self.now }
        ensures inside { result + 16 ≤ window_size }
    {
        self.base + 16 * u64::from(self.tail.slot())
    }

    /// The phase tag of the next completion.
    pub fn phase(&self) -> bool
        ensures { result ≡ phase_tag self.now.tail.size self.now.tail.posted }
    {
        self.tail.phase()
    }

    /// Posts the next completion, for which there must be room.
    pub fn advance(&mut self)
        requires { 0 < completion_room self.old.tail }
        ensures { self.new ≡ record self.old { tail = after_post self.old.tail } }
    {
        self.tail.advance();
    }

    /// The host writes its head to the doorbell.
    pub fn set_head(&mut self, head: u16)
        ensures { self.new ≡ with_head head self.old }
    {
        self.tail.set_doorbell(head);
    }
}
