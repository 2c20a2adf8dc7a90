//! A submission queue at its controller.

ghost use Rattle.std.specs.Prelude.{◌≡◌, ◌<◌, ◌≤◌, ◌+◌, ◌↔◌, IsTrue};
ghost use Rattle.nvme_spec.specs.Memory.{window_size};
ghost use Rattle.nvme_spec.specs.Queues.{submission_place, empty_submission_head, after_fetch, slot_of};
ghost use Rattle.nvme_spec.specs.RegisterLaws.{IsQueuePlace};
ghost use Rattle.nvme_machine.specs.Controllers.{with_tail};

use nvme_ring::SqHead;
use std::marker::Model;

/// A submission queue: its address, its completion queue, and its head. It is in host memory. Contracts see it as the
/// record of these.
#[derive(Clone, Copy, Debug)]
pub struct SubmissionQueue {
    base: u64,
    cqid: u16,
    head: SqHead,
}

impl Model for SubmissionQueue {
    ghost use Rattle.nvme_machine.specs.Controllers.{SubmissionQueue as Queue};
    ghost use Rattle.nvme_spec.specs.RegisterLaws.{IsQueuePlace};

    ghost Value = { Queue };

    ghost view = { λ q. record { base = q.base; cqid = q.cqid; head = q.head } };

    ghost invariant = { λ q. IsQueuePlace q.base q.head.size 64 };

    ghost inverse = { λ q. record { base = q.base; cqid = q.cqid; head = q.head } };
}

impl SubmissionQueue {
    /// An empty queue of `size` entries, 2 to 64, at `base`, which must begin a page, with completion queue `cqid`. The
    /// queue must be in host memory.
    pub fn new(base: u64, size: u16, cqid: u16) -> Self
        requires { IsQueuePlace base size 64 }
        ensures { result ≡ record { base = base; cqid = cqid; head = empty_submission_head size } }
    {
        SubmissionQueue {
            base,
            cqid,
            head: SqHead::new(size),
        }
    }

    /// Its address in host memory.
    pub fn base(&self) -> u64
        ensures { result ≡ self.now.base }
    {
        self.base
    }

    /// The number of entries.
    pub fn size(&self) -> u16
        ensures { result ≡ self.now.head.size }
    {
        self.head.size()
    }

    /// The tail, by its host's doorbell: the slot after the last command that waits.
    pub fn tail(&self) -> u16
        ensures { result ≡ slot_of self.now.head.size (self.now.head.fetched + self.now.head.waiting) }
    {
        self.head.tail()
    }

    /// Its completion queue.
    pub fn cqid(&self) -> u16
        ensures { result ≡ self.now.cqid }
    {
        self.cqid
    }

    /// The head, as in completions.
    pub fn head(&self) -> u16
        ensures { result ≡ self.now.head.fetched }
    {
        self.head.slot()
    }

    /// Whether a command waits to be fetched.
    pub fn waits(&self) -> bool
        ensures { IsTrue result ↔ (0 < self.now.head.waiting) }
    {
        self.head.waiting() > 0
    }

    /// The address of the next command.
    pub fn entry_address(&self) -> u64
        ensures address { result ≡ submission_place self.now.base self.now.head.size self.now.head.fetched }
        ensures inside { result + 64 ≤ window_size }
    {
        self.base + 64 * u64::from(self.head.slot())
    }

    /// Fetches the next command, which must exist.
    pub fn advance(&mut self)
        requires { 0 < self.old.head.waiting }
        ensures { self.new ≡ record self.old { head = after_fetch self.old.head } }
    {
        self.head.advance();
    }

    /// The host writes its tail to the doorbell.
    pub fn set_tail(&mut self, tail: u16)
        ensures { self.new ≡ with_tail tail self.old }
    {
        self.head.set_doorbell(tail);
    }
}
