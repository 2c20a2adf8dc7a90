//! A submission queue at its controller.

ghost use Rattle.std.specs.Prelude.{◌≡◌, ◌<◌, ◌+◌, ◌↔◌, IsTrue};
ghost use Rattle.nvme_spec.specs.Queues.{
  IsQueueSize,
  FitsSubmissionHead,
  empty_submission_head,
  slot_of,
  after_tail_doorbell,
  after_fetch,
};

use crate::counts::{self, distance, next};
use std::marker::Model;

/// The head of a submission queue: the number of commands that its controller has fetched, modulo the size, and the
/// number of those that wait. Contracts see it as the record `SubmissionHead` of these numbers.
#[derive(Clone, Copy, Debug)]
pub struct SqHead {
    size: u16,
    fetched: u16,
    waiting: u16,
}

impl Model for SqHead {
    ghost use Rattle.nvme_spec.specs.Queues.{SubmissionHead, FitsSubmissionHead};

    ghost Value = { SubmissionHead };

    ghost view = { λ q. record { size = q.size; fetched = q.fetched; waiting = q.waiting } };

    ghost invariant = { λ q. FitsSubmissionHead (record { size = q.size; fetched = q.fetched; waiting = q.waiting }) };

    ghost inverse = { λ q. record { size = q.size; fetched = q.fetched; waiting = q.waiting } };
}

impl SqHead {
    /// The head of an empty queue of `size` entries, 2 to 64.
    pub fn new(size: u16) -> SqHead
        requires { IsQueueSize size }
        ensures { result ≡ empty_submission_head size }
    {
        SqHead {
            size,
            fetched: 0,
            waiting: 0,
        }
    }

    /// Takes the tail that the host wrote to the doorbell: the commands before it wait. The tail may move forward or
    /// back. Returns false, and changes nothing, if the tail is not a slot of the queue.
    pub fn set_doorbell(&mut self, tail: u16) -> bool
        ensures taken { IsTrue result ↔ (tail < self.old.size) }
        ensures after { self.new ≡ after_tail_doorbell self.old tail }
    {
        if tail >= self.size {
            return false;
        }
        self.waiting = distance(self.size, tail, self.fetched);
        true
    }

    /// The number of entries of the queue.
    pub fn size(&self) -> u16
        ensures { result ≡ self.now.size }
    {
        self.size
    }

    /// The tail: the slot after the last command that waits.
    pub fn tail(&self) -> u16
        ensures { result ≡ slot_of self.now.size (self.now.fetched + self.now.waiting) }
    {
        counts::slot(self.size, self.fetched + self.waiting)
    }

    /// The number of commands that wait to be fetched.
    pub fn waiting(&self) -> u16
        ensures { result ≡ self.now.waiting }
    {
        self.waiting
    }

    /// The slot of the next command, which is also the head in completions.
    pub fn slot(&self) -> u16
        ensures slot { result ≡ slot_of self.now.size self.now.fetched }
        ensures below { result < self.now.size }
        ensures fits { FitsSubmissionHead self.now }
    {
        self.fetched
    }

    /// Fetches the next command, which must exist.
    pub fn advance(&mut self)
        requires { 0 < self.old.waiting }
        ensures { self.new ≡ after_fetch self.old }
    {
        self.fetched = next(self.fetched, self.size);
        self.waiting -= 1;
    }
}
