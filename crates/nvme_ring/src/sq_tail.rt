//! A submission queue at its host.

ghost use Rattle.std.specs.Prelude.{◌≡◌, ◌<◌};
ghost use Rattle.nvme_spec.specs.Queues.{
  IsQueueSize,
  FitsSubmissionTail,
  empty_submission_tail,
  slot_of,
  submission_room,
  can_be_heard,
  after_head,
  after_put,
};

use crate::counts::{distance, next};
use std::marker::Model;

/// The tail of a submission queue: its size, the number of commands that its host has put there, modulo the size, and
/// the number of those that no completion has reported as fetched (SQ Head Pointer). Contracts see it as the record
/// `SubmissionTail` of these numbers.
#[derive(Clone, Copy, Debug)]
pub struct SqTail {
    size: u16,
    put: u16,
    unheard: u16,
}

impl Model for SqTail {
    ghost use Rattle.nvme_spec.specs.Queues.{SubmissionTail, FitsSubmissionTail};

    ghost Value = { SubmissionTail };

    ghost view = { λ q. record { size = q.size; put = q.put; unheard = q.unheard } };

    ghost invariant = { λ q. FitsSubmissionTail (record { size = q.size; put = q.put; unheard = q.unheard }) };

    ghost inverse = { λ q. record { size = q.size; put = q.put; unheard = q.unheard } };
}

impl SqTail {
    /// The tail of an empty queue of `size` entries, 2 to 64.
    pub fn new(size: u16) -> SqTail
        requires { IsQueueSize size }
        ensures { result ≡ empty_submission_tail size }
    {
        SqTail {
            size,
            put: 0,
            unheard: 0,
        }
    }

    /// Takes the head of a completion: the commands before it were fetched. Returns false, and changes nothing, if the
    /// head is not between the last accepted one and the tail.
    pub fn hear(&mut self, head: u16) -> bool
        ensures heard { result ≡ can_be_heard self.old head }
        ensures after { self.new ≡ after_head self.old head }
    {
        if head >= self.size {
            return false;
        }
        let unheard = distance(self.size, self.put, head);
        if unheard > self.unheard {
            return false;
        }
        self.unheard = unheard;
        true
    }

    /// The number of commands that can be put: one entry of a queue stays free.
    pub fn room(&self) -> u16
        ensures { result ≡ submission_room self.now }
    {
        self.size - 1 - self.unheard
    }

    /// The slot of the next command, which is also the value for the tail doorbell.
    pub fn slot(&self) -> u16
        ensures slot { result ≡ slot_of self.now.size self.now.put }
        ensures below { result < self.now.size }
        ensures fits { FitsSubmissionTail self.now }
    {
        self.put
    }

    /// Puts the next command, for which there must be room.
    pub fn advance(&mut self)
        requires { 0 < submission_room self.old }
        ensures { self.new ≡ after_put self.old }
    {
        self.put = next(self.put, self.size);
        self.unheard += 1;
    }
}
