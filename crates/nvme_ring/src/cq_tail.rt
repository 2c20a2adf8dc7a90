//! A completion queue at its controller.

ghost use Rattle.std.specs.Prelude.{◌≡◌, ◌<◌, ◌↔◌, IsTrue};
ghost use Rattle.nvme_spec.specs.Queues.{
  IsQueueSize,
  FitsCompletionTail,
  empty_completion_tail,
  ahead,
  slot_of,
  phase_tag,
  completion_room,
  after_head_doorbell,
  after_post,
};

use crate::counts::{self, distance, next};
use std::marker::Model;

/// The tail of a completion queue: its size, the number of posted completions modulo twice the size, and the number of
/// posted completions that the host has not consumed. Contracts see it as the record `CompletionTail` of these numbers.
#[derive(Clone, Copy, Debug)]
pub struct CqTail {
    size: u16,
    posted: u16,
    unread: u16,
}

impl Model for CqTail {
    ghost use Rattle.nvme_spec.specs.Queues.{CompletionTail, FitsCompletionTail};

    ghost Value = { CompletionTail };

    ghost view = { λ q. record { size = q.size; posted = q.posted; unread = q.unread } };

    ghost invariant = { λ q. FitsCompletionTail (record { size = q.size; posted = q.posted; unread = q.unread }) };

    ghost inverse = { λ q. record { size = q.size; posted = q.posted; unread = q.unread } };
}

impl CqTail {
    /// The tail of an empty queue of `size` entries, 2 to 64.
    pub fn new(size: u16) -> CqTail
        requires { IsQueueSize size }
        ensures { result ≡ empty_completion_tail size }
    {
        CqTail {
            size,
            posted: 0,
            unread: 0,
        }
    }

    /// Takes the head that the host wrote to the doorbell: the completions from there are unread. Returns false, and
    /// changes nothing, if the head is not a slot of the queue.
    pub fn set_doorbell(&mut self, head: u16) -> bool
        ensures taken { IsTrue result ↔ (head < self.old.size) }
        ensures after { self.new ≡ after_head_doorbell self.old head }
    {
        if head >= self.size {
            return false;
        }
        self.unread = distance(self.size, counts::slot(self.size, self.posted), head);
        true
    }

    /// The number of completions that can be posted now: one entry of the queue always stays free.
    pub fn room(&self) -> u16
        ensures { result ≡ completion_room self.now }
    {
        self.size - 1 - self.unread
    }

    /// The number of entries of the queue.
    pub fn size(&self) -> u16
        ensures { result ≡ self.now.size }
    {
        self.size
    }

    /// The head: the slot of the first completion that the host has not consumed, by the doorbell.
    pub fn head(&self) -> u16
        ensures { result ≡ ahead self.now.size (slot_of self.now.size self.now.posted) self.now.unread }
    {
        distance(self.size, counts::slot(self.size, self.posted), self.unread)
    }

    /// The slot of the next completion.
    pub fn slot(&self) -> u16
        ensures slot { result ≡ slot_of self.now.size self.now.posted }
        ensures below { result < self.now.size }
        ensures fits { FitsCompletionTail self.now }
    {
        counts::slot(self.size, self.posted)
    }

    /// The phase tag of the next completion.
    pub fn phase(&self) -> bool
        ensures { result ≡ phase_tag self.now.size self.now.posted }
    {
        counts::phase(self.size, self.posted)
    }

    /// Posts the next completion, for which there must be room.
    pub fn advance(&mut self)
        requires { 0 < completion_room self.old }
        ensures { self.new ≡ after_post self.old }
    {
        self.posted = next(self.posted, 2 * self.size);
        self.unread += 1;
    }
}
