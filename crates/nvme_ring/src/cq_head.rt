//! A completion queue at its host.

ghost use Rattle.std.specs.Prelude.{◌≡◌, ◌<◌};
ghost use Rattle.nvme_spec.specs.Queues.{
  IsQueueSize,
  FitsCompletionHead,
  empty_completion_head,
  slot_of,
  phase_tag,
  after_consumption,
};

use crate::counts::{self, next};
use std::marker::Model;

/// The head of a completion queue: its size, and the number of completions that its host has consumed, modulo twice the
/// size. Contracts see it as the record `CompletionHead` of these numbers.
#[derive(Clone, Copy, Debug)]
pub struct CqHead {
    size: u16,
    consumed: u16,
}

impl Model for CqHead {
    ghost use Rattle.nvme_spec.specs.Queues.{CompletionHead, FitsCompletionHead};

    ghost Value = { CompletionHead };

    ghost view = { λ q. record { size = q.size; consumed = q.consumed } };

    ghost invariant = { λ q. FitsCompletionHead (record { size = q.size; consumed = q.consumed }) };

    ghost inverse = { λ q. record { size = q.size; consumed = q.consumed } };
}

impl CqHead {
    /// The head of an empty queue of `size` entries, 2 to 64.
    pub fn new(size: u16) -> CqHead
        requires { IsQueueSize size }
        ensures { result ≡ empty_completion_head size }
    {
        CqHead { size, consumed: 0 }
    }

    /// The slot of the next completion, which is also the value for the head doorbell.
    pub fn slot(&self) -> u16
        ensures slot { result ≡ slot_of self.now.size self.now.consumed }
        ensures below { result < self.now.size }
        ensures fits { FitsCompletionHead self.now }
    {
        counts::slot(self.size, self.consumed)
    }

    /// The phase tag of the next completion. An entry in its slot with the inverse phase tag is an old one.
    pub fn phase(&self) -> bool
        ensures { result ≡ phase_tag self.now.size self.now.consumed }
    {
        counts::phase(self.size, self.consumed)
    }

    /// Consumes the next completion.
    pub fn advance(&mut self)
        ensures { self.new ≡ after_consumption self.old }
    {
        self.consumed = next(self.consumed, 2 * self.size);
    }
}
