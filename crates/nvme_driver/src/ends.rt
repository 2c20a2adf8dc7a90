//! The host's ends of the two queues of a lane (queue pair).

ghost use Rattle.std.specs.Prelude.{◌≡◌, ◌<◌, ◌==◌, true};
ghost use Rattle.nvme_spec.specs.Queues.{submission_room, can_be_heard};
ghost use Rattle.nvme_driver.specs.Layout.{completion_entries};
ghost use Rattle.nvme_driver.specs.Drivers.{empty_ends, put_ends, tail_of};
ghost use Rattle.nvme_driver.specs.Polls.{consumed_ends, head_of, phase_of};

use crate::layout::{COMPLETION_ENTRIES, SUBMISSION_ENTRIES};
use nvme_ring::{CqHead, SqTail};
use std::marker::Model;

/// The tail of a lane's submission queue and the head of its completion queue.
#[derive(Clone, Copy, Debug)]
pub struct Ends {
    tail: SqTail,
    head: CqHead,
}

impl Model for Ends {
    ghost use Rattle.std.specs.Prelude.{◌≡◌};
    ghost use Rattle.nvme_driver.specs.Layout.{submission_entries, completion_entries};
    ghost use Rattle.nvme_driver.specs.Drivers.{Ends as Record};

    ghost Value = { Record };

    ghost view = { λ e. record { tail = e.tail; head = e.head } };

    ghost invariant = { λ e. (e.tail.size ≡ submission_entries) × (e.head.size ≡ completion_entries) };

    ghost inverse = { λ e. record { tail = e.tail; head = e.head } };
}

impl Ends {
    /// The ends of empty queues.
    pub fn new() -> Ends
        ensures { result ≡ empty_ends }
    {
        Ends {
            tail: SqTail::new(SUBMISSION_ENTRIES),
            head: CqHead::new(COMPLETION_ENTRIES),
        }
    }

    /// Whether no further command can be put.
    pub fn is_full(&self) -> bool
        ensures { result ≡ (submission_room self.now.tail == 0) }
    {
        self.tail.room() == 0
    }

    /// The slot of the next command, which is also the value for the tail doorbell.
    pub fn tail(&self) -> u16
        ensures slot { result ≡ tail_of self.now }
        ensures below { result < 8 }
    {
        self.tail.slot()
    }

    /// Puts the next command, for which there must be room.
    pub fn put(&mut self)
        requires { 0 < submission_room self.old.tail }
        ensures { self.new ≡ put_ends self.old }
    {
        self.tail.advance();
    }

    /// The slot of the next completion, which is also the value for the head doorbell.
    pub fn head(&self) -> u16
        ensures slot { result ≡ head_of self.now }
        ensures below { result < completion_entries }
    {
        self.head.slot()
    }

    /// The phase tag of the next completion.
    pub fn phase(&self) -> bool
        ensures { result ≡ phase_of self.now }
    {
        self.head.phase()
    }

    /// Consumes the next completion, which has this head of the submission queue. Returns false, and ignores the head,
    /// if it is not between the last accepted one and the tail.
    pub fn consume(&mut self, sq_head: u16) -> bool
        ensures heard { result ≡ can_be_heard self.old.tail sq_head }
        ensures after { self.new ≡ consumed_ends self.old sq_head }
    {
        self.head.advance();
        self.tail.hear(sq_head)
    }
}
