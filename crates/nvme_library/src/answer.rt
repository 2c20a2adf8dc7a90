//! The result of an event for C.

ghost use Rattle.std.specs.Prelude.{◌≡◌};
ghost use Rattle.nvme_library.specs.Answers.{answer_of, plain, value_answer, posted, closed};

use crate::codes;
use nvme_machine::{BareExecuted, BareOutcome, BareSeen, Fetched};

/// The result of an event: its code and its values. Values that it does not have are 0.
#[repr(C)]
#[derive(Clone, Copy)]
pub struct Answer {
    /// The value of the register, or double word 0 of the completion queue entry.
    pub value: u32,
    /// One of the numbers of `codes`.
    pub what: u32,
    /// The Status Code Type of the completion queue entry.
    pub sct: u8,
    /// Its Status Code.
    pub sc: u8,
    /// The number of the rule that denied the command, or 0 if it was allowed.
    pub rule: u8,
}

impl Answer {
    /// A code without values.
    #[inline(always)]
    pub(crate) fn plain(what: u32) -> Self
        ensures { result ≡ plain what }
    {
        Answer {
            value: 0,
            what,
            sct: 0,
            sc: 0,
            rule: 0,
        }
    }

    /// The value of a register.
    #[inline(always)]
    pub(crate) fn value(value: u32) -> Self
        ensures { result ≡ value_answer value }
    {
        Answer {
            value,
            what: codes::VALUE,
            sct: 0,
            sc: 0,
            rule: 0,
        }
    }

    /// A completion was posted.
    #[inline(always)]
    fn posted(outcome: BareOutcome) -> Self
        ensures { result ≡ posted outcome }
    {
        Answer {
            value: outcome.dw0,
            what: codes::POSTED,
            sct: outcome.status.sct,
            sc: outcome.status.sc,
            rule: outcome.rule,
        }
    }

    /// No subsystem is open.
    #[inline(always)]
    pub(crate) fn closed() -> Self
        ensures { result ≡ closed }
    {
        Answer::plain(codes::CLOSED)
    }

    /// The result of an event.
    #[inline(always)]
    pub(crate) fn of(seen: BareSeen) -> Self
        ensures { result ≡ answer_of seen }
    {
        match seen {
            BareSeen::Stored => Answer::plain(codes::STORED),
            BareSeen::Outside => Answer::plain(codes::OUTSIDE),
            BareSeen::Wrote => Answer::plain(codes::WROTE),
            BareSeen::Value(value) => Answer::value(value),
            BareSeen::Fetched(Fetched::Took) => Answer::plain(codes::TOOK),
            BareSeen::Fetched(Fetched::Idle) => Answer::plain(codes::IDLE),
            BareSeen::Executed(BareExecuted::Posted(outcome)) => Answer::posted(outcome),
            BareSeen::Executed(BareExecuted::NoSuch) => Answer::plain(codes::NO_SUCH),
            BareSeen::Executed(BareExecuted::CqFull) => Answer::plain(codes::CQ_FULL),
            BareSeen::Cycled => Answer::plain(codes::CYCLED),
            BareSeen::NoController => Answer::plain(codes::NO_CONTROLLER),
        }
    }
}
