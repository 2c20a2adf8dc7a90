//! The results of events without the marks of an execution, whose list of sixteen hosts is costly to move.

ghost use Rattle.std.specs.Prelude.{◌≡◌};
ghost use Rattle.nvme_machine.specs.Bare.{outcome_with, executed_with, seen_with};

use crate::seen::{Executed, Fetched, Seen};
use nvme_spec::{Marks, Outcome};
use nvme_wire::Status;

/// The outcome of an executed command, without its marks.
#[derive(Clone, Copy, Debug, PartialEq, Eq)]
pub struct BareOutcome {
    /// The status of the completion queue entry.
    pub status: Status,
    /// Double word 0 of the completion queue entry.
    pub dw0: u32,
    /// The number of the rule that denied the command, or 0 if it was allowed.
    pub rule: u8,
}

impl BareOutcome {
    /// The outcome with these marks.
    #[inline(always)]
    pub fn with(self, marks: Marks) -> Outcome
        ensures { result ≡ outcome_with marks self }
    {
        Outcome {
            status: self.status,
            dw0: self.dw0,
            rule: self.rule,
            marks,
        }
    }
}

/// The result of an execution, without its marks.
#[derive(Clone, Copy, Debug, PartialEq, Eq)]
pub enum BareExecuted {
    /// The command was executed, and its completion posted.
    Posted(BareOutcome),
    /// There is no such command.
    NoSuch,
    /// The completion queue is full; the command waits.
    CqFull,
}

impl BareExecuted {
    /// The result with these marks.
    #[inline(always)]
    pub fn with(self, marks: Marks) -> Executed
        ensures { result ≡ executed_with marks self }
    {
        match self {
            BareExecuted::Posted(outcome) => Executed::Posted(outcome.with(marks)),
            BareExecuted::NoSuch => Executed::NoSuch,
            BareExecuted::CqFull => Executed::CqFull,
        }
    }
}

/// The result of an event, without the marks of an execution.
#[derive(Clone, Copy, Debug, PartialEq, Eq)]
pub enum BareSeen {
    /// The bytes are stored.
    Stored,
    /// Some of the bytes are outside the memory; nothing is stored.
    Outside,
    /// The register is written.
    Wrote,
    /// The value of the register.
    Value(u32),
    /// The result of a fetch.
    Fetched(Fetched),
    /// The result of an execution.
    Executed(BareExecuted),
    /// Power was lost, and has returned.
    Cycled,
    /// There is no such controller.
    NoController,
}

impl BareSeen {
    /// The result with these marks.
    #[inline(always)]
    pub fn with(self, marks: Marks) -> Seen
        ensures { result ≡ seen_with marks self }
    {
        match self {
            BareSeen::Stored => Seen::Stored,
            BareSeen::Outside => Seen::Outside,
            BareSeen::Wrote => Seen::Wrote,
            BareSeen::Value(value) => Seen::Value(value),
            BareSeen::Fetched(fetched) => Seen::Fetched(fetched),
            BareSeen::Executed(executed) => Seen::Executed(executed.with(marks)),
            BareSeen::Cycled => Seen::Cycled,
            BareSeen::NoController => Seen::NoController,
        }
    }
}
