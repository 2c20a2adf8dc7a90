//! The results of events.

use nvme_spec::Outcome;

/// The result of a fetch.
#[derive(Clone, Copy, Debug, PartialEq, Eq)]
pub enum Fetched {
    /// A command was fetched.
    Took,
    /// No command was fetched: the controller does not run, holds as many fetched commands as it can, has no such
    /// queue, or no command waits there.
    Idle,
}

/// The result of an execution.
#[derive(Drop)]
pub enum Executed {
    /// The command was executed, and its completion posted.
    Posted(Outcome),
    /// There is no such command.
    NoSuch,
    /// The completion queue is full; the command waits.
    CqFull,
}

/// The result of an event.
#[derive(Drop)]
pub enum Seen {
    /// The bytes are stored.
    Stored,
    /// Some of the bytes are outside the memory; nothing is stored.
    Outside,
    /// The register is written.
    Wrote,
    /// The value of the register.
    Value(u32),
    /// The result of the fetch.
    Fetched(Fetched),
    /// The result of the execution.
    Executed(Executed),
    /// Power was lost, and has returned.
    Cycled,
    /// There is no such controller.
    NoController,
}
