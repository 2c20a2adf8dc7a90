//! The results of a fleet's events without the marks of an execution, whose list of sixteen hosts is costly to move.

ghost use Rattle.std.specs.Prelude.{◌≡◌};
ghost use Rattle.nvme_spec.specs.declared.outcome.Marks.{Marks};
ghost use Rattle.nvme_event.specs.Bare.{seen_with};
ghost use Rattle.nvme_event.specs.Replies.{data_len};

use crate::seen::FleetSeen;
use nvme_driver::{Answer, NotUp, PlaceRefusal, PollFault, Ticket, UpFault};
use nvme_machine::{BareExecuted, Fetched};
use nvme_spec::Marks;

/// The result of an event, without the marks of an execution.
#[derive(Clone, Copy)]
pub enum BareFleetSeen {
    /// The result of bringing the controller up.
    Up(Result<(), UpFault>),
    /// The ticket of the request, or why it was not placed.
    Placed(Result<Ticket, PlaceRefusal>),
    /// Whether the driver wrote the doorbells.
    Rung(Result<(), NotUp>),
    /// The result of the fetch.
    Fetched(Fetched),
    /// The result of the execution.
    Executed(BareExecuted),
    /// The answer that is delivered, if there is one.
    Polled(Result<Option<Answer>, PollFault>),
    /// The controller is reset.
    Reset,
    /// The bytes are stored.
    Stored,
    /// Some of the bytes are outside the memory; nothing is stored.
    Outside,
    /// The register is written.
    Wrote,
    /// Power was lost in the whole subsystem, and has returned.
    Cycled,
    /// There is no such controller.
    NoController,
    /// Its host has no driver.
    NoDriver,
    /// Its host has a driver.
    NotRaw,
}

impl BareFleetSeen {
    /// The result with these marks.
    #[inline(always)]
    pub fn with(self, marks: Marks) -> FleetSeen
        ensures { result ≡ seen_with marks self }
    {
        match self {
            BareFleetSeen::Up(up) => FleetSeen::Up(up),
            BareFleetSeen::Placed(placed) => FleetSeen::Placed(placed),
            BareFleetSeen::Rung(rung) => FleetSeen::Rung(rung),
            BareFleetSeen::Fetched(fetched) => FleetSeen::Fetched(fetched),
            BareFleetSeen::Executed(executed) => FleetSeen::Executed(executed.with(marks)),
            BareFleetSeen::Polled(polled) => FleetSeen::Polled(polled),
            BareFleetSeen::Reset => FleetSeen::Reset,
            BareFleetSeen::Stored => FleetSeen::Stored,
            BareFleetSeen::Outside => FleetSeen::Outside,
            BareFleetSeen::Wrote => FleetSeen::Wrote,
            BareFleetSeen::Cycled => FleetSeen::Cycled,
            BareFleetSeen::NoController => FleetSeen::NoController,
            BareFleetSeen::NoDriver => FleetSeen::NoDriver,
            BareFleetSeen::NotRaw => FleetSeen::NotRaw,
        }
    }

    /// The length of its data: those of a poll that delivers data.
    pub fn data_len(&self) -> usize
        ensures { (marks : Marks) → result ≡ data_len (seen_with marks self.now) }
    {
        match self {
            BareFleetSeen::Polled(Ok(Some(Answer::Done { len, .. }))) => *len,
            _ => 0,
        }
    }
}
