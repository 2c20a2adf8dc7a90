//! The results of a fleet's events.

ghost use Rattle.std.specs.Prelude.{◌≡◌};
ghost use Rattle.nvme_event.specs.Replies.{data_len};

use nvme_driver::{Answer, NotUp, PlaceRefusal, PollFault, Ticket, UpFault};
use nvme_machine::{Executed, Fetched};

/// The result of an event.
#[derive(Drop)]
pub enum FleetSeen {
    /// The result of bringing the controller up.
    Up(Result<(), UpFault>),
    /// The ticket of the request, or why it was not placed.
    Placed(Result<Ticket, PlaceRefusal>),
    /// Whether the driver wrote the doorbells.
    Rung(Result<(), NotUp>),
    /// The result of the fetch.
    Fetched(Fetched),
    /// The result of the execution.
    Executed(Executed),
    /// The answer that is delivered, if there is one.
    Polled(Result<Option<Answer>, PollFault>),
    /// The controller is reset.
    Reset,
    /// The bytes are stored.
    Stored,
    /// Some of the bytes are outside the memory; nothing is stored.
    Outside,
    /// The register is written.
    Wrote,
    /// Power was lost in the whole subsystem, and has returned.
    Cycled,
    /// There is no such controller.
    NoController,
    /// Its host has no driver.
    NoDriver,
    /// Its host has a driver.
    NotRaw,
}

impl FleetSeen {
    /// The length of its data: those of a poll that delivers data.
    pub fn data_len(&self) -> usize
        ensures { result ≡ data_len self.now }
    {
        match self {
            FleetSeen::Polled(Ok(Some(Answer::Done { len, .. }))) => *len,
            _ => 0,
        }
    }
}
