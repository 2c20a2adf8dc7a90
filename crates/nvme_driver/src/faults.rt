//! Why a driver refuses a call. The text of each fault is its name.

ghost use Rattle.std.specs.Prelude.{Some, codes};
ghost use Rattle.nvme_driver.specs.FaultNames.{up_fault_text, refusal_text, poll_fault_text};

use nvme_wire::Status;
use std::fmt;

/// Why a driver did not come up.
#[derive(Clone, Copy, Debug, PartialEq, Eq)]
pub enum UpFault {
    /// It is up already, or has failed and was not reset.
    AlreadyUp,
    /// The controller's status is not ready.
    NotReady,
    /// The controller did not answer one of the driver's own commands within four turns.
    NoAnswer,
    /// The controller refused one of them, with this status.
    Refused(Status),
}

/// Why a request was not placed.
#[derive(Clone, Copy, Debug, PartialEq, Eq)]
pub enum PlaceRefusal {
    /// The driver is not up.
    NotReady,
    /// No command can express the request.
    BadRequest,
    /// Every slot holds a request that was not delivered.
    NoSlot,
    /// By the heads of completions, all commands that fit the queue may still wait there.
    RingFull,
    /// Every ticket was issued.
    TicketsExhausted,
}

/// The driver is not up.
#[derive(Clone, Copy, Debug, PartialEq, Eq)]
pub struct NotUp;

/// Why a poll delivered no answer.
#[derive(Clone, Copy, Debug, PartialEq, Eq)]
pub enum PollFault {
    /// The driver is not up.
    NotUp,
    /// A new completion answers no request that waits. It was not consumed, and the driver has failed.
    UnknownCommand,
}

impl fmt::Display for UpFault {
    ghost output = { λ fault. Some (up_fault_text fault) };

    fn fmt<W: fmt::Write>(&self, f: &mut fmt::Formatter<W>) -> fmt::Result {
        match self {
            UpFault::AlreadyUp => f.write_str("AlreadyUp"),
            UpFault::NotReady => f.write_str("NotReady"),
            UpFault::NoAnswer => f.write_str("NoAnswer"),
            UpFault::Refused(status) => write!(f, "Refused {status}"),
        }
    }
}

impl fmt::Display for PlaceRefusal {
    ghost output = { λ refusal. Some (refusal_text refusal) };

    fn fmt<W: fmt::Write>(&self, f: &mut fmt::Formatter<W>) -> fmt::Result {
        match self {
            PlaceRefusal::NotReady => f.write_str("NotReady"),
            PlaceRefusal::BadRequest => f.write_str("BadRequest"),
            PlaceRefusal::NoSlot => f.write_str("NoSlot"),
            PlaceRefusal::RingFull => f.write_str("RingFull"),
            PlaceRefusal::TicketsExhausted => f.write_str("TicketsExhausted"),
        }
    }
}

impl fmt::Display for NotUp {
    ghost output = { λ _. Some (codes "NotUp") };

    fn fmt<W: fmt::Write>(&self, f: &mut fmt::Formatter<W>) -> fmt::Result {
        f.write_str("NotUp")
    }
}

impl fmt::Display for PollFault {
    ghost output = { λ fault. Some (poll_fault_text fault) };

    fn fmt<W: fmt::Write>(&self, f: &mut fmt::Formatter<W>) -> fmt::Result {
        match self {
            PollFault::NotUp => f.write_str("NotUp"),
            PollFault::UnknownCommand => f.write_str("UnknownCommand"),
        }
    }
}
