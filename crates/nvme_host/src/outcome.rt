//! Results for C.

ghost use Rattle.std.specs.Prelude.{◌≡◌};
ghost use Rattle.nvme_host.specs.Outcomes.{with_code, outcome_of, bring_up_outcome, refused, placed_of};

use crate::codes;
use crate::recording_port::Need;
use nvme_driver::{Answer, PlaceRefusal, PollFault, Ticket, UpFault};

/// The result of a poll or of a bring-up. Fields that it does not have are 0.
#[repr(C)]
#[derive(Clone, Copy)]
pub struct Outcome {
    pub ticket: u64,
    /// The number of bytes of data, at the front of the buffer.
    pub len: u64,
    /// Double word 0 of the completion.
    pub dw0: u32,
    pub code: u32,
    /// Status Code Type.
    pub sct: u8,
    /// Status Code.
    pub sc: u8,
}

/// The result of placing a request: its ticket if `code` is `OK`.
#[repr(C)]
#[derive(Clone, Copy)]
pub struct Placed {
    pub ticket: u64,
    pub code: u32,
}

impl Outcome {
    pub(crate) fn with_code(code: u32) -> Outcome
        ensures { result ≡ with_code code }
    {
        Outcome {
            ticket: 0,
            len: 0,
            dw0: 0,
            code,
            sct: 0,
            sc: 0,
        }
    }

    pub(crate) fn of(polled: Result<Option<Answer>, PollFault>) -> Outcome
        ensures { result ≡ outcome_of polled }
    {
        match polled {
            Ok(None) => Outcome::with_code(codes::NOTHING),
            Ok(
                Some(
                    Answer::Done {
                        ticket,
                        status,
                        dw0,
                        len,
                    },
                ),
            ) => Outcome {
                ticket: ticket.0,
                len: len as u64,
                dw0,
                code: codes::DONE,
                sct: status.sct,
                sc: status.sc,
            },
            Ok(Some(Answer::Aborted { ticket })) => Outcome {
                ticket: ticket.0,
                ..Outcome::with_code(codes::ABORTED)
            },
            Err(PollFault::NotUp) => Outcome::with_code(codes::NOT_UP),
            Err(PollFault::UnknownCommand) => Outcome::with_code(codes::UNKNOWN_COMMAND),
        }
    }

    /// The result of a bring-up that wanted this of the device.
    pub(crate) fn of_bring_up(need: Need, brought_up: Result<(), UpFault>) -> Outcome
        ensures { result ≡ bring_up_outcome need brought_up }
    {
        match need {
            Need::Status => return Outcome::with_code(codes::NEEDS_STATUS),
            Need::Completion => return Outcome::with_code(codes::NEEDS_COMPLETION),
            Need::Nothing => {}
        }
        match brought_up {
            Ok(()) => Outcome::with_code(codes::OK),
            Err(UpFault::AlreadyUp) => Outcome::with_code(codes::ALREADY_UP),
            Err(UpFault::NotReady) => Outcome::with_code(codes::NOT_READY),
            Err(UpFault::NoAnswer) => Outcome::with_code(codes::NO_ANSWER),
            Err(UpFault::Refused(status)) => Outcome {
                sct: status.sct,
                sc: status.sc,
                ..Outcome::with_code(codes::REFUSED)
            },
        }
    }
}

impl Placed {
    pub(crate) fn refused(code: u32) -> Placed
        ensures { result ≡ refused code }
    {
        Placed { ticket: 0, code }
    }

    pub(crate) fn of(placed: Result<Ticket, PlaceRefusal>) -> Placed
        ensures { result ≡ placed_of placed }
    {
        match placed {
            Ok(ticket) => Placed {
                ticket: ticket.0,
                code: codes::OK,
            },
            Err(PlaceRefusal::NotReady) => Placed::refused(codes::NOT_UP),
            Err(PlaceRefusal::BadRequest) => Placed::refused(codes::BAD_REQUEST),
            Err(PlaceRefusal::NoSlot) => Placed::refused(codes::NO_SLOT),
            Err(PlaceRefusal::RingFull) => Placed::refused(codes::RING_FULL),
            Err(PlaceRefusal::TicketsExhausted) => Placed::refused(codes::NO_TICKET),
        }
    }
}
