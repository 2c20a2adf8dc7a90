//! Command capsules for C: what becomes of each, and the destination of a command that has its data.

ghost use Rattle.std.specs.Prelude.{◌≡◌};
ghost use Rattle.nvme_capsules.specs.Capsules.{stage_of};
ghost use Rattle.nvme_capsules.specs.Destinations.{destination};
ghost use Rattle.nvme_tcp_library.specs.Capsules as def;
ghost use Rattle.nvme_tcp_library.specs.Sessions.{session_of};

use crate::answers::LiveSession;
use crate::codes;
use crate::sessions::{RawRequest, RawSession};
use crate::transfers_handle::TransfersHandle;
use nvme_capsules::{Capsule, ConnectStage, Data, Destination, Outcome, take};
use nvme_fabrics::Session;
use nvme_pdu::Fatal;
use nvme_responses::Responses;
use nvme_wire::Status;
use std::alloc::Global;

/// What becomes of a command capsule.
#[repr(C)]
#[derive(Clone, Copy)]
pub struct CapsuleTaken {
    /// `OK`; `BAD_PDU`, and the connection ends; or `CLOSED`. Only at `OK` there is an outcome.
    pub what: u32,
    /// The offset of the field at fault, or 0.
    pub field: u32,
    /// `CAPSULE_REFUSED` to `CAPSULE_FROM_CONTROLLER`; or 0, if there is no outcome.
    pub outcome: u32,
    /// The offset of the first of the command's data in those of the capsule.
    pub begin: u32,
    /// The number of the command's data.
    pub length: u32,
    /// The Fatal Error Status, or 0.
    pub fatal: u16,
    /// The status of a command that is refused.
    pub sct: u8,
    pub sc: u8,
}

/// The destination of a command.
#[repr(C)]
#[derive(Clone, Copy)]
pub struct DestinationSeen {
    /// `DESTINATION_FABRICS` to `DESTINATION_REFUSED`.
    pub kind: u32,
    /// The place of the controller, if it is for one.
    pub index: u16,
    /// The I/O queue, if it is for one.
    pub qid: u16,
    /// The status of a command that is refused.
    pub sct: u8,
    pub sc: u8,
}

/// Takes a command capsule on a connection that is this: counts its command, and says what becomes of it. A command
/// that waits for its data is among `transfers` then. `BAD_PDU`: the queue has no room for the command or has ended,
/// and nothing has changed; or the command can't wait for its data. `CLOSED`: nothing has changed.
#[unsafe(no_mangle)]
pub extern "C" fn nvmesim_capsules_take(
    alloc: Global,
    responses: &mut Responses,
    transfers: &mut TransfersHandle,
    session: &RawSession,
    capsule: &Capsule,
) -> CapsuleTaken
    ensures { def.Takes session.now capsule.now responses.old transfers.old.slot.value result responses.new
        transfers.new.slot.value }
{
    let Some(mut opened) = transfers.take(alloc) else {
        return CapsuleTaken::closed();
    };
    let outcome = take(responses, &mut *opened, session.stage(), capsule);
    *transfers = TransfersHandle::of(opened);
    CapsuleTaken::of(outcome)
}

/// The destination of a command with this entry, which has its data, on a connection that is `live` now. `has_queue`
/// says whether the controller has the queue that the connection is.
#[unsafe(no_mangle)]
pub extern "C" fn nvmesim_capsules_destination(
    live: &LiveSession,
    entry: &[u8; 64],
    has_queue: bool,
) -> DestinationSeen
    ensures { result ≡ def.destination_seen (destination (def.live_of live.now) entry.now has_queue) }
{
    DestinationSeen::of(Destination::of(&live.session(), entry, has_queue))
}

const NO_STATUS: Status = Status { sct: 0, sc: 0 };

const NO_FAULT: Fatal = Fatal {
    status: 0,
    field: 0,
};

impl CapsuleTaken {
    /// No outcome, since there are no commands.
    fn closed() -> Self
        ensures { result ≡ def.no_capsule }
    {
        CapsuleTaken::ended(codes::CLOSED, NO_FAULT)
    }

    /// No outcome, for this reason.
    fn ended(what: u32, fatal: Fatal) -> Self
        ensures { result ≡ def.ended what fatal }
    {
        CapsuleTaken {
            what,
            field: fatal.field,
            outcome: 0,
            begin: 0,
            length: 0,
            fatal: fatal.status,
            sct: 0,
            sc: 0,
        }
    }

    /// A command with data at a place, or a status.
    fn at(outcome: u32, begin: u32, length: u32, status: Status) -> Self
        ensures { result ≡ def.at outcome begin length status }
    {
        CapsuleTaken {
            outcome,
            begin,
            length,
            sct: status.sct,
            sc: status.sc,
            ..CapsuleTaken::ended(codes::OK, NO_FAULT)
        }
    }

    /// An outcome in the form for C.
    fn of(outcome: Outcome) -> Self
        ensures { result ≡ def.outcome_seen outcome }
    {
        match outcome {
            Outcome::Breaks(fatal) => CapsuleTaken::ended(codes::BAD_PDU, fatal),
            Outcome::Refused(status) => CapsuleTaken::at(codes::CAPSULE_REFUSED, 0, 0, status),
            Outcome::Waits(length) => CapsuleTaken::at(codes::CAPSULE_WAITS, 0, length, NO_STATUS),
            Outcome::Ready(Data::InCapsule(begin, length)) => CapsuleTaken::at(
                codes::CAPSULE_TO_CONTROLLER,
                begin,
                length,
                NO_STATUS,
            ),
            Outcome::Ready(Data::FromController(length)) => CapsuleTaken::at(
                codes::CAPSULE_FROM_CONTROLLER,
                0,
                length,
                NO_STATUS,
            ),
        }
    }
}

impl RawSession {
    /// How far the connection is with its Connect.
    fn stage(&self) -> ConnectStage
        ensures { result ≡ stage_of (session_of self.now) }
    {
        match self.kind {
            codes::SESSION_NOT_CONNECTED => ConnectStage::NotConnected,
            codes::SESSION_AUTHENTICATING => ConnectStage::Authenticating,
            _ => ConnectStage::Connected,
        }
    }
}

impl LiveSession {
    /// The session. What it would have to authenticate itself for makes no difference.
    fn session(&self) -> Session
        ensures { result ≡ def.live_of self.now }
    {
        match self.kind {
            codes::SESSION_NOT_CONNECTED => Session::NotConnected,
            codes::SESSION_AUTHENTICATING => Session::Authenticating(
                RawRequest::NONE.request(),
                self.index,
            ),
            codes::SESSION_QUEUE => Session::Queue(self.index, self.qid),
            codes::SESSION_DISCOVERY => Session::Discovery,
            _ => Session::Ended,
        }
    }
}

impl DestinationSeen {
    /// One of this kind.
    fn at(kind: u32, index: u16, qid: u16, status: Status) -> Self
        ensures { result ≡ def.destination_at kind index qid status }
    {
        DestinationSeen {
            kind,
            index,
            qid,
            sct: status.sct,
            sc: status.sc,
        }
    }

    /// A destination in the form for C.
    fn of(destination: Destination) -> Self
        ensures { result ≡ def.destination_seen destination }
    {
        match destination {
            Destination::Fabrics => DestinationSeen::at(
                codes::DESTINATION_FABRICS,
                0,
                0,
                NO_STATUS,
            ),
            Destination::Discovery => DestinationSeen::at(
                codes::DESTINATION_DISCOVERY,
                0,
                0,
                NO_STATUS,
            ),
            Destination::Admin(index) => DestinationSeen::at(
                codes::DESTINATION_ADMIN,
                index,
                0,
                NO_STATUS,
            ),
            Destination::Io(index, qid) => DestinationSeen::at(
                codes::DESTINATION_IO,
                index,
                qid,
                NO_STATUS,
            ),
            Destination::Refused(status) => DestinationSeen::at(
                codes::DESTINATION_REFUSED,
                0,
                0,
                status,
            ),
        }
    }
}
