//! What C keeps and says of a connection: its session, what its Connect asks for, and what a Connect is judged by.

ghost use Rattle.std.specs.Prelude.{◌≡◌, ◌+◌, ◌*◌, ◌/◌, ◌%◌, ◌^◌};
ghost use Rattle.nvme_tcp_library.specs.Sessions as def;

use crate::codes;
use nvme_fabrics::{Judged, Request, Session, Subsystem};
use nvme_wire::Status;

/// What a Connect asks for.
#[repr(C)]
#[derive(Clone, Copy)]
pub struct RawRequest {
    /// HOSTID, its lower and its higher 64 bits.
    pub host_low: u64,
    pub host_high: u64,
    /// HOSTNQN: a text, NUL, and anything.
    pub host_nqn: [u8; 256],
    /// CNTLID; FFFFh is any controller of the host.
    pub cntlid: u16,
    /// QID: 0 is the Admin Queue.
    pub qid: u16,
    /// The number of entries of the queue, SQSIZE and one.
    pub entries: u16,
}

/// What a connection is, which C keeps between calls. C chooses its number; all else is zero at first.
#[repr(C)]
#[derive(Clone, Copy)]
pub struct RawSession {
    /// The number of the connection, which no other has.
    pub connection: u64,
    /// What it has to authenticate itself for. Only `SESSION_AUTHENTICATING` has this.
    pub request: RawRequest,
    /// `SESSION_NOT_CONNECTED` to `SESSION_ENDED`; others have ended.
    pub kind: u32,
    /// The place of its controller, one less than CNTLID.
    pub index: u16,
    /// The queue. Only `SESSION_QUEUE` has this.
    pub qid: u16,
}

/// What C knows of a Connect.
#[repr(C)]
#[derive(Clone, Copy)]
pub struct RawJudged {
    /// The number of hosts that authenticate themselves for each controller.
    pub authenticating: [u32; 16],
    /// The subsystem that SUBNQN names: `SUBSYSTEM_NVM`, `SUBSYSTEM_DISCOVERY`, or another.
    pub subsystem: u32,
    /// Whether the command's data are 1,024 bytes.
    pub is_whole: bool,
    /// Whether the host has a key, if hosts need one.
    pub is_known: bool,
    /// Whether the host may connect from its address.
    pub is_allowed: bool,
    /// Whether the Admin Queue of the controller is enabled.
    pub is_enabled: bool,
    /// The status of the creation of the I/O queues.
    pub created_sct: u8,
    pub created_sc: u8,
}

/// A host identifier of two halves.
pub(crate) fn host_id(low: u64, high: u64) -> u128
    ensures { result ≡ high * 2 ^ 64 + low }
{
    u128::from(high) * 0x1_0000_0000_0000_0000 + u128::from(low)
}

impl RawRequest {
    /// No request.
    pub(crate) const NONE: RawRequest = RawRequest {
        host_low: 0,
        host_high: 0,
        host_nqn: [0; 256],
        cntlid: 0,
        qid: 0,
        entries: 0,
    };

    /// A request in the form for C.
    pub(crate) fn of(request: &Request) -> Self
        ensures { result ≡ def.request_seen request.now }
    {
        RawRequest {
            host_low: (request.host_id % 0x1_0000_0000_0000_0000) as u64,
            host_high: (request.host_id / 0x1_0000_0000_0000_0000) as u64,
            host_nqn: request.host_nqn,
            cntlid: request.cntlid,
            qid: request.qid,
            entries: request.entries,
        }
    }

    /// The request.
    pub(crate) fn request(&self) -> Request
        ensures { result ≡ def.request_of self.now }
    {
        Request {
            host_id: host_id(self.host_low, self.host_high),
            host_nqn: self.host_nqn,
            cntlid: self.cntlid,
            qid: self.qid,
            entries: self.entries,
        }
    }
}

impl RawSession {
    /// A session of the connection with this number in the form for C.
    pub(crate) fn of(connection: u64, session: &Session) -> Self
        ensures { result ≡ def.session_seen connection session.now }
    {
        let none = RawSession {
            connection,
            request: RawRequest::NONE,
            kind: codes::SESSION_NOT_CONNECTED,
            index: 0,
            qid: 0,
        };
        match session {
            Session::NotConnected => none,
            Session::Authenticating(request, index) => RawSession {
                request: RawRequest::of(request),
                kind: codes::SESSION_AUTHENTICATING,
                index: *index,
                ..none
            },
            Session::Queue(index, qid) => RawSession {
                kind: codes::SESSION_QUEUE,
                index: *index,
                qid: *qid,
                ..none
            },
            Session::Discovery => RawSession {
                kind: codes::SESSION_DISCOVERY,
                ..none
            },
            Session::Ended => RawSession {
                kind: codes::SESSION_ENDED,
                ..none
            },
        }
    }

    /// The session.
    pub(crate) fn session(&self) -> Session
        ensures { result ≡ def.session_of self.now }
    {
        match self.kind {
            codes::SESSION_NOT_CONNECTED => Session::NotConnected,
            codes::SESSION_AUTHENTICATING => Session::Authenticating(
                self.request.request(),
                self.index,
            ),
            codes::SESSION_QUEUE => Session::Queue(self.index, self.qid),
            codes::SESSION_DISCOVERY => Session::Discovery,
            _ => Session::Ended,
        }
    }
}

impl RawJudged {
    /// What is known.
    pub(crate) fn judged(&self) -> Judged
        ensures { result ≡ def.judged_of self.now }
    {
        Judged {
            subsystem: subsystem_of(self.subsystem),
            is_whole: self.is_whole,
            is_known: self.is_known,
            is_allowed: self.is_allowed,
            is_enabled: self.is_enabled,
            created: Status {
                sct: self.created_sct,
                sc: self.created_sc,
            },
            authenticating: self.authenticating,
        }
    }
}

/// The subsystem with this number.
fn subsystem_of(number: u32) -> Subsystem
    ensures { result ≡ def.subsystem_of number }
{
    match number {
        codes::SUBSYSTEM_NVM => Subsystem::Nvm,
        codes::SUBSYSTEM_DISCOVERY => Subsystem::Discovery,
        _ => Subsystem::Other,
    }
}
