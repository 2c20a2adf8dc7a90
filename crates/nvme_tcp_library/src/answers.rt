//! Answers about associations for C.

ghost use Rattle.std.specs.Prelude.{◌≡◌};
ghost use Rattle.nvme_tcp_library.specs.Answers as def;

use crate::codes;
use crate::sessions::RawRequest;
use nvme_fabrics::{Answer as Completion, Command, Place, Request, Session};

/// The fields of a completion that an answer sets.
#[repr(C)]
#[derive(Clone, Copy)]
pub struct FabricsAnswer {
    /// `OK`; or `CLOSED`, and the other fields are 0.
    pub what: u32,
    /// Double word 0.
    pub dw0: u32,
    /// The status.
    pub sct: u8,
    pub sc: u8,
}

/// What a Connect asks for, and what it connects to.
#[repr(C)]
#[derive(Clone, Copy)]
pub struct Admitted {
    /// What it asks for, if it is not refused.
    pub request: RawRequest,
    /// The answer of the first rule that it breaks; success if there is none.
    pub answer: FabricsAnswer,
    /// `PLACE_CONTROLLER` or `PLACE_DISCOVERY`; or `REFUSED`.
    pub place: u32,
    /// The place of the controller, one less than CNTLID.
    pub index: u16,
}

/// A Fabrics command other than Connect.
#[repr(C)]
#[derive(Clone, Copy)]
pub struct Executed {
    /// The answer of the first rule that it breaks; success if there is none.
    pub answer: FabricsAnswer,
    /// Which command it is, `COMMAND_AUTHENTICATE` to `COMMAND_SET_PROPERTY`; or `REFUSED`.
    pub command: u32,
}

/// What a connection is now.
#[repr(C)]
#[derive(Clone, Copy)]
pub struct LiveSession {
    /// `OK`; or `CLOSED`, and the other fields are 0.
    pub what: u32,
    /// `SESSION_NOT_CONNECTED` to `SESSION_ENDED`.
    pub kind: u32,
    /// The place of its controller, if it has one.
    pub index: u16,
    /// The queue, if it is one.
    pub qid: u16,
}

/// The connection of a queue.
#[repr(C)]
#[derive(Clone, Copy)]
pub struct QueueConnection {
    pub connection: u64,
    /// `OK`; or `NO_QUEUE` or `CLOSED`, and the connection is 0.
    pub what: u32,
}

impl FabricsAnswer {
    /// No answer, since there are no controllers.
    pub(crate) fn closed() -> Self
        ensures { result ≡ def.closed }
    {
        FabricsAnswer {
            what: codes::CLOSED,
            dw0: 0,
            sct: 0,
            sc: 0,
        }
    }

    /// Success.
    pub(crate) fn success() -> Self
        ensures { result ≡ def.success }
    {
        FabricsAnswer {
            what: codes::OK,
            dw0: 0,
            sct: 0,
            sc: 0,
        }
    }

    /// An answer in the form for C.
    pub(crate) fn of(answer: Completion) -> Self
        ensures { result ≡ def.answer_seen answer }
    {
        FabricsAnswer {
            what: codes::OK,
            dw0: answer.dw0,
            sct: answer.status.sct,
            sc: answer.status.sc,
        }
    }

    /// The answer of the first rule that is broken, or success.
    pub(crate) fn of_rules(rules: Result<(), Completion>) -> Self
        ensures { result ≡ def.rules_seen rules }
    {
        match rules {
            Ok(()) => FabricsAnswer::success(),
            Err(answer) => FabricsAnswer::of(answer),
        }
    }
}

impl Admitted {
    /// None, with this answer.
    pub(crate) fn refused(answer: FabricsAnswer) -> Self
        ensures { result ≡ def.not_admitted answer }
    {
        Admitted {
            request: RawRequest::NONE,
            answer,
            place: codes::REFUSED,
            index: 0,
        }
    }

    /// What a Connect asks for, in the form for C.
    pub(crate) fn of(admitted: Result<(Request, Place), Completion>) -> Self
        ensures { result ≡ def.admitted_seen admitted }
    {
        let (request, place) = match admitted {
            Ok(admitted) => admitted,
            Err(answer) => return Admitted::refused(FabricsAnswer::of(answer)),
        };
        let (place, index) = match place {
            Place::Controller(index) => (codes::PLACE_CONTROLLER, index),
            Place::Discovery => (codes::PLACE_DISCOVERY, 0),
        };
        Admitted {
            request: RawRequest::of(&request),
            answer: FabricsAnswer::success(),
            place,
            index,
        }
    }
}

impl Executed {
    /// None, with this answer.
    pub(crate) fn refused(answer: FabricsAnswer) -> Self
        ensures { result ≡ def.not_executed answer }
    {
        Executed {
            answer,
            command: codes::REFUSED,
        }
    }

    /// A command in the form for C.
    pub(crate) fn of(executed: Result<Command, Completion>) -> Self
        ensures { result ≡ def.executed_seen executed }
    {
        let command = match executed {
            Ok(Command::Authenticate) => codes::COMMAND_AUTHENTICATE,
            Ok(Command::Disconnect) => codes::COMMAND_DISCONNECT,
            Ok(Command::GetProperty) => codes::COMMAND_GET_PROPERTY,
            Ok(Command::SetProperty) => codes::COMMAND_SET_PROPERTY,
            Err(answer) => return Executed::refused(FabricsAnswer::of(answer)),
        };
        Executed {
            answer: FabricsAnswer::success(),
            command,
        }
    }
}

impl LiveSession {
    /// None, since there are no controllers.
    pub(crate) fn closed() -> Self
        ensures { result ≡ def.not_live }
    {
        LiveSession {
            what: codes::CLOSED,
            kind: 0,
            index: 0,
            qid: 0,
        }
    }

    /// A session in the form for C.
    pub(crate) fn of(session: &Session) -> Self
        ensures { result ≡ def.live_seen session.now }
    {
        let (kind, index, qid) = match session {
            Session::NotConnected => (codes::SESSION_NOT_CONNECTED, 0, 0),
            Session::Authenticating(_, index) => (codes::SESSION_AUTHENTICATING, *index, 0),
            Session::Queue(index, qid) => (codes::SESSION_QUEUE, *index, *qid),
            Session::Discovery => (codes::SESSION_DISCOVERY, 0, 0),
            Session::Ended => (codes::SESSION_ENDED, 0, 0),
        };
        LiveSession {
            what: codes::OK,
            kind,
            index,
            qid,
        }
    }
}

impl QueueConnection {
    /// None, for this reason.
    pub(crate) fn without(what: u32) -> Self
        ensures { result ≡ def.without_connection what }
    {
        QueueConnection {
            connection: 0,
            what,
        }
    }

    /// The connection of a queue, if there is one.
    pub(crate) fn of(connection: Option<u64>) -> Self
        ensures { result ≡ def.connection_seen connection }
    {
        match connection {
            Some(connection) => QueueConnection {
                connection,
                what: codes::OK,
            },
            None => QueueConnection::without(codes::NO_QUEUE),
        }
    }
}
