//! The associations of a subsystem, and how connections become queues of its controllers.

ghost use Rattle.std.specs.Prelude.{◌≡◌, ◌<◌, ◌≤◌, IfOk, map, length, slice_get};
ghost use Rattle.nvme_fabrics.specs.Places.{place_of, place_at_controller, fits_at};
ghost use Rattle.nvme_fabrics.specs.Sessions as def;

use crate::answer::{Answer, check};
use crate::association::Controller;
use crate::choosing::controller_of;
use crate::request::Request;
use crate::session::{Judged, Place, Session, Subsystem};
use nvme_wire::Status;

/// AUTHREQ.ATR of Connect's completion: the host must authenticate itself.
const AUTHREQ_ATR: u32 = 1 << 17;

/// The controllers of a subsystem and their associations.
#[derive(Clone, Copy)]
pub struct Fabrics {
    /// Whether hosts have to authenticate themselves.
    pub has_keys: bool,
    /// The controllers by rising CNTLID, from 1.
    pub controllers: [Controller; 16],
}

impl Fabrics {
    /// A subsystem without associations, whose controllers have these hosts.
    pub fn new(hosts: &[Option<u128>; 16], has_keys: bool) -> Fabrics
        ensures { result ≡ def.no_associations hosts.now has_keys }
    {
        let mut controllers = [Controller {
            host: None,
            association: None,
        }; 16];
        for i in 0..16 {
            controllers[i] = Controller {
                host: hosts[i],
                association: None,
            };
        }
        Fabrics {
            has_keys,
            controllers,
        }
    }

    /// What a connection is now: a queue only as long as its association names it.
    pub fn live(&self, session: &Session, connection: u64) -> Session
        ensures { result ≡ def.live self.now session.now connection }
    {
        match *session {
            Session::Queue(index, qid) if self.connection(index, qid) == Some(connection) =>
                *session,
            Session::Queue(_, _) => Session::Ended,
            other => other,
        }
    }

    /// The controller at a place.
    fn controller(&self, index: u16) -> Option<Controller>
        ensures { result ≡ slice_get self.now.controllers index }
    {
        self.controllers.get(usize::from(index)).copied()
    }

    /// The connection of a queue.
    pub fn connection(&self, index: u16, qid: u16) -> Option<u64>
        ensures { result ≡ def.connection_of self.now index qid }
    {
        self.controller(index)?.association?.connection(qid)
    }

    /// What a Connect connects to, or the answer of the first rule that it breaks.
    #[tactic(auto, unfolding(crate::specs::Places::place_of))]
    fn place(&self, request: &Request, judged: &Judged) -> Result<Place, Answer>
        ensures { result ≡ place_of self.now.controllers request.now judged.now }
    {
        match judged.subsystem {
            Subsystem::Nvm => self.place_at_controller(request, judged),
            Subsystem::Discovery => {
                check(Answer::of(1, 0x84), judged.is_known)?;
                check(Answer::in_entry(42), request.qid == 0)?;
                Ok(Place::Discovery)
            }
            Subsystem::Other => Err(Answer::in_data(256)),
        }
    }

    /// A controller has to fit, too.
    fn place_at_controller(&self, request: &Request, judged: &Judged) -> Result<Place, Answer>
        ensures { result ≡ place_at_controller self.now.controllers request.now judged.now }
    {
        check(Answer::of(1, 0x84), judged.is_known && judged.is_allowed)?;
        let index = controller_of(&self.controllers, request, &judged.authenticating)?;
        self.admits(index, request, judged.is_enabled)?;
        Ok(Place::Controller(index))
    }

    /// Whether a request may have its queue at the controller at a place; else the answer of the first rule that is
    /// broken.
    pub fn admits(&self, index: u16, request: &Request, is_enabled: bool) -> Result<(), Answer>
        ensures { result ≡ fits_at (slice_get self.now.controllers index) request.now is_enabled }
    {
        match self.controller(index) {
            Some(controller) => controller.admits(request, is_enabled),
            None => Err(Answer::in_data(16)),
        }
    }

    /// What a Connect asks for, and what `connect` will connect it to; or the answer of the first rule that it breaks.
    pub fn admitted(
        &self,
        session: &Session,
        entry: &[u8; 64],
        bytes: &[u8; 1024],
        judged: &Judged,
    ) -> Result<(Request, Place), Answer>
        ensures { result ≡ def.admitted self.now session.now entry.now bytes.now judged.now }
    {
        if !matches!(session, Session::NotConnected) {
            return Err(Answer::of(0, 0x0c));
        }
        let request = Request::of(entry, bytes, judged.is_whole)?;
        let place = self.place(&request, judged)?;
        Ok((request, place))
    }

    /// Executes a Connect on a connection. A refused one changes nothing.
    pub fn connect(
        &mut self,
        session: &mut Session,
        connection: u64,
        entry: &[u8; 64],
        bytes: &[u8; 1024],
        judged: &Judged,
    ) -> Answer
        ensures fabrics { self.new
            ≡ (def.connect self.old session.old connection entry.now bytes.now judged.now).fabrics }
        ensures session { session.new
            ≡ (def.connect self.old session.old connection entry.now bytes.now judged.now).session }
        ensures answer { result ≡ (def.connect self.old session.old connection entry.now bytes.now judged.now).answer }
    {
        let (request, place) = match self.admitted(session, entry, bytes, judged) {
            Ok(admitted) => admitted,
            Err(answer) => return answer,
        };
        match place {
            Place::Discovery => {
                *session = Session::Discovery;
                Answer::with_cntlid((connection % 0xffef) as u32 + 1)
            }
            Place::Controller(index) if self.has_keys => {
                *session = Session::Authenticating(request, index);
                Answer::with_cntlid(u32::from(index) + 1 + AUTHREQ_ATR)
            }
            Place::Controller(index) => {
                if let Err(answer) = creation(&request, judged.created) {
                    return answer;
                }
                self.enter(connection, &request, index);
                *session = Session::Queue(index, request.qid);
                Answer::with_cntlid(u32::from(index) + 1)
            }
        }
    }

    /// The host of a connection has authenticated itself: the connection becomes the queue that its Connect asked for,
    /// or ends. Any other connection stays what it is.
    pub fn authenticate(
        &mut self,
        session: &mut Session,
        connection: u64,
        is_enabled: bool,
        created: Status,
    ) -> Answer
        ensures fabrics { self.new ≡ (def.authenticated self.old session.old connection is_enabled created).fabrics }
        ensures session { session.new
            ≡ (def.authenticated self.old session.old connection is_enabled created).session }
        ensures answer { result ≡ (def.authenticated self.old session.old connection is_enabled created).answer }
    {
        let (request, index) = match *session {
            Session::Authenticating(request, index) => (request, index),
            _ => return Answer::of(0, 0),
        };
        *session = Session::Ended;
        if let Err(answer) = self.admits(index, &request, is_enabled) {
            return answer;
        }
        if let Err(answer) = creation(&request, created) {
            return answer;
        }
        self.enter(connection, &request, index);
        *session = Session::Queue(index, request.qid);
        Answer::of(0, 0)
    }

    /// A connection ends: its queue ends, and with the Admin Queue the association.
    pub fn close(&mut self, session: &mut Session, connection: u64)
        ensures fabrics { self.new ≡ def.closed self.old session.old connection }
        ensures session { session.new ≡ def.ended_session }
    {
        match self.live(session, connection) {
            Session::Queue(index, 0) => self.end(index),
            Session::Queue(index, qid) => self.end_queue(index, qid),
            _ => (),
        }
        *session = Session::Ended;
    }

    /// The association of a controller ends, if there is one.
    pub fn end(&mut self, index: u16)
        ensures { self.new ≡ def.ended self.old index }
    {
        if let Some(controller) = self.controller(index) {
            self.controllers[usize::from(index)] = Controller {
                association: None,
                ..controller
            };
        }
    }

    fn end_queue(&mut self, index: u16, qid: u16)
        ensures { self.new ≡ def.without_queue_at self.old index qid }
    {
        if let Some(controller) = self.controller(index) {
            self.controllers[usize::from(index)] = controller.with_connection(qid, None);
        }
    }

    /// The I/O queues of a controller end, since it is reset.
    pub(crate) fn end_io_queues(&mut self, index: u16)
        ensures { self.new ≡ def.without_io_queues_at self.old index }
    {
        if let Some(controller) = self.controller(index) {
            self.controllers[usize::from(index)] = controller.without_io_queues();
        }
    }

    fn enter(&mut self, connection: u64, request: &Request, index: u16)
        ensures { self.new ≡ def.with_queue_at self.old index request.now connection }
    {
        if let Some(controller) = self.controller(index) {
            self.controllers[usize::from(index)] = controller.with_queue(request, connection);
        }
    }
}

/// Whether the I/O queues of a request were created; else the answer. The Admin Queue needs none.
fn creation(request: &Request, created: Status) -> Result<(), Answer>
    ensures { result ≡ def.creation request.now created }
{
    if request.qid == 0 {
        return Ok(());
    }
    match (created.sct, created.sc) {
        (0, 0) => check(Answer::in_entry(42), request.qid <= 4),
        (1, 1) => Err(Answer::in_entry(42)),
        (1, 2) => Err(Answer::in_entry(44)),
        (sct, sc) => Err(Answer::of(sct, sc)),
    }
}
