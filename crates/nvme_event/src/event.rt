//! The events of a fleet.

ghost use Rattle.std.specs.Prelude.{◌≡◌};
ghost use Rattle.nvme_event.specs.Events.{controller_of};

use nvme_driver::Request;

/// One event: of the host whose controller has this identifier (CNTLID), or of all.
#[derive(Clone, Copy)]
pub enum FleetEvent<'a> {
    /// Its driver brings the controller up.
    BringUp(u16),
    /// Its driver places a request.
    Place(u16, Request<'a>),
    /// Its driver writes the doorbells, so that the controller sees the placed requests.
    Ring(u16),
    /// Its controller fetches a command from the submission queue of this identifier.
    Fetch(u16, u16),
    /// Its controller executes the command at this place, from 0, of those that it has fetched.
    Execute(u16, usize),
    /// Its driver delivers an answer.
    Poll(u16),
    /// Its driver resets the controller.
    Reset(u16),
    /// The host, which has no driver, stores bytes at an address.
    RawStore(u16, u64, &'a [u8]),
    /// The host, which has no driver, writes a register: the offset, and the value.
    RawWrite32(u16, u64, u32),
    /// Power is lost in the whole subsystem, and returns; every driver resets its controller.
    PowerCycle,
}

impl FleetEvent<'_> {
    /// The identifier of its controller; 0 for a power cycle, since no controller has that.
    pub fn cntlid(&self) -> u16
        ensures { result ≡ controller_of self.now }
    {
        match self {
            FleetEvent::BringUp(cntlid)
            | FleetEvent::Place(cntlid, _)
            | FleetEvent::Ring(cntlid)
            | FleetEvent::Fetch(cntlid, _)
            | FleetEvent::Execute(cntlid, _)
            | FleetEvent::Poll(cntlid)
            | FleetEvent::Reset(cntlid)
            | FleetEvent::RawStore(cntlid, _, _)
            | FleetEvent::RawWrite32(cntlid, _, _) => *cntlid,
            FleetEvent::PowerCycle => 0,
        }
    }
}
