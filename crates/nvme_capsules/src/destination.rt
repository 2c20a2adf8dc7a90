//! The destination of a command that has its data.

ghost use Rattle.std.specs.Prelude.{◌≡◌};
ghost use Rattle.nvme_capsules.specs.Destinations as def;

use crate::capsule::AUTHENTICATION_REQUIRED;
use crate::data_place::FABRICS;
use nvme_fabrics::Session;
use nvme_wire::Status;

/// The destination of a command.
#[derive(Clone, Copy)]
pub enum Destination {
    /// A command of Fabrics.
    Fabrics,
    /// The discovery controller.
    Discovery,
    /// The Admin Queue of the controller at this place.
    Admin(u16),
    /// An I/O queue: the place of its controller, and its identifier.
    Io(u16, u16),
    /// It is not executed: this status answers it.
    Refused(Status),
}

impl Destination {
    /// The destination of a command on a connection that is this now. `has_queue` says whether the controller has the
    /// queue that the connection is.
    pub fn of(live: &Session, entry: &[u8; 64], has_queue: bool) -> Destination
        ensures { result ≡ def.destination live.now entry.now has_queue }
    {
        if entry[0] == FABRICS {
            return Destination::Fabrics;
        }
        match *live {
            Session::NotConnected | Session::Ended => Destination::Refused(
                Status::COMMAND_SEQUENCE_ERROR,
            ),
            Session::Authenticating(_, _) => Destination::Refused(AUTHENTICATION_REQUIRED),
            Session::Discovery => Destination::Discovery,
            Session::Queue(_, _) if !has_queue => Destination::Refused(
                Status::COMMAND_SEQUENCE_ERROR,
            ),
            Session::Queue(index, 0) => Destination::Admin(index),
            Session::Queue(index, qid) => Destination::Io(index, qid),
        }
    }
}
