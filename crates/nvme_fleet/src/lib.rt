//! The fleet: hosts over one subsystem. Most have a driver, which reaches its controller through the memory that they
//! share; a raw host has none, and its controller gets single stores and register writes. `nvme_mailbox` defines what a
//! host may rely on, by a mailbox for each driver; `specs` relates driver and controller to it.
#![tactic(auto)]

mod driver_call;
mod fleet;
pub mod laws;
mod link;
mod member;
mod opening;
mod place;
mod poll;
mod power;
mod running;

pub use fleet::Fleet;
pub use nvme_ctrl::{CompletionQueue, Controller, FetchedCommand, SubmissionQueue};
pub use nvme_driver::{
    Answer, Driver, Lane, NotUp, PlaceRefusal, PollFault, Request, State, Ticket, UpFault, Waiting,
};
pub use nvme_event::{BareFleetSeen, FleetEvent, FleetSeen, Reply};
pub use nvme_machine::{Executed, Fetched};
pub use nvme_ns::Namespace;
pub use nvme_subsys::NewFault;
