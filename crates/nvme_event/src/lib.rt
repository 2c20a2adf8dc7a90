//! The events of a fleet, with their results and replies, which fleets, scripts and transcripts use. They are in a
//! separate crate so that the proofs of scripts don't depend on fleets.
#![tactic(auto)]

mod bare;
mod event;
mod reply;
mod seen;

pub use bare::BareFleetSeen;
pub use event::FleetEvent;
pub use reply::Reply;
pub use seen::FleetSeen;
