//! The subsystem: several controllers over one access state and one medium, for any interleaving of events (NVM Express
//! Base Specification 2.0: NVM Subsystem, Controllers, Namespaces).
#![tactic(auto)]

mod looking;
mod marking;
mod needing;
mod opening;
mod power;
mod reacting;
mod subsystem;

pub use marking::mark_after;
pub use nvme_machine::{Event, Executed, Fetched, Need, Seen};
pub use opening::{NewFault, controllers_of};
pub use subsystem::Subsystem;
