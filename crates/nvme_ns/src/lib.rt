//! The access state of a subsystem: its controllers with their hosts, its namespaces with their reservations and write
//! protection, and the attachments.
#![tactic(auto)]

mod checks;
mod examples;
pub mod laws;
mod namespace;
mod opening;
mod pairs;
mod refusal;
mod spaces;

pub use namespace::Namespace;
pub use nvme_spec::{Config, ConfigFault, ControllerConfig, NsConfig};
pub use refusal::{BrokenRule, ConfigReason, MAX_BLOCKS, SetupLine, refusal_of};
pub use spaces::Spaces;
