//! The responses of a controller to the commands of one connection: which commands have none yet, and the entries that
//! answer them.
#![tactic(auto)]

mod examples;
mod laws;
mod refused;
mod reply;
mod responses;
mod stage;
mod status;

pub use refused::Refused;
pub use reply::{Reply, Response};
pub use responses::Responses;
pub use stage::Stage;
pub use status::status_field;
