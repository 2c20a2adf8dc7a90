//! Command capsules: which of a connection's commands are refused, where the data of the others are, and which
//! controller each is for.
#![tactic(auto)]

mod capsule;
mod connect_stage;
mod data_place;
mod destination;
mod examples;
mod laws;
mod outcome;
mod taking;

pub use capsule::Capsule;
pub use connect_stage::ConnectStage;
pub use data_place::DataPlace;
pub use destination::Destination;
pub use outcome::{Data, Outcome};
pub use taking::take;
