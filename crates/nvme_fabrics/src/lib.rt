//! Fabrics: which connection is a queue of which controller, by Connect, authentication, Disconnect and Property Set.
#![tactic(auto)]

mod answer;
mod association;
mod choosing;
mod command;
mod examples;
mod fabrics;
mod laws;
mod request;
mod session;

pub use answer::Answer;
pub use association::{Association, Controller};
pub use command::Command;
pub use fabrics::Fabrics;
pub use request::Request;
pub use session::{Judged, Place, Session, Subsystem};
