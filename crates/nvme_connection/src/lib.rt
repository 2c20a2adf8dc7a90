//! A controller's end of an NVMe/TCP connection: which bytes are which PDU, and which break the transport's rules.
#![tactic(auto)]

mod connection;
mod examples;
mod judged;
mod judging;
mod keeping;
mod laws;
mod looking;
mod raw;
mod settling;
mod stage;
mod taken;
mod taking;

pub use connection::Connection;
pub use judged::{Judged, Verdict};
pub use raw::RawConnection;
pub use stage::Stage;
pub use taken::Taken;
