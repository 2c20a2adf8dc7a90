//! NVMe/TCP as a part of the library for C: PDUs, connections, which connection is a queue of which controller, which
//! data are whose, and their place in the memory of a controller's host. An export repeats the contract of the call
//! that it makes. No export has a `requires`, since nothing would check that C meets it.
#![tactic(auto)]

pub mod answers;
pub mod buffers;
pub mod capsules;
mod codes;
pub mod connecting;
pub mod connections;
pub mod ending;
mod examples;
mod handle;
pub mod journals;
mod laws;
pub mod opening;
pub mod parts;
pub mod pdus;
pub mod responses;
mod sessions;
mod slot;
pub mod transfers;
mod transfers_handle;
mod transfers_slot;

pub use answers::{Admitted, Executed, FabricsAnswer, LiveSession, QueueConnection};
pub use capsules::{CapsuleTaken, DestinationSeen};
pub use connections::{Taken, Verdict};
pub use handle::FabricsHandle;
pub use opening::HostId;
pub use parts::PartTaken;
pub use pdus::{LayoutSeen, PduFields};
pub use responses::RawReply;
pub use sessions::{RawJudged, RawRequest, RawSession};
pub use transfers::NextRequest;
pub use transfers_handle::TransfersHandle;
