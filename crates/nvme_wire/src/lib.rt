//! The records that hosts and controllers exchange: queue entries as bytes and as fields, and statuses.
#![tactic(auto)]

mod cqe;
mod examples;
mod laws;
mod little_endian;
mod no_memory;
mod sqe;
mod status;

pub use cqe::Cqe;
pub use little_endian::{u16_at, u32_at, u64_at};
pub use no_memory::NoMemory;
pub use sqe::{Sqe, SqeFields};
pub use status::Status;
