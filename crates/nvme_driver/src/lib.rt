//! The driver that each host runs: it places requests in its part of a window of host memory, and delivers each
//! completion once, as the answer to its own request.
//!
//! A driver takes no memory and has no clock. It reaches its controller through a `Port`, of which it requires only
//! that a store writes its bytes. If the controller answers late, never or wrongly, the driver reports a fault; it
//! never invents an answer.
#![tactic(auto)]

mod answer;
mod bytes;
mod driver;
mod ends;
mod examples;
mod faults;
mod found;
mod host_command;
mod lane;
pub mod laws;
mod layout;
mod length;
mod page_list;
mod payload;
mod port;
mod register;
mod request;
mod slots;
mod state;
mod ticket;

pub use answer::Answer;
pub use driver::Driver;
pub use faults::{NotUp, PlaceRefusal, PollFault, UpFault};
pub use found::entry_seen;
pub use host_command::{HostCommand, HostData};
pub use lane::Lane;
pub use port::Port;
pub use request::Request;
pub use slots::Waiting;
pub use state::State;
pub use ticket::Ticket;
