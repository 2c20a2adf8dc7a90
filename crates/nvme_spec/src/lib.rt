//! The vocabulary of all layers: plain types and, in `specs/`, the definitions of the NVM Express specifications.
#![tactic(auto)]

mod access;
mod command;
mod config;
mod examples;
mod host;
mod laws;
mod limits;
mod medium;
mod outcome;
mod pointer;
mod queues;
mod registers;
mod verdict;

pub use access::{Group, Hold, Protection, Registrant, Role};
pub use command::{AdminCommand, Command, CommandKind, OPTIONAL_COMMANDS};
pub use config::{Config, ConfigFault, ControllerConfig, NsConfig};
pub use host::HostId;
pub use limits::MOST_BYTES;
pub use medium::MediumFault;
pub use outcome::{Marks, Outcome};
pub use pointer::{DataFault, Piece};
pub use queues::{QueueChange, Queues};
pub use registers::{AdminQueues, ControllerState, RegEffect};
pub use verdict::{Denial, Plan, Verdict};
