//! The data that a host sends in answer to R2T: which bytes belong to which command, and which parts break the
//! transport's rules.
#![tactic(auto)]

mod command;
mod examples;
mod laws;
mod part;
mod storing;
mod transfer;
mod transfers;

pub use command::{Command, Refused, Request};
pub use part::{Completed, Part, Taken};
pub use transfer::Transfer;
pub use transfers::Transfers;
