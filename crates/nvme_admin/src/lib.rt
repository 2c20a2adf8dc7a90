//! Admin commands: their rules, the effects of allowed ones, and their answers.
#![tactic(auto)]

mod attachment;
mod command;
mod execution;
mod features;
mod fields;
mod identify;
mod outcome;
mod queues;
mod rules;
mod structure;

pub use execution::execute_admin;
pub use nvme_spec::{AdminCommand, QueueChange, Queues};
pub use outcome::AdminOutcome;
