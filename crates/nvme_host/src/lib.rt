//! The driver of a host as a library for C, for controllers that are not this project's own. Each export is one call of
//! `Driver`, over a port that accesses no device: it records what to store and to write, and C performs these actions
//! on the memory and the registers of the device.
#![tactic(auto)]

mod bring_up;
mod codes;
pub mod commands;
mod completions;
mod devices;
mod doorbells;
pub mod events;
mod examples;
mod facts;
mod handle;
pub mod health;
pub mod laws;
pub mod lifecycle;
pub mod memory;
mod open_driver;
mod outcome;
mod recording_port;
pub mod requests;
pub mod reservations;
mod slot;
mod stage;

pub use completions::{CompletionData, NextCompletion};
pub use devices::{Controller, Limits, Namespace};
pub use events::Event;
pub use handle::Handle;
pub use outcome::{Outcome, Placed};
pub use recording_port::Action;
