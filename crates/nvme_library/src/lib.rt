//! The subsystem as a library for C. An export is one call of `Subsystem`, or of the crate that it is about. It repeats
//! that call's contract. A wrong argument is answered by a code: no export has a `requires`, since nothing would check
//! that C meets it.
#![tactic(auto)]

pub mod access;
mod answer;
mod codes;
pub mod completing;
pub mod completing_over;
mod configuration;
mod event;
pub mod events;
pub mod examples;
mod handle;
mod held;
pub mod laws;
pub mod lines;
pub mod looking;
pub mod looking_line;
pub mod naming;
pub mod needs;
pub mod noticing;
pub mod opening;
pub mod over;
pub mod placing;
pub mod queues;
pub mod reading;
mod rooms;
mod slot;
pub mod submitting;
mod turn;
mod written;

pub use access::{Hold, Registrant};
pub use answer::Answer;
pub use completing::Completed;
pub use completing_over::CompletedOver;
pub use configuration::{Attached, Controller, Namespace};
pub use event::Event;
pub use handle::Handle;
pub use needs::Needed;
pub use noticing::{Change, HostView};
pub use over::ExecutedOver;
pub use placing::Placed;
pub use queues::{Command, Queue};
pub use reading::Read;
pub use written::Written;
