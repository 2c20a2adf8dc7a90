//! One controller: its registers, its queues, the commands that it has fetched, and the memory that it shares with its
//! host (NVM Express Base Specification 2.0: Controller Registers, Command Fetching, Command Completion, Controller
//! Reset).
#![tactic(auto)]

mod completion_queue;
mod controller;
mod execution;
mod fetching;
mod marking;
mod memory;
mod posting;
mod registers;
mod slots;
mod submission_queue;

pub use completion_queue::CompletionQueue;
pub use controller::Controller;
pub use nvme_machine::{Executed, Fetched, FetchedCommand};
pub use submission_queue::SubmissionQueue;
