//! A session: a subsystem and its hosts, line by line. Each line gets exactly one answer, before the next is read.
#![tactic(auto)]

mod conversation;
mod examples;
pub mod laws;
mod line_numbers;
mod opening;
mod program;
mod reading;
mod rooms;
mod running;
mod saying;
mod session;
mod setting;
mod showing;
mod streams;
mod turn;

pub use program::{run_in, run_program};
pub use session::run_live;
pub use streams::LineSource;
