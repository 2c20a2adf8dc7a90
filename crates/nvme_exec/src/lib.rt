//! The execution of I/O commands: the effect of an allowed command on the blocks of a medium, the memory of its host
//! and the reservation of its namespace, and the status of each command.
#![tactic(auto)]

mod actions;
mod admission;
mod carrying;
mod execution;
mod host_data;
mod on_blocks;
mod on_reservation;
mod report;
mod runs;
mod transfer;

pub use execution::{Completed, execute, execute_into};
pub use nvme_spec::{Marks, Outcome};
