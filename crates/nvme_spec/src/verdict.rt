//! The verdict of the rules on a command.

use crate::Command;
use nvme_wire::Status;

/// The first rule that a command fails, and its status.
#[derive(Clone, Copy, Debug, PartialEq, Eq)]
pub struct Denial {
    pub rule: u8,
    pub status: Status,
}

/// What an allowed I/O command has to do. A number is 0 if the command has none.
#[derive(Clone, Copy, Debug, PartialEq, Eq)]
pub struct Plan {
    pub kind: Command,
    /// The first logical block.
    pub first: u64,
    /// The number of logical blocks.
    pub blocks: u32,
    /// The number of bytes to transfer between host and controller.
    pub bytes: u64,
}

/// The verdict on an I/O command: allowed, or denied by the number and the status of the first rule that fails.
#[derive(Clone, Copy, Debug, PartialEq, Eq)]
pub enum Verdict {
    Allowed(Plan),
    Denied(u8, Status),
}
