//! Expected answers to commands.

use nvme_wire::Status;

/// The status and the rule of a command that is allowed and succeeds.
pub const DONE: Option<(Status, u8)> = Some((Status::SUCCESSFUL_COMPLETION, 0));
