//! What becomes of a command.

use nvme_pdu::Fatal;
use nvme_wire::Status;

/// The data of a command that is ready.
#[derive(Clone, Copy)]
pub enum Data {
    /// Bytes of its capsule's data: the offset of the first, and their number.
    InCapsule(u32, u32),
    /// The controller returns at most this number of bytes.
    FromController(u32),
}

/// What becomes of a command.
#[derive(Clone, Copy)]
pub enum Outcome {
    /// The connection ends: its queue has no room for the command, or takes none.
    Breaks(Fatal),
    /// The command is not executed: this status answers it.
    Refused(Status),
    /// The command waits for this number of bytes, which its host sends in answer to R2T.
    Waits(u32),
    /// The command has its data.
    Ready(Data),
}
