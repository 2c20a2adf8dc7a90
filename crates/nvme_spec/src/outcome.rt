//! The outcome of an executed command.

ghost use Rattle.std.specs.Prelude.{◌≡◌};

use crate::HostId;
use arrayvec::ArrayVec;
use nvme_wire::Status;

/// Fetched commands to mark: the I/O commands on a namespace, of controllers that belong to one of these hosts
/// (Reservation Acquire command, Preempt and Abort).
#[derive(Drop)]
pub struct Marks {
    /// The namespace identifier, 0 if there are no hosts.
    pub nsid: u32,
    /// The host identifiers, in rising order.
    pub hosts: ArrayVec<HostId, 16>,
}

impl Marks {
    ghost use Rattle.nvme_spec.specs.Execution.{no_marks};

    /// No marks.
    pub fn none() -> Self
        ensures { result ≡ no_marks }
    {
        Marks {
            nsid: 0,
            hosts: ArrayVec::new(),
        }
    }
}

/// The answer to a command, apart from what it changed.
#[derive(Drop)]
pub struct Outcome {
    /// The status of the completion queue entry.
    pub status: Status,
    /// Double word 0 of the completion queue entry.
    pub dw0: u32,
    /// The number of the rule that denied the command, or 0 if it was allowed.
    pub rule: u8,
    /// The hosts that a Preempt and Abort removed, whose commands have to be marked; or none.
    pub marks: Marks,
}
