//! Statuses, by their standard codes, names and texts (NVM Express Base Specification 2.0, Status Field Definition).

ghost use Rattle.std.specs.Prelude.{◌≡◌, Some};
ghost use Rattle.nvme_wire.specs.StatusNames.{name_of, generic_name, specific_name, media_name, status_text};

use std::fmt;

/// The status of a completion queue entry: a status code type, and a status code within it. The constants are the
/// statuses that this subsystem returns, by rising codes.
#[derive(Clone, Copy, Debug, PartialEq, Eq)]
pub struct Status {
    /// Status Code Type: 0 generic, 1 command specific, 2 media and data integrity errors.
    pub sct: u8,
    /// Status Code.
    pub sc: u8,
}

impl Status {
    /// The command was executed.
    pub const SUCCESSFUL_COMPLETION: Status = Status { sct: 0, sc: 0x00 };

    /// The opcode is not one of the queue's kind.
    pub const INVALID_COMMAND_OPCODE: Status = Status { sct: 0, sc: 0x01 };

    /// A field of the command has a value that is not supported.
    pub const INVALID_FIELD_IN_COMMAND: Status = Status { sct: 0, sc: 0x02 };

    /// An address of the data pointer is not in host memory.
    pub const DATA_TRANSFER_ERROR: Status = Status { sct: 0, sc: 0x04 };

    /// The command names a namespace that cannot exist.
    pub const INVALID_NAMESPACE_OR_FORMAT: Status = Status { sct: 0, sc: 0x0b };

    /// The command is not allowed at this time.
    pub const COMMAND_SEQUENCE_ERROR: Status = Status { sct: 0, sc: 0x0c };

    /// An address of the data pointer is not aligned.
    pub const PRP_OFFSET_INVALID: Status = Status { sct: 0, sc: 0x13 };

    /// The command uses host identifiers of another size.
    pub const HOST_IDENTIFIER_INCONSISTENT_FORMAT: Status = Status { sct: 0, sc: 0x18 };

    /// A Preempt and Abort removed the registration of the command's host.
    pub const COMMAND_ABORTED_DUE_TO_PREEMPT_AND_ABORT: Status = Status { sct: 0, sc: 0x1b };

    /// The namespace is write protected, and the command would change it.
    pub const NAMESPACE_IS_WRITE_PROTECTED: Status = Status { sct: 0, sc: 0x20 };

    /// Some of the logical blocks are not in the namespace.
    pub const LBA_OUT_OF_RANGE: Status = Status { sct: 0, sc: 0x80 };

    /// A reservation of the namespace does not permit the command to its host.
    pub const RESERVATION_CONFLICT: Status = Status { sct: 0, sc: 0x83 };

    /// The completion queue that the command names does not exist.
    pub const COMPLETION_QUEUE_INVALID: Status = Status { sct: 1, sc: 0x00 };

    /// The command can't take this queue identifier.
    pub const INVALID_QUEUE_IDENTIFIER: Status = Status { sct: 1, sc: 0x01 };

    /// The queue would have too few or too many entries.
    pub const INVALID_QUEUE_SIZE: Status = Status { sct: 1, sc: 0x02 };

    /// The completion queue still has a submission queue.
    pub const INVALID_QUEUE_DELETION: Status = Status { sct: 1, sc: 0x0c };

    /// The feature cannot be saved.
    pub const FEATURE_IDENTIFIER_NOT_SAVEABLE: Status = Status { sct: 1, sc: 0x0d };

    /// The feature cannot be changed now.
    pub const FEATURE_NOT_CHANGEABLE: Status = Status { sct: 1, sc: 0x0e };

    /// The namespace is attached to the controller already.
    pub const NAMESPACE_ALREADY_ATTACHED: Status = Status { sct: 1, sc: 0x18 };

    /// The namespace is private, and attached to another controller.
    pub const NAMESPACE_IS_PRIVATE: Status = Status { sct: 1, sc: 0x19 };

    /// The namespace is not attached to the controller.
    pub const NAMESPACE_NOT_ATTACHED: Status = Status { sct: 1, sc: 0x1a };

    /// The controller list is empty, too long, out of order, or names a controller that does not exist.
    pub const CONTROLLER_LIST_INVALID: Status = Status { sct: 1, sc: 0x1c };

    /// The medium failed to write or to flush.
    pub const WRITE_FAULT: Status = Status { sct: 2, sc: 0x80 };

    /// The medium failed to read.
    pub const UNRECOVERED_READ_ERROR: Status = Status { sct: 2, sc: 0x81 };

    /// The logical blocks differ from the data.
    pub const COMPARE_FAILURE: Status = Status { sct: 2, sc: 0x85 };

    /// The standard's name of the status, or `Unlisted` for one that this subsystem never answers.
    pub fn name(&self) -> &'static str
        ensures { result.now ≡ name_of self.now }
    {
        match self.sct {
            0 => generic_status_name(self.sc),
            1 => specific_status_name(self.sc),
            2 => media_status_name(self.sc),
            _ => "Unlisted",
        }
    }
}

/// Names of the generic command statuses.
#[tactic(auto, unfolding(crate::specs::StatusNames::generic_name))]
fn generic_status_name(sc: u8) -> &'static str
    ensures { result.now ≡ generic_name sc }
{
    match sc {
        0x00 => "Successful Completion",
        0x01 => "Invalid Command Opcode",
        0x02 => "Invalid Field in Command",
        0x04 => "Data Transfer Error",
        0x0b => "Invalid Namespace or Format",
        0x0c => "Command Sequence Error",
        0x13 => "PRP Offset Invalid",
        0x18 => "Host Identifier Inconsistent Format",
        0x1b => "Command Aborted due to Preempt and Abort",
        0x20 => "Namespace is Write Protected",
        0x80 => "LBA Out of Range",
        0x83 => "Reservation Conflict",
        _ => "Unlisted",
    }
}

/// Names of the command specific statuses.
#[tactic(auto, unfolding(crate::specs::StatusNames::specific_name))]
fn specific_status_name(sc: u8) -> &'static str
    ensures { result.now ≡ specific_name sc }
{
    match sc {
        0x00 => "Completion Queue Invalid",
        0x01 => "Invalid Queue Identifier",
        0x02 => "Invalid Queue Size",
        0x0c => "Invalid Queue Deletion",
        0x0d => "Feature Identifier Not Saveable",
        0x0e => "Feature Not Changeable",
        0x18 => "Namespace Already Attached",
        0x19 => "Namespace Is Private",
        0x1a => "Namespace Not Attached",
        0x1c => "Controller List Invalid",
        _ => "Unlisted",
    }
}

/// Names of the media and data integrity errors.
#[tactic(auto, unfolding(crate::specs::StatusNames::media_name))]
fn media_status_name(sc: u8) -> &'static str
    ensures { result.now ≡ media_name sc }
{
    match sc {
        0x80 => "Write Fault",
        0x81 => "Unrecovered Read Error",
        0x85 => "Compare Failure",
        _ => "Unlisted",
    }
}

/// `SCT:SC` in lower-case hexadecimal, one digit and two: `0:83`.
impl fmt::Display for Status {
    ghost output = { λ s. Some (status_text s) };

    fn fmt<W: fmt::Write>(&self, f: &mut fmt::Formatter<W>) -> fmt::Result {
        let sct = self.sct;
        let sc = self.sc;
        write!(f, "{sct:x}:{sc:02x}")
    }
}
