//! The status code type, status code and standard name of each constant.
#![tactic(auto, unfolding(crate::specs::StatusNames::generic_name, crate::specs::StatusNames::specific_name, crate::specs::StatusNames::media_name))]

ghost use Rattle.std.specs.Prelude.{codes};
ghost use Rattle.nvme_wire.specs.StatusNames.{IsNamed};

use crate::status::Status;

/// Generic command statuses.
fn generic_command_statuses()
    ensures successful_completion { IsNamed Status.SUCCESSFUL_COMPLETION 0 0x00 (codes "Successful Completion") }
    ensures invalid_command_opcode { IsNamed Status.INVALID_COMMAND_OPCODE 0 0x01 (codes "Invalid Command Opcode") }
    ensures invalid_field_in_command { IsNamed Status.INVALID_FIELD_IN_COMMAND 0 0x02
        (codes "Invalid Field in Command") }
    ensures data_transfer_error { IsNamed Status.DATA_TRANSFER_ERROR 0 0x04 (codes "Data Transfer Error") }
    ensures invalid_namespace_or_format { IsNamed Status.INVALID_NAMESPACE_OR_FORMAT 0 0x0b
        (codes "Invalid Namespace or Format") }
    ensures command_sequence_error { IsNamed Status.COMMAND_SEQUENCE_ERROR 0 0x0c (codes "Command Sequence Error") }
    ensures prp_offset_invalid { IsNamed Status.PRP_OFFSET_INVALID 0 0x13 (codes "PRP Offset Invalid") }
    ensures host_identifier_inconsistent_format { IsNamed Status.HOST_IDENTIFIER_INCONSISTENT_FORMAT 0 0x18
        (codes "Host Identifier Inconsistent Format") }
    ensures command_aborted_due_to_preempt_and_abort { IsNamed Status.COMMAND_ABORTED_DUE_TO_PREEMPT_AND_ABORT 0 0x1b
        (codes "Command Aborted due to Preempt and Abort") }
    ensures namespace_is_write_protected { IsNamed Status.NAMESPACE_IS_WRITE_PROTECTED 0 0x20
        (codes "Namespace is Write Protected") }
    ensures lba_out_of_range { IsNamed Status.LBA_OUT_OF_RANGE 0 0x80 (codes "LBA Out of Range") }
    ensures reservation_conflict { IsNamed Status.RESERVATION_CONFLICT 0 0x83 (codes "Reservation Conflict") }
{}

/// Command specific statuses.
fn command_specific_statuses()
    ensures completion_queue_invalid { IsNamed Status.COMPLETION_QUEUE_INVALID 1 0x00
        (codes "Completion Queue Invalid") }
    ensures invalid_queue_identifier { IsNamed Status.INVALID_QUEUE_IDENTIFIER 1 0x01
        (codes "Invalid Queue Identifier") }
    ensures invalid_queue_size { IsNamed Status.INVALID_QUEUE_SIZE 1 0x02 (codes "Invalid Queue Size") }
    ensures invalid_queue_deletion { IsNamed Status.INVALID_QUEUE_DELETION 1 0x0c (codes "Invalid Queue Deletion") }
    ensures feature_identifier_not_saveable { IsNamed Status.FEATURE_IDENTIFIER_NOT_SAVEABLE 1 0x0d
        (codes "Feature Identifier Not Saveable") }
    ensures feature_not_changeable { IsNamed Status.FEATURE_NOT_CHANGEABLE 1 0x0e (codes "Feature Not Changeable") }
    ensures namespace_already_attached { IsNamed Status.NAMESPACE_ALREADY_ATTACHED 1 0x18
        (codes "Namespace Already Attached") }
    ensures namespace_is_private { IsNamed Status.NAMESPACE_IS_PRIVATE 1 0x19 (codes "Namespace Is Private") }
    ensures namespace_not_attached { IsNamed Status.NAMESPACE_NOT_ATTACHED 1 0x1a (codes "Namespace Not Attached") }
    ensures controller_list_invalid { IsNamed Status.CONTROLLER_LIST_INVALID 1 0x1c (codes "Controller List Invalid") }
{}

/// Media and data integrity errors.
fn media_errors()
    ensures write_fault { IsNamed Status.WRITE_FAULT 2 0x80 (codes "Write Fault") }
    ensures unrecovered_read_error { IsNamed Status.UNRECOVERED_READ_ERROR 2 0x81 (codes "Unrecovered Read Error") }
    ensures compare_failure { IsNamed Status.COMPARE_FAILURE 2 0x85 (codes "Compare Failure") }
{}
