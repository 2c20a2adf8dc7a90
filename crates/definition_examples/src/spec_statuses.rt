//! The statuses, each by its Status Code Type and Status Code (Base Specification: Status Code Type, Generic Command
//! Status, Command Specific Status, Media and Data Integrity Errors; NVM Command Set Specification: status values).

ghost use Rattle.std.specs.Prelude.{◌≡◌};
ghost use Rattle.nvme_spec.specs.Statuses as status;

/// The Status Code Types.
fn spec_status_types()
    ensures generic { status.generic 0x7f ≡ record { sct = 0; sc = 0x7f } }
    ensures specific { status.specific 0x7f ≡ record { sct = 1; sc = 0x7f } }
    ensures media { status.media 0x7f ≡ record { sct = 2; sc = 0x7f } }
{}

/// Generic Command Status of the Base Specification.
fn spec_generic_statuses()
    ensures success { status.successful_completion ≡ record { sct = 0; sc = 0x00 } }
    ensures opcode { status.invalid_command_opcode ≡ record { sct = 0; sc = 0x01 } }
    ensures field { status.invalid_field_in_command ≡ record { sct = 0; sc = 0x02 } }
    ensures transfer { status.data_transfer_error ≡ record { sct = 0; sc = 0x04 } }
    ensures namespace { status.invalid_namespace_or_format ≡ record { sct = 0; sc = 0x0b } }
    ensures sequence { status.command_sequence_error ≡ record { sct = 0; sc = 0x0c } }
    ensures offset { status.prp_offset_invalid ≡ record { sct = 0; sc = 0x13 } }
    ensures host { status.host_identifier_inconsistent_format ≡ record { sct = 0; sc = 0x18 } }
    ensures preempted { status.command_aborted_due_to_preempt_and_abort ≡ record { sct = 0; sc = 0x1b } }
    ensures protected { status.namespace_is_write_protected ≡ record { sct = 0; sc = 0x20 } }
{}

/// Generic Command Status of the I/O command sets.
fn spec_io_statuses()
    ensures range { status.lba_out_of_range ≡ record { sct = 0; sc = 0x80 } }
    ensures conflict { status.reservation_conflict ≡ record { sct = 0; sc = 0x83 } }
{}

/// Command Specific Status of the commands on queues and features.
fn spec_queue_statuses()
    ensures completion_queue { status.completion_queue_invalid ≡ record { sct = 1; sc = 0x00 } }
    ensures identifier { status.invalid_queue_identifier ≡ record { sct = 1; sc = 0x01 } }
    ensures size { status.invalid_queue_size ≡ record { sct = 1; sc = 0x02 } }
    ensures deletion { status.invalid_queue_deletion ≡ record { sct = 1; sc = 0x0c } }
    ensures saveable { status.feature_identifier_not_saveable ≡ record { sct = 1; sc = 0x0d } }
    ensures changeable { status.feature_not_changeable ≡ record { sct = 1; sc = 0x0e } }
{}

/// Command Specific Status of Namespace Attachment.
fn spec_attachment_statuses()
    ensures attached { status.namespace_already_attached ≡ record { sct = 1; sc = 0x18 } }
    ensures private { status.namespace_is_private ≡ record { sct = 1; sc = 0x19 } }
    ensures unattached { status.namespace_not_attached ≡ record { sct = 1; sc = 0x1a } }
    ensures list { status.controller_list_invalid ≡ record { sct = 1; sc = 0x1c } }
{}

/// Media and Data Integrity Errors.
fn spec_media_statuses()
    ensures write { status.write_fault ≡ record { sct = 2; sc = 0x80 } }
    ensures read { status.unrecovered_read_error ≡ record { sct = 2; sc = 0x81 } }
    ensures compare { status.compare_failure ≡ record { sct = 2; sc = 0x85 } }
{}
