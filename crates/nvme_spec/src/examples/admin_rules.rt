//! Verdicts on admin commands of a controller of a cluster.

ghost use Rattle.std.specs.Prelude.{◌≡◌, [], ◌∷◌, Ok};
ghost use Rattle.nvme_spec.specs.Entries.{command_entry};
ghost use Rattle.nvme_spec.specs.Attachments.{without_attached};
ghost use Rattle.nvme_spec.specs.ExistingQueues.{only_admin_queues};
ghost use Rattle.nvme_spec.specs.AdminRules.{admin_judgement};
ghost use Rattle.nvme_spec.specs.AdminExamples.{
  denied,
  cluster_world,
  reserved_world,
  one_completion_queue,
  one_queue_pair,
  listing,
};
ghost use Rattle.nvme_spec.specs.World.{with_protection};
ghost use Rattle.nvme_spec.specs.Statuses as status;

use crate::access::Protection;

/// An I/O completion queue of 32 entries at 3000h is created; others then are refused.
fn completion_queues()
    ensures created { admin_judgement cluster_world only_admin_queues 1 (command_entry 5 0 0x3000 0x001f0001 1) []
        ≡ Ok tt }
    ensures again { admin_judgement cluster_world one_completion_queue 1 (command_entry 5 0 0x3000 0x001f0001 1) []
        ≡ denied 6 status.invalid_queue_identifier }
    ensures admin { admin_judgement cluster_world one_completion_queue 1 (command_entry 5 0 0x3000 0x001f0000 1) []
        ≡ denied 6 status.invalid_queue_identifier }
    ensures fifth { admin_judgement cluster_world one_completion_queue 1 (command_entry 5 0 0x3000 0x001f0005 1) []
        ≡ denied 6 status.invalid_queue_identifier }
    ensures sixty_five_entries { admin_judgement cluster_world one_completion_queue 1
        (command_entry 5 0 0x3000 0x00400002 1) []
        ≡ denied 6 status.invalid_queue_size }
    ensures one_entry { admin_judgement cluster_world one_completion_queue 1 (command_entry 5 0 0x3000 0x00000002 1) []
        ≡ denied 6 status.invalid_queue_size }
    ensures offset { admin_judgement cluster_world one_completion_queue 1 (command_entry 5 0 0x3004 0x001f0002 1) []
        ≡ denied 6 status.prp_offset_invalid }
    ensures outside { admin_judgement cluster_world one_completion_queue 1 (command_entry 5 0 0x400000 0x001f0002 1) []
        ≡ denied 6 status.invalid_field_in_command }
    ensures not_contiguous { admin_judgement cluster_world one_completion_queue 1
        (command_entry 5 0 0x3000 0x001f0002 0) []
        ≡ denied 6 status.invalid_field_in_command }
    ensures contiguous_first { admin_judgement cluster_world one_completion_queue 1
        (command_entry 5 0 0x3004 0x00400001 0) []
        ≡ denied 6 status.invalid_field_in_command }
{}

/// An I/O submission queue of 8 entries at 2000h needs a completion queue, which can't be deleted while it is used.
fn submission_queues()
    ensures no_completion_queue { admin_judgement cluster_world one_completion_queue 1
        (command_entry 1 0 0x2000 0x00070001 0x00020001) []
        ≡ denied 6 status.completion_queue_invalid }
    ensures fifth_completion_queue { admin_judgement cluster_world one_completion_queue 1
        (command_entry 1 0 0x2000 0x00070001 0x00050001) []
        ≡ denied 6 status.invalid_queue_identifier }
    ensures admin_completion_queue { admin_judgement cluster_world one_completion_queue 1
        (command_entry 1 0 0x2000 0x00070001 0x00000001) []
        ≡ denied 6 status.invalid_queue_identifier }
    ensures created { admin_judgement cluster_world one_completion_queue 1
        (command_entry 1 0 0x2000 0x00070001 0x00010001) [] ≡ Ok tt }
    ensures size_before_completion_queue { admin_judgement cluster_world one_completion_queue 1
        (command_entry 1 0 0x2000 0x00000001 0x00050001) []
        ≡ denied 6 status.invalid_queue_size }
    ensures used { admin_judgement cluster_world one_queue_pair 1 (command_entry 4 0 0 1 0) []
        ≡ denied 6 status.invalid_queue_deletion }
    ensures deleted { admin_judgement cluster_world one_queue_pair 1 (command_entry 0 0 0 1 0) [] ≡ Ok tt }
    ensures unused { admin_judgement cluster_world one_completion_queue 1 (command_entry 4 0 0 1 0) [] ≡ Ok tt }
    ensures no_submission_queue { admin_judgement cluster_world one_completion_queue 1 (command_entry 0 0 0 1 0) []
        ≡ denied 6 status.invalid_queue_identifier }
    ensures admin_queue { admin_judgement cluster_world one_queue_pair 1 (command_entry 0 0 0 0 0) []
        ≡ denied 6 status.invalid_queue_identifier }
    ensures admin_queue_of_completions { admin_judgement cluster_world one_queue_pair 1 (command_entry 4 0 0 0 0) []
        ≡ denied 6 status.invalid_queue_identifier }
{}

/// Set Features.
fn set_features()
    ensures queues { admin_judgement cluster_world only_admin_queues 1 (command_entry 9 0 0 0x07 0x00070007) []
        ≡ Ok tt }
    ensures after_a_queue { admin_judgement cluster_world one_completion_queue 1
        (command_entry 9 0 0 0x07 0x00070007) []
        ≡ denied 6 status.command_sequence_error }
    ensures too_many_queues { admin_judgement cluster_world only_admin_queues 1 (command_entry 9 0 0 0x07 0x0000ffff) []
        ≡ denied 6 status.invalid_field_in_command }
    ensures protection { admin_judgement cluster_world only_admin_queues 1 (command_entry 9 1 0 0x84 1) [] ≡ Ok tt }
    ensures saved { admin_judgement cluster_world only_admin_queues 1 (command_entry 9 1 0 0x80000084 1) []
        ≡ denied 6 status.feature_identifier_not_saveable }
    ensures until_cycle { admin_judgement cluster_world only_admin_queues 1 (command_entry 9 1 0 0x84 2) [] ≡ Ok tt }
    ensures other_state { admin_judgement cluster_world only_admin_queues 1 (command_entry 9 1 0 0x84 3) []
        ≡ denied 6 status.invalid_field_in_command }
    ensures taken_off_too_early { admin_judgement (with_protection cluster_world 1 Protection.UntilCycle)
        only_admin_queues 1 (command_entry 9 1 0 0x84 0) []
        ≡ denied 6 status.feature_not_changeable }
    ensures once_more { admin_judgement (with_protection cluster_world 1 Protection.UntilCycle)
        only_admin_queues 1 (command_entry 9 1 0 0x84 2) []
        ≡ denied 6 status.feature_not_changeable }
    ensures taken_off { admin_judgement (with_protection cluster_world 1 Protection.Protected)
        only_admin_queues 1 (command_entry 9 1 0 0x84 0) [] ≡ Ok tt }
    ensures host_identifier { admin_judgement cluster_world only_admin_queues 1 (command_entry 9 0 0 0x81 0) []
        ≡ denied 6 status.invalid_field_in_command }
    ensures not_attached { admin_judgement cluster_world only_admin_queues 2 (command_entry 9 2 0 0x84 1) []
        ≡ denied 5 status.invalid_field_in_command }
    ensures broadcast { admin_judgement cluster_world only_admin_queues 1 (command_entry 9 0xffffffff 0 0x84 1) []
        ≡ denied 4 status.invalid_namespace_or_format }
    ensures reserved { admin_judgement reserved_world only_admin_queues 2 (command_entry 9 1 0 0x84 1) [] ≡ Ok tt }
{}

/// Get Features: a host identifier of 16 bytes is allowed, one of 8 is not.
fn get_features()
    ensures host_identifier { admin_judgement cluster_world only_admin_queues 2 (command_entry 10 0 0x5000 0x81 1) []
        ≡ Ok tt }
    ensures not_extended { admin_judgement cluster_world only_admin_queues 2 (command_entry 10 0 0x5000 0x81 0) []
        ≡ denied 6 status.invalid_field_in_command }
    ensures other { admin_judgement cluster_world only_admin_queues 2 (command_entry 10 0 0x5000 0x82 0) []
        ≡ denied 6 status.invalid_field_in_command }
    ensures offset { admin_judgement cluster_world only_admin_queues 2 (command_entry 10 0 0x5002 0x81 1) []
        ≡ denied 10 status.prp_offset_invalid }
    ensures outside { admin_judgement cluster_world only_admin_queues 2 (command_entry 10 0 0x400000 0x81 1) []
        ≡ denied 10 status.data_transfer_error }
    ensures no_data { admin_judgement cluster_world only_admin_queues 2 (command_entry 10 0 0x5002 0x07 0) [] ≡ Ok tt }
{}

/// Structures of Identify, and the rules before the fields.
fn identify()
    ensures namespaces { admin_judgement cluster_world only_admin_queues 1 (command_entry 6 0 0x5000 2 0) [] ≡ Ok tt }
    ensures unattached { admin_judgement cluster_world only_admin_queues 2 (command_entry 6 2 0x5000 0 0) [] ≡ Ok tt }
    ensures other_structure { admin_judgement cluster_world only_admin_queues 1 (command_entry 6 0 0x5000 9 0) []
        ≡ denied 6 status.invalid_field_in_command }
    ensures ninth_namespace { admin_judgement cluster_world only_admin_queues 1 (command_entry 6 9 0x5000 0 0) []
        ≡ denied 4 status.invalid_namespace_or_format }
    ensures above_all { admin_judgement cluster_world only_admin_queues 1 (command_entry 6 0xfffffffe 0x5000 2 0) []
        ≡ denied 4 status.invalid_namespace_or_format }
    ensures high_but_no_reserved { admin_judgement cluster_world only_admin_queues 1
        (command_entry 6 0xfffffffd 0x5000 2 0) [] ≡ Ok tt }
    ensures opcode { admin_judgement cluster_world only_admin_queues 1 (command_entry 0x102 0 0x5000 1 0) []
        ≡ denied 2 status.invalid_command_opcode }
    ensures fused { admin_judgement cluster_world only_admin_queues 1 (command_entry 0x106 9 0x5000 0 0) []
        ≡ denied 3 status.invalid_field_in_command }
{}

/// Namespaces are attached to controllers, and detached.
fn attachments()
    ensures private { admin_judgement cluster_world only_admin_queues 1 (command_entry 0x15 2 0 0 0) (listing (2 ∷ []))
        ≡ denied 11 status.namespace_is_private }
    ensures already { admin_judgement cluster_world only_admin_queues 1 (command_entry 0x15 1 0 0 0) (listing (1 ∷ []))
        ≡ denied 11 status.namespace_already_attached }
    ensures not_rising { admin_judgement cluster_world only_admin_queues 1 (command_entry 0x15 1 0 0 0)
        (listing (3 ∷ 2 ∷ []))
        ≡ denied 11 status.controller_list_invalid }
    ensures repeated { admin_judgement cluster_world only_admin_queues 1 (command_entry 0x15 1 0 1 0)
        (listing (2 ∷ 2 ∷ []))
        ≡ denied 11 status.controller_list_invalid }
    ensures too_long { admin_judgement cluster_world only_admin_queues 1 (command_entry 0x15 1 0 1 0)
        (0x00 ∷ 0x08 ∷ 0x02 ∷ 0x00 ∷ [])
        ≡ denied 11 status.controller_list_invalid }
    ensures list_offset { admin_judgement cluster_world only_admin_queues 1 (command_entry 0x15 1 2 1 0) (listing [])
        ≡ denied 10 status.prp_offset_invalid }
    ensures none { admin_judgement cluster_world only_admin_queues 1 (command_entry 0x15 1 0 0 0) (listing [])
        ≡ denied 11 status.controller_list_invalid }
    ensures no_controller { admin_judgement cluster_world only_admin_queues 1 (command_entry 0x15 1 0 1 0)
        (listing (2 ∷ 5 ∷ []))
        ≡ denied 11 status.controller_list_invalid }
    ensures no_namespace { admin_judgement cluster_world only_admin_queues 1 (command_entry 0x15 3 0 0 0)
        (listing (1 ∷ []))
        ≡ denied 6 status.invalid_field_in_command }
    ensures other_selection { admin_judgement cluster_world only_admin_queues 1 (command_entry 0x15 1 0 2 0)
        (listing (2 ∷ []))
        ≡ denied 6 status.invalid_field_in_command }
    ensures detached { admin_judgement cluster_world only_admin_queues 2 (command_entry 0x15 1 0 1 0)
        (listing (2 ∷ [])) ≡ Ok tt }
    ensures not_attached { admin_judgement cluster_world only_admin_queues 2 (command_entry 0x15 2 0 1 0)
        (listing (1 ∷ 2 ∷ []))
        ≡ denied 11 status.namespace_not_attached }
    ensures second_of_a_private { admin_judgement (without_attached cluster_world 2 (1
        ∷ [])) only_admin_queues 1 (command_entry 0x15 2 0 0 0) (listing (1 ∷ 2 ∷ []))
        ≡ denied 11 status.namespace_is_private }
    ensures one_of_a_private { admin_judgement (without_attached cluster_world 2 (1
        ∷ [])) only_admin_queues 1 (command_entry 0x15 2 0 0 0) (listing (2 ∷ [])) ≡ Ok tt }
    ensures reserved { admin_judgement reserved_world only_admin_queues 2 (command_entry 0x15 1 0 0 0)
        (listing (2 ∷ []))
        ≡ denied 7 status.reservation_conflict }
    ensures holder { admin_judgement reserved_world only_admin_queues 3 (command_entry 0x15 1 0 1 0)
        (listing (2 ∷ [])) ≡ Ok tt }
{}
