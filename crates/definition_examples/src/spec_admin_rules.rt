//! The rules for admin commands, each alone, with its number and its status.
#![tactic(auto, unfolding(nvme_spec::specs::AdminCommands::cns, nvme_spec::specs::AdminCommands::exhid, nvme_spec::specs::AdminCommands::fid, nvme_spec::specs::AdminCommands::sel, nvme_spec::specs::AdminExamples::cluster_world, nvme_spec::specs::AdminExamples::reserved_world, nvme_spec::specs::AdminRules::attachment_rule, nvme_spec::specs::AdminRules::get_features_rule, nvme_spec::specs::AdminRules::identify_rule, nvme_spec::specs::AdminRules::list_count, nvme_spec::specs::AdminRules::list_rule, nvme_spec::specs::AdminRules::listed_controllers, nvme_spec::specs::AdminRules::nsid_rule, nvme_spec::specs::AdminRules::reservation_rule, nvme_spec::specs::AdminRules::selection_rule, nvme_spec::specs::Attachments::detach, nvme_spec::specs::Attachments::detach_tests, nvme_spec::specs::Attachments::list_tests, nvme_spec::specs::Entries::command_entry, nvme_spec::specs::Rules::judgement_by, nvme_spec::specs::World::host_of, nvme_spec::specs::World::is_attached, nvme_spec::specs::World::namespace_of, nvme_spec::specs::World::opening_world, nvme_wire::specs::Submission::cdw10, nvme_wire::specs::Submission::cdw11, nvme_wire::specs::Submission::nsid))]

ghost use Rattle.std.specs.Prelude.{◌≡◌, [], ◌∷◌, None, Some, Ok, Err, true, false};
ghost use Rattle.nvme_spec.specs.Entries.{command_entry};
ghost use Rattle.nvme_spec.specs.AdminExamples.{cluster_world, reserved_world};
ghost use Rattle.nvme_spec.specs.ExistingQueues.{only_admin_queues};
ghost use Rattle.nvme_spec.specs.Attachments.{are_controllers_above};
ghost use Rattle.nvme_spec.specs.Rules.{judgement_by};
ghost use Rattle.nvme_spec.specs.World.{host_of, namespace_of};
ghost use Rattle.nvme_spec.specs.AdminRules.{
  names_namespace,
  nsid_rule,
  attachment_rule,
  identify_rule,
  is_protected_until_cycle,
  get_features_rule,
  field_rule,
  reservation_rule,
  list_count,
  listed_controllers,
  list_rule,
};

use nvme_spec::AdminCommand;

/// Rule 4: no namespace has the identifier, or no namespace list begins after it.
fn spec_admin_rule_4()
    ensures attachment { names_namespace (Some AdminCommand.NamespaceAttachment) [] ≡ true }
    ensures queues { names_namespace (Some AdminCommand.CreateSubmissionQueue) [] ≡ false }
    ensures none { judgement_by (nsid_rule (Some AdminCommand.NamespaceAttachment) (command_entry 0x15 0 0 0 0))
        ≡ Err (record { rule = 4; status = record { sct = 0; sc = 0x0b } }) }
    ensures last_list { judgement_by (nsid_rule (Some AdminCommand.Identify) (command_entry 6 0xfffffffd 0 2 0))
        ≡ Ok tt }
    ensures no_list { judgement_by (nsid_rule (Some AdminCommand.Identify) (command_entry 6 0xfffffffe 0 2 0))
        ≡ Err (record { rule = 4; status = record { sct = 0; sc = 0x0b } }) }
{}

/// Rule 5: namespace 2 is not attached to controller 2. Rule 7: host b2h does not hold the reservation.
fn spec_admin_rules_on_access()
    ensures unattached { judgement_by
        (attachment_rule (Some AdminCommand.SetFeatures) cluster_world 2 (command_entry 9 2 0 0x84 1))
        ≡ Err (record { rule = 5; status = record { sct = 0; sc = 0x02 } }) }
    ensures attached { judgement_by
        (attachment_rule (Some AdminCommand.SetFeatures) cluster_world 1 (command_entry 9 2 0 0x84 1)) ≡ Ok tt }
    ensures reserved { judgement_by (reservation_rule (Some AdminCommand.NamespaceAttachment)
        (namespace_of reserved_world 1) (host_of reserved_world 2))
        ≡ Err (record { rule = 7; status = record { sct = 0; sc = 0x83 } }) }
    ensures holder { judgement_by (reservation_rule (Some AdminCommand.NamespaceAttachment)
        (namespace_of reserved_world 1) (host_of reserved_world 1)) ≡ Ok tt }
{}

/// Rule 6: an unsupported structure of Identify, an unsupported feature of Get Features, and an unknown namespace.
fn spec_admin_rule_6()
    ensures structure { judgement_by (identify_rule (command_entry 6 0 0 3 0))
        ≡ Err (record { rule = 6; status = record { sct = 0; sc = 0x02 } }) }
    ensures feature { judgement_by (get_features_rule (command_entry 10 0 0 0x82 1))
        ≡ Err (record { rule = 6; status = record { sct = 0; sc = 0x02 } }) }
    ensures no_command { field_rule None only_admin_queues None [] ≡ record { number = 6; tests = [] } }
    ensures get_features { judgement_by
        (field_rule (Some AdminCommand.GetFeatures) only_admin_queues None (command_entry 10 0 0 0x07 0)) ≡ Ok tt }
    ensures no_namespace { judgement_by
        (field_rule (Some AdminCommand.NamespaceAttachment) only_admin_queues None (command_entry 0x15 3 0 0 0))
        ≡ Err (record { rule = 6; status = record { sct = 0; sc = 0x02 } }) }
    ensures unknown_namespace { is_protected_until_cycle None ≡ false }
{}

/// Rule 11: a Controller List is its length and that number of identifiers, of two bytes each. An empty list is
/// refused.
fn spec_controller_lists()
    ensures count { list_count (0x02 ∷ 0x01 ∷ 0x05 ∷ []) ≡ 0x0102 }
    ensures listed { listed_controllers (2 ∷ 0 ∷ 5 ∷ 0 ∷ 2 ∷ 1 ∷ 7 ∷ 0 ∷ []) ≡ 5 ∷ 0x0102 ∷ [] }
    ensures rising { are_controllers_above cluster_world 0 (1 ∷ 4 ∷ []) ≡ true }
    ensures falling { are_controllers_above cluster_world 0 (4 ∷ 1 ∷ []) ≡ false }
    ensures empty { judgement_by (list_rule (Some AdminCommand.NamespaceAttachment) cluster_world
        (command_entry 0x15 1 0 1 0) (0 ∷ 0 ∷ []))
        ≡ Err (record { rule = 11; status = record { sct = 1; sc = 0x1c } }) }
    ensures other_command { list_rule (Some AdminCommand.Identify) cluster_world [] []
        ≡ record { number = 11; tests = [] } }
{}
