//! The fields of admin commands. Each entry also has bits next to the field, which do not count.
#![tactic(auto, unfolding(nvme_spec::specs::AdminCommands::cns, nvme_spec::specs::AdminCommands::cqid, nvme_spec::specs::AdminCommands::exhid, nvme_spec::specs::AdminCommands::fid, nvme_spec::specs::AdminCommands::ncqr, nvme_spec::specs::AdminCommands::nsqr, nvme_spec::specs::AdminCommands::pc, nvme_spec::specs::AdminCommands::qid, nvme_spec::specs::AdminCommands::queue_size, nvme_spec::specs::AdminCommands::sel, nvme_spec::specs::AdminCommands::sv, nvme_spec::specs::AdminCommands::wps, nvme_spec::specs::Entries::command_entry, nvme_wire::specs::Submission::cdw10, nvme_wire::specs::Submission::cdw11))]

ghost use Rattle.std.specs.Prelude.{◌≡◌, [], ◌∷◌, None, Some, true, false};
ghost use Rattle.nvme_spec.specs.Entries.{command_entry};
ghost use Rattle.nvme_spec.specs.AdminCommands.{
  qid,
  queue_size,
  pc,
  cqid,
  cns,
  namespace_structure,
  controller_structure,
  namespace_list_structure,
  fid,
  number_of_queues,
  host_identifier,
  write_protection,
  sv,
  nsqr,
  ncqr,
  wps,
  protection_of,
  state_of,
  exhid,
  sel,
  names_feature,
  asks_for,
  is_one_of,
};

use nvme_spec::{AdminCommand, Protection};

/// Double word 10 of the commands on queues and structures.
fn spec_double_word_10()
    ensures queue { qid (command_entry 5 0 0 0x00018002 0) ≡ 0x8002 }
    ensures size { queue_size (command_entry 5 0 0 0x003f8001 0) ≡ 64 }
    ensures structure { cns (command_entry 6 0 0 0x0102 0) ≡ 2 }
    ensures attaches { sel (command_entry 0x15 1 0 0x10 0) ≡ 0 }
    ensures detaches { sel (command_entry 0x15 1 0 0x11 0) ≡ 1 }
    ensures other_selection { sel (command_entry 0x15 1 0 0x1f 0) ≡ 15 }
{}

/// Double word 10 of the commands on features.
fn spec_feature_words()
    ensures feature { fid (command_entry 9 0 0 0x80000181 0) ≡ 0x81 }
    ensures saved { sv (command_entry 9 0 0 0x80000007 0) ≡ true }
    ensures not_saved { sv (command_entry 9 0 0 0x7fffffff 0) ≡ false }
{}

/// Double word 11 of the commands on queues.
fn spec_queue_double_word_11()
    ensures contiguous { pc (command_entry 5 0 0 1 0x00010003) ≡ true }
    ensures not_contiguous { pc (command_entry 5 0 0 1 0xfffffffe) ≡ false }
    ensures completion_queue { cqid (command_entry 1 0 0 1 0xfffe8001) ≡ 0xfffe }
    ensures submission_queues { nsqr (command_entry 9 0 0 7 0x00050003) ≡ 3 }
    ensures completion_queues { ncqr (command_entry 9 0 0 7 0x00050003) ≡ 5 }
{}

/// Double word 11 of the commands on features.
fn spec_feature_double_word_11()
    ensures protection { wps (command_entry 9 1 0 0x84 0x0a) ≡ 2 }
    ensures odd_protection { wps (command_entry 9 1 0 0x84 0x0d) ≡ 5 }
    ensures extended { exhid (command_entry 10 0 0 0x81 0x03) ≡ true }
    ensures not_extended { exhid (command_entry 10 0 0 0x81 0xfe) ≡ false }
{}

/// The structures of Identify, and the Feature Identifiers.
fn spec_identifiers()
    ensures namespace { namespace_structure ≡ 0x00 }
    ensures controller { controller_structure ≡ 0x01 }
    ensures namespaces { namespace_list_structure ≡ 0x02 }
    ensures queues { number_of_queues ≡ 0x07 }
    ensures host { host_identifier ≡ 0x81 }
    ensures protection { write_protection ≡ 0x84 }
{}

/// Namespace Write Protection Config: 0 is no write protect, 1 write protect, 2 write protect until power cycle.
fn spec_protection_states()
    ensures none { protection_of 0 ≡ Protection.Open }
    ensures protected { protection_of 1 ≡ Protection.Protected }
    ensures until_cycle { protection_of 2 ≡ Protection.UntilCycle }
    ensures none_back { state_of Protection.Open ≡ 0 }
    ensures protected_back { state_of Protection.Protected ≡ 1 }
    ensures until_cycle_back { state_of Protection.UntilCycle ≡ 2 }
{}

/// A command is one of some commands.
fn spec_sets_of_commands()
    ensures last { is_one_of (Some AdminCommand.Identify) (AdminCommand.SetFeatures ∷ AdminCommand.Identify ∷ [])
        ≡ true }
    ensures other { is_one_of (Some AdminCommand.GetFeatures) (AdminCommand.SetFeatures ∷ AdminCommand.Identify ∷ [])
        ≡ false }
    ensures nothing { is_one_of None (AdminCommand.DeleteSubmissionQueue ∷ []) ≡ false }
{}

/// A command on a feature names it, and an Identify names its structure.
fn spec_named_features()
    ensures set { names_feature (Some AdminCommand.SetFeatures) 0x84 (command_entry 9 1 0 0x84 0) ≡ true }
    ensures other_feature { names_feature (Some AdminCommand.GetFeatures) 0x81 (command_entry 10 1 0 0x84 0) ≡ false }
    ensures other_command { names_feature (Some AdminCommand.Identify) 0x81 (command_entry 6 0 0 0x81 0) ≡ false }
    ensures structure { asks_for (Some AdminCommand.Identify) 2 (command_entry 6 0 0 2 0) ≡ true }
    ensures other_structure { asks_for (Some AdminCommand.Identify) 2 (command_entry 6 0 0 1 0) ≡ false }
    ensures no_structure { asks_for (Some AdminCommand.GetFeatures) 2 (command_entry 10 0 0 2 0) ≡ false }
{}
