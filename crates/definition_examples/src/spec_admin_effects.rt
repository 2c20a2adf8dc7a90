//! Completions of admin commands: double word 0, the data for the host, and the number of the rule.
#![tactic(auto, unfolding(nvme_spec::specs::AdminCommands::fid, nvme_spec::specs::AdminEffects::data_out, nvme_spec::specs::AdminEffects::double_word_0, nvme_spec::specs::AdminEffects::queue_change, nvme_spec::specs::AdminEffects::world_after, nvme_spec::specs::AdminExamples::cluster_world, nvme_spec::specs::DataRules::data_addresses, nvme_spec::specs::Entries::command_entry, nvme_spec::specs::Transfers::addresses, nvme_spec::specs::Transfers::with_scattered, nvme_spec::specs::World::host_of, nvme_spec::specs::World::namespace_of, nvme_spec::specs::World::opening_world, nvme_wire::specs::Submission::cdw10, nvme_wire::specs::Submission::cdw11, nvme_wire::specs::Submission::nsid, nvme_wire::specs::Submission::prp1, nvme_wire::specs::Submission::prp2))]

ghost use Rattle.std.specs.Prelude.{◌≡◌, [], ◌∷◌, None, Ok, replicate};
ghost use Rattle.nvme_spec.specs.Entries.{command_entry};
ghost use Rattle.nvme_spec.specs.AdminExamples.{cluster_world};
ghost use Rattle.nvme_spec.specs.World.{with_protection};
ghost use Rattle.nvme_spec.specs.AdminEffects.{
  allocated_queues,
  protection_value,
  double_word_0,
  data_out,
  denial,
  performance,
  execution_by,
};

use nvme_spec::{AdminCommand, Protection, QueueChange};

/// Double word 0 of completions: Number of Queues has four of each kind, zero-based, in its halves.
fn spec_completion_words()
    ensures queues { allocated_queues ≡ 0x00030003 }
    ensures no_namespace { protection_value None ≡ 0 }
    ensures set_queues { double_word_0 cluster_world AdminCommand.SetFeatures (command_entry 9 0 0 0x07 0)
        ≡ 0x00030003 }
    ensures set_protection { double_word_0 (with_protection cluster_world 1 Protection.Protected)
        AdminCommand.SetFeatures (command_entry 9 1 0 0x84 1) ≡ 0 }
    ensures get_protection { double_word_0 (with_protection cluster_world 1 Protection.UntilCycle)
        AdminCommand.GetFeatures (command_entry 10 1 0 0x84 0) ≡ 2 }
    ensures get_host { double_word_0 cluster_world AdminCommand.GetFeatures (command_entry 10 0 0 0x81 1) ≡ 0 }
    ensures identify { double_word_0 cluster_world AdminCommand.Identify (command_entry 6 0 0 0x07 0) ≡ 0 }
{}

/// Get Features returns the identifier of the controller's host, and zeros from a controller that has none.
fn spec_host_identifiers()
    ensures host { data_out cluster_world 2 AdminCommand.GetFeatures (command_entry 10 0 0 0x81 1)
        ≡ 0xb2 ∷ replicate 15 0 }
    ensures no_host { data_out cluster_world 9 AdminCommand.GetFeatures (command_entry 10 0 0 0x81 1)
        ≡ replicate 16 0 }
    ensures queues { data_out cluster_world 2 AdminCommand.GetFeatures (command_entry 10 0 0 0x07 0) ≡ [] }
    ensures set { data_out cluster_world 2 AdminCommand.SetFeatures (command_entry 9 0 0 0x81 1) ≡ [] }
{}

/// A denied command changes nothing, and an allowed one is denied by no rule. Rule 2 denies an unknown opcode.
fn spec_admin_completions()
    ensures denied { denial cluster_world (7 ∷ 8 ∷ []) 6 (record { sct = 1; sc = 5 }) ≡ record {
      status = record { sct = 1; sc = 5 };
      dw0 = 0;
      rule = 6;
      change = QueueChange.Keep;
      world = cluster_world;
      window = 7 ∷ 8 ∷ [];
    } }
    ensures no_command { execution_by (Ok tt) None cluster_world 1 [] (7 ∷ 8 ∷ []) ≡ record {
      status = record { sct = 0; sc = 1 };
      dw0 = 0;
      rule = 2;
      change = QueueChange.Keep;
      world = cluster_world;
      window = 7 ∷ 8 ∷ [];
    } }
    ensures allowed { performance cluster_world 1 (7 ∷ 8 ∷ []) AdminCommand.SetFeatures (command_entry 9 0 0 0x07 0)
        ≡ record {
          status = record { sct = 0; sc = 0 };
          dw0 = 0x00030003;
          rule = 0;
          change = QueueChange.Keep;
          world = cluster_world;
          window = 7 ∷ 8 ∷ [];
        } }
{}
