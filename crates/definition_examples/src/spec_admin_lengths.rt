//! The bytes that admin commands transfer.
#![tactic(auto, unfolding(nvme_spec::specs::AdminCommands::fid, nvme_spec::specs::Entries::command_entry, nvme_wire::specs::Submission::cdw10))]

ghost use Rattle.std.specs.Prelude.{◌≡◌, [], None, Some};
ghost use Rattle.nvme_spec.specs.Entries.{command_entry};
ghost use Rattle.nvme_spec.specs.AdminCommands.{data_length, data_length_of};

use nvme_spec::AdminCommand;

/// The commands on queues have no data.
fn spec_lengths_of_queue_commands()
    ensures delete_submission { data_length AdminCommand.DeleteSubmissionQueue [] ≡ 0 }
    ensures create_submission { data_length AdminCommand.CreateSubmissionQueue [] ≡ 0 }
    ensures delete_completion { data_length AdminCommand.DeleteCompletionQueue [] ≡ 0 }
    ensures create_completion { data_length AdminCommand.CreateCompletionQueue [] ≡ 0 }
    ensures nothing { data_length_of None [] ≡ 0 }
    ensures something { data_length_of (Some AdminCommand.Identify) [] ≡ 4096 }
{}

/// Structures and Controller Lists are a page. An extended host identifier is 16 bytes, and no other feature has data.
fn spec_lengths_of_other_commands()
    ensures identify { data_length AdminCommand.Identify [] ≡ 4096 }
    ensures attachment { data_length AdminCommand.NamespaceAttachment [] ≡ 4096 }
    ensures set_host { data_length AdminCommand.SetFeatures (command_entry 9 0 0 0x81 1) ≡ 0 }
    ensures get_host { data_length AdminCommand.GetFeatures (command_entry 10 0 0 0x81 1) ≡ 16 }
    ensures get_queues { data_length AdminCommand.GetFeatures (command_entry 10 0 0 0x07 0) ≡ 0 }
{}
