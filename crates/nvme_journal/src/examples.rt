//! Worked examples: which commands last, what is kept of one, and how much of its data.

ghost use Rattle.std.specs.Prelude.{◌≡◌, true, false, [], ◌∷◌};
ghost use Rattle.nvme_spec.specs.Statuses.{successful_completion, reservation_conflict};
ghost use Rattle.nvme_journal.specs.Examples.{admin_lasts, io_lasts, kept_after, register};
ghost use Rattle.nvme_journal.specs.Records.{kept_length};

/// I/O commands: those on reservations last, and a report does not.
#[tactic(auto, unfolding(crate::specs::Records::lasts, nvme_wire::specs::Submission::submission_entry, nvme_wire::specs::Submission::opcode, nvme_spec::specs::Commands::command_of))]
fn io_commands()
    ensures register { io_lasts 0x0d ≡ true }
    ensures acquire { io_lasts 0x11 ≡ true }
    ensures release { io_lasts 0x15 ≡ true }
    ensures report { io_lasts 0x0e ≡ false }
    ensures flush { io_lasts 0x00 ≡ false }
    ensures write { io_lasts 0x01 ≡ false }
    ensures read { io_lasts 0x02 ≡ false }
    ensures compare { io_lasts 0x05 ≡ false }
    ensures write_zeroes { io_lasts 0x08 ≡ false }
    ensures no_command { io_lasts 0x7f ≡ false }
{}

/// Admin commands: an attachment lasts, and of features the write protection.
#[tactic(auto, unfolding(crate::specs::Records::lasts, nvme_wire::specs::Submission::submission_entry, nvme_wire::specs::Submission::opcode, nvme_wire::specs::Submission::cdw10, nvme_spec::specs::AdminCommands::command_of, nvme_spec::specs::AdminCommands::fid))]
fn admin_commands()
    ensures attachment { admin_lasts 0x15 0 ≡ true }
    ensures protection { admin_lasts 0x09 0x84 ≡ true }
    ensures queues { admin_lasts 0x09 0x07 ≡ false }
    ensures get_protection { admin_lasts 0x0a 0x84 ≡ false }
    ensures create_submission_queue { admin_lasts 0x01 0x84 ≡ false }
    ensures create_completion_queue { admin_lasts 0x05 0x84 ≡ false }
    ensures delete_submission_queue { admin_lasts 0x00 0x84 ≡ false }
    ensures delete_completion_queue { admin_lasts 0x04 0x84 ≡ false }
    ensures identify { admin_lasts 0x06 0x84 ≡ false }
    ensures no_command { admin_lasts 0x0d 0x84 ≡ false }
{}

/// A command is kept if it succeeded and lasts.
#[tactic(auto, unfolding(crate::specs::Records::lasts, nvme_wire::specs::Submission::submission_entry, nvme_wire::specs::Submission::opcode, nvme_spec::specs::Commands::command_of))]
fn keeping()
    ensures kept { kept_after successful_completion 0x0d ≡ register ∷ [] }
    ensures denied { kept_after reservation_conflict 0x0d ≡ [] }
    ensures write { kept_after successful_completion 0x01 ≡ [] }
{}

/// A list of controllers is kept with its count, and two keys.
#[tactic(auto, unfolding(crate::specs::Records::kept_length, nvme_spec::specs::AdminRules::list_count))]
fn lengths()
    ensures list { kept_length true (3 ∷ 1 ∷ 0 ∷ []) ≡ 520 }
    ensures empty { kept_length true (0 ∷ 0 ∷ []) ≡ 2 }
    ensures keys { kept_length false (3 ∷ 1 ∷ []) ≡ 16 }
{}
