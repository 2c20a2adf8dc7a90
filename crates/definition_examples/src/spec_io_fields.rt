//! The fields of I/O commands, and the data that they transfer.
#![tactic(auto, unfolding(nvme_spec::specs::Commands::action, nvme_spec::specs::Commands::block_count, nvme_spec::specs::Commands::cptpl, nvme_spec::specs::Commands::eds, nvme_spec::specs::Commands::iekey, nvme_spec::specs::Commands::report_length, nvme_spec::specs::Commands::rtype, nvme_spec::specs::Commands::starting_lba, nvme_spec::specs::Entries::command_entry, nvme_spec::specs::Entries::transfer_entry, nvme_spec::specs::Memory::qword, nvme_wire::specs::Submission::cdw10, nvme_wire::specs::Submission::cdw11, nvme_wire::specs::Submission::cdw12))]

ghost use Rattle.std.specs.Prelude.{◌≡◌, ◌++◌, [], ◌∷◌, None, Some, replicate, true, false};
ghost use Rattle.nvme_spec.specs.declared.command.Command.TheVariants as Command;
ghost use Rattle.nvme_spec.specs.Entries.{command_entry, transfer_entry};
ghost use Rattle.nvme_spec.specs.Opcodes.{is_among};
ghost use Rattle.nvme_spec.specs.IoData.{current_key, other_key};
ghost use Rattle.nvme_spec.specs.Commands.{
  opcode_of,
  starting_lba,
  block_count,
  action,
  iekey,
  cptpl,
  rtype,
  eds,
  report_length,
  data_length,
  data_length_of,
  plan_of,
  optional_commands,
};

/// The bytes of a transfer's entry: CDW0, NSID, SLBA from byte 40, and NLB, zero-based, from byte 48.
fn spec_transfer_entries()
    ensures bytes { transfer_entry 0x00070001 2 0x0908070605040302 0x0102 ≡
        0x01 ∷ 0x00 ∷ 0x07 ∷ 0x00 ∷ 2 ∷ replicate 35 0 ++ 2 ∷ 3 ∷ 4 ∷ 5 ∷ 6 ∷ 7 ∷ 8 ∷ 9 ∷ 1 ∷ 1 ∷ replicate 14 0 }
    ensures first { starting_lba (transfer_entry 2 1 0x0000000600000005 1) ≡ 0x0000000600000005 }
    ensures blocks { block_count (transfer_entry 2 1 0 0x00010003) ≡ 3 }
    ensures most_blocks { block_count (transfer_entry 2 1 0 0x00010000) ≡ 65536 }
{}

/// Double words 10 and 11 of the reservation commands. Each entry also has bits next to the field.
fn spec_reservation_fields()
    ensures action { action (command_entry 0x11 1 0 0x0a 0) ≡ 2 }
    ensures ignores { iekey (command_entry 0x0d 1 0 0x18 0) ≡ true }
    ensures no_ignoring { iekey (command_entry 0x0d 1 0 0xfffffff7 0) ≡ false }
    ensures persists { cptpl (command_entry 0x0d 1 0 0xc0000000 0) ≡ 3 }
    ensures forgets { cptpl (command_entry 0x0d 1 0 0xbfffffff 0) ≡ 2 }
    ensures rtype { rtype (command_entry 0x11 1 0 0x00010300 0) ≡ 3 }
    ensures high_rtype { rtype (command_entry 0x11 1 0 0x000080ff 0) ≡ 0x80 }
    ensures extended { eds (command_entry 0x0e 1 0 0 0x03) ≡ true }
    ensures not_extended { eds (command_entry 0x0e 1 0 0 0xfffffffe) ≡ false }
    ensures dwords { report_length (command_entry 0x0e 1 0 7 1) ≡ 32 }
{}

/// The keys of a reservation command: the current one, and the other one.
fn spec_reservation_keys()
    ensures current { current_key (1 ∷ 2 ∷ replicate 6 0 ++ 3 ∷ replicate 7 0) ≡ 0x0201 }
    ensures other { other_key (1 ∷ 2 ∷ replicate 6 0 ++ 3 ∷ replicate 7 0) ≡ 3 }
{}

/// The bytes that I/O commands transfer.
fn spec_io_lengths()
    ensures flush { data_length Command.Flush (transfer_entry 0 1 0 3) ≡ 0 }
    ensures write { data_length Command.Write (transfer_entry 1 1 0 3) ≡ 1536 }
    ensures read { data_length Command.Read (transfer_entry 2 1 0 3) ≡ 1536 }
    ensures compare { data_length Command.Compare (transfer_entry 5 1 0 3) ≡ 1536 }
    ensures zeroes { data_length Command.WriteZeroes (transfer_entry 8 1 0 3) ≡ 0 }
    ensures register { data_length Command.ReservationRegister (command_entry 0x0d 1 0 7 0) ≡ 16 }
    ensures report { data_length Command.ReservationReport (command_entry 0x0e 1 0 7 1) ≡ 32 }
    ensures acquire { data_length Command.ReservationAcquire (command_entry 0x11 1 0 7 0) ≡ 16 }
    ensures release { data_length Command.ReservationRelease (command_entry 0x15 1 0 7 0) ≡ 8 }
    ensures nothing { data_length_of None (transfer_entry 0xff 1 0 3) ≡ 0 }
    ensures something { data_length_of (Some Command.Write) (transfer_entry 1 1 0 3) ≡ 1536 }
{}

/// The plans of commands: one that names no blocks has none.
fn spec_plans()
    ensures flush { plan_of Command.Flush (transfer_entry 0 1 5 3)
        ≡ record { kind = Command.Flush; first = 0; blocks = 0; bytes = 0 } }
    ensures zeroes { plan_of Command.WriteZeroes (transfer_entry 8 1 5 3)
        ≡ record { kind = Command.WriteZeroes; first = 5; blocks = 3; bytes = 0 } }
    ensures read { plan_of Command.Read (transfer_entry 2 1 5 3)
        ≡ record { kind = Command.Read; first = 5; blocks = 3; bytes = 1536 } }
{}

/// ONCS has bits 0, 3 and 5. An unknown command is in no set.
fn spec_io_commands()
    ensures optional { optional_commands ≡ 0x29 }
    ensures none { is_among opcode_of None (Command.Flush ∷ Command.Write ∷ []) ≡ false }
    ensures one { is_among opcode_of (Some Command.Write) (Command.Flush ∷ Command.Write ∷ []) ≡ true }
    ensures another { is_among opcode_of (Some Command.Read) (Command.Flush ∷ Command.Write ∷ []) ≡ false }
{}
