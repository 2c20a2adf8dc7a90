//! Entries as bytes: a Write, and completions for it.

ghost use Rattle.std.specs.Prelude.{◌≡◌, ◌++◌, [], ◌∷◌, Some, replicate, true, false};
ghost use Rattle.nvme_wire.specs.Submission as entry;
ghost use Rattle.nvme_spec.specs.Commands.{command_of, starting_lba, block_count};
ghost use Rattle.nvme_spec.specs.Entries.{command_entry, completion_entry};
ghost use Rattle.nvme_spec.specs.Queues.{
  empty_submission_head,
  after_tail_doorbell,
  after_fetch,
  completion_place,
  phase_tag,
};
ghost use Rattle.nvme_spec.specs.Statuses as status;

use crate::command::Command;

/// A Write of one block with command identifier 7: each field of its bytes.
fn write()
    ensures bytes { command_entry 0x00070001 1 0x5000 0 0
        ≡ 0x01 ∷ 0x00 ∷ 0x07 ∷ 0x00 ∷ 0x01 ∷ 0x00 ∷ 0x00 ∷ 0x00 ∷ replicate 16 0 ++ 0x00 ∷ 0x50 ∷ replicate 38 0 }
    ensures opcode { command_of (entry.opcode (command_entry 0x00070001 1 0x5000 0 0)) ≡ Some Command.Write }
    ensures fuse { entry.fuse (command_entry 0x00070001 1 0x5000 0 0) ≡ 0 }
    ensures psdt { entry.psdt (command_entry 0x00070001 1 0x5000 0 0) ≡ 0 }
    ensures cid { entry.cid (command_entry 0x00070001 1 0x5000 0 0) ≡ 7 }
    ensures nsid { entry.nsid (command_entry 0x00070001 1 0x5000 0 0) ≡ 1 }
    ensures prp1 { entry.prp1 (command_entry 0x00070001 1 0x5000 0 0) ≡ 0x5000 }
    ensures first { starting_lba (command_entry 0x00070001 1 0x5000 0 0) ≡ 0 }
    ensures count { block_count (command_entry 0x00070001 1 0x5000 0 0) ≡ 1 }
{}

/// The first completion of queue 1 of 32 entries at 3000h, for a submission queue of 8 entries, one of them fetched.
fn first_completion()
    ensures place { completion_place 0x3000 32 0 ≡ 0x3000 }
    ensures head { (after_fetch (after_tail_doorbell (empty_submission_head 8) 1)).fetched ≡ 1 }
    ensures successful { completion_entry
        (record {
          dw0 = 0;
          sq_head = 1;
          sq_id = 1;
          cid = 7;
          phase = phase_tag 32 0;
          status = status.successful_completion;
        }) ≡ replicate 8 0 ++ 0x01 ∷ 0x00 ∷ 0x01 ∷ 0x00 ∷ 0x07 ∷ 0x00 ∷ 0x01
        ∷ 0x00 ∷ [] }
    ensures denied { completion_entry
        (record {
          dw0 = 0;
          sq_head = 1;
          sq_id = 1;
          cid = 7;
          phase = phase_tag 32 0;
          status = status.reservation_conflict;
        }) ≡ replicate 8 0 ++ 0x01 ∷ 0x00 ∷ 0x01 ∷ 0x00 ∷ 0x07 ∷ 0x00 ∷ 0x07
        ∷ 0x01 ∷ [] }
{}

/// After 33 completions the first slot holds the 33rd, with the other phase, and the second slot still the second.
fn next_turn()
    ensures first_slot { completion_entry
        (record {
          dw0 = 0;
          sq_head = 1;
          sq_id = 1;
          cid = 0;
          phase = phase_tag 32 32;
          status = status.successful_completion;
        }) ≡ replicate 8 0 ++ 0x01 ∷ 0x00 ∷ 0x01 ∷ replicate 5 0 }
    ensures second_slot { completion_entry
        (record {
          dw0 = 0;
          sq_head = 2;
          sq_id = 1;
          cid = 0;
          phase = phase_tag 32 1;
          status = status.successful_completion;
        }) ≡ replicate 8 0 ++ 0x02 ∷ 0x00 ∷ 0x01 ∷ 0x00 ∷ 0x00 ∷ 0x00 ∷ 0x01
        ∷ 0x00 ∷ [] }
{}
