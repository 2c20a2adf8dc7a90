//! Worked examples of the definitions: calls that events make of a medium, and that commands need. Each is the contract
//! of an empty function, proved by computing.
#![tactic(auto, unfolding(nvme_spec::specs::Commands::block_count, nvme_spec::specs::Commands::command_of, nvme_spec::specs::Commands::starting_lba, nvme_spec::specs::DataRules::data_addresses, nvme_spec::specs::DataRules::pointer_rule, nvme_spec::specs::Entries::command_entry, nvme_spec::specs::Entries::transfer_entry, nvme_spec::specs::FaultFree::fault_free_execution, nvme_spec::specs::FaultFreeCalls::command_calls, nvme_spec::specs::IoData::action_outcome, nvme_spec::specs::IoData::action_rule, nvme_spec::specs::IoData::io_judgement, nvme_spec::specs::IoData::reservation_outcome, nvme_spec::specs::IoRules::attachment_rule, nvme_spec::specs::IoRules::field_rule, nvme_spec::specs::IoRules::form_rule, nvme_spec::specs::IoRules::mark_rule, nvme_spec::specs::IoRules::nsid_rule, nvme_spec::specs::IoRules::opcode_rule, nvme_spec::specs::IoRules::protection_rule, nvme_spec::specs::IoRules::range_rule, nvme_spec::specs::IoRules::reservation_rule, nvme_spec::specs::IoRules::verdict, nvme_spec::specs::Memory::qword, nvme_spec::specs::Pointer::fault_of, nvme_spec::specs::Pointer::first_fault, nvme_spec::specs::Rules::judgement_by, nvme_spec::specs::Transfers::addresses, nvme_spec::specs::Transfers::with_scattered, nvme_spec::specs::World::host_of, nvme_spec::specs::World::is_attached, nvme_spec::specs::World::namespace_of, nvme_spec::specs::World::opening_world, nvme_wire::specs::Completion::completion_entry, nvme_wire::specs::Submission::cdw10, nvme_wire::specs::Submission::cdw11, nvme_wire::specs::Submission::cdw12, nvme_wire::specs::Submission::cid, nvme_wire::specs::Submission::fuse, nvme_wire::specs::Submission::nsid, nvme_wire::specs::Submission::opcode, nvme_wire::specs::Submission::prp1, nvme_wire::specs::Submission::prp2, nvme_wire::specs::Submission::psdt, crate::specs::Controllers::after_posting, crate::specs::Controllers::after_queue_change, crate::specs::Controllers::after_store, crate::specs::Controllers::open_pair, crate::specs::FaultFree::fault_free_command_execution, crate::specs::Needs::need_of, crate::specs::Subsystems::after_completion, crate::specs::Subsystems::after_execution, crate::specs::Subsystems::controller_at, crate::specs::Subsystems::with_controller))]

ghost use Rattle.std.specs.Prelude.{◌≡◌, ◌+◌, ◌^◌, ◌++◌, [], ◌∷◌, true, false, replicate, Ok, Some};
ghost use Rattle.nvme_spec.specs.MediumCalls.{Reads, Writes, Flushes};
ghost use Rattle.nvme_machine.specs.FaultFreeCalls.{fault_free_calls};
ghost use Rattle.nvme_machine.specs.Subsystems.{is_host_among};
ghost use Rattle.nvme_machine.specs.Examples.{
  a_write,
  a_read,
  a_compare,
  a_flush,
  a_write_zeroes,
  a_report,
  of_admin_queue,
  past_the_end,
  marked,
  having,
  protected_having,
  behind_another_having,
  stores,
  OtherCallsAreNotNeeded,
};
ghost use Rattle.nvme_machine.specs.NeededCalls.{AreWhole, sent_at};
ghost use Rattle.nvme_machine.specs.Needs.{need_at};

use crate::{Event, Need};

/// The host stores data, its Write of two blocks is executed, and then its Flush: two blocks are written, and then the
/// medium is flushed.
fn written_and_flushed()
    ensures { fault_free_calls (having (a_write ∷ a_flush ∷ []))
        (stores (replicate 512 7 ++ replicate 512 8) ∷ Event.Execute 1 0 ∷ Event.Execute 1 0 ∷ [])
        ≡ Writes 0 (replicate 512 7) (Ok tt) ∷ Writes 1 (replicate 512 8) (Ok tt) ∷ Flushes (Ok tt) ∷ [] }
{}

/// A command that was fetched later may be executed first: then the medium is flushed before the blocks are written. A
/// read returns what was written before it.
fn in_another_order()
    ensures flushed_first { fault_free_calls (having (a_write ∷ a_flush ∷ []))
        (Event.Execute 1 1 ∷ Event.Execute 1 0 ∷ [])
        ≡ Flushes (Ok tt) ∷ Writes 0 (replicate 512 0) (Ok tt) ∷ Writes 1 (replicate 512 0) (Ok tt) ∷ [] }
    ensures read { fault_free_calls (having (a_read ∷ [])) (Event.Execute 1 0 ∷ [])
        ≡ Reads 0 (Ok (replicate 512 1)) ∷ Reads 1 (Ok (replicate 512 2)) ∷ [] }
    ensures read_back { fault_free_calls (having (a_write ∷ a_read ∷ [])) (Event.Execute 1 0 ∷ Event.Execute 1 0 ∷ [])
        ≡ Writes 0 (replicate 512 0) (Ok tt) ∷ Writes 1 (replicate 512 0) (Ok tt) ∷ Reads 0 (Ok (replicate 512 0))
        ∷ Reads 1 (Ok (replicate 512 0)) ∷ [] }
{}

/// A Compare reads up to the first block that differs.
fn compared()
    ensures first_differs { fault_free_calls (having (a_compare ∷ [])) (Event.Execute 1 0 ∷ [])
        ≡ Reads 0 (Ok (replicate 512 1)) ∷ [] }
    ensures second_differs { fault_free_calls (having (a_compare ∷ []))
        (stores (replicate 512 1) ∷ Event.Execute 1 0 ∷ [])
        ≡ Reads 0 (Ok (replicate 512 1)) ∷ Reads 1 (Ok (replicate 512 2)) ∷ [] }
{}

/// A denied Write makes no call, nor does the execution of a command or on a controller that does not exist.
fn nothing_called()
    ensures denied { fault_free_calls (protected_having (a_write ∷ [])) (Event.Execute 1 0 ∷ []) ≡ [] }
    ensures flush_passes { fault_free_calls (protected_having (a_write ∷ a_flush ∷ []))
        (Event.Execute 1 0 ∷ Event.Execute 1 0 ∷ []) ≡ Flushes (Ok tt) ∷ [] }
    ensures not_there { fault_free_calls (having [])
        (Event.Execute 1 0 ∷ Event.Execute 2 0 ∷ Event.Fetch 1 1 ∷ []) ≡ [] }
{}

/// What each command needs, wherever its namespace begins on the medium.
fn needed()
    ensures write { need_at (having (a_flush ∷ a_write ∷ [])) 1 1 ≡ Need.Write 0 2 }
    ensures read { need_at (having (a_read ∷ [])) 1 0 ≡ Need.Read 0 2 }
    ensures compare { need_at (having (a_compare ∷ [])) 1 0 ≡ Need.Read 0 2 }
    ensures zero { need_at (having (a_write_zeroes ∷ [])) 1 0 ≡ Need.Zero 1 1 }
    ensures flush { need_at (having (a_flush ∷ [])) 1 0 ≡ Need.Flush }
    ensures report { need_at (having (a_report ∷ [])) 1 0 ≡ Need.Nothing }
    ensures behind_another { need_at (behind_another_having (a_write_zeroes ∷ [])) 1 0 ≡ Need.Zero 4 1 }
{}

/// Commands that make no calls need nothing: one that a rule on access denies, one of the admin queue, and one that
/// does not exist.
fn nothing_needed()
    ensures protected { need_at (protected_having (a_write ∷ [])) 1 0 ≡ Need.Nothing }
    ensures protected_is_read { need_at (protected_having (a_read ∷ [])) 1 0 ≡ Need.Read 0 2 }
    ensures past_the_end { need_at (having (past_the_end ∷ [])) 1 0 ≡ Need.Nothing }
    ensures marked { need_at (having (marked a_read ∷ [])) 1 0 ≡ Need.Nothing }
    ensures admin { need_at (having (of_admin_queue a_write ∷ [])) 1 0 ≡ Need.Nothing }
    ensures no_command { need_at (having (a_write ∷ [])) 1 1 ≡ Need.Nothing }
    ensures no_controller { need_at (having (a_write ∷ [])) 2 0 ≡ Need.Nothing }
{}

/// What is not needed: other blocks, calls of another kind, and any call if nothing is needed.
#[tactic(auto, using(crate::proofs::Needs::other_calls_are_not_needed))]
fn not_needed()
    ensures { OtherCallsAreNotNeeded }
{}

/// All that is needed: a Write writes its data, each block once and in order, and a Write Zeroes writes zeros.
fn whole()
    ensures write { AreWhole (Need.Write 4 2) (replicate 512 7 ++ replicate 512 8)
        (Writes 4 (replicate 512 7) (Ok tt) ∷ Writes 5 (replicate 512 8) (Ok tt) ∷ []) }
    ensures zero { AreWhole (Need.Zero 4 1) [] (Writes 4 (replicate 512 0) (Ok tt) ∷ []) }
    ensures flush { AreWhole Need.Flush [] (Flushes (Ok tt) ∷ []) }
    ensures nothing { AreWhole Need.Nothing [] [] }
{}

/// A Write sends the data that its host's memory has when it is executed; a Flush sends nothing.
fn sent()
    ensures write { sent_at (having (a_write ∷ [])) 1 0 ≡ replicate 1024 0 }
    ensures flush { sent_at (having (a_flush ∷ [])) 1 0 ≡ [] }
{}

/// Hosts that differ only in their upper 64 bits are two hosts: the fetched commands of one are not marked for the
/// other.
fn hosts_of_128_bits()
    ensures itself { is_host_among ((2 ^ 64 + 0xa1) ∷ []) (Some (2 ^ 64 + 0xa1)) ≡ true }
    ensures another { is_host_among ((2 ^ 64 + 0xa1) ∷ []) (Some 0xa1) ≡ false }
{}
