//! Worked examples of mailboxes and fleets. Each is the contract of an empty function, proved by computing.
#![tactic(auto, unfolding(nvme_spec::specs::AdminCommands::cns, nvme_spec::specs::AdminCommands::command_of, nvme_spec::specs::AdminCommands::cqid, nvme_spec::specs::AdminCommands::exhid, nvme_spec::specs::AdminCommands::fid, nvme_spec::specs::AdminCommands::ncqr, nvme_spec::specs::AdminCommands::nsqr, nvme_spec::specs::AdminCommands::pc, nvme_spec::specs::AdminCommands::qid, nvme_spec::specs::AdminCommands::queue_size, nvme_spec::specs::AdminCommands::sel, nvme_spec::specs::AdminCommands::sv, nvme_spec::specs::AdminCommands::wps, nvme_spec::specs::AdminEffects::admin_execution, nvme_spec::specs::AdminEffects::data_out, nvme_spec::specs::AdminEffects::double_word_0, nvme_spec::specs::AdminEffects::queue_change, nvme_spec::specs::AdminEffects::world_after, nvme_spec::specs::AdminRules::admin_judgement, nvme_spec::specs::AdminRules::attachment_rule, nvme_spec::specs::AdminRules::completion_deletion_rule, nvme_spec::specs::AdminRules::completion_queue_rule, nvme_spec::specs::AdminRules::get_features_rule, nvme_spec::specs::AdminRules::identify_rule, nvme_spec::specs::AdminRules::list_count, nvme_spec::specs::AdminRules::list_rule, nvme_spec::specs::AdminRules::listed_controllers, nvme_spec::specs::AdminRules::nsid_rule, nvme_spec::specs::AdminRules::reservation_rule, nvme_spec::specs::AdminRules::selection_rule, nvme_spec::specs::AdminRules::set_features_rule, nvme_spec::specs::AdminRules::submission_deletion_rule, nvme_spec::specs::AdminRules::submission_queue_rule, nvme_spec::specs::Attachments::attach, nvme_spec::specs::Attachments::attach_tests, nvme_spec::specs::Attachments::detach, nvme_spec::specs::Attachments::detach_tests, nvme_spec::specs::Attachments::has_controller, nvme_spec::specs::Attachments::list_tests, nvme_spec::specs::Commands::action, nvme_spec::specs::Commands::block_count, nvme_spec::specs::Commands::command_of, nvme_spec::specs::Commands::cptpl, nvme_spec::specs::Commands::eds, nvme_spec::specs::Commands::iekey, nvme_spec::specs::Commands::report_length, nvme_spec::specs::Commands::rtype, nvme_spec::specs::Commands::starting_lba, nvme_spec::specs::DataRules::data_addresses, nvme_spec::specs::DataRules::pointer_rule, nvme_spec::specs::Identify::identify_controller, nvme_spec::specs::Identify::identify_namespace, nvme_spec::specs::Identify::namespace_list, nvme_spec::specs::IoData::action_outcome, nvme_spec::specs::IoData::action_rule, nvme_spec::specs::IoData::io_judgement, nvme_spec::specs::IoData::reservation_outcome, nvme_spec::specs::IoRules::attachment_rule, nvme_spec::specs::IoRules::field_rule, nvme_spec::specs::IoRules::form_rule, nvme_spec::specs::IoRules::mark_rule, nvme_spec::specs::IoRules::nsid_rule, nvme_spec::specs::IoRules::opcode_rule, nvme_spec::specs::IoRules::protection_rule, nvme_spec::specs::IoRules::range_rule, nvme_spec::specs::IoRules::reservation_rule, nvme_spec::specs::IoRules::verdict, nvme_spec::specs::Memory::qword, nvme_spec::specs::Pointer::fault_of, nvme_spec::specs::Pointer::first_fault, nvme_spec::specs::Power::cycled_world, nvme_spec::specs::Report::entry_of, nvme_spec::specs::Report::header, nvme_spec::specs::Report::report_data, nvme_spec::specs::Rules::judgement_by, nvme_spec::specs::Transfers::addresses, nvme_spec::specs::Transfers::with_scattered, nvme_spec::specs::World::host_of, nvme_spec::specs::World::is_attached, nvme_spec::specs::World::namespace_of, nvme_spec::specs::World::opening_world, nvme_wire::specs::Submission::cdw10, nvme_wire::specs::Submission::cdw11, nvme_wire::specs::Submission::cdw12, nvme_wire::specs::Submission::fuse, nvme_wire::specs::Submission::nsid, nvme_wire::specs::Submission::opcode, nvme_wire::specs::Submission::prp1, nvme_wire::specs::Submission::prp2, nvme_wire::specs::Submission::psdt, nvme_wire::specs::Submission::submission_entry, crate::specs::Examples::fleet, crate::specs::Mailboxes::open_tickets, crate::specs::Executions::command_entry, crate::specs::Executions::io_judgement, crate::specs::Executions::admin_judgement, crate::specs::Executions::admin_request_execution, crate::specs::Fleets::opening, crate::specs::Fleets::host_at, crate::specs::Fleets::with_host, crate::specs::Fleets::power_cycled, crate::specs::Fleets::settled, crate::specs::Fleets::after_answer, crate::specs::FaultFree::request_execution, nvme_machine::specs::Controllers::after_write32, nvme_machine::specs::Controllers::taking_effect, nvme_machine::specs::Controllers::fetchable, nvme_machine::specs::Controllers::after_fetch, nvme_machine::specs::Controllers::after_store, nvme_spec::specs::Registers::after_write, nvme_spec::specs::Registers::configured, nvme_spec::specs::Registers::prepared, nvme_spec::specs::Registers::can_enable, nvme_spec::specs::Registers::doorbell))]

ghost use Rattle.std.specs.Prelude.{◌≡◌, ◌++◌, [], ◌∷◌, None, Some, Ok, Err, replicate, true, false};
ghost use Rattle.nvme_spec.specs.Statuses as status;
ghost use Rattle.nvme_mailbox.specs.Deliveries.{reset};
ghost use Rattle.nvme_mailbox.specs.Executions.{RequestExecution};
ghost use Rattle.nvme_mailbox.specs.Tickets.{waiting_tickets, answered_tickets, held_tickets};
ghost use Rattle.nvme_mailbox.specs.Examples.{
  first_answered,
  carried,
  carried_by_admin,
  times,
  a_read,
  fetched_reads,
  seven_reads,
  caught_read,
  outcomes,
  done,
  done_with,
  aborted,
  placed,
  all_registrants,
  raw_seen_in,
  seen_in,
  seen_after,
  bytes_after,
};

use nvme_driver::{PlaceRefusal, PollFault, Request, UpFault};
use nvme_event::{FleetEvent, FleetSeen};
use nvme_machine::{Executed, Fetched};

/// A host that never came up, one that came up twice, and one that does not exist.
fn coming_up()
    ensures not_ready { seen_after (FleetEvent.Reset 1 ∷ [])
        (FleetEvent.Place 1 a_read ∷ FleetEvent.Ring 1 ∷ FleetEvent.Poll 1 ∷ []) ≡ FleetSeen.Placed
        (Err PlaceRefusal.NotReady) ∷ FleetSeen.Rung (Err (record {})) ∷ FleetSeen.Polled (Err PollFault.NotUp) ∷ [] }
    ensures up { seen_in (FleetEvent.Reset 1 ∷ FleetEvent.BringUp 1 ∷ FleetEvent.BringUp 1 ∷ []) ≡ FleetSeen.Reset
        ∷ FleetSeen.Up (Ok tt) ∷ FleetSeen.Up (Err UpFault.AlreadyUp) ∷ [] }
    ensures nothing_there { seen_in (FleetEvent.Fetch 1 1 ∷ FleetEvent.Execute 1 0 ∷ FleetEvent.Poll 9 ∷ [])
        ≡ FleetSeen.Fetched Fetched.Idle ∷ FleetSeen.Executed Executed.NoSuch ∷ FleetSeen.NoController ∷ [] }
    ensures not_raw { seen_in (FleetEvent.RawWrite32 1 0 0 ∷ FleetEvent.RawWrite32 9 0 0 ∷ []) ≡ FleetSeen.NotRaw
        ∷ FleetSeen.NoController ∷ [] }
{}

/// Ranges that end past a namespace, and requests that no command can express.
fn ranges()
    ensures far { outcomes (carried 1 (Request.Read 1 0xffffffffffffffff 1)) ≡ (status.lba_out_of_range, 9) ∷ [] }
    ensures last { outcomes (carried 1 (Request.Read 2 0 1)) ≡ done ∷ [] }
    ensures data { bytes_after [] (carried 1 (Request.Read 2 0 1)) ≡ [] ∷ [] ∷ [] ∷ [] ∷ replicate 512 0 ∷ [] }
    ensures past { outcomes (carried 1 (Request.Read 2 0 2)) ≡ (status.lba_out_of_range, 9) ∷ [] }
    ensures private { outcomes (carried 2 (Request.Read 2 0 1)) ≡ (status.invalid_field_in_command, 5) ∷ [] }
    ensures refused { seen_in (FleetEvent.Place 1 (Request.Read 1 0 257) ∷ []) ≡ FleetSeen.Placed
        (Err PlaceRefusal.BadRequest) ∷ [] }
{}

/// While a host holds the reservation, the other's writes are denied, until it releases it; the rules are tested in
/// order.
fn fencing()
    ensures fenced { outcomes (carried 1 (Request.Register 1 0 false 0 0 0x11)
        ++ carried 1 (Request.Acquire 1 0 1 0x11 0) ++ carried 2 (Request.WriteZeroes 1 0 1) ++ carried 2 a_read
        ++ carried 2 (Request.WriteZeroes 1 2 1)) ≡ done ∷ done ∷ (status.reservation_conflict, 7) ∷ done
        ∷ (status.reservation_conflict, 7) ∷ [] }
    ensures released { outcomes (carried 1 (Request.Register 1 0 false 0 0 0x11)
        ++ carried 1 (Request.Acquire 1 0 1 0x11 0) ++ carried 1 (Request.Release 1 0 3 0x11)
        ++ carried 1 (Request.Release 1 0 1 0x11) ++ carried 2 (Request.WriteZeroes 1 2 1)) ≡ done ∷ done
        ∷ (status.invalid_field_in_command, 11) ∷ done ∷ (status.lba_out_of_range, 9) ∷ [] }
    ensures by_host { outcomes (carried 1 (Request.Register 1 0 false 0 0 0x11)
        ++ carried 1 (Request.Acquire 1 0 4 0x11 0) ++ carried 3 a_read ++ carried 2 a_read) ≡ done ∷ done ∷ done
        ∷ (status.reservation_conflict, 7) ∷ [] }
{}

/// A Preempt and Abort marks what the other host has fetched; what it fetches later is judged anew.
fn preempting()
    ensures { outcomes caught_read ≡ done ∷ done ∷ done ∷ done ∷ (status.command_aborted_due_to_preempt_and_abort, 1)
        ∷ (status.reservation_conflict, 7) ∷ [] }
{}

/// All registrants hold the reservation until the last one unregisters.
fn holding()
    ensures left { outcomes (all_registrants ++ carried 1 (Request.Register 1 1 false 0 0x11 0)
        ++ carried 2 (Request.Register 1 1 false 0 0x22 0) ++ carried 1 (Request.WriteZeroes 1 0 1)) ≡ done ∷ done
        ∷ done ∷ done ∷ done ∷ done ∷ (status.reservation_conflict, 7) ∷ [] }
    ensures free { outcomes (all_registrants ++ carried 1 (Request.Register 1 1 false 0 0x11 0)
        ++ carried 2 (Request.Register 1 1 false 0 0x22 0) ++ carried 4 (Request.Register 1 1 false 0 0x33 0)
        ++ carried 1 (Request.WriteZeroes 1 0 1)) ≡ done ∷ done ∷ done ∷ done ∷ done ∷ done ∷ done ∷ done ∷ [] }
    ensures report { bytes_after (all_registrants ++ carried 1 (Request.Register 1 1 false 0 0x11 0)
        ++ carried 2 (Request.Register 1 1 false 0 0x22 0) ++ carried 4 (Request.Register 1 1 false 0 0x33 0))
        (carried 4 (Request.Report 1 2)) ≡ [] ∷ [] ∷ [] ∷ [] ∷ (6 ∷ replicate 7 0) ∷ [] }
{}

/// A raw host's events are its own: it has no driver, and its controller works like every controller.
fn raw_hosts()
    ensures { raw_seen_in (FleetEvent.BringUp 2 ∷ FleetEvent.RawWrite32 2 0x24 0x001f0007 ∷ FleetEvent.RawWrite32 2 0x30
        0x1000 ∷ FleetEvent.RawWrite32 2 0x14 0x00460001 ∷ FleetEvent.Fetch 2 0 ∷ FleetEvent.Execute 2 0
        ∷ FleetEvent.BringUp 1 ∷ FleetEvent.RawWrite32 1 0x14 0 ∷ []) ≡ FleetSeen.NoDriver ∷ FleetSeen.Wrote
        ∷ FleetSeen.Wrote ∷ FleetSeen.Wrote ∷ FleetSeen.Fetched Fetched.Idle ∷ FleetSeen.Executed Executed.NoSuch
        ∷ FleetSeen.Up (Ok tt) ∷ FleetSeen.NotRaw ∷ [] }
{}

/// Write protection is set by one host, visible to another, and denies writes to both.
fn protecting()
    ensures { outcomes (carried_by_admin 1 (Request.Protect 1 1) ++ carried 2 (Request.WriteZeroes 1 0 1)
        ++ carried 2 a_read ++ carried 2 (Request.Flush 1)) ≡ done ∷ (status.namespace_is_write_protected, 8) ∷ done
        ∷ done ∷ [] }
{}

/// Three reads, of which two are executed, are aborted by a reset, in the order of their tickets.
fn resetting()
    ensures { seen_after (fetched_reads 3 ++ times 2 (FleetEvent.Execute 1 0 ∷ []))
        (FleetEvent.Reset 1 ∷ times 4 (FleetEvent.Poll 1 ∷ []) ++ FleetEvent.BringUp 1 ∷ FleetEvent.Poll 1 ∷ [])
        ≡ FleetSeen.Reset ∷ aborted 1 ∷ aborted 2 ∷ aborted 3 ∷ FleetSeen.Polled (Err PollFault.NotUp) ∷ FleetSeen.Up
        (Ok tt) ∷ FleetSeen.Polled (Ok None) ∷ [] }
{}

/// A power cycle aborts two fetched reads, in the order of their tickets; the driver is down then, and its tickets
/// continue.
fn losing_power()
    ensures aborts { seen_after (fetched_reads 2) (FleetEvent.PowerCycle ∷ times 3 (FleetEvent.Poll 1 ∷ []))
        ≡ FleetSeen.Cycled ∷ aborted 1 ∷ aborted 2 ∷ FleetSeen.Polled (Err PollFault.NotUp) ∷ [] }
    ensures goes_on { seen_after (fetched_reads 2 ++ FleetEvent.PowerCycle ∷ [])
        (FleetEvent.BringUp 1 ∷ FleetEvent.Place 1 a_read ∷ []) ≡ FleetSeen.Up (Ok tt) ∷ placed 3 ∷ [] }
{}

/// After a power cycle a host that registered with persistence is still registered, and still fences; another is not
/// registered.
fn persisting()
    ensures registered { outcomes (carried 1 (Request.Register 1 0 false 3 0 0x11) ++ FleetEvent.PowerCycle
        ∷ FleetEvent.BringUp 1 ∷ carried 1 (Request.Acquire 1 0 1 0x11 0)) ≡ done ∷ done ∷ [] }
    ensures not_registered { outcomes (carried 1 (Request.Register 1 0 false 0 0 0x11) ++ FleetEvent.PowerCycle
        ∷ FleetEvent.BringUp 1 ∷ carried 1 (Request.Acquire 1 0 1 0x11 0)) ≡ done
        ∷ (status.reservation_conflict, 11) ∷ [] }
    ensures fences { outcomes (carried 1 (Request.Register 1 0 false 3 0 0x11)
        ++ carried 1 (Request.Acquire 1 0 1 0x11 0) ++ FleetEvent.PowerCycle ∷ FleetEvent.BringUp 2
        ∷ carried 2 (Request.WriteZeroes 1 0 1)) ≡ done ∷ done ∷ (status.reservation_conflict, 7) ∷ [] }
    ensures fences_no_more { outcomes (carried 1 (Request.Register 1 0 false 0 0 0x11)
        ++ carried 1 (Request.Acquire 1 0 1 0x11 0) ++ FleetEvent.PowerCycle ∷ FleetEvent.BringUp 2
        ∷ carried 2 (Request.WriteZeroes 1 0 1)) ≡ done ∷ done ∷ done ∷ [] }
{}

/// Write protection until a power cycle ends there.
fn protecting_until_power()
    ensures { outcomes (carried_by_admin 1 (Request.Protect 1 2) ++ carried 2 (Request.WriteZeroes 1 0 1)
        ++ FleetEvent.PowerCycle ∷ FleetEvent.BringUp 2 ∷ carried 2 (Request.WriteZeroes 1 0 1)) ≡ done
        ∷ (status.namespace_is_write_protected, 8) ∷ done ∷ [] }
{}

/// Seven requests of a lane (queue pair) can be placed before the first answer; an answer acknowledges all fetches
/// before it.
fn rooms()
    ensures full { seen_after (times 7 (FleetEvent.Place 1 a_read ∷ [])) (FleetEvent.Place 1 a_read ∷ [])
        ≡ FleetSeen.Placed (Err PlaceRefusal.RingFull) ∷ [] }
    ensures heard { seen_after seven_reads (FleetEvent.Place 1 a_read ∷ []) ≡ placed 8 ∷ [] }
    ensures last { seen_after (times 3 seven_reads ++ times 5 (FleetEvent.Place 1 a_read ∷ []))
        (FleetEvent.Place 1 a_read ∷ FleetEvent.Place 1 a_read ∷ []) ≡ placed 27 ∷ FleetSeen.Placed
        (Err PlaceRefusal.NoSlot) ∷ [] }
{}

/// Answers come in the order of the executions, each with its own data.
fn ordering()
    ensures seen { seen_after (FleetEvent.Place 1 a_read ∷ FleetEvent.Place 1 (Request.Flush 1) ∷ FleetEvent.Ring 1
        ∷ FleetEvent.Fetch 1 1 ∷ FleetEvent.Fetch 1 1 ∷ FleetEvent.Execute 1 1 ∷ FleetEvent.Execute 1 0 ∷ [])
        (FleetEvent.Poll 1 ∷ FleetEvent.Poll 1 ∷ []) ≡ done_with 2 0 ∷ done_with 1 512 ∷ [] }
    ensures bytes { bytes_after (FleetEvent.Place 1 a_read ∷ FleetEvent.Place 1 (Request.Flush 1) ∷ FleetEvent.Ring 1
        ∷ FleetEvent.Fetch 1 1 ∷ FleetEvent.Fetch 1 1 ∷ FleetEvent.Execute 1 1 ∷ FleetEvent.Execute 1 0 ∷ [])
        (FleetEvent.Poll 1 ∷ FleetEvent.Poll 1 ∷ []) ≡ [] ∷ replicate 512 0 ∷ [] }
{}

/// Of two requests one is answered, with any answer, and the other waits; a reset aborts both.
#[tactic(auto, unfolding(crate::specs::Tickets::waiting, crate::specs::Tickets::posted_answers, crate::specs::Mailboxes::open_tickets, crate::specs::Fleets::after_answer))]
fn holding_tickets()
    ensures waiting { (r : RequestExecution) → waiting_tickets (first_answered r) ≡ 2 ∷ [] }
    ensures answered { (r : RequestExecution) → answered_tickets (first_answered r) ≡ 1 ∷ [] }
    ensures held { (r : RequestExecution) → held_tickets (first_answered r) ≡ 2 ∷ 1 ∷ [] }
    ensures reset { (r : RequestExecution) → held_tickets (reset (first_answered r)).mailbox ≡ 1 ∷ 2 ∷ [] }
{}
