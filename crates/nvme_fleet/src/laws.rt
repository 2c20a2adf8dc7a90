//! Laws of fleets. Each law is the contract of an empty function. The laws of mailboxes, and of a driver over its
//! controller, are passed on.

ghost use Rattle.nvme_fleet.specs.AllowedCalls.{
  CallsAreAllowed,
  CallsOfRunsAreAllowed,
  FencedCommandsCallNothing,
  FencedHostsWriteNoBlock,
};
ghost use Rattle.nvme_fleet.specs.CallLaws.{
  StepsHaveCalls,
  RunsHaveCalls,
  StepCallsAreUnique,
  RunCallsAreUnique,
  FlushedIsOneFlush,
};
ghost use Rattle.nvme_fleet.specs.Bytes.{
  RunsOfMailboxes,
  LayoutStays,
  FencedEventsWriteNothing,
  PermissionsStay as BytePermissionsStay,
  FencingHolds as ByteFencingHolds,
  OthersWindowsStay,
};
ghost use Rattle.nvme_fleet.specs.LayerCalls.{LayerCallsAreOfAStep, LayerCallsAreOfARun};
ghost use Rattle.nvme_fleet.specs.MixedRuns.{EachEventIsReached, FencingHoldsOfEachEvent, SecrecyHoldsOfEachEvent};
ghost use Rattle.nvme_fleet.specs.PowerCycles.{PowerTakes, BytesOutlastPower, LayersOutlastPower, ProtectedUntilPower};
ghost use Rattle.nvme_mailbox.specs.PowerCycles.{
  PowerAborts,
  DoneSincePower,
  PersistenceLasts,
  FencingOutlastsPower,
  SecrecyOutlastsPower,
  RepliesOutlastPower,
};
ghost use Rattle.nvme_mailbox.specs.Regular.{OpeningIsRegular, RegularityStays};
ghost use Rattle.nvme_fleet.specs.Secrecy.{LayersReadTheSame};
ghost use Rattle.nvme_mailbox.specs.Secrecy.{FencedReading, FencedReadingIsSame};
ghost use Rattle.nvme_fleet.specs.Unique.{LayersRunIsUnique, OpeningHasTicketsOnce, TicketsStayOnce};

pub use nvme_mailbox::laws::{
    done_is_its_execution, done_since_it_came_up, executed_as_the_policy_allows, fencing_is_kept,
    hosts_are_apart, preempted_hosts_stay_out, run_is_determined, tickets_balance, tickets_go_once,
    trouble_never_comes,
};
pub use nvme_refinement::laws::{
    bringing_up_is_a_step, events_are_steps, executions_are_steps, opening_is_sound,
    postings_are_steps,
};

/// The same for both layers: without a fault of the medium a list of events has one run, so that each controller with
/// its registers, queues and memory, and each driver, is determined. For this a ticket is in at most one slot of a
/// driver, at each opening and in every run.
pub fn layers_are_determined()
    ensures opening { OpeningHasTicketsOnce }
    ensures stays { TicketsStayOnce }
    ensures unique { LayersRunIsUnique }
{}

/// The calls of the medium that events make are those of their steps of both layers, in order, and of one
/// run.
#[tactic(auto, using(crate::proofs::LayerCalls::layer_calls_are_of_a_step, crate::proofs::LayerCalls::layer_calls_are_of_a_run))]
pub fn calls_are_of_events()
    ensures step { LayerCallsAreOfAStep }
    ensures run { LayerCallsAreOfARun }
{}

/// For any behaviour of the medium, and whether or not it reveals its content: in every run a block is written only by
/// a Write or Write Zeroes that all rules let pass, on a namespace that has the block and that the command's host may
/// write, and with the command's bytes. A block is read only by such a Read or Compare, and the medium is flushed only
/// by such a Flush. A command of a host that may not write its namespace makes no write or flush call. If the host may
/// not read the namespace either, the command makes no call. So hosts that may not write a namespace write none of its
/// blocks until a reservation command on it is allowed, or power is lost and its reservation does not persist.
#[tactic(auto, using(crate::proofs::AllowedCalls::calls_are_allowed, crate::proofs::AllowedCalls::calls_of_runs_are_allowed, crate::proofs::AllowedCalls::fenced_hosts_write_no_block))]
pub fn blocks_are_written_as_allowed()
    ensures event { CallsAreAllowed }
    ensures run { CallsOfRunsAreAllowed }
    ensures command { FencedCommandsCallNothing }
    ensures fenced { FencedHostsWriteNoBlock }
{}

/// Fencing of each single event of each run, with any events of any hosts before and after it. If the event's host may
/// not write a namespace at that moment, the event changes no byte of it and writes none of its blocks, and the host's
/// commands on it make no write or flush call. If the host may not read the namespace, the event has the same reply,
/// and leaves the same mailboxes, drivers and controllers, for any bytes of the namespace.
pub fn fencing_holds_of_each_event()
    ensures reached { EachEventIsReached }
    ensures writes { FencingHoldsOfEachEvent }
    ensures reads { SecrecyHoldsOfEachEvent }
{}

/// For any behaviour of the medium, each step and each run has a list of calls. It is the only one if the medium
/// reveals its content and has no faults.
#[tactic(auto, using(crate::proofs::CallLaws::steps_have_calls, crate::proofs::CallLaws::runs_have_calls, crate::proofs::CallLaws::step_calls_are_unique, crate::proofs::CallLaws::run_calls_are_unique))]
pub fn calls_are_determined()
    ensures steps { StepsHaveCalls }
    ensures runs { RunsHaveCalls }
    ensures step { StepCallsAreUnique }
    ensures run { RunCallsAreUnique }
{}

/// For any behaviour of the medium, a Flush that is answered Successful Completion has made exactly one call: a flush
/// that succeeded.
pub fn flushed_is_flushed()
    ensures { FlushedIsOneFlush }
{}

/// A run of both layers is one of the mailboxes. Fencing holds in the subsystem as well: a host that may not write a
/// namespace changes none of its bytes until a reservation command on it is allowed, or power is lost and its
/// reservation does not persist. No event changes a byte of the memory that another host shares with its controller,
/// and a power cycle changes none of any host.
#[tactic(auto, using(crate::proofs::Bytes::runs_of_mailboxes, crate::proofs::Bytes::layout_stays, crate::proofs::Bytes::fenced_events_write_nothing, crate::proofs::Bytes::permissions_stay, crate::proofs::Bytes::fencing_holds, crate::proofs::Bytes::others_windows_stay))]
pub fn bytes_are_kept()
    ensures mailboxes { RunsOfMailboxes }
    ensures layout { LayoutStays }
    ensures event { FencedEventsWriteNothing }
    ensures permissions { BytePermissionsStay }
    ensures run { ByteFencingHolds }
    ensures windows { OthersWindowsStay }
{}

/// Hosts that may not read a namespace, with a driver or raw, learn nothing of its bytes until a reservation command on
/// it is allowed, or power is lost and its reservation does not persist: the answers that they get, and the memory that
/// they find, are possible with any other bytes of the namespace too. Without a fault of the medium they are the same:
/// replies and mailboxes, and of both layers each driver, and each controller with the memory that it shares with its
/// host. This holds of every fleet whose namespaces are on its medium, whose raw hosts' controllers have their numbers,
/// and whose drivers placed each request that waits: of every opening, and in every run.
pub fn fenced_hosts_learn_nothing()
    ensures opening { OpeningIsRegular }
    ensures stays { RegularityStays }
    ensures possible { FencedReading }
    ensures same { FencedReadingIsSame }
    ensures layers { LayersReadTheSame }
{}

/// A power cycle leaves what persists of the subsystem, and removes every queue and every fetched command. Each driver
/// is down then, and waits for nothing: exactly those of its requests that were not delivered are aborted, after those
/// aborted before, in the order of their tickets, which continue. So a request that is delivered as done after a power
/// cycle was placed, and then executed, since then.
pub fn power_aborts_what_was_not_handed_up()
    ensures takes { PowerTakes }
    ensures aborts { PowerAborts }
    ensures done { DoneSincePower }
{}

/// Suppose that the reservation of a namespace persists through power loss, and that every reservation command on it is
/// denied. Then in any run, with power cycles at any moment, each write of a host that may not write it is answered
/// Reservation Conflict, or the denial of an earlier rule, and such hosts change none of its bytes; and hosts that may
/// not read it learn nothing of them.
pub fn fencing_outlasts_power()
    ensures persists { PersistenceLasts }
    ensures answers { FencingOutlastsPower }
    ensures bytes { BytesOutlastPower }
    ensures possible { SecrecyOutlastsPower }
    ensures same { RepliesOutlastPower }
    ensures layers { LayersOutlastPower }
{}

/// If a namespace is write protected until a power cycle, no event changes a byte of it or removes the protection until
/// power is lost.
pub fn protected_until_power()
    ensures { ProtectedUntilPower }
{}
