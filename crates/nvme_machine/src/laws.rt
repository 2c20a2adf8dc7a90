//! Laws of every step and every run. Each law is the contract of an empty function.

ghost use Rattle.nvme_machine.specs.Runs.{
  FailuresNeverFall,
  RunExists,
  RunIsUnique,
  DeniedChangesItsEntryAlone,
  AllowedDoesItsEffect,
  OthersChangeInMarksAlone,
  FetchedStays,
};
ghost use Rattle.nvme_machine.specs.Calling.{CallsAreOfAnExecution, DeniedMakesNoCall, AdminMakesNoCall};
ghost use Rattle.nvme_machine.specs.EventCalls.{CallsAreOfAStep, CallsAreOfARun};
ghost use Rattle.nvme_machine.specs.AllowedCalls.{
  CallsAreAllowed,
  CallsOfRunsAreAllowed,
  CallsAreInOrder,
  FencedCommandsCallNothing,
  FencedHostsWriteNoBlock,
  FlushReachesTheMedium,
};
ghost use Rattle.nvme_machine.specs.Needs.{CallsAreNeeded};
ghost use Rattle.nvme_machine.specs.NeededCalls.{
  SuccessIsWhole,
  WriteFaultNamesTheFront,
  ReadErrorNamesTheFront,
  CompareFailureNamesTheFront,
  OtherAnswersCallNothing,
  DenialCallsNothing,
};
ghost use Rattle.nvme_machine.specs.MixedRuns.{FencingHoldsOfEachEvent, SecrecyHoldsOfEachEvent};
ghost use Rattle.nvme_machine.specs.PowerCycles.{
  PowerTakes,
  PersistenceLasts,
  FencingOutlastsPower,
  SecrecyOutlastsPower,
  ProtectedUntilPower,
};
ghost use Rattle.nvme_machine.specs.CallLaws.{
  StepsHaveCalls,
  RunsHaveCalls,
  StepCallsAreUnique,
  RunCallsAreUnique,
  StepCallsAreComputed,
  RunCallsAreComputed,
  RunCallsExist,
  DeniedIsNoSuccess,
  FlushedIsOneFlush,
};
ghost use Rattle.nvme_machine.specs.Wiring.{OpeningIsWired, WiringStays, WaitsWhereFull};
ghost use Rattle.nvme_machine.specs.Windows.{OpeningHasItsWindows, WindowsKeepTheirLength};
ghost use Rattle.nvme_machine.specs.Posted.{PostedIsUnread, UnreadStands, UnreadStandsOverRuns};
ghost use Rattle.nvme_machine.specs.Marking.{MarkedIsAborted, PreemptedCommandsAreMarked};
ghost use Rattle.nvme_machine.specs.Preempted.{CommandsAreFollowed, PreemptedStaysOut};
ghost use Rattle.nvme_machine.specs.Secrecy.{FencedReading, FencedReadingIsSame};
ghost use Rattle.nvme_machine.specs.Fencing.{
  OnlyAllowedWritesWrite,
  OnlyAllowedActionsReserve,
  LayoutStays,
  FencedEventsWriteNothing,
  PermissionsStay,
  FencingHolds,
};

/// Without a fault of the medium, each list of events has exactly one run.
#[tactic(auto, using(crate::proofs::Determined::failures_never_fall, crate::proofs::Determined::run_is_unique))]
pub fn run_is_determined()
    ensures count { FailuresNeverFall }
    ensures exists { RunExists }
    ensures unique { RunIsUnique }
{}

/// The rules judge every executed command by the world of its execution. A denied command changes its completion entry,
/// the counts of its completion queue and its list; an allowed one has exactly its effect.
#[tactic(auto, using(crate::proofs::Denials::allowed_does_its_effect))]
pub fn executed_as_the_policy_allows()
    ensures denied { DeniedChangesItsEntryAlone }
    ensures allowed { AllowedDoesItsEffect }
{}

/// Only executions call the medium. A command that a rule denies makes no call, and neither does an admin command.
pub fn calls_are_of_executions()
    ensures execution { CallsAreOfAnExecution }
    ensures denied { DeniedMakesNoCall }
    ensures admin { AdminMakesNoCall }
{}

/// The calls that a list of events makes of the medium are those of its steps, in order, and belong to one run.
#[tactic(auto, using(crate::proofs::EventCalls::calls_are_of_a_step, crate::proofs::EventCalls::calls_are_of_a_run))]
pub fn calls_are_of_events()
    ensures step { CallsAreOfAStep }
    ensures run { CallsAreOfARun }
{}

/// For any behaviour of the medium, and whether or not it reveals its content: a block is written only by a Write or
/// Write Zeroes that all rules let pass, on a namespace that has the block and that the command's host may write, and
/// with the command's bytes. A block is read only by such a Read or Compare, and the medium is flushed only by such a
/// Flush.
pub fn blocks_are_written_as_allowed()
    ensures event { CallsAreAllowed }
    ensures run { CallsOfRunsAreAllowed }
{}

/// A command of a host that may not write its namespace makes no write or flush call. If the host may not read the
/// namespace either, the command makes no call. In a run such hosts write no block of the namespace until a reservation
/// command on it is allowed, or power is lost and its reservation does not persist.
pub fn fenced_hosts_call_nothing()
    ensures command { FencedCommandsCallNothing }
    ensures run { FencedHostsWriteNoBlock }
{}

/// A Flush that all rules let pass makes one flush call of the medium, and succeeds only if that call succeeds. The
/// calls of all earlier events come before this call.
pub fn flushes_come_behind_writes()
    ensures flush { FlushReachesTheMedium }
    ensures order { CallsAreInOrder }
{}

/// For any behaviour of the medium, each step and each run has a list of calls. It is the only one if the medium
/// reveals its content and has no faults.
#[tactic(auto, using(crate::proofs::CallLaws::steps_have_calls, crate::proofs::CallLaws::runs_have_calls, crate::proofs::CallLaws::step_calls_are_unique, crate::proofs::CallLaws::run_calls_are_unique))]
pub fn calls_are_determined()
    ensures steps { StepsHaveCalls }
    ensures runs { RunsHaveCalls }
    ensures step { StepCallsAreUnique }
    ensures run { RunCallsAreUnique }
{}

/// The functions compute this list of calls. It is possible on such a medium, and leaves the content of the run.
#[tactic(auto, using(crate::proofs::CallLaws::step_calls_are_computed))]
pub fn calls_leave_the_content()
    ensures step { StepCallsAreComputed }
    ensures run { RunCallsAreComputed }
    ensures exists { RunCallsExist }
{}

/// For any behaviour of the medium, a Flush that is answered Successful Completion has made exactly one call: a flush
/// that succeeded. No denied command gets this answer.
#[tactic(auto, using(crate::proofs::CallLaws::denied_is_no_success, crate::proofs::CallLaws::flushed_is_one_flush))]
pub fn flushed_is_flushed()
    ensures denied { DeniedIsNoSuccess }
    ensures flushed { FlushedIsOneFlush }
{}

/// A command's needs of the medium are known before it is executed: the execution reads and writes no other block, and
/// flushes only for a Flush.
#[tactic(auto, using(crate::proofs::Needs::calls_are_needed))]
pub fn calls_are_foreseen()
    ensures { CallsAreNeeded }
{}

/// A command that is answered Successful Completion has made exactly the calls that it needed: one for each block, or
/// one flush.
#[tactic(auto, using(crate::proofs::NeededCalls::success_is_whole))]
pub fn success_is_whole()
    ensures { SuccessIsWhole }
{}

/// A command that is answered with a fault of the medium, or with Compare Failure, has made only the calls that it
/// needed up to the one that failed or found a difference.
#[tactic(auto, using(crate::proofs::NeededCalls::write_fault_names_the_front, crate::proofs::NeededCalls::read_error_names_the_front, crate::proofs::NeededCalls::compare_failure_names_the_front))]
pub fn faults_name_the_front()
    ensures write { WriteFaultNamesTheFront }
    ensures read { ReadErrorNamesTheFront }
    ensures compare { CompareFailureNamesTheFront }
{}

/// A command with any other answer, or that a rule denied, has made no call of the medium.
#[tactic(auto, using(crate::proofs::NeededCalls::other_answers_call_nothing, crate::proofs::NeededCalls::denial_calls_nothing))]
pub fn other_answers_call_nothing()
    ensures status { OtherAnswersCallNothing }
    ensures rule { DenialCallsNothing }
{}

/// Bytes of a namespace change only by allowed writes, and its reservation only by allowed reservation commands, or by
/// a power cycle if it does not persist.
#[tactic(auto, using(crate::proofs::Layouts::only_allowed_writes_write, crate::proofs::Layouts::only_allowed_actions_reserve, crate::proofs::Layouts::layout_stays))]
pub fn only_allowed_commands_change()
    ensures writes { OnlyAllowedWritesWrite }
    ensures reserves { OnlyAllowedActionsReserve }
    ensures layout { LayoutStays }
{}

/// A host that may not write a namespace changes none of its bytes until a reservation command on it is allowed, or
/// power is lost and its reservation does not persist.
#[tactic(auto, using(crate::proofs::Layouts::fenced_events_write_nothing, crate::proofs::Fencing::permissions_stay, crate::proofs::Fencing::fencing_holds))]
pub fn fencing_is_kept()
    ensures event { FencedEventsWriteNothing }
    ensures permissions { PermissionsStay }
    ensures run { FencingHolds }
{}

/// Hosts that may not read a namespace learn nothing of its bytes until a reservation command on it is allowed, or
/// power is lost and its reservation does not persist.
#[tactic(auto, using(crate::proofs::Secrecy::fenced_reading, crate::proofs::Secrecy::fenced_reading_is_same))]
pub fn fenced_hosts_read_nothing()
    ensures possible { FencedReading }
    ensures same { FencedReadingIsSame }
{}

/// Fencing of each single event of each run, with any events of any hosts before and after it. If the event's host may
/// not write a namespace at that moment, the event changes no byte of it and writes none of its blocks, and the host's
/// commands on it make no write or flush call. If the host may not read the namespace, the event has the same result,
/// and leaves the same windows, lists and marks, for any bytes of the namespace.
pub fn fencing_holds_of_each_event()
    ensures reached { CallsAreInOrder }
    ensures writes { FencingHoldsOfEachEvent }
    ensures reads { SecrecyHoldsOfEachEvent }
{}

/// An event on one controller changes nothing of another one, except for marks if it removed the registration of that
/// controller's host. A power cycle resets all controllers.
#[tactic(auto, using(crate::proofs::Others::others_change_in_marks_alone))]
pub fn others_are_untouched()
    ensures { OthersChangeInMarksAlone }
{}

/// A fetched command leaves its list only by its execution, the deletion of its queue, a reset or a power cycle. Its
/// queues exist until then, so it waits only if its completion queue is full.
#[tactic(auto, using(crate::proofs::Staying::fetched_stays, crate::proofs::Wirings::opening_is_wired, crate::proofs::Wirings::wiring_stays, crate::proofs::Wirings::waits_where_full))]
pub fn nothing_is_lost()
    ensures fetched { FetchedStays }
    ensures opening { OpeningIsWired }
    ensures stays { WiringStays }
    ensures full { WaitsWhereFull }
{}

/// In every run, the window of each controller keeps its length and contains the controller's queues.
pub fn windows_keep_their_bytes()
    ensures opening { OpeningHasItsWindows }
    ensures run { WindowsKeepTheirLength }
{}

/// A posted completion stays unread in its queue, and no later one takes its slot, until the host's doorbell write
/// shows that the host has consumed it. The law lists the other events that may remove it: a power cycle, and events of
/// its own host.
pub fn completions_stand()
    ensures posted { PostedIsUnread }
    ensures event { UnreadStands }
    ensures run { UnreadStandsOverRuns }
{}

/// A Preempt and Abort marks the fetched commands of the hosts that it removes; marked commands are aborted.
#[tactic(auto, using(crate::proofs::Marking::preempted_commands_are_marked))]
pub fn preempted_is_aborted()
    ensures marks { PreemptedCommandsAreMarked }
    ensures aborts { MarkedIsAborted }
{}

/// After a Preempt and Abort, each command on the namespace that a controller of a removed host had fetched before is
/// aborted, whenever it is executed. A command is followed through a run by its place in the list; a power cycle
/// removes it.
#[tactic(auto, using(crate::proofs::Preempted::commands_are_followed, crate::proofs::Preempted::preempted_stays_out))]
pub fn preempted_hosts_stay_out()
    ensures followed { CommandsAreFollowed }
    ensures run { PreemptedStaysOut }
{}

/// A power cycle removes every queue, every fetched command, the registrants that do not persist, and write protection
/// that lasts until then; it leaves windows, blocks, attachments, other protection and what persists.
pub fn power_takes_what_does_not_persist()
    ensures { PowerTakes }
{}

/// Fencing outlasts power loss. Suppose that the reservation of a namespace persists through power loss, and that every
/// reservation command on it is denied. Then hosts that may not write it change none of its bytes, and hosts that may
/// not read it learn none of them, in any run with power cycles at any moment.
#[tactic(auto, using(crate::proofs::PowerCycles::fencing_outlasts_power, crate::proofs::PowerCycles::secrecy_outlasts_power))]
pub fn fencing_outlasts_power()
    ensures persists { PersistenceLasts }
    ensures writes { FencingOutlastsPower }
    ensures reads { SecrecyOutlastsPower }
{}

/// If a namespace is write protected until a power cycle, no event changes a byte of it or removes the protection until
/// power is lost.
pub fn protected_until_power()
    ensures { ProtectedUntilPower }
{}
