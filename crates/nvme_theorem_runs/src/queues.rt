//! Runs of the theorems about queues: fetched commands, completions and windows.

ghost use Rattle.nvme_theorem_runs.specs.Queues.{
  PostedAtWork,
  StayingAtWork,
  StayingOfAnyCommand,
  StayingOverAnyEvent,
  UnreadOverAnyRun,
  WaitingAtWork,
  WaitingOfAnyController,
  WindowsAtWork,
  WindowsOfAnyLength,
};

/// FetchedStays: a fetched command moves up in its list, and leaves it by an execution, a reset or a power cycle.
#[tactic(auto, using(crate::proofs::QueueRuns::staying_at_work, crate::proofs::QueueRuns::staying_needs_a_command, crate::proofs::QueueRuns::staying_needs_what_takes))]
fn no_command_is_lost()
    ensures at_work { StayingAtWork }
    ensures command { StayingOfAnyCommand → ⊥ }
    ensures event { StayingOverAnyEvent → ⊥ }
{}

/// WaitsWhereFull: a command waits for a full completion queue; a command without queues waits even if none is full.
#[tactic(auto, using(crate::proofs::QueueRuns::waiting_at_work, crate::proofs::QueueRuns::waiting_needs_the_queues))]
fn commands_wait_for_room()
    ensures at_work { WaitingAtWork }
    ensures wired { WaitingOfAnyController → ⊥ }
{}

/// UnreadStandsOverRuns: a posted completion stays through events of another host. A reset of its own host removes it.
#[tactic(auto, using(crate::proofs::QueueRuns::posted_at_work, crate::proofs::QueueRuns::posted_needs_a_sparing_run))]
fn a_posted_completion_stays()
    ensures at_work { PostedAtWork }
    ensures sparing { UnreadOverAnyRun → ⊥ }
{}

/// WindowsKeepTheirLength: a store past a window is refused. A window of another length keeps that one.
#[tactic(auto, using(crate::proofs::QueueRuns::windows_at_work, crate::proofs::QueueRuns::windows_need_their_length))]
fn windows_keep_their_size()
    ensures at_work { WindowsAtWork }
    ensures length { WindowsOfAnyLength → ⊥ }
{}
