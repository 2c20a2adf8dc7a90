//! Runs of the theorems about changes of a medium and a reservation, and about calls of the medium.

ghost use Rattle.nvme_theorem_runs.specs.Medium.{
  CallsAtWork,
  CallsOfAnyHost,
  CallsOfAnyList,
  CommandAtWork,
  CommandOfAnyHost,
  FlushAtWork,
  FlushOfAnyCommand,
  FlushOfAnyStatus,
  NoCallOfAnyCommand,
  ReservingAtWork,
  ReservingWithoutAStep,
  WritingAtWork,
  WritingOnAnyLayout,
};

/// OnlyAllowedWritesWrite: one of two writes is allowed. Namespaces that share a block need no write of their own.
#[tactic(auto, using(crate::proofs::MediumRuns::writing_at_work, crate::proofs::MediumRuns::writing_needs_the_layout))]
fn only_allowed_writes_write()
    ensures at_work { WritingAtWork }
    ensures layout { WritingOnAnyLayout → ⊥ }
{}

/// OnlyAllowedActionsReserve: a host registers, is denied, and a reservation is lost with power.
#[tactic(auto, using(crate::proofs::MediumRuns::reserving_at_work, crate::proofs::MediumRuns::reserving_needs_a_step))]
fn only_allowed_actions_reserve()
    ensures at_work { ReservingAtWork }
    ensures step { ReservingWithoutAStep → ⊥ }
{}

/// CallsOfRunsAreAllowed and FencedHostsWriteNoBlock: a fenced host's run has one call, on the other namespace's block.
#[tactic(auto, using(crate::proofs::MediumRuns::calls_at_work))]
fn calls_are_allowed()
    ensures { CallsAtWork }
{}

/// They need their premises: the holder writes a block, and a list that is not a step's calls may have any.
#[tactic(auto, using(crate::proofs::MediumRuns::calls_need_the_host, crate::proofs::MediumRuns::calls_need_a_step))]
fn calls_need()
    ensures host { CallsOfAnyHost → ⊥ }
    ensures step { CallsOfAnyList → ⊥ }
{}

/// FlushedIsOneFlush: an allowed Flush and a denied one; a write makes another call, and a denied Flush makes none.
#[tactic(auto, using(crate::proofs::MediumRuns::flush_at_work, crate::proofs::MediumRuns::flush_needs_a_flush, crate::proofs::MediumRuns::flush_needs_success))]
fn flushed_is_one_flush()
    ensures at_work { FlushAtWork }
    ensures command { FlushOfAnyCommand → ⊥ }
    ensures status { FlushOfAnyStatus → ⊥ }
{}

/// The calls of one command: an allowed write makes one, and a denied one makes none. The holder's write makes a write
/// call.
#[tactic(auto, using(crate::proofs::MediumRuns::command_at_work, crate::proofs::MediumRuns::command_needs_the_host, crate::proofs::MediumRuns::no_call_needs_a_denial))]
fn calls_of_a_command()
    ensures at_work { CommandAtWork }
    ensures host { CommandOfAnyHost → ⊥ }
    ensures denied { NoCallOfAnyCommand → ⊥ }
{}
