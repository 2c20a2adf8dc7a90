//! Runs of the theorems about preempted hosts, and about other controllers.

ghost use Rattle.nvme_theorem_runs.specs.Preempting.{
  MarkingAtWork,
  OthersAtWork,
  OthersOfAnyController,
  PreemptingAtWork,
  PreemptingByAnyStep,
  PreemptingOfAnyHost,
};

/// PreemptedStaysOut: a fetched write of a preempted host is aborted, after any events before its execution.
#[tactic(auto, using(crate::proofs::PreemptingRuns::preempting_at_work, crate::proofs::PreemptingRuns::marking_at_work))]
fn preempted_stays_out()
    ensures run { PreemptingAtWork }
    ensures marks { MarkingAtWork }
{}

/// PreemptedStaysOut needs its premises: the write of the preempting host succeeds, and after a Preempt without Abort
/// another rule denies the write.
#[tactic(auto, using(crate::proofs::PreemptingRuns::preempting_needs_the_host, crate::proofs::PreemptingRuns::preempting_needs_the_abort))]
fn preempted_needs()
    ensures host { PreemptingOfAnyHost → ⊥ }
    ensures abort { PreemptingByAnyStep → ⊥ }
{}

/// OthersChangeInMarksAlone: a store, a Preempt and Abort, and a power cycle. It is false of the event's controller.
#[tactic(auto, using(crate::proofs::PreemptingRuns::others_at_work, crate::proofs::PreemptingRuns::others_need_another))]
fn others_are_untouched()
    ensures at_work { OthersAtWork }
    ensures other { OthersOfAnyController → ⊥ }
{}
