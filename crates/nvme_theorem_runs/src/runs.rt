//! Runs of the theorems about runs and about the policy.

ghost use Rattle.nvme_theorem_runs.specs.Running.{
  AllowedOfAnyVerdict,
  DeniedOfAnyVerdict,
  DeniedWithoutRoom,
  PolicyAtWork,
  RunAtWork,
  RunOverFaults,
};

/// RunIsUnique: a run of nine events. A Flush whose call fails is another run.
#[tactic(auto, using(crate::proofs::RunningRuns::run_at_work, crate::proofs::RunningRuns::run_needs_no_fault))]
fn one_run_without_a_fault()
    ensures at_work { RunAtWork }
    ensures faults { RunOverFaults → ⊥ }
{}

/// DeniedChangesItsEntryAlone and AllowedDoesItsEffect: one write of each kind.
#[tactic(auto, using(crate::proofs::RunningRuns::policy_at_work))]
fn executed_as_the_policy_allows()
    ensures { PolicyAtWork }
{}

/// They need the verdict of the rules, and room for the completion.
#[tactic(auto, using(crate::proofs::RunningRuns::denied_needs_a_denial, crate::proofs::RunningRuns::allowed_needs_a_verdict, crate::proofs::RunningRuns::denied_needs_room))]
fn executed_needs()
    ensures denied { DeniedOfAnyVerdict → ⊥ }
    ensures allowed { AllowedOfAnyVerdict → ⊥ }
    ensures room { DeniedWithoutRoom → ⊥ }
{}
