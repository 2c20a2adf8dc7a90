//! Example runs of theorems about sessions.

ghost use Rattle.nvme_session_runs.specs.Sessions.{
  AcceptedAtAnyLine,
  AcceptedAtWork,
  EndAtWork,
  EndOverFaults,
  RefusalAtWork,
  RefusalOfAnySetUp,
  ScriptAtWork,
  SessionAtWork,
  SessionOverFaults,
};

/// SetUpIsNumbered and RefusalNamesALine: `start` is refused for line 4. A configuration that no session made has no
/// numbers.
#[tactic(auto, using(crate::proofs::SessionRuns::refusal_at_work, crate::proofs::SessionRuns::refusal_needs_a_session))]
fn a_refused_start_names_a_line()
    ensures at_work { RefusalAtWork }
    ensures session { RefusalOfAnySetUp → ⊥ }
{}

/// SessionIsUnique: the lines of that session have one list of answers. A query of a block that may fail has two.
#[tactic(auto, using(crate::proofs::SessionRuns::session_at_work, crate::proofs::SessionRuns::session_needs_no_fault))]
fn a_session_is_determined()
    ensures at_work { SessionAtWork }
    ensures faults { SessionOverFaults → ⊥ }
{}

/// RefusedIsAFault: the lines of that session are a script that is refused at the same line.
#[tactic(auto, using(crate::proofs::SessionRuns::script_at_work))]
fn a_session_is_a_script()
    ensures { ScriptAtWork }
{}

/// RunsWhereAccepted: over a larger medium `start` begins a run; over that medium it doesn't. An empty line never does.
#[tactic(auto, using(crate::proofs::SessionRuns::accepted_at_work, crate::proofs::SessionRuns::acceptance_needs_a_start))]
fn an_accepted_start_runs()
    ensures at_work { AcceptedAtWork }
    ensures start { AcceptedAtAnyLine → ⊥ }
{}

/// EndIsUnique: the text of those lines has one end and one list of answers. A query of a block that may fail has two.
#[tactic(auto, using(crate::proofs::SessionRuns::end_at_work, crate::proofs::SessionRuns::end_needs_no_fault))]
fn an_end_is_determined()
    ensures at_work { EndAtWork }
    ensures faults { EndOverFaults → ⊥ }
{}
