//! An example run of the theorem that a session is a script.

ghost use Rattle.nvme_session_runs.specs.SavedSessions.{SavedAtWork, SavedWithFaults};

/// SessionIsAScript: the lines of a session without its two queries and its refused line are a script with its
/// configuration and its run of nine events. A query of blocks that fails counts a failure of the medium, which no
/// script without that query has.
#[tactic(auto, using(crate::proofs::SavedRuns::saved_at_work, crate::proofs::SavedFaults::saving_needs_no_fault))]
fn a_saved_session_is_a_script()
    ensures at_work { SavedAtWork }
    ensures faults { SavedWithFaults → ⊥ }
{}
