//! Example runs of the laws that lines of a session are answered.

ghost use Rattle.nvme_session_runs.specs.Answering.{LinesAnswered};

/// LinesBeforeStartAreAnswered, StartIsAnswered and LinesOfARunAreAnswered.
#[tactic(auto, using(crate::proofs::AnsweringRuns::lines_answered))]
fn lines_have_answers()
    ensures { LinesAnswered }
{}
