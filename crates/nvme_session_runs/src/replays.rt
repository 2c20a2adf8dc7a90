//! Example runs of theorems about the text of a session.

ghost use Rattle.nvme_session_runs.specs.Replays.{PlayedAtWork, ReplaysAtWork};

/// PlayedIsARun and ReplaysAlike: a text with nine events of six kinds is a script, and each run of it has the same
/// transcript. A raw host enables its controller, which executes a Get Features and then loses power.
#[tactic(auto, using(crate::proofs::ReplayRuns::played_at_work, crate::proofs::ReplayRuns::replays_at_work))]
fn a_played_text_replays()
    ensures played { PlayedAtWork }
    ensures alike { ReplaysAtWork }
{}
