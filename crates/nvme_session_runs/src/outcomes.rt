//! Example runs of the laws on what a run of a fleet issues, calls and leaves.

ghost use Rattle.nvme_session_runs.specs.RunCalls.{CallsAtWork};
ghost use Rattle.nvme_session_runs.specs.RunFaults.{FailuresAtWork, UnreadAtWork};
ghost use Rattle.nvme_session_runs.specs.RunPower.{PowerAtWork};
ghost use Rattle.nvme_session_runs.specs.RunSecrecy.{SecrecyAtWork};
ghost use Rattle.nvme_session_runs.specs.RunTickets.{TicketsAtWork};

/// TicketsOfAnOpeningGoOnce.
#[tactic(auto, using(crate::proofs::TicketRuns::tickets_at_work))]
fn a_ticket_goes_once()
    ensures { TicketsAtWork }
{}

/// RunsHaveCalls, RunCallsAreUnique and RunCallsAreComputed.
#[tactic(auto, using(crate::proofs::CallRuns::calls_at_work))]
fn a_write_is_one_call()
    ensures { CallsAtWork }
{}

/// BytesOutlastPower.
#[tactic(auto, using(crate::proofs::PowerRuns::power_at_work))]
fn bytes_outlast_power()
    ensures { PowerAtWork }
{}

/// LayersReadTheSame, LayersOutlastPower and RepliesOutlastPower.
#[tactic(auto, using(crate::proofs::SecrecyRuns::secrecy_at_work))]
fn a_denied_read_reveals_nothing()
    ensures { SecrecyAtWork }
{}

/// UnreadStands.
#[tactic(auto, using(crate::proofs::FaultRuns::unread_at_work))]
fn a_completion_stays_unread()
    ensures { UnreadAtWork }
{}

/// FailuresNeverFall, of subsystems and of fleets.
#[tactic(auto, using(crate::proofs::FaultRuns::failures_at_work))]
fn a_failed_call_stays_counted()
    ensures { FailuresAtWork }
{}
