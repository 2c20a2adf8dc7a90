//! Example runs of the laws on what holds at each opening of a fleet, and on what stays over each run.

ghost use Rattle.nvme_session_runs.specs.Invariants.{DriversKeep, OpeningsAtWork, RawHostsKeep};

/// OpeningIsRegular, OpeningHasItsWindows and OpeningIsNumbered.
#[tactic(auto, using(crate::proofs::InvariantRuns::openings_at_work))]
fn openings_have_the_invariants()
    ensures { OpeningsAtWork }
{}

/// RegularityStays, TicketsStayOnce, OthersWindowsStay and RunExists, over seven events of hosts with drivers.
/// NumbersStay, LayoutStays and OthersWindowsStay, over events of raw hosts.
#[tactic(auto, using(crate::proofs::InvariantRuns::drivers_keep, crate::proofs::InvariantRuns::raw_hosts_keep))]
fn runs_keep_the_invariants()
    ensures drivers { DriversKeep }
    ensures raw_hosts { RawHostsKeep }
{}
