//! An example run of both layers of a fleet whose hosts have drivers.

ghost use Rattle.nvme_session_runs.specs.DriverLayers.{DriversAtWork, RunOfAnyTickets};

/// LayersRunIsUnique: a driver comes up, and its request is aborted by a reset; replies and final state are the only
/// ones. A driver that has a ticket twice may free either slot.
#[tactic(auto, using(crate::proofs::DriverRuns::drivers_at_work, crate::proofs::DriverRuns::run_needs_tickets_once))]
fn a_run_with_drivers_is_the_only_one()
    ensures at_work { DriversAtWork }
    ensures tickets { RunOfAnyTickets → ⊥ }
{}
