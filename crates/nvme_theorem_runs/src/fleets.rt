//! Runs of the theorems about fleets: the policy, fencing, preempted hosts, secrecy, and fencing that outlasts power.

ghost use Rattle.nvme_theorem_runs.specs.Fleets.{
  FleetFencingAtWork,
  FleetFencingOfAnyHost,
  FleetFencingOverAnyRun,
  FleetOutlastingAtWork,
  FleetOutlastingOfAnyReservation,
  FleetPreemptingAtWork,
  FleetPreemptingOverAnyRun,
  FleetPreemptingUnheld,
  FleetReadingAtWork,
  FleetReadingOfAnyHost,
  PolicyOfAnyCommand,
};

/// FencingHolds and ExecutedAsThePolicyAllows of a fleet: the holder's write succeeds, that of the other host is
/// denied.
#[tactic(auto, using(crate::proofs::FleetRuns::fleet_fencing_at_work))]
fn fencing_holds()
    ensures { FleetFencingAtWork }
{}

/// They need their premises: the holder releases the namespace, or writes; and another command than the executed one.
#[tactic(auto, using(crate::proofs::FleetRuns::fleet_fencing_needs_the_reservation, crate::proofs::FleetRuns::fleet_fencing_needs_the_host, crate::proofs::FleetRuns::policy_needs_the_command))]
fn fencing_needs()
    ensures run { FleetFencingOverAnyRun → ⊥ }
    ensures host { FleetFencingOfAnyHost → ⊥ }
    ensures command { PolicyOfAnyCommand → ⊥ }
{}

/// PreemptedStaysOut of a fleet: a registrant might write, is preempted, and is denied.
#[tactic(auto, using(crate::proofs::FleetRuns::fleet_preempting_at_work))]
fn preempted_stays_out()
    ensures { FleetPreemptingAtWork }
{}

/// It needs its premises: the host registers again, or the holder releases the namespace.
#[tactic(auto, using(crate::proofs::FleetRuns::fleet_preempting_needs_the_run, crate::proofs::FleetRuns::fleet_preempting_needs_a_holder))]
fn preempted_needs()
    ensures run { FleetPreemptingOverAnyRun → ⊥ }
    ensures held { FleetPreemptingUnheld → ⊥ }
{}

/// FencedReading of a fleet: a Read is denied over two media; a host that may read gets the bytes of its medium.
#[tactic(auto, using(crate::proofs::FleetRuns::fleet_reading_at_work, crate::proofs::FleetRuns::fleet_reading_needs_the_host))]
fn fenced_reading()
    ensures at_work { FleetReadingAtWork }
    ensures host { FleetReadingOfAnyHost → ⊥ }
{}

/// FencingOutlastsPower of a fleet: the fenced host is up first, and is denied, unless the reservation was lost.
#[tactic(auto, using(crate::proofs::FleetRuns::fleet_outlasting_at_work, crate::proofs::FleetRuns::fleet_outlasting_needs_persistence))]
fn fencing_outlasts_power()
    ensures at_work { FleetOutlastingAtWork }
    ensures persistence { FleetOutlastingOfAnyReservation → ⊥ }
{}
