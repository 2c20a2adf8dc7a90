//! Runs of the theorems about power cycles and write protection.

ghost use Rattle.nvme_theorem_runs.specs.Power.{
  OutlastingAtWork,
  OutlastingOfAnyReservation,
  OutlastingOverAnyRun,
  PowerAtWork,
  PowerTakesByAnyEvent,
  ProtectionAtWork,
  ProtectionOfAnyKind,
  ProtectionOverPower,
  SecrecyAtWork,
  SecrecyOfAnyReservation,
};

/// FencingOutlastsPower and PersistenceLasts: a fenced host is still fenced after power returns.
#[tactic(auto, using(crate::proofs::PowerRuns::outlasting_at_work))]
fn fencing_outlasts_power()
    ensures { OutlastingAtWork }
{}

/// They need their premises: a reservation that does not persist is lost, and a host with a key preempts the holder.
#[tactic(auto, using(crate::proofs::PowerRuns::outlasting_needs_persistence, crate::proofs::PowerRuns::outlasting_needs_the_reservation))]
fn fencing_outlasts_power_needs()
    ensures persistence { OutlastingOfAnyReservation → ⊥ }
    ensures run { OutlastingOverAnyRun → ⊥ }
{}

/// SecrecyOutlastsPower: a denied Read before a power cycle. A reservation that is lost keeps no secret.
#[tactic(auto, using(crate::proofs::PowerRuns::secrecy_at_work, crate::proofs::PowerRuns::secrecy_needs_persistence))]
fn secrecy_outlasts_power()
    ensures at_work { SecrecyAtWork }
    ensures persistence { SecrecyOfAnyReservation → ⊥ }
{}

/// PowerTakes: fetched commands, a reservation and write protection; a register read takes none of them.
#[tactic(auto, using(crate::proofs::PowerRuns::power_at_work, crate::proofs::PowerRuns::power_needs_a_cycle))]
fn power_takes()
    ensures at_work { PowerAtWork }
    ensures cycle { PowerTakesByAnyEvent → ⊥ }
{}

/// ProtectedUntilPower: the holder's writes are denied. A power cycle ends the protection, and a namespace without it
/// is written.
#[tactic(auto, using(crate::proofs::PowerRuns::protection_at_work, crate::proofs::PowerRuns::protection_needs_power, crate::proofs::PowerRuns::protection_needs_a_kind))]
fn protected_until_power()
    ensures at_work { ProtectionAtWork }
    ensures power { ProtectionOverPower → ⊥ }
    ensures protection { ProtectionOfAnyKind → ⊥ }
{}
