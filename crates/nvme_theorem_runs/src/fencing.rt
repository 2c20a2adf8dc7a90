//! Runs of the theorems about fencing.

ghost use Rattle.nvme_theorem_runs.specs.EachEvent.{EachEventAtWork, EachEventOfAnyHost, SecrecyOfAnyHost};
ghost use Rattle.nvme_theorem_runs.specs.Fencing.{
  FencingAtWork,
  FencingOfAnyHost,
  FencingOnAnyLayout,
  FencingOverAnyRun,
};
ghost use Rattle.nvme_theorem_runs.specs.Reading.{ReadingAtWork, ReadingOfAnyHost};

/// FencingHolds: a host that may not write namespace 1 sends a write to each namespace. The first is denied.
#[tactic(auto, using(crate::proofs::FencingRuns::fencing_at_work))]
fn fencing_holds()
    ensures { FencingAtWork }
{}

/// FencingHolds needs its premises. Without them, it is false: a host that may register preempts the holder and writes;
/// the holder writes; a write to another namespace is on the same block.
#[tactic(auto, using(crate::proofs::FencingRuns::fencing_needs_the_reservation, crate::proofs::FencingRuns::fencing_needs_the_host, crate::proofs::FencingRuns::fencing_needs_the_layout))]
fn fencing_needs()
    ensures run { FencingOverAnyRun → ⊥ }
    ensures host { FencingOfAnyHost → ⊥ }
    ensures layout { FencingOnAnyLayout → ⊥ }
{}

/// FencedReading: a Read is denied, and its host gets the same results over two media.
#[tactic(auto, using(crate::proofs::ReadingRuns::reading_at_work))]
fn fenced_reading()
    ensures { ReadingAtWork }
{}

/// FencedReading needs a host that may not read: one that may finds other bytes over another medium.
#[tactic(auto, using(crate::proofs::ReadingRuns::reading_needs_the_host))]
fn fenced_reading_needs()
    ensures host { ReadingOfAnyHost → ⊥ }
{}

/// FencingHoldsOfEachEvent: the holder writes before, and the fenced host's event writes nothing.
#[tactic(auto, using(crate::proofs::EachEventRuns::each_event_at_work))]
fn each_event_is_fenced()
    ensures { EachEventAtWork }
{}

/// It needs a fenced host, and SecrecyHoldsOfEachEvent one that may not read.
#[tactic(auto, using(crate::proofs::EachEventRuns::each_event_needs_the_host, crate::proofs::EachEventRuns::secrecy_needs_the_host))]
fn each_event_needs()
    ensures writes { EachEventOfAnyHost → ⊥ }
    ensures reads { SecrecyOfAnyHost → ⊥ }
{}
