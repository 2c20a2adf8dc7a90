//! A journal at work, and why the theorem needs its premise.

ghost use Rattle.nvme_theorem_runs.specs.Journals.{JournalAtWork, JournalOfAnyRecords};

/// JournalHoldsTheAccessState: a host registers, preempts and writes, and power is lost. The journal has three records.
#[tactic(auto, using(crate::proofs::JournalRuns::journal_at_work))]
fn journal_holds()
    ensures { JournalAtWork }
{}

/// JournalRestoresTheAccessState needs journals that match: a run of no events leaves another access state.
#[tactic(auto, using(crate::proofs::JournalRuns::journal_needs_its_records))]
fn journal_needs()
    ensures records { JournalOfAnyRecords → ⊥ }
{}
