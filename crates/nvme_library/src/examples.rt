//! Worked examples of the definitions. Each is the contract of an empty function, proved by computing.

mod completing_results;
mod disk_results;
mod looking_results;
mod opening_results;
mod placing_results;
mod reading_results;
mod result_codes;

ghost use Rattle.nvme_library.specs.CallExamples.{
  CyclingMakesNoCall,
  ExecutingMakesItsCalls,
  FlushesOverADisk,
  LooksMakeTheirReads,
};
ghost use Rattle.nvme_library.specs.Examples.{
  OneBlockOpens,
  NoBlockDoesNotOpen,
  HostlessDoesNotOpen,
  CopyIsNotLent,
  ClosedStaysClosed,
  DataAreApart,
};

/// A controller of host 5 and a namespace of one block open over any medium of one block, but not over an empty one. A
/// controller of host 0 does not open. A copy of the borrowed bytes is not a medium over them.
#[tactic(auto, using(crate::proofs::OpeningExamples::one_block_opens, crate::proofs::OpeningExamples::no_block_does_not_open, crate::proofs::OpeningExamples::hostless_does_not_open, crate::proofs::OpeningExamples::copy_is_not_lent))]
pub fn one_block_is_opened()
    ensures opens { OneBlockOpens }
    ensures no_block { NoBlockDoesNotOpen }
    ensures hostless { HostlessDoesNotOpen }
    ensures copy { CopyIsNotLent }
{}

/// An executed Flush makes one flush, over a program's disk too, and a Write its writes; a power cycle makes no call,
/// and a read of a block one read.
#[tactic(auto, using(crate::proofs::CallExamples::executing_makes_its_calls, crate::proofs::CallExamples::cycling_makes_no_call, crate::proofs::CallExamples::looks_make_their_reads))]
pub fn calls_are_made()
    ensures execution { ExecutingMakesItsCalls }
    ensures disk { FlushesOverADisk }
    ensures cycle { CyclingMakesNoCall }
    ensures look { LooksMakeTheirReads }
{}

/// Data are stored with an entry only if they are in the memory, and none of them in the slot of the entry.
pub fn data_are_apart()
    ensures { DataAreApart }
{}

/// An event on a closed handle is answered `closed`, and the handle stays closed.
#[tactic(auto, using(crate::proofs::OpeningExamples::closed_stays_closed))]
pub fn closed_handle_stays_closed()
    ensures { ClosedStaysClosed }
{}
