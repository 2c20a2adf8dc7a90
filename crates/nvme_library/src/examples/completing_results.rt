//! Executions whose completion is consumed, over blocks in memory and over brought blocks: their codes, and what they
//! leave.

ghost use Rattle.nvme_library.specs.CompletingResults.{
  CompletionsHaveCodes,
  CompletionsOverRoomsHaveCodes,
  ExecutionsOverRoomsHaveCodes,
};

/// The answer is that of the execution, and without a subsystem 16. Nothing is consumed if nothing was posted. A
/// fetched command whose completion queue has room has a completion (6).
#[tactic(auto, using(crate::proofs::CompletingResults::completions_have_codes))]
pub fn completions_have_their_codes()
    ensures { CompletionsHaveCodes }
{}

/// Over brought blocks: without a subsystem (16), and over a medium in memory (39), a room comes back with the same
/// bytes, and nothing changes. A room is determined by its bytes, its first block, their number and whether a flush
/// passes.
#[tactic(auto, using(crate::proofs::CompletingResults::executions_over_rooms_have_codes, crate::proofs::CompletingResults::completions_over_rooms_have_codes))]
pub fn rooms_come_back_with_codes()
    ensures executions { ExecutionsOverRoomsHaveCodes }
    ensures completions { CompletionsOverRoomsHaveCodes }
{}
