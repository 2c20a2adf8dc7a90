//! The codes of openings, and what is open after them.

ghost use Rattle.nvme_library.specs.OpeningResults.{
  OpenOnesHaveTheirMedium,
  OpeningsAreRefused,
  OpeningsCanSucceed,
};

/// An opening by a program of version 3 succeeds with code 0, over bytes or a disk, or memory is refused with code 27.
/// Another version is answered 21, and one over an open subsystem 22: these change nothing. An accepted configuration
/// is refused only if memory is.
#[tactic(auto, using(crate::proofs::OpeningResults::openings_can_succeed, crate::proofs::OpeningResults::openings_are_refused))]
pub fn openings_have_their_codes()
    ensures succeeding { OpeningsCanSucceed }
    ensures refusing { OpeningsAreRefused }
{}

/// What was opened is over the borrowed bytes, or over a disk of which no call has failed. The bytes that a close
/// returns have the blocks of the last state.
#[tactic(auto, using(crate::proofs::OpeningResults::open_ones_have_their_medium))]
pub fn open_ones_are_over_their_medium()
    ensures { OpenOnesHaveTheirMedium }
{}
