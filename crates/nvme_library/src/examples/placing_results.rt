//! Events, placed commands and whole turns: their codes, and what they leave.

ghost use Rattle.nvme_library.specs.PlacingResults.{
  EventsHaveResults,
  PlacingsHaveCodes,
  PlacingsLeaveTheMedium,
  TurnsHaveCodes,
};

/// A power cycle of an open subsystem is answered 9, and leaves the medium unchanged. An execution that posts no
/// completion marks no command. Without the controller it makes no call of the medium.
#[tactic(auto, using(crate::proofs::PlacingResults::events_have_results))]
pub fn events_have_their_results()
    ensures { EventsHaveResults }
{}

/// A command is not placed without a subsystem (16), without its controller (17), and without a turn, for the reason of
/// that. Then nothing changes. The events of a placing leave the medium unchanged.
#[tactic(auto, using(crate::proofs::PlacingResults::placings_have_codes, crate::proofs::PlacingResults::placings_leave_the_medium))]
pub fn placings_have_their_codes()
    ensures refusing { PlacingsHaveCodes }
    ensures keeping { PlacingsLeaveTheMedium }
{}

/// A turn is not possible without a subsystem, or without its controller (17): buffer and subsystem are unchanged. If
/// the command was taken, the answer is that of its execution.
#[tactic(auto, using(crate::proofs::PlacingResults::turns_have_codes))]
pub fn turns_have_their_codes()
    ensures { TurnsHaveCodes }
{}
