//! Laws that follow from the definitions. Each is the contract of an empty function.

ghost use Rattle.nvme_driver.specs.Layout.{AreasLieInWindow, AreasAreApart, EntriesLieInTheirPages};
ghost use Rattle.nvme_driver.specs.Pointers.{
  SlotsAreContiguous,
  SlotsMoveOneRun,
  OtherPartsStay,
  StoredListIsThere,
  StoresKeepLists,
  ListsKeepOthers,
};
ghost use Rattle.nvme_driver.specs.Moments.{PollsAreOfMoments};
ghost use Rattle.nvme_driver.specs.Once.{HandsUpOutstanding, HandsUpOnce, PollsAreEvents};
ghost use Rattle.nvme_driver.specs.Drivers.{EntriesMoveTheirData};
ghost use Rattle.nvme_driver.specs.HostCommands.{RequestsAreCommands};
ghost use Rattle.nvme_driver.specs.Snapshots.{SnapshotsAreOfOneMoment, PollsAreOfOneMoment};

use crate::port::Port;

/// The parts of the window: each is in it, no two have a common byte, and entries are in their queue's page.
#[tactic(auto, using(crate::proofs::Areas::areas_lie_in_window, crate::proofs::Areas::areas_are_apart, crate::proofs::Areas::entries_lie_in_their_pages))]
pub fn layout()
    ensures inside { AreasLieInWindow }
    ensures apart { AreasAreApart }
    ensures entries { EntriesLieInTheirPages }
{}

/// The pointer of a slot has no fault and is the slot's data, byte after byte, as one run.
pub fn pointers()
    ensures contiguous { SlotsAreContiguous }
    ensures moves { SlotsMoveOneRun }
{}

/// What stores leave of the window, and of the lists in it.
#[tactic(auto, using(crate::proofs::PageLists::other_parts_stay, crate::proofs::PageLists::stored_list_is_there, crate::proofs::PageLists::stores_keep_lists, crate::proofs::PageLists::lists_keep_others))]
pub fn lists()
    ensures apart { OtherPartsStay }
    ensures there { StoredListIsThere }
    ensures stores { StoresKeepLists }
    ensures others { ListsKeepOthers }
{}

/// Each delivered ticket is that of a waiting request, and no ticket is delivered twice, for any calls of the host in
/// any order, and any bytes of the window.
pub fn tickets()
    ensures outstanding { HandsUpOutstanding }
    ensures once { HandsUpOnce }
{}

/// So it is of the polls over any port, whatever its device writes, and whenever: each is an event of such a run.
pub fn polls<P: Port>()
    ensures { PollsAreEvents P.step }
{}

/// A poll over memory that a device writes while it is read is a poll of one lane (queue pair) of that memory at one
/// moment, or has found nothing new: if the port reads the double word with the phase tag first, and the device leaves
/// a new completion, and the data of the request that it answers, until it is consumed.
#[tactic(auto, using(crate::proofs::Moments::polls_are_of_moments))]
pub fn moments<P: Port>()
    ensures { PollsAreOfMoments P.step }
{}

/// So is a poll over a window into which a completion was copied from such memory, phase tag first, and then its data.
#[tactic(auto, using(crate::proofs::Snapshots::snapshots_are_of_one_moment, crate::proofs::Snapshots::polls_are_of_one_moment))]
pub fn snapshots()
    ensures entry { SnapshotsAreOfOneMoment }
    ensures poll { PollsAreOfOneMoment }
{}

/// A controller that reads the entry of a request transfers as many bytes as the request.
#[tactic(auto, using(crate::proofs::Moving::entries_move_their_data))]
pub fn data()
    ensures { EntriesMoveTheirData }
{}

/// Placing a request is placing its command.
#[tactic(auto, using(crate::proofs::HostCommands::requests_are_commands))]
pub fn requests()
    ensures { RequestsAreCommands }
{}
