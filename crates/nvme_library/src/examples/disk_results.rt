//! What a program does with a disk, and the invariant of what is open.

ghost use Rattle.nvme_library.specs.DiskResults.{DisksAreServed, OpenOnesAreWhole, RoomsServeNeeds};

/// A room serves a command by what this needs: any room if that is nothing, one with both blocks at hand for a Read of
/// two, and one of 1024 bytes from the first block on for a Write of two.
#[tactic(auto, using(crate::proofs::DiskResults::rooms_serve_needs))]
pub fn rooms_serve_their_needs()
    ensures { RoomsServeNeeds }
{}

/// A power cycle leaves disk and medium unchanged. Over a room, the blocks are as the disk has them. There are as many
/// results as events.
#[tactic(auto, using(crate::proofs::DiskResults::disks_are_served))]
pub fn disks_are_served_so()
    ensures { DisksAreServed }
{}

/// All controllers of what is open are whole.
#[tactic(auto, using(crate::proofs::DiskResults::open_ones_are_whole))]
pub fn open_ones_have_whole_controllers()
    ensures { OpenOnesAreWhole }
{}
