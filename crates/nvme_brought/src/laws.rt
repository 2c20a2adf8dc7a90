//! Laws of lists of calls. Each law is the contract of an empty function.

ghost use Rattle.nvme_brought.specs.CallLaws.{CallsFailWithoutBlocks, CallsStayInRoom};

/// Calls change the room alone: the disk stays as it is, the room where it is, and its blocks at hand stay at hand.
#[tactic(auto, using(crate::proofs::CallLaws::calls_stay_in_room))]
pub fn calls_stay_in_their_room()
    ensures { CallsStayInRoom }
{}

/// Without a block at hand each read, each write and each flush fails, and nothing else happens.
#[tactic(auto, using(crate::proofs::CallLaws::calls_fail_without_blocks))]
pub fn calls_need_blocks()
    ensures { CallsFailWithoutBlocks }
{}
