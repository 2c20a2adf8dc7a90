//! Laws of the calls. Each law is the contract of an empty function.

ghost use Rattle.nvme_library.specs.DiskLaws.{
  ExecutionsAreInMemory,
  OtherBlocksAreNotInMemory,
  RoomsComeBack,
  RunsAreInMemory,
  WholeRoomsHaveNoFault,
};
ghost use Rattle.nvme_library.specs.LentLaws.{
  ExecutionsStayInPlace,
  TurnsStayInPlace,
  ExecutionsReachTheBytes,
  BytesStayTheContent,
  PowerCyclesLeaveTheMedium,
  LooksLeaveTheMedium,
};

/// Commands act on the bytes that a C program provides: these keep their address and length, the blocks are what each
/// command's calls leave, and that is the content of the state.
pub fn commands_reach_lent_bytes()
    ensures executions { ExecutionsStayInPlace }
    ensures turns { TurnsStayInPlace }
    ensures bytes { ExecutionsReachTheBytes }
    ensures content { BytesStayTheContent }
{}

/// A power cycle, and a read of blocks in memory, leave the medium unchanged.
#[tactic(auto, using(crate::proofs::LentLaws::power_cycles_leave_the_medium, crate::proofs::LentLaws::looks_leave_the_medium))]
pub fn cycles_and_looks_leave_the_medium()
    ensures cycles { PowerCyclesLeaveTheMedium }
    ensures looks { LooksLeaveTheMedium }
{}

/// If a program brings each block as its disk has it, and then stores the blocks at hand on the disk, its commands are
/// executed as over these blocks in memory, in any run. Each room comes back at its address, and nothing stays at hand.
/// Over a room with all that a command needs, its execution has no fault.
pub fn commands_over_a_disk_are_in_memory()
    ensures execution { ExecutionsAreInMemory }
    ensures other_blocks { OtherBlocksAreNotInMemory }
    ensures room { RoomsComeBack }
    ensures run { RunsAreInMemory }
    ensures whole { WholeRoomsHaveNoFault }
{}
