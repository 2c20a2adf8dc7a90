//! Laws of transfers between a medium and host memory.

ghost use Rattle.nvme_spec.specs.TransferLaws.{
  LastByteIsKept,
  OthersStay,
  BlocksMakeTheWhole,
  BlocksScatterTheWhole,
  SmallIsContiguous,
  GatheredIsScattered,
  RunIsWritten,
  ScatteringKeepsTheLength,
};

/// Which byte an address keeps, that blocks make up the whole, and the place of a small transfer.
#[tactic(auto, using(crate::proofs::TransferLaws::last_byte_is_kept, crate::proofs::TransferLaws::others_stay, crate::proofs::TransferLaws::blocks_make_the_whole, crate::proofs::TransferLaws::blocks_scatter_the_whole, crate::proofs::TransferLaws::small_is_contiguous, crate::proofs::TransferLaws::gathered_is_scattered, crate::proofs::TransferLaws::run_is_written, crate::proofs::TransferLaws::scattering_keeps_the_length))]
fn transfers()
    ensures last_byte { LastByteIsKept }
    ensures others { OthersStay }
    ensures gathering { BlocksMakeTheWhole }
    ensures scattering { BlocksScatterTheWhole }
    ensures contiguous { SmallIsContiguous }
    ensures gathered { GatheredIsScattered }
    ensures run { RunIsWritten }
    ensures length { ScatteringKeepsTheLength }
{}
