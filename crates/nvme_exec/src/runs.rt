//! Blocks of a transfer that are contiguous in the window.

ghost use Rattle.std.specs.Prelude.{◌+◌, ◌*◌, ◌≤◌, length, IfSome};
ghost use Rattle.nvme_spec.specs.Transfers.{addresses};
ghost use Rattle.nvme_exec.specs.Runs.{IsRun};

use nvme_prp::{BlockPlace, Pieces};
use nvme_spec::Piece;

/// The size of a memory page, in bytes.
const PAGE: u64 = 4096;

/// The piece of block `j` of a transfer and of the blocks after it in the same page, at most `most`. `None` if block
/// `j` is in two pieces.
pub fn run_at(pieces: &Pieces, j: u64, most: u64) -> Option<Piece>
    requires some { 1 ≤ most }
    requires inside { 512 * (j + most) ≤ length (addresses pieces.now.parts.items) }
    ensures { IfSome result (λ run. IsRun pieces.now.parts.items j most run) }
{
    match pieces.block(j) {
        BlockPlace::One(address) => {
            let blocks = most.min((PAGE - address % PAGE) / 512);
            Some(Piece {
                address,
                len: 512 * blocks,
            })
        }
        BlockPlace::Two(..) => None,
    }
}
