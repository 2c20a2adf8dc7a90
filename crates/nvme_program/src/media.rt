//! The media of a program: an image with a cache, and zeros in memory.

ghost use Rattle.std.specs.Prelude.{◌≡◌, [], IfOk, IfErr};
ghost use Rattle.nvme_medium.specs.Caches.{inner_of, blocks_kept, capacity_of};
ghost use Rattle.nvme_medium.specs.Memory.{memory_bytes};
ghost use Rattle.nvme_program.specs.Media.{zero_blocks};
ghost use Rattle.nvme_program.specs.declared.failure.Failure.TheVariants as failed;

use crate::failure::Failure;
use nvme_medium::{BLOCK, Cached, Medium, MemMedium};
use nvme_wire::NoMemory;
use std::alloc::Global;
use std::num::NonZeroUsize;

/// The most blocks of an image that are cached.
const KEPT_BLOCKS: usize = 256;

/// The length of the medium in memory if no image is named: 1,024 blocks.
const SCRATCH_BYTES: usize = 1024 * BLOCK;

/// The medium without an image: 1,024 blocks of zeros in memory.
///
/// # Errors
///
/// `Memory` if memory is refused.
pub fn scratch(alloc: Global) -> Result<MemMedium, Failure>
    ensures zeros { IfOk result (λ medium. memory_bytes medium ≡ zero_blocks 1024) }
    ensures memory { IfErr result (λ failure. failure ≡ failed.Memory) }
{
    match vec![in alloc; 0; SCRATCH_BYTES] {
        Ok(bytes) => Ok(MemMedium::of(bytes)),
        Err(_) => Err(Failure::Memory),
    }
}

/// The medium of an image: its blocks, with an empty cache for 256 of them.
///
/// # Errors
///
/// `Memory` if memory is refused, with the image.
pub fn behind_cache<M: Medium>(alloc: Global, image: M) -> Result<Cached<M>, (M, Failure)>
    ensures inner { IfOk result (λ cached. inner_of cached ≡ image) }
    ensures empty { IfOk result (λ cached. blocks_kept cached ≡ []) }
    ensures capacity { IfOk result (λ cached. capacity_of cached ≡ 256) }
    ensures device { IfOk result (λ cached. ⟦<Cached<M> as Medium>⟧.device cached ≡ M.device image) }
    ensures size { IfOk result (λ cached. ⟦<Cached<M> as Medium>⟧.size cached ≡ M.size image) }
    ensures memory { IfErr result (λ e. e.1 ≡ failed.Memory) }
    ensures back { IfErr result (λ e. e.0 ≡ image) }
{
    let kept = NonZeroUsize::new(KEPT_BLOCKS).unwrap();
    match Cached::new(alloc, image, kept) {
        Ok(medium) => Ok(medium),
        Err((image, NoMemory)) => Err((image, Failure::Memory)),
    }
}
