//! Laws of lists of media calls. Each law is the contract of an empty function.

ghost use Rattle.std.specs.Prelude.{◌≡◌, ◌≤◌, List, length};
ghost use Rattle.nvme_spec.specs.MediumCalls.{MediumCall, Calls, MakesCalls};
ghost use Rattle.nvme_medium.specs.Caches.{blocks_kept, capacity_of};
ghost use Rattle.nvme_medium.specs.CallLaws.{
  MemoryCallsAreDetermined,
  MemoryCallsCanBeMade,
  AreBehind,
  WritesAndFlushesGoOn,
  ArePartsOf,
  FilesHaveBlocksAlone,
  FlushesAreSyncs,
};
ghost use Rattle.nvme_medium.specs.Reading.{ReadingIsUnique, ReadingExists};
ghost use Rattle.nvme_medium.specs.declared.cached.Cached.{Cached as CachedMedium};
ghost use Rattle.nvme_medium.specs.declared.file.FileMedium.{FileMedium as MediumInAFile};

use crate::{Cached, FileMedium, Medium, RawFile};

/// All calls on the blocks of a medium in memory can be made, and have one outcome.
#[tactic(auto, using(crate::proofs::CallLaws::memory_calls_are_determined))]
pub fn memory_is_determined()
    ensures unique { MemoryCallsAreDetermined }
    ensures exists { MemoryCallsCanBeMade }
{}

/// Calls of a cached medium make their calls of the inner one, in order, and no others; its writes and flushes are all
/// among them. The capacity never changes, and no more blocks are cached.
pub fn cached_calls_go_on<M: Medium>()
    ensures behind { (old new : CachedMedium M M.Medium) → (calls : List MediumCall)
        → Calls ⟦<Cached<M> as Medium>⟧.step old calls new
        → MakesCalls M.step (AreBehind old.kept.entries calls new.kept.entries) old.inner new.inner }
    ensures changes { WritesAndFlushesGoOn }
    ensures bounded { (old new : CachedMedium M M.Medium) → (calls : List MediumCall)
        → Calls ⟦<Cached<M> as Medium>⟧.step old calls new
        → (capacity_of new ≡ capacity_of old) × (length (blocks_kept new) ≤ capacity_of old) }
{}

/// Calls of a medium over a file make their calls of the file, in order, and no others. The file is written only with
/// parts of written blocks, each at its place. Each flush is one sync, with the same answer.
pub fn file_calls_are_parts<F: RawFile>()
    ensures behind { (old new : MediumInAFile F) → (calls : List MediumCall)
        → Calls ⟦<FileMedium<F> as Medium>⟧.step old calls new
        → MakesCalls F.step (ArePartsOf calls) old.file new.file }
    ensures blocks { FilesHaveBlocksAlone }
    ensures syncs { FlushesAreSyncs }
{}

/// Reading blocks into a buffer has one outcome for any medium: first the blocks of the successful reads, then the
/// buffer's own bytes.
pub fn reading_is_determined<M: Medium>()
    ensures unique { ReadingIsUnique M.step }
    ensures exists { ReadingExists M.step }
{}
