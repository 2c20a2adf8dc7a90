//! A cache of blocks over a medium, a medium of which one call fails, and calls on the blocks of a medium.

ghost use Rattle.std.specs.Prelude.{◌≡◌, ℕ, [], ◌∷◌, ◌++◌, List, length, replicate, true, None, Some, Ok, Err};
ghost use Rattle.nvme_spec.specs.declared.medium.MediumFault.{MediumFault as Fault};
ghost use Rattle.nvme_spec.specs.MediumCalls.{MediumCall, Reads, Writes, Flushes};
ghost use Rattle.nvme_medium.specs.declared.failing.Failing.{Failing as FailingMedium};
ghost use Rattle.nvme_medium.specs.Cached.{Fits, keeps_by, AnswersKept};
ghost use Rattle.nvme_medium.specs.CallLaws.{LiesWithin, AllLieWithin};
ghost use Rattle.nvme_medium.specs.Examples.{logs};
ghost use Rattle.nvme_medium.specs.Reading.{ReadingExists, ReadsBlocks};
ghost use Rattle.nvme_medium.specs.Failing.{
  inner_of,
  calls_left,
  own_failures,
  IsSkipped,
  PassesOn,
};

/// A cache has room for at least one block, and has at most as many blocks as its capacity.
fn spec_sizes_of_caches()
    ensures one { Fits (record { entries = (7, 1 ∷ []) ∷ []; cap = 1 }) }
    ensures no_room { Fits (record { entries = []; cap = 0 }) → ⊥ }
    ensures too_many { Fits (record { entries = (7, 1 ∷ []) ∷ (8, 2 ∷ []) ∷ []; cap = 1 }) → ⊥ }
{}

/// A written block is cached with its bytes, and no other block is added.
fn spec_cached_writes()
    ensures cached { keeps_by (Writes 7 (1 ∷ []) (Ok tt)) [] ((7, 1 ∷ []) ∷ []) }
    ensures other_block { keeps_by (Writes 7 (1 ∷ []) (Ok tt)) [] ((8, 1 ∷ []) ∷ []) → ⊥ }
    ensures other_bytes { keeps_by (Writes 7 (1 ∷ []) (Ok tt)) [] ((7, 2 ∷ []) ∷ []) → ⊥ }
{}

/// A failed write removes its block from the cache.
fn spec_failed_cached_writes()
    ensures dropped { (fault : Fault) → keeps_by (Writes 7 (2 ∷ []) (Err fault)) ((7, 1 ∷ []) ∷ []) [] }
    ensures kept { (fault : Fault)
        → keeps_by (Writes 7 (2 ∷ []) (Err fault)) ((7, 1 ∷ []) ∷ []) ((7, 1 ∷ []) ∷ []) → ⊥ }
    ensures other_block { (fault : Fault)
        → keeps_by (Writes 7 (2 ∷ []) (Err fault)) [] ((8, 1 ∷ []) ∷ []) → ⊥ }
{}

/// A Flush leaves the cache unchanged. Only the answers of reads depend on the cached blocks.
fn spec_cached_flushes()
    ensures same { keeps_by (Flushes (Ok tt)) ((7, 1 ∷ []) ∷ []) ((7, 1 ∷ []) ∷ []) }
    ensures dropped { keeps_by (Flushes (Ok tt)) ((7, 1 ∷ []) ∷ []) [] → ⊥ }
    ensures flush { (fault : Fault) → AnswersKept ((7, 1 ∷ []) ∷ []) (Flushes (Err fault)) }
    ensures write { (fault : Fault) → AnswersKept ((7, 1 ∷ []) ∷ []) (Writes 7 (2 ∷ []) (Err fault)) }
{}

/// Calls on a medium of 8 blocks.
fn spec_calls_within()
    ensures read { LiesWithin 8 (Reads 7 (Ok [])) }
    ensures read_after { LiesWithin 8 (Reads 8 (Ok [])) → ⊥ }
    ensures write_after { LiesWithin 8 (Writes 8 (replicate 512 0) (Ok tt)) → ⊥ }
    ensures part { LiesWithin 8 (Writes 7 (replicate 511 0) (Ok tt)) → ⊥ }
    ensures flush { LiesWithin 8 (Flushes (Ok tt)) }
    ensures nothing { AllLieWithin 8 [] }
    ensures first_after { AllLieWithin 8 (Reads 8 (Ok []) ∷ Flushes (Ok tt) ∷ []) → ⊥ }
    ensures second_after { AllLieWithin 8 (Flushes (Ok tt) ∷ Reads 8 (Ok []) ∷ []) → ⊥ }
{}

/// The one call that fails counts once, and does not reach the inner medium.
fn spec_failing_calls()
    ensures failed { own_failures None ≡ 1 }
    ensures not_yet { own_failures (Some 0) ≡ 0 }
    ensures no_success { (before after : FailingMedium (List MediumCall))
        → IsSkipped {T = Unit {0}} {E = Fault} before after (Ok tt) → ⊥ }
    ensures unchanged { (fault : Fault) → (before after : FailingMedium (List MediumCall))
        → IsSkipped {T = Unit {0}} before after (Err fault) → inner_of after ≡ inner_of before }
{}

/// A medium in which the third call after this one fails, in which this one fails, and in which one has failed.
fn spec_passed_calls()
    ensures counted { (call : MediumCall) → (before after : FailingMedium (List MediumCall))
        → PassesOn logs before call after
        → calls_left before ≡ Some 3 → calls_left after ≡ Some 2 }
    ensures skipped { (call : MediumCall) → (before after : FailingMedium (List MediumCall))
        → PassesOn logs before call after
        → calls_left before ≡ Some 0 → inner_of after ≡ inner_of before }
    ensures passed { (call : MediumCall) → (before after : FailingMedium (List MediumCall))
        → PassesOn logs before call after
        → calls_left before ≡ None → inner_of after ≡ inner_of before ++ (call ∷ []) }
{}

/// By its law, a read of one block into a buffer of 512 bytes has an outcome if its call fails.
fn spec_failed_reads()
    ensures exists { ReadingExists logs → (fault : Fault) → (buffer : List ℕ) → length buffer ≡ 512
        → (left : List ℕ) × ReadsBlocks logs true [] 7 1 buffer left [] (Err fault) (Reads 7 (Err fault) ∷ []) }
{}
