//! Calls of a medium: which fail, and what a list of them leads to.

ghost use Rattle.std.specs.Prelude.{◌≡◌, ◌≤◌, ◌+◌, ◌*◌, ℕ, [], ◌∷◌, List, take, true, Ok, Err};
ghost use Rattle.nvme_spec.specs.Blocks.{CountsFaults, IsFront, blocks_from};
ghost use Rattle.nvme_spec.specs.Effects.{HasSameFront};
ghost use Rattle.nvme_medium.specs.Examples.{logs};
ghost use Rattle.nvme_spec.specs.declared.medium.MediumFault.{MediumFault as Fault};
ghost use Rattle.nvme_spec.specs.MediumCalls.{
  MediumCall,
  Reads,
  Writes,
  Flushes,
  Fails,
  MakesCalls,
  MakesInOrder,
  EndsAt,
};

/// A call fails exactly if its answer is a fault.
fn spec_failed_calls()
    ensures read { (fault : Fault) → Fails (Reads 7 (Err fault)) }
    ensures read_done { Fails (Reads 7 (Ok (1 ∷ []))) → ⊥ }
    ensures write { (fault : Fault) → Fails (Writes 7 (1 ∷ []) (Err fault)) }
    ensures write_done { Fails (Writes 7 (1 ∷ []) (Ok tt)) → ⊥ }
    ensures flush { (fault : Fault) → Fails (Flushes (Err fault)) }
    ensures flush_done { Fails (Flushes (Ok tt)) → ⊥ }
{}

/// A transfer of two calls ends after two, or with a fault before.
fn spec_ends_of_transfers()
    ensures all { EndsAt 2 2 (Ok tt) }
    ensures fewer { EndsAt 2 1 (Ok tt) → ⊥ }
    ensures failed { (fault : Fault) → EndsAt 2 1 (Err fault) }
    ensures too_late { (fault : Fault) → EndsAt 2 2 (Err fault) → ⊥ }
{}

/// The states after one Flush, and after a transfer of one call, of a medium whose state is the list of its calls.
fn spec_made_calls()
    ensures flush { (new : List MediumCall) → MakesCalls logs (λ calls. calls ≡ Flushes (Ok tt) ∷ []) [] new
        → new ≡ Flushes (Ok tt) ∷ [] }
    ensures write { (new : List MediumCall) → MakesInOrder logs (λ j answer. Writes (7 + j) [] answer) 1 [] (Ok tt) new
        → new ≡ Writes 7 [] (Ok tt) ∷ [] }
{}

/// The failure count stays if a call succeeds, and rises if it fails.
fn spec_counted_faults()
    ensures done { (now : ℕ) → CountsFaults {T = Unit {0}} {E = Fault} 3 now (Ok tt) → now ≡ 3 }
    ensures failed { (fault : Fault) → (now : ℕ) → CountsFaults {T = Unit {0}} {E = Fault} 3 now (Err fault)
        → 4 ≤ now }
{}

/// What was read, or compared, before a block that can't be read.
fn spec_fronts()
    ensures read { (first bytes : ℕ) → (content front : List ℕ) → (x : IsFront true first bytes content front)
        → front ≡ blocks_from content first (512 * x.at) }
    ensures compared { (first : ℕ) → (bytes content : List ℕ) → (x : HasSameFront first bytes content)
        → blocks_from content first (512 * x.at) ≡ take (512 * x.at) bytes }
    ensures nothing { (first : ℕ) → (content : List ℕ) → HasSameFront first [] content → ⊥ }
{}
