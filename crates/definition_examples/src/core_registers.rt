//! A write of Controller Configuration, and identifiers of controllers.

ghost use Rattle.std.specs.Prelude.{[], ◌∷◌, ◌≡◌};
ghost use Rattle.nvme_spec.specs.Registers.{Registers, Written};
ghost use Rattle.nvme_ns.specs.Attached.{HasSmallIds};
ghost use Rattle.definition_examples.specs.CoreRegisters.{core_enabled, CoreLeaves};

/// An enabling write leaves its value and the state ready, and the other registers as they are.
fn core_configured_registers()
    ensures registers { (r : Registers) → (w : Written) → CoreLeaves r w → w ≡ core_enabled r }
    ensures exactly { (r : Registers) → CoreLeaves r (core_enabled r) }
{}

/// The identifiers of controllers are at most 16.
fn core_small_identifiers()
    ensures none { HasSmallIds [] }
    ensures highest { HasSmallIds ((16, 7) ∷ []) }
    ensures higher { HasSmallIds ((17, 7) ∷ []) → ⊥ }
    ensures second { HasSmallIds ((1, 7) ∷ (17, 8) ∷ []) → ⊥ }
{}
