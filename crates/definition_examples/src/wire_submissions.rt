//! Fields of submission queue entries (NVM Express Base Specification 2.0, Common Command Format).
#![tactic(auto, unfolding(nvme_wire::specs::Submission::opcode, nvme_wire::specs::Submission::fuse, nvme_wire::specs::Submission::psdt, nvme_wire::specs::Submission::cid))]

ghost use Rattle.std.specs.Prelude.{◌≡◌, ◌^◌, ◌∷◌, replicate};
ghost use Rattle.nvme_wire.specs.Submission.{FitsFields, cid, fuse, opcode, psdt};

/// Double word 0 of a Read that is the first of two fused commands, uses SGLs, and has a reserved bit set.
fn wire_command_example()
    ensures opcode { opcode (0x02 ∷ 0x45 ∷ 0x34 ∷ 0x12 ∷ replicate 60 0) ≡ 0x02 }
    ensures fuse { fuse (0x02 ∷ 0x45 ∷ 0x34 ∷ 0x12 ∷ replicate 60 0) ≡ 1 }
    ensures psdt { psdt (0x02 ∷ 0x45 ∷ 0x34 ∷ 0x12 ∷ replicate 60 0) ≡ 1 }
    ensures cid { cid (0x02 ∷ 0x45 ∷ 0x34 ∷ 0x12 ∷ replicate 60 0) ≡ 0x1234 }
{}

/// Double words 0 to 9: a value with one bit more than its field does not fit.
fn wire_command_widths_example()
    ensures double_word_0 { (e : _) → FitsFields e → e.cdw0 ≡ 2 ^ 32 → ⊥ }
    ensures nsid { (e : _) → FitsFields e → e.nsid ≡ 2 ^ 32 → ⊥ }
    ensures double_word_2 { (e : _) → FitsFields e → e.cdw2 ≡ 2 ^ 32 → ⊥ }
    ensures double_word_3 { (e : _) → FitsFields e → e.cdw3 ≡ 2 ^ 32 → ⊥ }
    ensures mptr { (e : _) → FitsFields e → e.mptr ≡ 2 ^ 64 → ⊥ }
    ensures prp1 { (e : _) → FitsFields e → e.prp1 ≡ 2 ^ 64 → ⊥ }
    ensures prp2 { (e : _) → FitsFields e → e.prp2 ≡ 2 ^ 64 → ⊥ }
{}

/// Double words 10 to 15, whose meaning depends on the command.
fn wire_command_specific_widths_example()
    ensures double_word_10 { (e : _) → FitsFields e → e.cdw10 ≡ 2 ^ 32 → ⊥ }
    ensures double_word_11 { (e : _) → FitsFields e → e.cdw11 ≡ 2 ^ 32 → ⊥ }
    ensures double_word_12 { (e : _) → FitsFields e → e.cdw12 ≡ 2 ^ 32 → ⊥ }
    ensures double_word_13 { (e : _) → FitsFields e → e.cdw13 ≡ 2 ^ 32 → ⊥ }
    ensures double_word_14 { (e : _) → FitsFields e → e.cdw14 ≡ 2 ^ 32 → ⊥ }
    ensures double_word_15 { (e : _) → FitsFields e → e.cdw15 ≡ 2 ^ 32 → ⊥ }
{}
