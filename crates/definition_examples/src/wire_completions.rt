//! Fields of completion queue entries (NVM Express Base Specification 2.0, Completion Queue Entry).
#![tactic(auto, unfolding(nvme_wire::specs::Completion::completion_entry, nvme_wire::specs::Completion::dw0, nvme_wire::specs::Completion::sq_head, nvme_wire::specs::Completion::sq_id, nvme_wire::specs::Completion::cid, nvme_wire::specs::Completion::phase, nvme_wire::specs::Completion::status))]

ghost use Rattle.std.specs.Prelude.{◌≡◌, ◌^◌, [], ◌∷◌, true};
ghost use Rattle.nvme_wire.specs.Completion.{FitsFields, completion_entry, completion_of};

/// A completion whose status is Connect Invalid Parameters: each of its other bytes is its place, counted from 1.
fn wire_completion_example()
    ensures written { completion_entry (record {
      dw0 = 0x04030201;
      sq_head = 0x0a09;
      sq_id = 0x0c0b;
      cid = 0x0e0d;
      phase = true;
      status = record { sct = 1; sc = 0x82 };
    }) ≡ 1 ∷ 2 ∷ 3 ∷ 4 ∷ 0 ∷ 0 ∷ 0 ∷ 0 ∷ 9 ∷ 10 ∷ 11 ∷ 12 ∷ 13 ∷ 14 ∷ 0x05 ∷ 0x03 ∷ [] }
    ensures read { completion_of (1 ∷ 2 ∷ 3 ∷ 4 ∷ 5 ∷ 6 ∷ 7 ∷ 8 ∷ 9 ∷ 10 ∷ 11 ∷ 12 ∷ 13 ∷ 14 ∷ 0x05 ∷ 0xf3 ∷ [])
        ≡ record {
          dw0 = 0x04030201;
          sq_head = 0x0a09;
          sq_id = 0x0c0b;
          cid = 0x0e0d;
          phase = true;
          status = record { sct = 1; sc = 0x82 };
        } }
{}

/// A double word of 33 bits does not fit.
fn wire_completion_widths_example()
    ensures double_word_0 { (e : _) → FitsFields e → e.dw0 ≡ 2 ^ 32 → ⊥ }
    ensures double_word_1 { (e : _) → FitsFields e → e.dw1 ≡ 2 ^ 32 → ⊥ }
    ensures double_word_2 { (e : _) → FitsFields e → e.dw2 ≡ 2 ^ 32 → ⊥ }
    ensures double_word_3 { (e : _) → FitsFields e → e.dw3 ≡ 2 ^ 32 → ⊥ }
{}
