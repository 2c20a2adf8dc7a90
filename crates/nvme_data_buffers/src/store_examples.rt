//! Worked examples of stores between the placing of a command and its execution.

ghost use Rattle.std.specs.Prelude.{◌≡◌, [], ◌∷◌, replicate};
ghost use Rattle.nvme_data_buffers.specs.Areas.{Completions, Listing, Buffer};
ghost use Rattle.nvme_data_buffers.specs.Stores.{IsElsewhere, after_stores};
ghost use Rattle.nvme_data_buffers.specs.declared.buffer.DataBuffer.TheVariants.{AtOnce, Held};

/// Completions and data of other commands are elsewhere. The command's own buffer, the PRP list and what begins before
/// its area are not.
fn elsewhere()
    ensures completion { IsElsewhere (Held 1) (record { area = Completions 1; at = 16384; part = 1 ∷ 2 ∷ [] }) }
    ensures data { IsElsewhere (Held 1) (record { area = Buffer AtOnce; at = 4194303; part = 7 ∷ [] }) }
    ensures own { IsElsewhere (Held 1) (record { area = Buffer (Held 1); at = 4055039; part = 7 ∷ [] }) → ⊥ }
    ensures list { IsElsewhere (Held 1) (record { area = Listing; at = 65536; part = 7 ∷ [] }) → ⊥ }
    ensures before { IsElsewhere (Held 1) (record { area = Completions 1; at = 16383; part = 7 ∷ [] }) → ⊥ }
    ensures after { IsElsewhere (Held 1) (record { area = Buffer AtOnce; at = 4194303; part = 7 ∷ 8 ∷ [] }) → ⊥ }
    ensures none { after_stores (1 ∷ 2 ∷ 3 ∷ []) [] ≡ 1 ∷ 2 ∷ 3 ∷ [] }
    ensures two { after_stores (1 ∷ 2 ∷ 3 ∷ []) (record { area = Completions 1; at = 0; part = 7 ∷ 8 ∷ [] }
        ∷ record { area = Completions 1; at = 1; part = 9 ∷ [] } ∷ []) ≡ 7 ∷ 9 ∷ 3 ∷ [] }
{}
