//! Data that a host sends after R2T (NVMe/TCP Transport Specification 1.0, Ready to Transfer).

ghost use Rattle.std.specs.Prelude.{◌≡◌, [], ◌∷◌};
ghost use Rattle.nvme_transfers.specs.Examples.{four, next_of_7, of_7};
ghost use Rattle.nvme_transfers.specs.Laws.{AreSized, NoEnd};
ghost use Rattle.nvme_transfers.specs.Runs.{Ends};
ghost use Rattle.nvme_transfers.specs.Transfers.{out_of_range};

/// Fatal Error Status of Data Transfer Out of Range.
fn wire_out_of_range_example()
    ensures status { out_of_range ≡ record { status = 4; field = 0 } }
{}

/// Parts have as many bytes as they say, and a run without an end has no end anywhere.
fn wire_parts_example()
    ensures one_byte_less { AreSized (record { part = next_of_7 0 5; bytes = four } ∷ []) → ⊥ }
    ensures second { AreSized (record { part = next_of_7 0 4; bytes = four }
        ∷ record { part = next_of_7 4 5; bytes = four } ∷ []) → ⊥ }
    ensures end { NoEnd (Ends ∷ []) → ⊥ }
    ensures end_after_a_part { NoEnd (of_7 0 4 ∷ Ends ∷ []) → ⊥ }
{}
