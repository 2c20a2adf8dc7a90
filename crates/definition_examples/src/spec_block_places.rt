//! The place of a block's 512 bytes in host memory: in one piece of its transfer, or in two.

ghost use Rattle.std.specs.Prelude.{◌≡◌, [], ◌∷◌, length, slice_range};
ghost use Rattle.nvme_prp.specs.BlockPlaces.{places, Lies, no_piece, placed, place_at};

use nvme_prp::BlockPlace;

/// A block is 512 bytes, in one piece or two.
fn spec_sizes_of_blocks()
    ensures one { length (places (BlockPlace.One 0x1000)) ≡ 512 }
    ensures two { length (places (BlockPlace.Two 0x1ff0 16 0x5000)) ≡ 512 }
    ensures over_the_page { slice_range (places (BlockPlace.Two 0x1ff0 16 0x5000)) 14 18
        ≡ 0x1ffe ∷ 0x1fff ∷ 0x5000 ∷ 0x5001 ∷ [] }
{}

/// The last block of a window of 4 MiB, and the first address after it, in one piece.
fn spec_blocks_in_the_window()
    ensures last { Lies (BlockPlace.One 0x3ffe00) }
    ensures over { Lies (BlockPlace.One 0x3ffe01) → ⊥ }
{}

/// The same for two pieces, neither of which is empty.
fn spec_two_pieces_in_the_window()
    ensures one_byte { Lies (BlockPlace.Two 0x3fffff 1 0x3ffe01) }
    ensures first_empty { Lies (BlockPlace.Two 0x1000 0 0x2000) → ⊥ }
    ensures second_empty { Lies (BlockPlace.Two 0x1000 512 0x2000) → ⊥ }
    ensures first_over { Lies (BlockPlace.Two 0x400000 1 0x2000) → ⊥ }
    ensures second_over { Lies (BlockPlace.Two 0x1000 1 0x3ffe02) → ⊥ }
{}

/// A block that ends with its piece is in one piece, and one that ends after it continues in the next piece.
#[tactic(auto, unfolding(nvme_prp::specs::BlockPlaces::place_at))]
fn spec_placed_blocks()
    ensures no_piece { no_piece ≡ record { address = 0; len = 0 } }
    ensures ends { placed (record { address = 0x1c00; len = 0x400 }) (record { address = 0x5000; len = 0x1000 }) 0x200
        ≡ BlockPlace.One 0x1e00 }
    ensures goes_on { placed (record { address = 0x1c00; len = 0x400 })
        (record { address = 0x5000; len = 0x1000 }) 0x204
        ≡ BlockPlace.Two 0x1e04 0x1fc 0x5000 }
    ensures nowhere { place_at [] 5 ≡ BlockPlace.One 0 }
    ensures second { place_at (record { address = 0x1c00; len = 0x400 } ∷ record { address = 0x5000; len = 0x1000 }
        ∷ record { address = 0x9000; len = 0x1000 } ∷ []) 0x1300
        ≡ BlockPlace.Two 0x5f00 0x100 0x9000 }
    ensures first { place_at (record { address = 0x1c00; len = 0x400 } ∷ record { address = 0x5000; len = 0x1000 }
        ∷ record { address = 0x9000; len = 0x1000 } ∷ []) 0x300
        ≡ BlockPlace.Two 0x1f00 0x100 0x5000 }
{}
