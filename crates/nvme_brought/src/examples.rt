//! Worked examples of the definitions, proved by computing.

ghost use Rattle.std.specs.Prelude.{◌≡◌, None, Some};
ghost use Rattle.nvme_brought.specs.Places.{place_in};

/// Three blocks from block 5 have the places 0 to 2. No other block has one, nor has any if there are none.
pub fn blocks_have_places()
    ensures first { place_in 5 3 5 ≡ Some 0 }
    ensures last { place_in 5 3 7 ≡ Some 2 }
    ensures before { place_in 5 3 4 ≡ None }
    ensures after { place_in 5 3 8 ≡ None }
    ensures none { place_in 5 0 5 ≡ None }
{}
