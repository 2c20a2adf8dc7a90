//! The window of host memory, the places of data in it, and the blocks of a namespace.

ghost use Rattle.std.specs.Prelude.{
  ◌≡◌,
  ◌<◌,
  ◌++◌,
  ℕ,
  [],
  ◌∷◌,
  List,
  length,
  replicate,
  slice_index,
  slice_range,
  take,
  false,
};
ghost use Rattle.nvme_spec.specs.Memory.{window_size, zeros, LiesInWindow};
ghost use Rattle.nvme_spec.specs.Transfers.{LiesInPage};
ghost use Rattle.nvme_spec.specs.TransferLaws.{StandsLastAt};
ghost use Rattle.nvme_spec.specs.ExampleWindows.{linked, full, doubled, long};
ghost use Rattle.nvme_spec.specs.World.{namespace_bytes, opening_world};
ghost use Rattle.nvme_spec.specs.Layout.{OpeningIsLaidOut, IsLaidOut};
ghost use Rattle.nvme_spec.specs.Examples.{cluster};

use nvme_spec::{Hold, Protection};

/// The window has 4 MiB, and a new one is all zeros.
fn spec_window()
    ensures size { window_size ≡ 0x400000 }
    ensures zeros { (i : ℕ) → i < window_size → slice_index zeros i ≡ 0 }
{}

/// A piece of a transfer ends in the window, and in its page.
fn spec_pieces()
    ensures last { LiesInWindow (record { address = 0x3ffffc; len = 4 }) }
    ensures over { LiesInWindow (record { address = 0x3ffffc; len = 5 }) → ⊥ }
    ensures in_page { LiesInPage (record { address = 0x1ffc; len = 4 }) }
    ensures over_the_page { LiesInPage (record { address = 0x1ffc; len = 8 }) → ⊥ }
    ensures over_the_window { LiesInPage (record { address = 0x400000; len = 8 }) → ⊥ }
{}

/// The last place of address 5, which is named twice.
fn spec_last_places()
    ensures last { StandsLastAt (5 ∷ 7 ∷ 5 ∷ []) 5 2 }
    ensures first { StandsLastAt (5 ∷ 7 ∷ 5 ∷ []) 5 0 → ⊥ }
    ensures other { StandsLastAt (5 ∷ 7 ∷ 5 ∷ []) 5 1 → ⊥ }
    ensures beyond { StandsLastAt (5 ∷ 7 ∷ 5 ∷ []) 0 3 → ⊥ }
{}

/// Windows of the worked examples on PRP Lists. Their first slots are 12280, 12272 and 12288, and other bytes are 0.
#[tactic(auto, unfolding(nvme_spec::specs::ExampleWindows::linked, nvme_spec::specs::ExampleWindows::full, nvme_spec::specs::ExampleWindows::doubled))]
fn spec_list_windows()
    ensures linked_size { length (linked 0x3000) ≡ 12304 }
    ensures linked_front { take 12280 (linked 0x3000) ≡ replicate 12280 0 }
    ensures linked_entries { slice_range (linked 0x3000) 12280 12304
        ≡ 0 ∷ 0x30 ∷ replicate 7 0 ++ 0x60 ∷ replicate 7 0 ++ 0x70 ∷ replicate 6 0 }
    ensures full_size { length full ≡ 12304 }
    ensures full_front { take 12272 full ≡ replicate 12272 0 }
    ensures full_entries { slice_range full 12272 12304 ≡ 0 ∷ 0x60 ∷ replicate 7 0 ++ 0x70 ∷ replicate 22 0 }
    ensures doubled_size { length doubled ≡ 12304 }
    ensures doubled_front { take 12288 doubled ≡ replicate 12288 0 }
    ensures doubled_entries { slice_range doubled 12288 12304 ≡ 0 ∷ 0x60 ∷ replicate 7 0 ++ 0x60 ∷ replicate 6 0 }
{}

/// A list of 32 entries, of 8 bytes each, for the pages from 10000h.
#[tactic(auto, unfolding(nvme_spec::specs::ExampleWindows::long))]
fn spec_long_list()
    ensures size { length long ≡ 256 }
    ensures front { take 16 long ≡ 0 ∷ 0 ∷ 1 ∷ replicate 5 0 ++ 0 ∷ 0x10 ∷ 1 ∷ replicate 5 0 }
    ensures last { slice_range long 248 256 ≡ 0 ∷ 0xf0 ∷ 2 ∷ replicate 5 0 }
{}

/// A namespace of one block, the second of a medium.
fn spec_bytes_of_namespaces()
    ensures bytes { namespace_bytes (replicate 512 1 ++ replicate 512 2 ++ replicate 512 3) (record {
      nsid = 1;
      first = 1;
      blocks = 1;
      shared = false;
      protection = Protection.Open;
      reservation = record { registrants = []; hold = Hold.Free; generation = 0; ptpl = false };
    }) ≡ replicate 512 2 }
{}

/// By its law, the cluster of namespaces of 64 and of 8 blocks is laid out on a medium of 72.
fn spec_laid_out_cluster()
    ensures cluster { OpeningIsLaidOut → (content : List ℕ) → length content ≡ 36864
        → IsLaidOut (opening_world cluster) content }
{}
