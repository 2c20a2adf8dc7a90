//! Blocks that are read, written and compared.

ghost use Rattle.std.specs.Prelude.{◌≡◌, ◌≢◌, ◌++◌, ◌∷◌, replicate};
ghost use Rattle.nvme_spec.specs.Blocks.{block_at, blocks_from};
ghost use Rattle.nvme_spec.specs.Bytes.{with_bytes};

/// A medium of three blocks of zeros.
fn three_blocks()
    ensures written { with_bytes (replicate 1536 0) 512 (replicate 512 0x5a)
        ≡ replicate 512 0 ++ replicate 512 0x5a ++ replicate 512 0 }
    ensures read_back { block_at (with_bytes (replicate 1536 0) 512 (replicate 512 0x5a)) 1 ≡ replicate 512 0x5a }
    ensures untouched { blocks_from (with_bytes (replicate 1536 0) 0 (replicate 512 0x5a)) 1 1024 ≡ replicate 1024 0 }
{}

/// Compare of a block of zeros with zeros, and with data that begin with 1.
fn compared()
    ensures same { blocks_from (replicate 1536 0) 0 512 ≡ replicate 512 0 }
    ensures different { blocks_from (replicate 1536 0) 0 512 ≢ 1 ∷ replicate 511 0 }
{}
