//! The data of a write, one block at a time.

ghost use Rattle.std.specs.Prelude.{◌≡◌, ◌+◌, ◌*◌, ◌%◌, ◌≤◌, List, ℕ, length, replicate};
ghost use Rattle.nvme_spec.specs.Blocks.{block_at, blocks_from};

/// The data of a command, one block at a time.
pub trait Source {
    /// All bytes.
    ghost bytes: { Self → List ℕ };

    /// Block `j` of the data, which must exist: borrowed if it is contiguous, else copied to the buffer.
    fn block<'a>(&'a self, j: u64, buffer: &'a mut [u8; 512]) -> &'a [u8; 512]
        requires { 512 * j + 512 ≤ length (bytes self.now) }
        ensures { result.now ≡ block_at (bytes self.now) j };

    /// Blocks of the data from block `j`, which must exist, at most `most`: contiguous ones, borrowed; or the first
    /// alone, as `block` returns it.
    fn blocks<'a>(&'a self, j: u64, most: u64, buffer: &'a mut [u8; 512]) -> &'a [u8]
        requires some { 1 ≤ most }
        requires inside { 512 * (j + most) ≤ length (bytes self.now) }
        ensures some { 512 ≤ length result.now }
        ensures whole { length result.now % 512 ≡ 0 }
        ensures few { length result.now ≤ 512 * most }
        ensures bytes { result.now ≡ blocks_from (bytes self.now) j (length result.now) }
    {
        self.block(j, buffer)
    }
}

/// Data in one slice.
#[derive(Clone, Copy, Debug)]
pub struct Lent<'a> {
    pub bytes: &'a [u8],
}

impl Source for Lent<'_> {
    ghost bytes = { λ s. s.bytes.now };

    fn block<'a>(&'a self, j: u64, _: &'a mut [u8; 512]) -> &'a [u8; 512] {
        let at = 512 * j as usize;
        self.bytes[at..at + 512].as_array::<512>().unwrap()
    }

    fn blocks<'a>(&'a self, j: u64, most: u64, _: &'a mut [u8; 512]) -> &'a [u8] {
        let at = 512 * j as usize;
        &self.bytes[at..at + 512 * most as usize]
    }
}

/// Blocks of zeros.
#[derive(Clone, Copy, Debug)]
pub struct Zeros {
    pub blocks: u64,
}

impl Source for Zeros {
    ghost bytes = { λ s. replicate (512 * s.blocks) 0 };

    fn block<'a>(&'a self, _: u64, buffer: &'a mut [u8; 512]) -> &'a [u8; 512] {
        buffer.fill(0);
        buffer
    }
}
