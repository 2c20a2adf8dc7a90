//! What the execution of a command may need of the medium.

/// The calls of the medium that the execution of a command may make. Blocks are numbered from the first of the medium.
#[derive(Clone, Copy, Debug, PartialEq, Eq)]
pub enum Need {
    /// None: an admin command, a reservation command, or one that a rule on access denies.
    Nothing,
    /// Reads of `blocks` blocks from `first`: Read and Compare.
    Read { first: u64, blocks: u32 },
    /// Writes of these blocks: Write.
    Write { first: u64, blocks: u32 },
    /// Writes of zeros to these blocks: Write Zeroes.
    Zero { first: u64, blocks: u32 },
    /// One flush: Flush.
    Flush,
}
