//! Data pointers: their faults, and pieces of host memory.

/// The fault of a data pointer.
#[derive(Clone, Copy, Debug, PartialEq, Eq)]
pub enum DataFault {
    /// An address is not aligned: PRP Offset Invalid.
    Offset,
    /// An address is outside host memory: Data Transfer Error.
    Outside,
}

/// A contiguous range of host memory.
#[derive(Clone, Copy, Debug, Default, PartialEq, Eq)]
pub struct Piece {
    pub address: u64,
    pub len: u64,
}
