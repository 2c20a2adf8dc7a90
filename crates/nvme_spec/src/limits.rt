//! The limits of the subsystem that code uses; `Limits` of the definitions has all of them.

/// The most bytes that a command transfers: 256 blocks of 512 bytes.
pub const MOST_BYTES: usize = 131_072;
