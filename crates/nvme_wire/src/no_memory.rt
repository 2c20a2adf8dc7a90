//! The error of calls that take memory.

use std::alloc::AllocError;

/// The allocator refused memory. The call made nothing and changed nothing.
#[derive(Clone, Copy, Debug, PartialEq, Eq)]
pub struct NoMemory;

impl From<AllocError> for NoMemory {
    fn from(_: AllocError) -> Self {
        NoMemory
    }
}
