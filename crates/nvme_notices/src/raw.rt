//! The notices of a controller in a struct for C code.

use crate::notice::Notice;

/// The notices of a controller, which C code keeps between calls. All zeros are the notices after a reset.
#[repr(C)]
#[derive(Clone, Copy)]
pub struct RawNotices {
    /// The Log Page Count of the last notice.
    pub count: u64,
    /// The notices that were not read, the oldest first, and then anything.
    pub places: [Notice; 64],
    /// The masks of the namespaces 1 to 8.
    pub masks: [u32; 8],
    /// The number of notices that were not read.
    pub kept: u32,
}
