//! The registers of a controller that a driver uses (Base Specification 2.0, Controller Properties): their offsets in
//! bytes, and the values that it writes there.

/// Controller Configuration.
pub const CC: u64 = 0x14;

/// Controller Status.
pub const CSTS: u64 = 0x1c;

/// Admin Queue Attributes.
pub const AQA: u64 = 0x24;

/// Admin Submission Queue Base Address, low half.
pub const ASQ_LOW: u64 = 0x28;

/// Admin Submission Queue Base Address, high half.
pub const ASQ_HIGH: u64 = 0x2c;

/// Admin Completion Queue Base Address, low half.
pub const ACQ_LOW: u64 = 0x30;

/// Admin Completion Queue Base Address, high half.
pub const ACQ_HIGH: u64 = 0x34;

/// An admin submission queue of 8 entries, and an admin completion queue of 32.
pub const ADMIN_SIZES: u32 = 0x001f_0007;

/// EN, with submission entries of 64 bytes and completion entries of 16.
pub const ENABLING: u32 = 0x0046_0001;
