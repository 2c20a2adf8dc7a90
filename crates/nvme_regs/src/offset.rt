//! The offsets of the registers (Controller Properties), in bytes. Those of 64 bits have a low and a high half.

/// Controller Capabilities (CAP), low half.
pub const CAP_LOW: u64 = 0x00;

/// Controller Capabilities, high half.
pub const CAP_HIGH: u64 = 0x04;

/// Version (VS).
pub const VS: u64 = 0x08;

/// Controller Configuration (CC).
pub const CC: u64 = 0x14;

/// Controller Status (CSTS).
pub const CSTS: u64 = 0x1c;

/// Admin Queue Attributes (AQA).
pub const AQA: u64 = 0x24;

/// Admin Submission Queue Base Address (ASQ), low half.
pub const ASQ_LOW: u64 = 0x28;

/// Admin Submission Queue Base Address, high half.
pub const ASQ_HIGH: u64 = 0x2c;

/// Admin Completion Queue Base Address (ACQ), low half.
pub const ACQ_LOW: u64 = 0x30;

/// Admin Completion Queue Base Address, high half.
pub const ACQ_HIGH: u64 = 0x34;

/// The first doorbell. Each queue identifier has eight bytes: Submission Queue Tail Doorbell, then Completion Queue
/// Head Doorbell.
pub const DOORBELLS: u64 = 0x1000;
