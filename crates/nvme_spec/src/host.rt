//! Host identifiers.

/// A host identifier: the 128 bits of the Host Identifier feature in its extended form (Base Specification, Host
/// Identifier), as a little-endian number of its 16 bytes. It is not 0.
pub type HostId = u128;
