//! Entries of I/O commands from their fields. Each has CID 7.

pub const FLUSH: u8 = 0x00;

pub const WRITE: u8 = 0x01;

pub const READ: u8 = 0x02;

pub const COMPARE: u8 = 0x05;

pub const WRITE_ZEROES: u8 = 0x08;

/// A submission queue entry of a command on blocks. PRP2 is 0.
pub(crate) fn transfer(opcode: u8, nsid: u32, first: u64, blocks: u8, prp1: u64) -> [u8; 64] {
    let mut bytes = [0; 64];
    bytes[0] = opcode;
    bytes[2] = 7;
    bytes[4..8].copy_from_slice(&nsid.to_le_bytes());
    bytes[24..32].copy_from_slice(&prp1.to_le_bytes());
    bytes[40..48].copy_from_slice(&first.to_le_bytes());
    bytes[48..52].copy_from_slice(&u32::from(blocks.saturating_sub(1)).to_le_bytes());
    bytes
}
