//! A medium over borrowed bytes.

ghost use Rattle.std.specs.Prelude.{◌≡◌, ◌+◌, ◌*◌, ◌/◌, ◌<◌, ◌≤◌, ◌^◌, true, length, Some};
ghost use Rattle.nvme_spec.specs.Blocks.{block_at, blocks_from};
ghost use Rattle.nvme_medium.specs.Memory.{whole_blocks};

use crate::{LentBytes, ReturnedBytes};
use nvme_medium::{Medium, MediumFault};
use std_alloc::vec::Lodged;

/// A medium over borrowed bytes, at their own address. Its calls never fail.
#[derive(Drop)]
pub struct LentMedium {
    bytes: Vec<u8, Lodged>,
    blocks: u64,
    ghost whole: { blocks ≡ length bytes.items / 512 },
    ghost countable: { blocks < 2 ^ 64 },
}

impl LentMedium {
    ghost use Rattle.nvme_lent.specs.Lent.{bytes_lent, lent_bytes};

    /// A medium of the whole blocks of 512 bytes among these bytes. Bytes after the last whole block are never touched.
    pub fn of(bytes: LentBytes) -> LentMedium
        ensures lent { bytes_lent result ≡ bytes }
        ensures blocks { lent_bytes result ≡ whole_blocks bytes.items }
    {
        let bytes = bytes.into_buffer();
        let blocks = bytes.len() / 512;
        LentMedium {
            bytes,
            blocks: blocks as u64,
        }
    }

    /// Returns the bytes, as the commands have left them.
    pub fn into_returned(self) -> ReturnedBytes
        ensures { result.bytes ≡ Some (bytes_lent self) }
    {
        ReturnedBytes::of(self.bytes)
    }

    /// Block `i`.
    fn block(&self, i: u64) -> &[u8]
        requires { i < self.now.blocks }
        ensures block { result.now ≡ block_at (lent_bytes self.now) i }
        ensures len { length result.now ≡ 512 }
    {
        let at = 512 * i as usize;
        &self.bytes[at..at + 512]
    }

    /// `len` bytes, from block `first`.
    fn bytes_from(&self, first: u64, len: usize) -> &[u8]
        requires { 512 * first + len ≤ 512 * self.now.blocks }
        ensures bytes { result.now ≡ blocks_from (lent_bytes self.now) first len }
        ensures len { length result.now ≡ len }
    {
        let at = 512 * first as usize;
        &self.bytes[at..at + len]
    }
}

impl Medium for LentMedium {
    ghost use Rattle.nvme_lent.specs.Lent.{lent_bytes, lent_step, has_whole_blocks};

    ghost tells = { true };

    ghost device = { λ m. record { content = lent_bytes m; failures = 0 } };

    ghost size = { λ m. m.blocks };

    ghost step = { lent_step };

    ghost countable = { λ m. m.countable };

    ghost whole = { λ m _. has_whole_blocks m };

    fn blocks(&self) -> u64 {
        self.blocks
    }

    fn read(&mut self, i: u64, buffer: &mut [u8; 512]) -> Result<(), MediumFault> {
        buffer.copy_from_slice(self.block(i));
        Ok(())
    }

    fn read_onto(&mut self, i: u64, target: &mut [u8]) -> Result<(), MediumFault> {
        target.copy_from_slice(self.block(i));
        Ok(())
    }

    fn read_blocks(&mut self, first: u64, target: &mut [u8]) -> Result<(), MediumFault> {
        target.copy_from_slice(self.bytes_from(first, target.len()));
        Ok(())
    }

    fn write(&mut self, i: u64, block: &[u8; 512]) -> Result<(), MediumFault> {
        let at = 512 * i as usize;
        self.bytes[at..at + 512].copy_from_slice(block);
        Ok(())
    }

    fn write_blocks(&mut self, first: u64, bytes: &[u8]) -> Result<(), MediumFault> {
        let at = 512 * first as usize;
        self.bytes[at..at + bytes.len()].copy_from_slice(bytes);
        Ok(())
    }

    fn flush(&mut self) -> Result<(), MediumFault> {
        Ok(())
    }
}
