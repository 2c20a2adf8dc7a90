//! The data of a command in the memory of its host, as a source of blocks.

ghost use Rattle.nvme_spec.specs.Transfers.{addresses, gathered_bytes};

use crate::runs::run_at;
use nvme_medium::Source;
use nvme_mem::Window;
use nvme_prp::{Pieces, lend_block};

/// The data at the pieces of a window.
#[derive(Drop)]
pub struct HostData<'a> {
    pub window: &'a Window,
    pub pieces: &'a Pieces,
}

impl Source for HostData<'_> {
    ghost bytes = { λ s. gathered_bytes s.window.now (addresses s.pieces.now.parts.items) };

    fn block<'a>(&'a self, j: u64, buffer: &'a mut [u8; 512]) -> &'a [u8; 512] {
        lend_block(self.window, self.pieces, j, buffer)
    }

    fn blocks<'a>(&'a self, j: u64, most: u64, buffer: &'a mut [u8; 512]) -> &'a [u8] {
        match run_at(self.pieces, j, most) {
            Some(run) => self.window.bytes(run),
            None => self.block(j, buffer),
        }
    }
}
