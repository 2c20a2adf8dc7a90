//! Blocks of a transfer: the place of each block's 512 bytes in the window, and how they are borrowed, gathered and
//! scattered.

ghost use Rattle.std.specs.Prelude.{◌≡◌, ◌+◌, ◌-◌, ◌*◌, ◌≤◌, ◌<◌, ◌++◌, length};
ghost use Rattle.std.specs.List.{range_with_len, slice_index_or};
ghost use Rattle.nvme_spec.specs.Memory.{LiesInWindow};
ghost use Rattle.nvme_spec.specs.Transfers.{addresses, block_addresses, gathered_bytes, with_scattered};
ghost use Rattle.nvme_prp.specs.Places.{LiesAt};
ghost use Rattle.nvme_prp.specs.BlockPlaces.{places, Lies, no_piece, placed, place_at};

use crate::walking::{PAGE, Pieces};
use nvme_mem::Window;
use nvme_spec::Piece;

const BLOCK: u64 = 512;

/// The place of a block's 512 bytes in the window.
#[derive(Clone, Copy, Debug, PartialEq, Eq)]
pub enum BlockPlace {
    /// In one piece, at this address.
    One(u64),
    /// In two pieces: the address and length of the first, and the address of the second.
    Two(u64, u64, u64),
}

/// The place of byte `at` of a transfer: the index of its piece, and the number of bytes before it in that piece.
fn byte_place(pieces: &Pieces, at: u64) -> (usize, u64)
    requires { at + 512 ≤ length (addresses pieces.now.parts.items) }
    ensures place { LiesAt pieces.now.parts.items at result.0 result.1 }
    ensures block { place_at pieces.now.parts.items at
        ≡ placed (slice_index_or pieces.now.parts.items result.0 no_piece)
        (slice_index_or pieces.now.parts.items (result.0 + 1) no_piece) result.1 }
{
    let first = pieces.parts.as_slice()[0].len;
    if at < first {
        (0, at)
    } else {
        let beyond = at - first;
        (1 + (beyond / PAGE) as usize, beyond % PAGE)
    }
}

impl Pieces {
    /// The place of block `j` of the transfer: its bytes 512 `j` to 512 `j` + 511, which must exist.
    pub fn block(&self, j: u64) -> BlockPlace
        requires inside { 512 * j + 512 ≤ length (addresses self.now.parts.items) }
        ensures place { result ≡ place_at self.now.parts.items (512 * j) }
        ensures addresses { block_addresses self.now.parts.items j ≡ places result }
        ensures lies { Lies result }
    {
        let parts = self.parts.as_slice();
        let (i, skip) = byte_place(self, BLOCK * j);
        let address = parts[i].address + skip;
        let len = parts[i].len - skip;
        if len >= BLOCK {
            BlockPlace::One(address)
        } else {
            BlockPlace::Two(address, len, parts[i + 1].address)
        }
    }
}

/// Copies a block that is in two parts of the window.
fn gather_two(window: &Window, front: Piece, back: Piece, block: &mut [u8; 512])
    requires front_inside { LiesInWindow front }
    requires back_inside { LiesInWindow back }
    requires whole { front.len + back.len ≡ 512 }
    ensures { block.new ≡ gathered_bytes window.now (range_with_len front.address front.len
        ++ range_with_len back.address back.len) }
{
    let (first, second) = block.split_at_mut(front.len as usize);
    first.copy_from_slice(window.bytes(front));
    second.copy_from_slice(window.bytes(back));
}

/// Copies block `j` of a transfer out of the window: its bytes 512 `j` to 512 `j` + 511, which must exist.
pub fn gather_block(window: &Window, pieces: &Pieces, j: u64, block: &mut [u8; 512])
    requires inside { 512 * j + 512 ≤ length (addresses pieces.now.parts.items) }
    ensures block { block.new ≡ gathered_bytes window.now (block_addresses pieces.now.parts.items j) }
{
    match pieces.block(j) {
        BlockPlace::One(address) => {
            let piece = Piece {
                address,
                len: BLOCK,
            };
            block.copy_from_slice(window.bytes(piece));
        }
        BlockPlace::Two(address, len, next) => {
            let front = Piece { address, len };
            let back = Piece {
                address: next,
                len: BLOCK - len,
            };
            gather_two(window, front, back, block);
        }
    }
}

/// Block `j` of a transfer, which must exist: borrowed from the window if it is in one piece, else copied to the
/// buffer.
pub fn lend_block<'a>(
    window: &'a Window,
    pieces: &Pieces,
    j: u64,
    buffer: &'a mut [u8; 512],
) -> &'a [u8; 512]
    requires inside { 512 * j + 512 ≤ length (addresses pieces.now.parts.items) }
    ensures block { result.now ≡ gathered_bytes window.now (block_addresses pieces.now.parts.items j) }
{
    match pieces.block(j) {
        BlockPlace::One(address) => {
            let piece = Piece {
                address,
                len: BLOCK,
            };
            window.bytes(piece).as_array::<512>().unwrap()
        }
        BlockPlace::Two(address, len, next) => {
            let front = Piece { address, len };
            let back = Piece {
                address: next,
                len: BLOCK - len,
            };
            gather_two(window, front, back, buffer);
            buffer
        }
    }
}

/// Copies a block into the window, as block `j` of a transfer: its bytes 512 `j` to 512 `j` + 511, which must exist. If
/// two bytes have the same address, the later one is kept.
pub fn scatter_block(window: &mut Window, pieces: &Pieces, j: u64, block: &[u8; 512])
    requires inside { 512 * j + 512 ≤ length (addresses pieces.now.parts.items) }
    ensures window { window.new ≡ with_scattered window.old (block_addresses pieces.now.parts.items j) block.now }
{
    match pieces.block(j) {
        BlockPlace::One(address) => {
            let piece = Piece {
                address,
                len: BLOCK,
            };
            window.bytes_mut(piece).copy_from_slice(block);
        }
        BlockPlace::Two(address, len, next) => {
            let (front, back) = block.split_at(len as usize);
            let start = Piece { address, len };
            window.bytes_mut(start).copy_from_slice(front);
            let end = Piece {
                address: next,
                len: BLOCK - len,
            };
            window.bytes_mut(end).copy_from_slice(back);
        }
    }
}
