//! The submission queue entry of a command whose data are in a buffer.

ghost use Rattle.std.specs.Int.{w64, to_le_bytes};
ghost use Rattle.std.specs.Prelude.{◌≡◌, ◌≤◌};
ghost use Rattle.nvme_spec.specs.Bytes.{with_bytes};
ghost use Rattle.nvme_data_buffers.specs.Entries as def;

use crate::buffer::{DataBuffer, Prps};
use crate::moving::{moved, opcode_of};

/// The entry as it goes to the controller: PRP entries of its data, which have `length` bytes in a buffer, instead of
/// the data pointer that its host has sent. A command that moves more bytes gets PRP entries that it can't use.
pub fn with_prps(entry: &[u8; 64], is_admin: bool, buffer: DataBuffer, length: u64) -> [u8; 64]
    ensures { result ≡ def.placed is_admin entry.now buffer length }
{
    with_entries(*entry, buffer.prps(length, moved(entry, is_admin)))
}

/// An entry with PSDT 0 and these PRP entries.
#[inline(always)]
#[tactic(auto, unfolding(crate::specs::Entries::with_entries))]
fn with_entries(entry: [u8; 64], prps: Prps) -> [u8; 64]
    ensures { result ≡ def.with_entries entry prps }
{
    let mut bytes = entry;
    bytes[1] %= 64;
    put_entry(&mut bytes, 24, prps.first);
    put_entry(&mut bytes, 32, prps.second);
    bytes
}

/// Stores a PRP entry.
#[inline(always)]
fn put_entry(bytes: &mut [u8; 64], at: usize, entry: u64)
    requires { at ≤ 56 }
    ensures { bytes.new ≡ with_bytes bytes.old at (to_le_bytes w64 entry) }
{
    bytes[at..at + 8].copy_from_slice(&entry.to_le_bytes());
}

/// Whether a command that succeeds writes all `length` bytes of its data: a Read of that many. For other data that come
/// from the controller the buffer has to be cleared first, so that the host gets no bytes of earlier commands.
#[tactic(auto, unfolding(crate::specs::Entries::is_filled))]
pub fn is_filled(entry: &[u8; 64], is_admin: bool, length: u64) -> bool
    ensures { result ≡ def.is_filled is_admin entry.now length }
{
    !is_admin && opcode_of(entry) == 0x02 && moved(entry, false) == length
}
