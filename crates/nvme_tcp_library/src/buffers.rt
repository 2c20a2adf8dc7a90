//! Data buffers for C: where a command's data are in its host's memory, and the entry that leads there.

ghost use Rattle.std.specs.Prelude.{◌≡◌};
ghost use Rattle.nvme_data_buffers.specs.Buffers.{list_place, prp_list as list, start};
ghost use Rattle.nvme_data_buffers.specs.Entries.{is_filled as fills, placed};
ghost use Rattle.nvme_data_buffers.specs.Queues as queues;
ghost use Rattle.nvme_tcp_library.specs.Buffers.{buffer_of as buffer_at};

use crate::codes;
use nvme_data_buffers::{
    DataBuffer, LIST_PLACE, completion_queue, is_filled, prp_list, submission_queue, with_prps,
};

/// The buffer with this number.
#[inline(always)]
fn buffer_of(number: u32) -> DataBuffer
    ensures { result ≡ buffer_at number }
{
    if number == codes::BUFFER_AT_ONCE {
        DataBuffer::AtOnce
    } else {
        DataBuffer::Held(number - 1)
    }
}

/// The address of data of `length` bytes in a buffer; an address that the memory does not have if they don't fit, or
/// there is no such buffer.
#[unsafe(no_mangle)]
pub extern "C" fn nvmesim_buffers_start(buffer: u32, length: u64) -> u64
    ensures { result ≡ start (buffer_at buffer) length }
{
    buffer_of(buffer).start(length)
}

/// Gives an entry the PRP entries of its data, which have `length` bytes in a buffer, and PSDT 0.
#[unsafe(no_mangle)]
pub extern "C" fn nvmesim_buffers_place(
    entry: &mut [u8; 64],
    is_admin: bool,
    buffer: u32,
    length: u64,
)
    ensures { entry.new ≡ placed is_admin entry.old (buffer_at buffer) length }
{
    *entry = with_prps(entry, is_admin, buffer_of(buffer), length);
}

/// Whether a command that succeeds writes all `length` bytes of its data.
#[unsafe(no_mangle)]
pub extern "C" fn nvmesim_buffers_is_filled(entry: &[u8; 64], is_admin: bool, length: u64) -> bool
    ensures { result ≡ fills is_admin entry.now length }
{
    is_filled(entry, is_admin, length)
}

/// Writes the PRP list, and returns the address at which it has to be stored.
#[unsafe(no_mangle)]
pub extern "C" fn nvmesim_buffers_list(bytes: &mut [u8; 248]) -> u64
    ensures bytes { bytes.new ≡ list }
    ensures place { result ≡ list_place }
{
    *bytes = prp_list();
    LIST_PLACE
}

/// The address of a submission queue.
#[unsafe(no_mangle)]
pub extern "C" fn nvmesim_buffers_submission_queue(qid: u16) -> u64
    ensures { result ≡ queues.submission_queue qid }
{
    submission_queue(qid)
}

/// The address of a completion queue.
#[unsafe(no_mangle)]
pub extern "C" fn nvmesim_buffers_completion_queue(qid: u16) -> u64
    ensures { result ≡ queues.completion_queue qid }
{
    completion_queue(qid)
}
