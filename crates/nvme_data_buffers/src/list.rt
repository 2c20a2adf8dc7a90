//! The PRP list, which the host stores once.

ghost use Rattle.std.specs.Prelude.{◌≡◌, ◌+◌, ◌≤◌};
ghost use Rattle.std.specs.Int.{w64, to_le_bytes};
ghost use Rattle.nvme_spec.specs.Bytes.{with_bytes};
ghost use Rattle.nvme_spec.specs.Memory.{window_size};
ghost use Rattle.nvme_data_buffers.specs.Buffers as def;

use crate::buffer::PAGE;

/// The address of the PRP list.
pub const LIST_PLACE: u64 = 16 * PAGE;

/// The number of its entries.
const LISTED_PAGES: usize = 31;

/// The first page that it has: the second page of the buffer at the end of the memory.
const FIRST_LISTED: u64 = (4 << 20) - (128 << 10) + PAGE;

/// The bytes of the PRP list: the pages of the longest data, without the first.
pub fn prp_list() -> [u8; 248]
    ensures { result ≡ def.prp_list }
{
    let mut bytes = [0; 248];
    for index in 0..LISTED_PAGES {
        put_page(&mut bytes, 8 * index, FIRST_LISTED + PAGE * index as u64);
    }
    bytes
}

/// Stores a page's entry.
fn put_page(bytes: &mut [u8; 248], at: usize, page: u64)
    requires { at ≤ 240 }
    ensures { bytes.new ≡ with_bytes bytes.old at (to_le_bytes w64 page) }
{
    bytes[at..at + 8].copy_from_slice(&page.to_le_bytes());
}

/// The address of a page's entry in the list.
#[inline(always)]
pub(crate) fn entry_place(page: u64) -> u64
    requires { page ≤ window_size + 4096 }
    ensures { result ≡ def.entry_place page }
{
    LIST_PLACE + page.saturating_sub(FIRST_LISTED) / PAGE * 8
}
