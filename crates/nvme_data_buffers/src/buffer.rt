//! The places of data buffers, and the PRP entries of their data.

ghost use Rattle.std.specs.Prelude.{◌≡◌, ◌≤◌};
ghost use Rattle.nvme_spec.specs.Limits.{most_bytes};
ghost use Rattle.nvme_spec.specs.Memory.{window_size};
ghost use Rattle.nvme_data_buffers.specs.Buffers as def;

use crate::list::entry_place;

/// The size of the memory that a host shares with its controller, and an address that it does not have.
const NOWHERE: u64 = 4 << 20;

/// The size of a page.
pub(crate) const PAGE: u64 = 4096;

/// The size of the buffer for a command that is executed at once, and of that of a held one.
const MOST_DATA: u64 = 128 << 10;

const MOST_HELD_DATA: u64 = 2 * PAGE;

/// The number of buffers for held commands.
const MOST_HELD: u32 = 16;

/// A data buffer. Data are at its end.
#[derive(Clone, Copy)]
pub enum DataBuffer {
    /// That of a command that is executed as soon as it is fetched: 128 KiB at the end of the memory.
    AtOnce,
    /// That of the n-th held command, from 0: 8 KiB each, before those of the held commands before it. There are 16;
    /// others have no bytes.
    Held(u32),
}

/// The PRP entries of a command.
#[derive(Clone, Copy)]
pub struct Prps {
    pub first: u64,
    pub second: u64,
}

impl DataBuffer {
    /// The number of its bytes.
    #[inline(always)]
    pub fn capacity(self) -> u64
        ensures exact { result ≡ def.capacity self }
        ensures within { result ≤ most_bytes }
    {
        match self {
            DataBuffer::AtOnce => MOST_DATA,
            DataBuffer::Held(number) if number < MOST_HELD => MOST_HELD_DATA,
            DataBuffer::Held(_) => 0,
        }
    }

    /// The address after its last byte.
    #[inline(always)]
    fn end(self) -> u64
        ensures exact { result ≡ def.end_of self }
        ensures within { result ≤ window_size }
        ensures enough { most_bytes ≤ result }
    {
        match self {
            DataBuffer::Held(number) if number < MOST_HELD => NOWHERE
                - MOST_DATA
                - MOST_HELD_DATA * u64::from(number),
            _ => NOWHERE,
        }
    }

    /// The address of data of `length` bytes, a multiple of 4; an address that does not exist if they don't fit.
    #[inline(always)]
    pub fn start(self, length: u64) -> u64
        ensures exact { result ≡ def.start self length }
        ensures within { result ≤ window_size }
    {
        if length > self.capacity() {
            return NOWHERE;
        }
        self.end() - (length + 3) / 4 * 4
    }

    /// The PRP entries of a command that moves `moved` bytes from or to data of `length` bytes. If these are too few,
    /// or don't fit, the entries have an address that does not exist, so that no byte moves.
    #[inline(always)]
    pub fn prps(self, length: u64, moved: u64) -> Prps
        ensures { result ≡ def.prps self length moved }
    {
        if moved > length || length > self.capacity() {
            return Prps {
                first: NOWHERE,
                second: NOWHERE,
            };
        }
        let first = self.start(length);
        Prps {
            first,
            second: second_entry(first, moved),
        }
    }
}

/// The second entry of `moved` bytes from an address: the second page, or the list from there on.
#[inline(always)]
fn second_entry(first: u64, moved: u64) -> u64
    requires { first ≤ window_size }
    ensures { result ≡ def.second_entry first moved }
{
    let room = PAGE - first % PAGE;
    if moved <= room {
        NOWHERE
    } else if moved <= room + PAGE {
        first + room
    } else {
        entry_place(first + room)
    }
}
