//! The doorbells, as the driver wrote them.

ghost use Rattle.std.specs.Prelude.{◌≡◌, ◌+◌, ◌≤◌};
ghost use Rattle.nvme_spec.specs.Memory.{window_size};
ghost use Rattle.nvme_driver.specs.Layout.{completion_entries};
ghost use Rattle.nvme_host.specs.Doorbells.{
  initial_doorbells,
  after_write,
  repeats_tail,
  head_of_lane,
  next_place,
  register_at,
};

use nvme_driver::Lane;
use nvme_ring::CqHead;

/// Controller Configuration.
pub const CC: u64 = 0x14;

const ADMIN_TAIL: u64 = 0x1000;

const ADMIN_HEAD: u64 = 0x1004;

const IO_TAIL: u64 = 0x1008;

const IO_HEAD: u64 = 0x100c;

/// The values that the driver wrote last to the tail doorbells, and the heads of the completion queues: one completion
/// is consumed for each write of a head doorbell. All are 0 after a reset.
#[derive(Clone, Copy)]
pub struct Doorbells {
    pub admin_tail: u32,
    pub io_tail: u32,
    pub admin_head: CqHead,
    pub io_head: CqHead,
}

impl Doorbells {
    /// Those of a controller that was reset.
    pub(crate) fn new() -> Doorbells
        ensures { result ≡ initial_doorbells }
    {
        Doorbells {
            admin_tail: 0,
            io_tail: 0,
            admin_head: CqHead::new(32),
            io_head: CqHead::new(32),
        }
    }

    /// Whether this write would leave a tail doorbell as it is.
    pub(crate) fn repeats_tail(&self, offset: u64, value: u32) -> bool
        ensures { result ≡ repeats_tail self.now offset value }
    {
        if offset == ADMIN_TAIL {
            return self.admin_tail == value;
        }
        offset == IO_TAIL && self.io_tail == value
    }

    /// A register is written.
    pub(crate) fn write(&mut self, offset: u64, value: u32)
        ensures { self.new ≡ after_write self.old offset value }
    {
        if offset == CC {
            if value == 0 {
                *self = Doorbells::new();
            }
        } else if offset == ADMIN_TAIL {
            self.admin_tail = value;
        } else if offset == IO_TAIL {
            self.io_tail = value;
        } else if offset == ADMIN_HEAD {
            self.admin_head.advance();
        } else if offset == IO_HEAD {
            self.io_head.advance();
        }
    }

    /// The head of a lane.
    pub(crate) fn head(&self, lane: Lane) -> CqHead
        ensures { result ≡ head_of_lane lane self.now }
    {
        match lane {
            Lane::Admin => self.admin_head,
            Lane::Io => self.io_head,
        }
    }

    /// The place of the next completion of a lane.
    pub(crate) fn place(&self, lane: Lane) -> u64
        ensures place { result ≡ next_place lane self.now }
        ensures inside { result + 16 ≤ window_size }
    {
        lane.completion_queue() + 16 * u64::from(self.head(lane).slot())
    }
}

/// The offset of a register of a controller whose doorbells are `stride` bytes apart, by its offset if they are 4 bytes
/// apart.
pub fn register_at(stride: u32, offset: u64) -> u64
    ensures { result ≡ register_at stride offset }
{
    let stride = u64::from(stride);
    if offset == ADMIN_HEAD {
        0x1000 + stride
    } else if offset == IO_TAIL {
        0x1000 + 2 * stride
    } else if offset == IO_HEAD {
        0x1000 + 3 * stride
    } else {
        offset
    }
}
