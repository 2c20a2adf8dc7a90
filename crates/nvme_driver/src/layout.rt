//! The parts of a driver's window.

ghost use Rattle.std.specs.Prelude.{◌≡◌, ◌<◌};
ghost use Rattle.nvme_driver.specs.Layout as layout;

use crate::lane::Lane;

/// The number of requests that can wait for their answers.
pub const SLOTS: usize = 24;

/// A memory page, in bytes.
pub const PAGE: usize = 0x1000;

/// The entries of a lane's (queue pair's) submission queue.
pub const SUBMISSION_ENTRIES: u16 = 8;

/// The entries of a lane's completion queue.
pub const COMPLETION_ENTRIES: u16 = 32;

/// The page for the list of a slot.
pub fn list_page(slot: usize) -> u64
    requires { slot < layout.slot_count }
    ensures { result ≡ layout.list_page slot }
{
    0x1_0000 + 0x1000 * slot as u64
}

/// The address of the data of a slot.
pub fn data_area(slot: usize) -> u64
    requires { slot < layout.slot_count }
    ensures { result ≡ layout.data_area slot }
{
    0x10_0000 + 0x2_0000 * slot as u64
}

impl Lane {
    /// The identifier of the lane's two queues.
    pub fn queue_id(self) -> u16
        ensures { result ≡ layout.queue_id self }
    {
        match self {
            Lane::Admin => 0,
            Lane::Io => 1,
        }
    }

    /// The page of the lane's submission queue.
    pub fn submission_queue(self) -> u64
        ensures { result ≡ layout.submission_queue self }
    {
        0x2000 * u64::from(self.queue_id())
    }

    /// The page of the lane's completion queue.
    pub fn completion_queue(self) -> u64
        ensures { result ≡ layout.completion_queue self }
    {
        0x1000 + 0x2000 * u64::from(self.queue_id())
    }

    /// The offset of the lane's Submission Queue Tail Doorbell.
    pub fn tail_doorbell(self) -> u64
        ensures { result ≡ layout.tail_doorbell self }
    {
        0x1000 + 8 * u64::from(self.queue_id())
    }

    /// The offset of the lane's Completion Queue Head Doorbell.
    pub fn head_doorbell(self) -> u64
        ensures { result ≡ layout.head_doorbell self }
    {
        0x1004 + 8 * u64::from(self.queue_id())
    }
}
