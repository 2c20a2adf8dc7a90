//! What goes between the driver's window and the memory of the device.

ghost use Rattle.std.specs.Prelude.{◌≡◌};
ghost use Rattle.nvme_driver.specs.Polls.{live_in};
ghost use Rattle.nvme_host.specs.Completions.{
  lane_of,
  no_next_completion,
  no_data,
  data_of,
  next_completion_in,
  StoringCompletion,
  StoringData,
  Loads,
};

use crate::codes;
use crate::open_driver::OpenDriver;
use nvme_driver::{Lane, Waiting};
use nvme_wire::Cqe;

/// The place of the next completion of a queue.
#[repr(C)]
#[derive(Clone, Copy)]
pub struct NextCompletion {
    /// The address of its 16 bytes.
    pub at: u64,
    /// The phase tag that it has once it is new: bit 16 of its last double word.
    pub phase: u32,
    /// `OK`, `OUTSIDE` if there is no such queue, or `CLOSED`: the other fields are 0 then.
    pub code: u32,
}

/// The data of a completion.
#[repr(C)]
#[derive(Clone, Copy)]
pub struct CompletionData {
    /// The address of the data.
    pub at: u64,
    /// Their length in bytes; 0 if there are none.
    pub len: u64,
    /// `OK`, or why the completion was not stored.
    pub code: u32,
}

/// The lane (queue pair) of a queue's number.
fn lane_of(queue: u32) -> Option<Lane>
    ensures { result ≡ lane_of queue }
{
    match queue {
        0 => Some(Lane::Admin),
        1 => Some(Lane::Io),
        _ => None,
    }
}

impl NextCompletion {
    pub(crate) fn without(code: u32) -> NextCompletion
        ensures { result ≡ no_next_completion code }
    {
        NextCompletion {
            at: 0,
            phase: 0,
            code,
        }
    }
}

impl CompletionData {
    pub(crate) fn without(code: u32) -> CompletionData
        ensures { result ≡ no_data code }
    {
        CompletionData {
            at: 0,
            len: 0,
            code,
        }
    }

    /// The data of a completion, by the request in its slot.
    fn of(waiting: Option<Waiting>, lane: Lane, entry: &Cqe) -> CompletionData
        ensures { result ≡ data_of (live_in lane waiting) entry.now }
    {
        let Some(waiting) = waiting else {
            return CompletionData::without(codes::OK);
        };
        let is_own = waiting.lane.queue_id() == lane.queue_id();
        if !(is_own && waiting.live) {
            return CompletionData::without(codes::OK);
        }
        let status = entry.status();
        if status.sct == 0 && status.sc == 0 {
            return CompletionData {
                at: 0x10_0000 + 0x2_0000 * u64::from(entry.cid()),
                len: waiting.received.bytes() as u64,
                code: codes::OK,
            };
        }
        CompletionData::without(codes::OK)
    }
}

impl OpenDriver {
    /// The place of the next completion of a queue.
    pub(crate) fn next_completion(&self, queue: u32) -> NextCompletion
        ensures { result ≡ next_completion_in (lane_of queue) self.now.port.doorbells }
    {
        let Some(lane) = lane_of(queue) else {
            return NextCompletion::without(codes::OUTSIDE);
        };
        NextCompletion {
            at: self.port.doorbells.place(lane),
            phase: u32::from(self.port.doorbells.head(lane).phase()),
            code: codes::OK,
        }
    }

    /// Stores the next completion of a queue of the device; the data that come with it.
    pub(crate) fn store_completion(&mut self, queue: u32, bytes: &[u8; 16]) -> CompletionData
        ensures { StoringCompletion (lane_of queue) self.old bytes.now result self.new }
    {
        let Some(lane) = lane_of(queue) else {
            return CompletionData::without(codes::OUTSIDE);
        };
        if let Some(code) = self.blocked() {
            return CompletionData::without(code);
        }
        let entry = Cqe::from_bytes(bytes);
        let slots = self.driver.slots();
        let waiting = slots.get(usize::from(entry.cid())).copied().flatten();
        let place = self.port.doorbells.place(lane);
        let _ = self.port.window.store(place, bytes);
        CompletionData::of(waiting, lane, &entry)
    }

    /// Stores bytes of the device.
    pub(crate) fn store_data(&mut self, address: u64, bytes: &[u8]) -> u32
        ensures { StoringData self.old address bytes.now result self.new }
    {
        if let Some(code) = self.blocked() {
            return code;
        }
        match self.port.window.store(address, bytes) {
            Ok(()) => codes::OK,
            Err(_) => codes::OUTSIDE,
        }
    }

    /// Copies bytes of the window.
    pub(crate) fn load(&self, address: u64, bytes: &mut [u8]) -> u32
        ensures { Loads self.now.port.window address bytes.old result bytes.new }
    {
        match self.port.window.piece(address, bytes.len() as u64) {
            Some(piece) => {
                bytes.copy_from_slice(piece);
                codes::OK
            }
            None => codes::OUTSIDE,
        }
    }
}
