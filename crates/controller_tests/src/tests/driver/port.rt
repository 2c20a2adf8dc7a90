//! A port to a controller that the tests define.

ghost use Rattle.std.specs.Prelude.{◌≡◌, IfOk, [], true};
ghost use Rattle.nvme_driver.specs.Layout.{slot_count};
ghost use Rattle.nvme_driver.specs.Polls.{is_success};
ghost use Rattle.nvme_driver.specs.Rises.{is_ready};

use nvme_driver::{Lane, Port, entry_seen};
use nvme_mem::Window;
use nvme_spec::Piece;
use nvme_wire::{Cqe, NoMemory, Status};
use std::alloc::Global;

/// A controller that answers each of the driver's own commands with one completion, after `delay` turns, with the
/// identifier and the status of the test.
#[derive(Drop)]
pub struct TestPort {
    pub window: Window,
    /// The value of Controller Status.
    pub csts: u32,
    /// The number of turns before an answer.
    pub delay: u8,
    pub cid: u16,
    pub status: Status,
    /// The number of turns so far.
    pub turns: u32,
    /// The last values of the doorbells from 1000h.
    pub doorbells: [u32; 4],
    waited: u8,
    answered: u16,
}

impl TestPort {
    /// A controller that answers at once and correctly: it is ready, and completes the driver's own commands, whose
    /// identifier is that of no slot, with success.
    pub(crate) fn honest(alloc: Global) -> Result<TestPort, NoMemory>
        ensures ready { IfOk result (λ port. is_ready port.csts ≡ true) }
        ensures at_once { IfOk result (λ port. port.delay ≡ 0) }
        ensures own { IfOk result (λ port. port.cid ≡ slot_count) }
        ensures success { IfOk result (λ port. is_success port.status ≡ true) }
    {
        Ok(TestPort {
            window: Window::new(alloc)?,
            csts: 1,
            delay: 0,
            cid: 24,
            status: Status::SUCCESSFUL_COMPLETION,
            turns: 0,
            doorbells: [0; 4],
            waited: 0,
            answered: 0,
        })
    }

    /// Posts a completion in the admin queue.
    fn post(&mut self) {
        let place = Piece {
            address: 0x1000 + 16 * u64::from(self.answered % 32),
            len: 16,
        };
        self.answered = self.answered.wrapping_add(1);
        let status = Status {
            sct: self.status.sct % 8,
            sc: self.status.sc,
        };
        let entry = Cqe::new(0, self.answered, 0, self.cid, true, status).to_bytes();
        self.window.bytes_mut(place).copy_from_slice(&entry);
    }
}

impl Port for TestPort {
    ghost bytes = { λ p. p.window };

    ghost step = { λ p call q. Unit {0} };

    ghost links = { λ p. [] };

    fn store(&mut self, addr: u64, part: &[u8]) {
        let place = Piece {
            address: addr,
            len: part.len() as u64,
        };
        self.window.bytes_mut(place).copy_from_slice(part);
    }

    fn read32(&mut self, offset: u64) -> u32 {
        if offset == 0x1c { self.csts } else { 0 }
    }

    fn write32(&mut self, offset: u64, value: u32) {
        match offset {
            0x14 => {
                self.waited = 0;
                self.answered = 0;
            }
            0x1000 => self.doorbells[0] = value,
            0x1004 => self.doorbells[1] = value,
            0x1008 => self.doorbells[2] = value,
            0x100c => self.doorbells[3] = value,
            _ => {}
        }
    }

    fn turn(&mut self) {
        self.turns = self.turns.saturating_add(1);
        if self.waited < self.delay {
            self.waited += 1;
            return;
        }
        self.waited = 0;
        self.post();
    }

    fn sees(&mut self, lane: Lane, head: u16, phase: bool) -> Option<Cqe> {
        entry_seen(&self.window, lane, head, phase)
    }

    fn loads(&mut self, addr: u64, part: &mut [u8]) {
        let place = Piece {
            address: addr,
            len: part.len() as u64,
        };
        part.copy_from_slice(self.window.bytes(place));
    }
}
