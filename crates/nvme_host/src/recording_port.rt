//! A port that records its calls, for a program that performs them on a device.

ghost use Rattle.std.specs.Prelude.{◌≡◌, ◌≤◌, ◌<◌, [], length, take, drop};
ghost use Rattle.nvme_host.specs.Recording.{
  Records,
  IsSamePort,
  recorded,
  is_pending,
  new_port,
  rewound,
  left_out,
  with_actions,
  with_report,
  without_reports,
  next_report,
  after_look,
};

use crate::doorbells::{Doorbells, register_at};
use arrayvec::ArrayVec;
use nvme_driver::{Lane, Port, entry_seen};
use nvme_mem::Window;
use nvme_spec::Piece;
use nvme_wire::Cqe;
use std::mem;

/// Bytes have to be stored, as they are in the driver's window.
pub const STORE: u32 = 1;
/// A register has to be written.
pub const WRITE: u32 = 2;

/// A call of the port, to be performed on the device.
#[repr(C)]
#[derive(Clone, Copy, Default)]
pub struct Action {
    /// The address of the bytes, or the offset of the register.
    pub at: u64,
    /// The number of bytes to store.
    pub len: u64,
    /// The value to write.
    pub value: u32,
    /// `STORE` or `WRITE`.
    pub kind: u32,
}

/// What the device reported during a bring-up: first Controller Status, then completions of the admin queue.
#[derive(Clone, Copy, Default)]
pub struct Report {
    /// The value of Controller Status, or 0.
    pub status: u32,
    /// The next completion of the admin queue, or zeros.
    pub entry: [u8; 16],
}

/// What a bring-up needs from the device to continue.
#[derive(Clone, Copy, PartialEq, Eq)]
pub enum Need {
    Nothing,
    Status,
    Completion,
}

/// The driver's own window; the calls that it made, at most 32 between two calls of `nvmehost_actions`; its doorbells;
/// and what the device reported during a bring-up, at most a status and eight completions.
#[derive(Drop)]
pub struct RecordingPort {
    pub window: Window,
    pub actions: ArrayVec<Action, 32>,
    pub doorbells: Doorbells,
    /// The distance of two doorbells in bytes.
    pub stride: u32,
    reports: ArrayVec<Report, 9>,
    reports_read: usize,
    pub need: Need,
    /// The number of actions of a bring-up that its earlier steps handed out.
    pub handed_out: usize,
}

impl RecordingPort {
    /// A port over a window, with doorbells 4 bytes apart.
    pub(crate) fn over(window: Window) -> RecordingPort
        ensures { IsSamePort (new_port window) result }
    {
        RecordingPort {
            window,
            actions: ArrayVec::new(),
            doorbells: Doorbells::new(),
            stride: 4,
            reports: ArrayVec::new(),
            reports_read: 0,
            need: Need::Nothing,
            handed_out: 0,
        }
    }

    /// Whether actions are pending.
    pub(crate) fn is_pending(&self) -> bool
        ensures { result ≡ is_pending self.now.actions.items }
    {
        !self.actions.is_empty()
    }

    /// Begins a bring-up again.
    pub(crate) fn rewind(&mut self)
        ensures { IsSamePort (rewound self.old) self.new }
    {
        self.actions.clear();
        self.reports_read = 0;
        self.need = Need::Nothing;
    }

    /// Ends a bring-up: forgets what the device reported.
    pub(crate) fn forget(&mut self)
        ensures { IsSamePort (without_reports self.old) self.new }
    {
        self.reports.clear();
        self.handed_out = 0;
    }

    /// Leaves out the first actions, which earlier steps of the bring-up handed out.
    pub(crate) fn leave_out(&mut self, handed_out: usize)
        ensures { IsSamePort (left_out self.old handed_out) self.new }
    {
        let all = mem::replace(&mut self.actions, ArrayVec::new());
        self.handed_out = all.len();
        if handed_out < all.len() {
            let _ = self.actions.try_extend_from_slice(&all[handed_out..]);
        }
    }

    /// The device reported this, which is kept if there is room for it.
    pub(crate) fn add_report(&mut self, report: Report)
        ensures { IsSamePort (with_report self.old report) self.new }
    {
        let _ = self.reports.try_push(report);
    }

    /// Takes the actions, if `actions` has room for them; their number.
    pub(crate) fn take_actions(&mut self, actions: &mut [Action]) -> usize
        ensures taken { length self.old.actions.items ≤ length actions.old
            → (result ≡ length self.old.actions.items)
            × (take result actions.new ≡ self.old.actions.items)
            × (drop result actions.new ≡ drop result actions.old)
            × IsSamePort (with_actions self.old []) self.new }
        ensures refused { length actions.old < length self.old.actions.items
            → (result ≡ 0) × (actions.new ≡ actions.old) × IsSamePort self.old self.new }
    {
        let count = self.actions.len();
        if actions.len() < count {
            return 0;
        }
        actions[..count].copy_from_slice(&self.actions);
        self.actions.clear();
        count
    }

    fn record_action(&mut self, action: Action)
        ensures { IsSamePort (with_actions self.old (recorded self.old.actions.items action)) self.new }
    {
        let _ = self.actions.try_push(action);
    }

    fn next_report(&mut self, looked: Need) -> Option<Report>
        ensures report { result ≡ next_report self.old }
        ensures port { IsSamePort (after_look (next_report self.old) looked self.old) self.new }
    {
        if let Some(report) = self.reports.get(self.reports_read) {
            self.reports_read += 1;
            return Some(*report);
        }
        if matches!(self.need, Need::Nothing) {
            self.need = looked;
        }
        None
    }
}

impl Port for RecordingPort {
    ghost bytes = { λ p. p.window };

    ghost step = { Records };

    ghost links = { λ p. [] };

    fn store(&mut self, addr: u64, part: &[u8]) {
        let place = Piece {
            address: addr,
            len: part.len() as u64,
        };
        self.window.bytes_mut(place).copy_from_slice(part);
        self.record_action(Action {
            at: addr,
            len: part.len() as u64,
            value: 0,
            kind: STORE,
        });
    }

    fn read32(&mut self, _offset: u64) -> u32 {
        match self.next_report(Need::Status) {
            Some(report) => report.status,
            None => 0,
        }
    }

    fn write32(&mut self, offset: u64, value: u32) {
        let repeats_tail = self.doorbells.repeats_tail(offset, value);
        self.doorbells.write(offset, value);
        if repeats_tail {
            return;
        }
        self.record_action(Action {
            at: register_at(self.stride, offset),
            len: 0,
            value,
            kind: WRITE,
        });
    }

    fn turn(&mut self) {
        if let Some(report) = self.next_report(Need::Completion) {
            let place = self.doorbells.place(Lane::Admin);
            let _ = self.window.store(place, &report.entry);
        }
    }

    fn sees(&mut self, lane: Lane, head: u16, phase: bool) -> Option<Cqe> {
        entry_seen(&self.window, lane, head, phase)
    }

    fn loads(&mut self, addr: u64, part: &mut [u8]) {
        let place = Piece {
            address: addr,
            len: part.len() as u64,
        };
        part.copy_from_slice(self.window.bytes(place));
    }
}
