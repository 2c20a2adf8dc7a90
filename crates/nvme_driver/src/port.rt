//! A host's access to its controller.

ghost use Rattle.std.specs.Prelude.{◌≡◌, ◌+◌, ◌≤◌, ◌<◌, ℕ, List, length, IfSome, true};
ghost use Rattle.std.specs.Borrow.{GName};
ghost use Rattle.nvme_spec.specs.Bytes.{with_bytes};
ghost use Rattle.nvme_spec.specs.Memory.{window_size};
ghost use Rattle.nvme_driver.specs.Calls.{Call, Stores, Writes, Reads, Turns, Sees, Loads};
ghost use Rattle.nvme_driver.specs.Layout.{completion_entries};
ghost use Rattle.nvme_driver.specs.Polls.{has_phase};

use crate::lane::Lane;
use nvme_wire::Cqe;

/// A host's access to its controller: the window of host memory that they share, and the controller's registers, with
/// offsets in bytes. For contracts a port defines by `step` which states may follow each call, by `bytes` the bytes
/// that the host stored in the window, and by `links` the references that it works through, all of which stay.
///
/// A device may change the window before and after each call. The only requirements are that a store writes its bytes,
/// and that an entry that a look returns has the phase tag that was asked for.
pub trait Port {
    ghost bytes: { Self → List ℕ };

    ghost step: { Self → Call → Self → Type 0 };

    ghost links: { Self → List GName };

    /// Stores bytes in the window at `addr`. They must fit.
    fn store(&mut self, addr: u64, part: &[u8])
        requires { addr + length part.now ≤ window_size }
        ensures step { step self.old (Stores addr part.now) self.new }
        ensures whole { length (bytes self.old) ≡ window_size }
        ensures bytes { bytes self.new ≡ with_bytes (bytes self.old) addr part.now }
        ensures links { links self.new ≡ links self.old };

    /// Reads the register at an offset.
    fn read32(&mut self, offset: u64) -> u32
        ensures step { step self.old (Reads offset result) self.new }
        ensures links { links self.new ≡ links self.old };

    /// Writes the register at an offset.
    fn write32(&mut self, offset: u64, value: u32)
        ensures step { step self.old (Writes offset value) self.new }
        ensures links { links self.new ≡ links self.old };

    /// Lets the device take a turn on its admin queue.
    fn turn(&mut self)
        ensures step { step self.old Turns self.new }
        ensures links { links self.new ≡ links self.old };

    /// The entry in a slot of a lane's (queue pair's) completion queue, if it has this phase tag. Over memory that a
    /// device writes, the double word with the phase tag is read first, and the rest after it.
    fn sees(&mut self, lane: Lane, head: u16, phase: bool) -> Option<Cqe>
        requires { head < completion_entries }
        ensures step { step self.old (Sees lane head phase result) self.new }
        ensures phase { IfSome result (λ entry. has_phase phase entry ≡ true) }
        ensures links { links self.new ≡ links self.old };

    /// Loads bytes from the window at `addr`. They must be in the window.
    fn loads(&mut self, addr: u64, part: &mut [u8])
        requires { addr + length part.old ≤ window_size }
        ensures step { step self.old (Loads addr part.new) self.new }
        ensures links { links self.new ≡ links self.old };
}
