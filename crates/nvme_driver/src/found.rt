//! New completions.

ghost use Rattle.std.specs.Prelude.{◌≡◌, ◌<◌, IfSome, length, true};
ghost use Rattle.nvme_driver.specs.Layout.{completion_entries};
ghost use Rattle.nvme_driver.specs.Polls.{has_phase, is_new, is_success as success, look, seen_in};

use crate::ends::Ends;
use crate::lane::Lane;
use crate::port::Port;
use nvme_mem::Window;
use nvme_spec::Piece;
use nvme_wire::{Cqe, Status};

/// A new completion, and the lane (queue pair) in whose queue it is.
#[derive(Clone, Copy)]
pub struct Found {
    pub lane: Lane,
    pub entry: Cqe,
}

/// The entry in a slot of a lane's (queue pair's) completion queue in a window, if it has this phase tag.
pub fn entry_seen(window: &Window, lane: Lane, head: u16, phase: bool) -> Option<Cqe>
    requires { head < completion_entries }
    ensures seen { result ≡ seen_in lane head phase window.now }
    ensures phase { IfSome result (λ entry. has_phase phase entry ≡ true) }
{
    let address = lane.completion_queue() + 16 * u64::from(head);
    let mut bytes = [0; 16];
    bytes.copy_from_slice(window.bytes(Piece { address, len: 16 }));
    let entry = Cqe::from_bytes(&bytes);
    (entry.phase() == phase).then_some(entry)
}

/// The next completion of a lane, if it is new.
pub fn next_if_new<P: Port>(port: &mut P, lane: Lane, ends: Ends) -> Option<Cqe>
    ensures step { P.step port.old (look lane ends result) port.new }
    ensures new { IfSome result (λ entry. is_new ends entry ≡ true) }
    ensures size { IfSome result (λ entry. length entry ≡ 16) }
    ensures links { P.links port.new ≡ P.links port.old }
{
    port.sees(lane, ends.head(), ends.phase())
}

/// Whether a status means that the command was executed.
pub fn is_success(status: Status) -> bool
    ensures { result ≡ success status }
{
    status.sct == 0 && status.sc == 0
}
