//! Fetches a command.

ghost use Rattle.std.specs.Prelude.{◌≡◌, ◌<◌, ◌≤◌, ◌+◌, length, slice_range, IfSome};
ghost use Rattle.nvme_spec.specs.Memory.{window_size};
ghost use Rattle.nvme_machine.specs.Controllers.{may_fetch, fetchable, after_fetch};
ghost use Rattle.nvme_machine.specs.declared.seen.Seen.TheVariants.{Fetched as WasFetched};

use crate::controller::Controller;
use crate::slots::{put, queue_at};
use crate::submission_queue::SubmissionQueue;
use nvme_machine::{Fetched, FetchedCommand};
use nvme_mem::Window;
use nvme_spec::{ControllerState, Piece};
use nvme_wire::Sqe;

/// Whether a controller in this state fetches.
fn fetches(state: ControllerState) -> bool
    ensures { result ≡ may_fetch state }
{
    match state {
        ControllerState::Ready => true,
        ControllerState::Off | ControllerState::ShutDown | ControllerState::Failed => false,
    }
}

/// The submission queue entry at an address of the window.
fn entry_at(window: &Window, address: u64) -> Sqe
    requires { address + 64 ≤ window_size }
    ensures { result ≡ slice_range window.now address (address + 64) }
{
    let bytes = window.bytes(Piece { address, len: 64 });
    match bytes.as_array::<64>() {
        Some(entry) => Sqe::from_bytes(entry),
        None => unreachable!(),
    }
}

impl Controller {
    /// Fetches the next command of a submission queue, unless the controller does not run, is shut down, holds 64
    /// commands already, has no such queue, or none waits there; then nothing changes.
    #[tactic(auto, unfolding(nvme_machine::specs::Controllers::after_fetch))]
    pub fn fetch(&mut self, qid: u16) -> Fetched
        ensures seen { WasFetched result ≡ (after_fetch qid self.old).seen }
        ensures after { self.new ≡ (after_fetch qid self.old).controller }
    {
        let Some(mut queue) = self.fetchable(qid) else {
            return Fetched::Idle;
        };
        let entry = entry_at(&self.window, queue.entry_address());
        queue.advance();
        put(&mut self.submission, qid, Some(queue));
        self.fetched.push(FetchedCommand {
            entry,
            queue: qid,
            marked: false,
        });
        Fetched::Took
    }

    /// The submission queue that a command can be fetched from.
    #[tactic(auto, unfolding(nvme_machine::specs::Controllers::fetchable))]
    fn fetchable(&self, qid: u16) -> Option<SubmissionQueue>
        ensures queue { result ≡ fetchable self.now qid }
        ensures waits { IfSome result (λ queue. 0 < queue.head.waiting) }
        ensures room { IfSome result (λ queue. length self.now.fetched < 64) }
    {
        if !fetches(self.registers.state()) || self.fetched.is_full() {
            return None;
        }
        match queue_at(&self.submission, qid) {
            Some(queue) if queue.waits() => Some(queue),
            _ => None,
        }
    }
}
