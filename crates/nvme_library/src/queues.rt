//! A controller's queues and fetched commands, for C.

ghost use Rattle.std.specs.Prelude.{◌≡◌};
ghost use Rattle.nvme_library.specs.Queues.{
  command_at,
  completion_of,
  completion_queue_at,
  of_controller,
  without_command,
  without_queue,
  submission_of,
  submission_queue_at,
};

use crate::codes;
use crate::handle::Handle;
use nvme_ctrl::{CompletionQueue, Controller, SubmissionQueue};
use std::alloc::Global;

/// A queue of a controller.
#[repr(C)]
#[derive(Clone, Copy)]
pub struct Queue {
    /// Its address in the memory of the host.
    pub base: u64,
    /// `OK`; else why there is no such queue, and the other fields are 0.
    pub what: u32,
    /// The number of entries.
    pub size: u16,
    /// The head: in a submission queue the slot of the next command to fetch; in a completion queue that of the first
    /// completion that the host has not consumed, by the doorbell.
    pub head: u16,
    /// The tail: in a submission queue the slot after the last command, by the doorbell; in a completion queue that of
    /// the next completion.
    pub tail: u16,
    /// The completion queue: this one, or the one for the completions of this submission queue.
    pub cqid: u16,
    /// In a completion queue, the phase tag of the next completion.
    pub phase: bool,
}

/// A command that was fetched and not yet executed.
#[repr(C)]
#[derive(Clone, Copy)]
pub struct Command {
    /// The number of such commands.
    pub count: usize,
    /// `OK`; else why there is no such command, and the fields after it are 0.
    pub what: u32,
    /// Its submission queue.
    pub qid: u16,
    /// Whether a Preempt and Abort has marked it.
    pub marked: bool,
    /// Its submission queue entry.
    pub entry: [u8; 64],
}

/// A submission queue of a controller: `OK`, `NO_QUEUE`, `NO_CONTROLLER` or `CLOSED`.
#[unsafe(no_mangle)]
pub extern "C" fn nvmesim_submission_queue(
    alloc: Global,
    sim: &mut Handle,
    cntlid: u16,
    qid: u16,
) -> Queue
    ensures queue { result ≡ of_controller without_queue (submission_queue_at qid) sim.old.slot.value cntlid }
    ensures kept { sim.new.slot.value ≡ sim.old.slot.value }
{
    let Some(subsystem) = sim.take(alloc) else {
        return Queue::without(codes::CLOSED);
    };
    let queue = match subsystem.controller(cntlid) {
        Some(controller) => Queue::submission_at(controller, qid),
        None => Queue::without(codes::NO_CONTROLLER),
    };
    *sim = Handle::of(subsystem);
    queue
}

/// A completion queue of a controller: `OK`, `NO_QUEUE`, `NO_CONTROLLER` or `CLOSED`.
#[unsafe(no_mangle)]
pub extern "C" fn nvmesim_completion_queue(
    alloc: Global,
    sim: &mut Handle,
    cntlid: u16,
    qid: u16,
) -> Queue
    ensures queue { result ≡ of_controller without_queue (completion_queue_at qid) sim.old.slot.value cntlid }
    ensures kept { sim.new.slot.value ≡ sim.old.slot.value }
{
    let Some(subsystem) = sim.take(alloc) else {
        return Queue::without(codes::CLOSED);
    };
    let queue = match subsystem.controller(cntlid) {
        Some(controller) => Queue::completion_at(controller, qid),
        None => Queue::without(codes::NO_CONTROLLER),
    };
    *sim = Handle::of(subsystem);
    queue
}

/// The `i`-th, from 0, of the commands that a controller has fetched and not yet executed, in the order of their
/// fetches: `OK`, `NO_SUCH`, `NO_CONTROLLER` or `CLOSED`.
#[unsafe(no_mangle)]
pub extern "C" fn nvmesim_fetched(alloc: Global, sim: &mut Handle, cntlid: u16, i: usize) -> Command
    ensures command { result ≡ of_controller (without_command 0) (command_at i) sim.old.slot.value cntlid }
    ensures kept { sim.new.slot.value ≡ sim.old.slot.value }
{
    let Some(subsystem) = sim.take(alloc) else {
        return Command::without(0, codes::CLOSED);
    };
    let command = match subsystem.controller(cntlid) {
        Some(controller) => Command::at(controller, i),
        None => Command::without(0, codes::NO_CONTROLLER),
    };
    *sim = Handle::of(subsystem);
    command
}

impl Queue {
    /// No queue.
    fn without(what: u32) -> Self
        ensures { result ≡ without_queue what }
    {
        Queue {
            base: 0,
            what,
            size: 0,
            head: 0,
            tail: 0,
            cqid: 0,
            phase: false,
        }
    }

    /// A submission queue.
    fn of_submission(queue: &SubmissionQueue) -> Self
        ensures { result ≡ submission_of queue.now }
    {
        Queue {
            base: queue.base(),
            what: codes::OK,
            size: queue.size(),
            head: queue.head(),
            tail: queue.tail(),
            cqid: queue.cqid(),
            phase: false,
        }
    }

    /// A completion queue.
    fn of_completion(qid: u16, queue: &CompletionQueue) -> Self
        ensures { result ≡ completion_of qid queue.now }
    {
        Queue {
            base: queue.base(),
            what: codes::OK,
            size: queue.size(),
            head: queue.head(),
            tail: queue.tail(),
            cqid: qid,
            phase: queue.phase(),
        }
    }

    /// The submission queue with an identifier.
    fn submission_at(controller: &Controller, qid: u16) -> Self
        ensures { result ≡ submission_queue_at qid controller.now }
    {
        match controller.submission_queue(qid) {
            Some(queue) => Queue::of_submission(&queue),
            None => Queue::without(codes::NO_QUEUE),
        }
    }

    /// The completion queue with an identifier.
    fn completion_at(controller: &Controller, qid: u16) -> Self
        ensures { result ≡ completion_queue_at qid controller.now }
    {
        match controller.completion_queue(qid) {
            Some(queue) => Queue::of_completion(qid, &queue),
            None => Queue::without(codes::NO_QUEUE),
        }
    }
}

impl Command {
    /// No command.
    fn without(count: usize, what: u32) -> Self
        ensures { result ≡ without_command count what }
    {
        Command {
            count,
            what,
            qid: 0,
            marked: false,
            entry: [0; 64],
        }
    }

    /// The command at a place.
    fn at(controller: &Controller, i: usize) -> Self
        ensures { result ≡ command_at i controller.now }
    {
        let fetched = controller.fetched();
        let count = fetched.len();
        match fetched.get(i) {
            Some(command) => Command {
                count,
                what: codes::OK,
                qid: command.queue,
                marked: command.marked,
                entry: command.entry.to_bytes(),
            },
            None => Command::without(count, codes::NO_SUCH),
        }
    }
}
