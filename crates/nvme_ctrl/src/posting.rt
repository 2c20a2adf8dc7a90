//! Posts a completion, and applies an admin command's change of the queues.

ghost use Rattle.std.specs.Prelude.{◌≡◌, ◌<◌, Option, Some, map, option_map, is_some, length, IfSome};
ghost use Rattle.nvme_machine.specs.Controllers.{SubmissionQueue as Submissions, CompletionQueue as Completions};
ghost use Rattle.nvme_spec.specs.Queues.{completion_room};
ghost use Rattle.nvme_machine.specs.Controllers.{
  open_pair,
  after_posting,
  after_queue_change,
  queues_of,
  without_queue,
  completion_of,
};
ghost use Rattle.nvme_ctrl.specs.Executions.{LiesInMemory};

use crate::completion_queue::CompletionQueue;
use crate::controller::Controller;
use crate::slots::{put, queue_at};
use crate::submission_queue::SubmissionQueue;
use arrayvec::ArrayVec;
use nvme_machine::FetchedCommand;
use nvme_spec::{QueueChange, Queues};
use nvme_wire::{Cqe, Status};
use std::marker::Model;

/// The queues of a command: its submission queue, and the completion queue for its completion.
#[derive(Clone, Copy, Debug)]
pub struct QueuePair {
    submission: SubmissionQueue,
    completion: CompletionQueue,
}

impl Model for QueuePair {
    ghost use Rattle.nvme_machine.specs.Controllers.{QueuePair as Pair};

    ghost Value = { Pair };

    ghost view = { λ p. record { submission = p.submission; completion = p.completion } };

    ghost inverse = { λ p. record { submission = p.submission; completion = p.completion } };
}

impl QueuePair {
    /// The completion of a command, with the command specific double word 0, the status, and the present head of its
    /// submission queue.
    fn completion_of(&self, command: &FetchedCommand, status: Status, dw0: u32) -> Cqe
        requires { status.sct < 8 }
        ensures { result ≡ completion_of command.now self.now status dw0 }
    {
        Cqe::new(
            dw0,
            self.submission.head(),
            command.queue,
            command.entry.cid(),
            self.completion.phase(),
            status,
        )
    }
}

impl Controller {
    /// The queues of a fetched command, if its completion can be posted.
    #[tactic(auto, unfolding(nvme_machine::specs::Controllers::open_pair))]
    pub(crate) fn open_pair(&self, command: &FetchedCommand) -> Option<QueuePair>
        ensures pair { result ≡ open_pair self.now command.now }
        ensures room { IfSome result (λ pair. 0 < completion_room pair.completion.tail) }
    {
        let submission = queue_at(&self.submission, command.queue)?;
        let completion = queue_at(&self.completion, submission.cqid())?;
        completion.has_room().then(|| QueuePair {
            submission,
            completion,
        })
    }

    /// Removes the `i`-th command from the list and posts its completion. The command must exist, and there must be
    /// room for the completion.
    #[tactic(auto, unfolding(nvme_machine::specs::Controllers::after_posting))]
    pub(crate) fn post(
        &mut self,
        i: usize,
        command: &FetchedCommand,
        pair: QueuePair,
        status: Status,
        dw0: u32,
    )
        requires there { i < length self.old.fetched }
        requires room { 0 < completion_room pair.completion.tail }
        requires small { status.sct < 8 }
        ensures { self.new ≡ after_posting i command.now pair status dw0 self.old }
    {
        let entry = pair.completion_of(command, status, dw0).to_bytes();
        let mut completion = pair.completion;
        let _ = self.window.store(completion.entry_address(), &entry);
        completion.advance();
        put(
            &mut self.completion,
            pair.submission.cqid(),
            Some(completion),
        );
        self.fetched.remove(i);
    }
}

/// Which completion queues exist.
fn existing(queues: &[Option<CompletionQueue>; 5]) -> [bool; 5]
    ensures { result ≡ map (λ (q : Option Completions). is_some q) queues.now }
{
    let [admin, first, second, third, fourth] = queues;
    [
        admin.is_some(),
        first.is_some(),
        second.is_some(),
        third.is_some(),
        fourth.is_some(),
    ]
}

/// The completion queue of a submission queue.
fn destination(queue: &Option<SubmissionQueue>) -> Option<u16>
    ensures { result ≡ option_map (λ (q : Submissions). q.cqid) queue.now }
{
    match queue {
        Some(queue) => Some(queue.cqid()),
        None => None,
    }
}

/// The completion queue of each existing submission queue.
fn destinations(queues: &[Option<SubmissionQueue>; 5]) -> [Option<u16>; 5]
    ensures { result ≡ map (λ (o : Option Submissions). option_map (λ (q : Submissions). q.cqid) o) queues.now }
{
    let [admin, first, second, third, fourth] = queues;
    [
        destination(admin),
        destination(first),
        destination(second),
        destination(third),
        destination(fourth),
    ]
}

/// The commands that did not come from this submission queue.
fn keep_others(commands: &mut ArrayVec<FetchedCommand, 64>, qid: u16)
    ensures { commands.new.items ≡ without_queue qid commands.old.items }
{
    commands.retain(|command| command.queue != qid);
}

impl Controller {
    /// Which queues exist.
    pub(crate) fn queues(&self) -> Queues
        ensures { result ≡ queues_of self.now }
    {
        Queues {
            cq: existing(&self.completion),
            sq: destinations(&self.submission),
        }
    }

    /// Applies an admin command's change of the queues. Deleting a submission queue drops its fetched commands. A new
    /// queue must be in host memory.
    #[tactic(auto, unfolding(nvme_machine::specs::Controllers::after_queue_change))]
    pub(crate) fn change_queues(&mut self, change: QueueChange)
        requires { LiesInMemory change }
        ensures { self.new ≡ after_queue_change change self.old }
    {
        match change {
            QueueChange::Keep => {}
            QueueChange::MakeCq { qid, size, base } => {
                put(
                    &mut self.completion,
                    qid,
                    Some(CompletionQueue::new(base, size)),
                );
            }
            QueueChange::MakeSq {
                qid,
                size,
                base,
                cqid,
            } => {
                put(
                    &mut self.submission,
                    qid,
                    Some(SubmissionQueue::new(base, size, cqid)),
                );
            }
            QueueChange::DropCq(qid) => put(&mut self.completion, qid, None),
            QueueChange::DropSq(qid) => {
                put(&mut self.submission, qid, None);
                keep_others(&mut self.fetched, qid);
            }
        }
    }
}
