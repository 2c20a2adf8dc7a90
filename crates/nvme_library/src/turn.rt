//! A host's turn at a pair of empty queues: the slots of the next command and of the next completion.

ghost use Rattle.std.specs.Prelude.{◌≡◌, ◌+◌, ◌*◌, ◌<◌, length, slice_get};
ghost use Rattle.nvme_spec.specs.Registers.{value_at};
ghost use Rattle.nvme_machine.specs.Controllers.{submission_at, completion_at};
ghost use Rattle.nvme_library.specs.Turns.{
  next_slot,
  turn_at,
  turn_of,
  turn_with,
  data_fault,
  place_of,
  reply_of,
  reply_with,
  tail_doorbell,
  head_doorbell,
  is_quiet,
};

use crate::codes;
use nvme_ctrl::{CompletionQueue, Controller, SubmissionQueue};

/// A host's turn at a pair of queues: the place of its command.
#[derive(Clone, Copy)]
pub(crate) struct Turn {
    /// The address of the slot at the tail of the submission queue.
    pub entry_at: u64,
    /// The tail after the command.
    pub tail: u32,
    /// The completion queue.
    pub cqid: u16,
    /// The number of commands that the controller has fetched and not yet executed.
    pub index: usize,
}

/// The place of a completion.
#[derive(Clone, Copy)]
pub(crate) struct Reply {
    /// The completion queue.
    pub cqid: u16,
    /// The address of its next completion.
    pub completion_at: u64,
    /// The head after the completion.
    pub head: u32,
}

/// The next slot of a ring.
fn next_slot(size: u16, slot: u16) -> u32
    ensures { result ≡ next_slot size slot }
{
    let next = u32::from(slot) + 1;
    if next == u32::from(size) { 0 } else { next }
}

/// Whether no command waits in the submission queue, and no completion in the completion queue.
fn is_quiet(submission: &SubmissionQueue, completion: &CompletionQueue) -> bool
    ensures { result ≡ is_quiet submission.now completion.now }
{
    !submission.waits() && completion.head() == completion.tail()
}

/// The turn at these queues.
fn turn_with(index: usize, submission: &SubmissionQueue) -> Turn
    ensures { result ≡ turn_with index submission.now }
{
    Turn {
        entry_at: submission.entry_address(),
        tail: next_slot(submission.size(), submission.head()),
        cqid: submission.cqid(),
        index,
    }
}

/// The place of the next completion of these queues.
fn reply_with(submission: &SubmissionQueue, completion: &CompletionQueue) -> Reply
    ensures { result ≡ reply_with submission.now completion.now }
{
    Reply {
        cqid: submission.cqid(),
        completion_at: completion.entry_address(),
        head: next_slot(completion.size(), completion.tail()),
    }
}

/// The turn at a pair of queues, or why there is none: `NOT_READY`, `NO_QUEUE` or `BUSY`.
pub(crate) fn turn_of(controller: &Controller, qid: u16) -> Result<Turn, u32>
    ensures { result ≡ turn_of controller.now qid }
{
    if controller.read32(0x1c) != 1 {
        return Err(codes::NOT_READY);
    }
    let Some(submission) = controller.submission_queue(qid) else {
        return Err(codes::NO_QUEUE);
    };
    let Some(completion) = controller.completion_queue(submission.cqid()) else {
        return Err(codes::NO_QUEUE);
    };
    let index = controller.fetched().len();
    if index >= 64 || !is_quiet(&submission, &completion) {
        return Err(codes::BUSY);
    }
    Ok(turn_with(index, &submission))
}

/// Why data can't be stored with an entry: `OUTSIDE` if some are not in the memory, `OVERLAPS` if some are in the
/// entry's slot.
fn data_fault(controller: &Controller, entry_at: u64, at: u64, count: usize) -> Option<u32>
    ensures { result ≡ data_fault entry_at at count }
{
    if count == 0 {
        return None;
    }
    if controller.window().piece(at, count as u64).is_none() {
        return Some(codes::OUTSIDE);
    }
    if (at <= entry_at || at - entry_at < 64) && entry_at < at + count as u64 {
        return Some(codes::OVERLAPS);
    }
    None
}

/// The turn at a pair of queues for a command with data, or why there is none.
pub(crate) fn place_of(
    controller: &Controller,
    qid: u16,
    at: u64,
    count: usize,
) -> Result<Turn, u32>
    ensures { result ≡ place_of controller.now qid at count }
{
    let turn = match turn_of(controller, qid) {
        Ok(turn) => turn,
        Err(why) => return Err(why),
    };
    match data_fault(controller, turn.entry_at, at, count) {
        Some(why) => Err(why),
        None => Ok(turn),
    }
}

/// The place of the completion of the `i`-th command that a controller has fetched, if its queues exist.
pub(crate) fn reply_of(controller: &Controller, i: usize) -> Option<Reply>
    ensures { result ≡ reply_of controller.now i }
{
    let command = controller.fetched().get(i)?;
    let submission = controller.submission_queue(command.queue)?;
    let completion = controller.completion_queue(submission.cqid())?;
    Some(reply_with(&submission, &completion))
}

/// The offset of a submission queue's tail doorbell.
pub(crate) fn tail_doorbell(qid: u16) -> u64
    ensures { result ≡ tail_doorbell qid }
{
    0x1000 + 8 * u64::from(qid)
}

/// The offset of a completion queue's head doorbell.
pub(crate) fn head_doorbell(cqid: u16) -> u64
    ensures { result ≡ head_doorbell cqid }
{
    0x1004 + 8 * u64::from(cqid)
}
