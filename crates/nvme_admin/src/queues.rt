//! Rule 6 of the commands that create and delete queues, and their changes of the queues.

ghost use Rattle.std.specs.Prelude.{◌≡◌, ◌≤◌, [], ◌∷◌, Ok, Err, OnOk, IfOk, IfErr};
ghost use Rattle.nvme_spec.specs.declared.command.AdminCommand.TheVariants.{
  DeleteSubmissionQueue,
  CreateSubmissionQueue,
  DeleteCompletionQueue,
  CreateCompletionQueue,
};
ghost use Rattle.nvme_spec.specs.AdminRules as rules;
ghost use Rattle.nvme_spec.specs.AdminEffects as effects;
ghost use Rattle.nvme_spec.specs.AdminCommands as commands;
ghost use Rattle.nvme_spec.specs.ExistingQueues as existing;
ghost use Rattle.nvme_spec.specs.Rules.{judgement_by, first_failure, denial_by};

use crate::fields;
use nvme_mem::WINDOW_LEN;
use nvme_policy::deny_if;
use nvme_spec::{Denial, QueueChange, Queues};
use nvme_wire::{Sqe, Status};

/// The identifiers of I/O queues, and the highest of them.
const IO_QUEUES: [u16; 4] = [1, 2, 3, 4];

const HIGHEST_QUEUE: u16 = 4;

/// The smallest and the largest number of entries of a queue.
const FEWEST_ENTRIES: u32 = 2;

const MOST_ENTRIES: u32 = 64;

/// The size of a memory page, in bytes.
const PAGE: u64 = 4096;

/// The widths of entries, in bytes.
const COMPLETION_ENTRY: u64 = 16;

const SUBMISSION_ENTRY: u64 = 64;

/// Whether some I/O queue exists.
pub fn has_io_queue(queues: &Queues) -> bool
    ensures { result ≡ existing.has_io_queue queues.now }
{
    IO_QUEUES.iter().any(|qid| has_completion_queue(queues, *qid)
        || has_submission_queue(queues, *qid))
}

fn has_completion_queue(queues: &Queues, qid: u16) -> bool
    ensures { result ≡ existing.has_completion_queue queues.now qid }
{
    match queues.cq.get(usize::from(qid)) {
        Some(exists) => *exists,
        None => false,
    }
}

fn has_submission_queue(queues: &Queues, qid: u16) -> bool
    ensures { result ≡ existing.has_submission_queue queues.now qid }
{
    match queues.sq.get(usize::from(qid)) {
        Some(cqid) => cqid.is_some(),
        None => false,
    }
}

/// Whether any submission queue uses this completion queue.
fn is_used(queues: &Queues, qid: u16) -> bool
    ensures { result ≡ existing.is_used queues.now qid }
{
    queues.sq.iter().any(|cqid| *cqid == Some(qid))
}

/// Whether the identifier is outside the range of I/O queues.
fn is_foreign(qid: u16) -> bool
    ensures { result ≡ rules.is_foreign qid }
{
    qid == 0 || qid > HIGHEST_QUEUE
}

/// Rule 6 of Create I/O Completion Queue.
#[tactic(auto, unfolding(nvme_spec::specs::AdminRules::completion_queue_rule, nvme_spec::specs::Rules::judgement_by))]
fn check_completion_queue(queues: &Queues, sqe: &Sqe) -> Result<(), Denial>
    ensures judged { result ≡ judgement_by (rules.completion_queue_rule queues.now sqe.now) }
    ensures small { OnOk result (commands.queue_size sqe.now ≤ 64) }
{
    deny_if(!fields::pc(sqe), 6, Status::INVALID_FIELD_IN_COMMAND)?;
    let qid = fields::qid(sqe);
    deny_if(
        is_foreign(qid) || has_completion_queue(queues, qid),
        6,
        Status::INVALID_QUEUE_IDENTIFIER,
    )?;
    check_size(sqe)?;
    check_base(sqe, COMPLETION_ENTRY)
}

/// Rule 6 of Create I/O Submission Queue.
#[tactic(auto, unfolding(nvme_spec::specs::AdminRules::submission_queue_rule, nvme_spec::specs::Rules::judgement_by))]
fn check_submission_queue(queues: &Queues, sqe: &Sqe) -> Result<(), Denial>
    ensures judged { result ≡ judgement_by (rules.submission_queue_rule queues.now sqe.now) }
    ensures small { OnOk result (commands.queue_size sqe.now ≤ 64) }
{
    deny_if(!fields::pc(sqe), 6, Status::INVALID_FIELD_IN_COMMAND)?;
    let qid = fields::qid(sqe);
    deny_if(
        is_foreign(qid) || has_submission_queue(queues, qid),
        6,
        Status::INVALID_QUEUE_IDENTIFIER,
    )?;
    check_size(sqe)?;
    let cqid = fields::cqid(sqe);
    deny_if(is_foreign(cqid), 6, Status::INVALID_QUEUE_IDENTIFIER)?;
    deny_if(
        !has_completion_queue(queues, cqid),
        6,
        Status::COMPLETION_QUEUE_INVALID,
    )?;
    check_base(sqe, SUBMISSION_ENTRY)
}

/// The queue has 2 to 64 entries.
#[tactic(auto, unfolding(nvme_spec::specs::Rules::judgement_by))]
fn check_size(sqe: &Sqe) -> Result<(), Denial>
    ensures judged { result ≡ denial_by 6 (first_failure (rules.size_test sqe.now ∷ [])) }
    ensures small { OnOk result (commands.queue_size sqe.now ≤ 64) }
{
    let size = fields::queue_size(sqe);
    deny_if(
        size < FEWEST_ENTRIES || size > MOST_ENTRIES,
        6,
        Status::INVALID_QUEUE_SIZE,
    )
}

/// The queue begins a page, and is in the window. Its entries have this width.
#[tactic(auto, unfolding(nvme_spec::specs::Rules::judgement_by))]
fn check_base(sqe: &Sqe, width: u64) -> Result<(), Denial>
    requires { width ≤ 64 }
    ensures { result ≡ denial_by 6 (first_failure (rules.base_tests width sqe.now)) }
{
    let base = sqe.prp1();
    deny_if(base % PAGE != 0, 6, Status::PRP_OFFSET_INVALID)?;
    let end = u128::from(base) + u128::from(width) * u128::from(fields::queue_size(sqe));
    deny_if(
        end > WINDOW_LEN as u128,
        6,
        Status::INVALID_FIELD_IN_COMMAND,
    )
}

/// Rule 6 of Delete I/O Submission Queue.
#[tactic(auto, unfolding(nvme_spec::specs::AdminRules::submission_deletion_rule))]
fn check_submission_deletion(queues: &Queues, sqe: &Sqe) -> Result<(), Denial>
    ensures { result ≡ judgement_by (rules.submission_deletion_rule queues.now sqe.now) }
{
    let qid = fields::qid(sqe);
    deny_if(
        qid == 0 || !has_submission_queue(queues, qid),
        6,
        Status::INVALID_QUEUE_IDENTIFIER,
    )
}

/// Rule 6 of Delete I/O Completion Queue.
#[tactic(auto, unfolding(nvme_spec::specs::AdminRules::completion_deletion_rule, nvme_spec::specs::Rules::judgement_by))]
fn check_completion_deletion(queues: &Queues, sqe: &Sqe) -> Result<(), Denial>
    ensures { result ≡ judgement_by (rules.completion_deletion_rule queues.now sqe.now) }
{
    let qid = fields::qid(sqe);
    deny_if(
        qid == 0 || !has_completion_queue(queues, qid),
        6,
        Status::INVALID_QUEUE_IDENTIFIER,
    )?;
    deny_if(is_used(queues, qid), 6, Status::INVALID_QUEUE_DELETION)
}

/// Create I/O Completion Queue: the new queue.
///
/// # Errors
///
/// Rule 6, if a field has a value that the command does not accept.
#[tactic(auto, unfolding(nvme_spec::specs::AdminEffects::queue_change))]
pub fn create_completion_queue(queues: &Queues, sqe: &Sqe) -> Result<QueueChange, Denial>
    ensures passed { OnOk result (judgement_by (rules.completion_queue_rule queues.now sqe.now) ≡ Ok tt) }
    ensures denied { IfErr result (λ d. judgement_by (rules.completion_queue_rule queues.now sqe.now) ≡ Err d) }
    ensures change { IfOk result (λ change. change ≡ effects.queue_change CreateCompletionQueue sqe.now) }
{
    check_completion_queue(queues, sqe)?;
    Ok(QueueChange::MakeCq {
        qid: fields::qid(sqe),
        size: fields::queue_size(sqe) as u16,
        base: sqe.prp1(),
    })
}

/// Create I/O Submission Queue: the new queue.
///
/// # Errors
///
/// Rule 6, if a field has a value that the command does not accept.
#[tactic(auto, unfolding(nvme_spec::specs::AdminEffects::queue_change))]
pub fn create_submission_queue(queues: &Queues, sqe: &Sqe) -> Result<QueueChange, Denial>
    ensures passed { OnOk result (judgement_by (rules.submission_queue_rule queues.now sqe.now) ≡ Ok tt) }
    ensures denied { IfErr result (λ d. judgement_by (rules.submission_queue_rule queues.now sqe.now) ≡ Err d) }
    ensures change { IfOk result (λ change. change ≡ effects.queue_change CreateSubmissionQueue sqe.now) }
{
    check_submission_queue(queues, sqe)?;
    Ok(QueueChange::MakeSq {
        qid: fields::qid(sqe),
        size: fields::queue_size(sqe) as u16,
        base: sqe.prp1(),
        cqid: fields::cqid(sqe),
    })
}

/// Delete I/O Submission Queue: the deleted queue.
///
/// # Errors
///
/// Rule 6, if there is no such queue.
#[tactic(auto, unfolding(nvme_spec::specs::AdminEffects::queue_change))]
pub fn delete_submission_queue(queues: &Queues, sqe: &Sqe) -> Result<QueueChange, Denial>
    ensures passed { OnOk result (judgement_by (rules.submission_deletion_rule queues.now sqe.now) ≡ Ok tt) }
    ensures denied { IfErr result (λ d. judgement_by (rules.submission_deletion_rule queues.now sqe.now) ≡ Err d) }
    ensures change { IfOk result (λ change. change ≡ effects.queue_change DeleteSubmissionQueue sqe.now) }
{
    check_submission_deletion(queues, sqe)?;
    Ok(QueueChange::DropSq(fields::qid(sqe)))
}

/// Delete I/O Completion Queue: the deleted queue.
///
/// # Errors
///
/// Rule 6, if there is no such queue, or a submission queue uses it.
#[tactic(auto, unfolding(nvme_spec::specs::AdminEffects::queue_change))]
pub fn delete_completion_queue(queues: &Queues, sqe: &Sqe) -> Result<QueueChange, Denial>
    ensures passed { OnOk result (judgement_by (rules.completion_deletion_rule queues.now sqe.now) ≡ Ok tt) }
    ensures denied { IfErr result (λ d. judgement_by (rules.completion_deletion_rule queues.now sqe.now) ≡ Err d) }
    ensures change { IfOk result (λ change. change ≡ effects.queue_change DeleteCompletionQueue sqe.now) }
{
    check_completion_deletion(queues, sqe)?;
    Ok(QueueChange::DropCq(fields::qid(sqe)))
}
