//! The pages of queues.

ghost use Rattle.std.specs.Prelude.{◌≡◌, ◌≤◌};
ghost use Rattle.nvme_data_buffers.specs.Queues as def;

use crate::buffer::PAGE;

/// The highest identifier of a queue.
const HIGHEST_QUEUE: u16 = 4;

/// The number of a queue's pair of pages. Identifiers that no queue can have share one.
#[inline(always)]
fn pair_of(qid: u16) -> u64
    ensures exact { result ≡ def.pair_of qid }
    ensures few { result ≤ 5 }
{
    if qid <= HIGHEST_QUEUE {
        u64::from(qid)
    } else {
        5
    }
}

/// The address of a submission queue, a page.
#[inline(always)]
pub fn submission_queue(qid: u16) -> u64
    ensures { result ≡ def.submission_queue qid }
{
    PAGE * (2 * pair_of(qid) + 1)
}

/// The address of a completion queue, a page.
#[inline(always)]
pub fn completion_queue(qid: u16) -> u64
    ensures { result ≡ def.completion_queue qid }
{
    PAGE * (2 * pair_of(qid) + 2)
}
