//! Answers about a controller's queues.

ghost use Rattle.std.specs.Prelude.{◌≡◌, ◌++◌, codes, decimal};
ghost use Rattle.script_text.specs.Pages.{Adds};
ghost use Rattle.nvme_machine.specs.Controllers.{completion_at, submission_at};
ghost use Rattle.live_views.specs.Showing.{completion_text, queues_text, submission_text, pair_text};

use crate::names::bit_name;
use nvme_ctrl::{CompletionQueue, Controller, SubmissionQueue};
use script_text::{NoRoom, Page, Spell, put_both, put_labelled};

/// The queues of a controller.
#[derive(Clone, Copy)]
pub struct QueuesText<'a> {
    pub cntlid: u16,
    pub controller: &'a Controller,
}

impl Spell for QueuesText<'_> {
    ghost spelled = { λ q. queues_text q.cntlid q.controller.now };

    fn spell<P: Page>(&self, page: &mut P) -> Result<(), NoRoom> {
        put_labelled(page, "queues ", u64::from(self.cntlid))?;
        put_pair(page, 0, self.controller)?;
        put_pair(page, 1, self.controller)?;
        put_pair(page, 2, self.controller)?;
        put_pair(page, 3, self.controller)?;
        put_pair(page, 4, self.controller)
    }
}

/// Puts the existing queues with one identifier.
fn put_pair<P: Page>(page: &mut P, qid: u16, controller: &Controller) -> Result<(), NoRoom>
    ensures { Adds P.room result (P.written page.old) (pair_text controller.now qid) (P.written page.new) }
{
    put_submission(page, qid, controller.submission_queue(qid))?;
    put_completion(page, qid, controller.completion_queue(qid))
}

/// Puts a queue's kind and identifier, its address, and its number of entries.
fn put_queue<P: Page>(
    page: &mut P,
    name: &str,
    qid: u16,
    base: u64,
    size: u16,
) -> Result<(), NoRoom>
    ensures { Adds P.room result (P.written page.old)
        (name.now ++ decimal qid ++ codes " place " ++ decimal base ++ codes " size " ++ decimal size)
        (P.written page.new) }
{
    put_labelled(page, name, u64::from(qid))?;
    put_labelled(page, " place ", base)?;
    put_labelled(page, " size ", u64::from(size))
}

/// Puts the two ends of a queue.
fn put_ends<P: Page>(page: &mut P, head: u16, tail: u16) -> Result<(), NoRoom>
    ensures { Adds P.room result (P.written page.old)
        (codes " head " ++ decimal head ++ codes " tail " ++ decimal tail) (P.written page.new) }
{
    put_labelled(page, " head ", u64::from(head))?;
    put_labelled(page, " tail ", u64::from(tail))
}

/// Puts a submission queue, if there is one.
fn put_submission<P: Page>(
    page: &mut P,
    qid: u16,
    queue: Option<SubmissionQueue>,
) -> Result<(), NoRoom>
    ensures { Adds P.room result (P.written page.old) (submission_text qid queue) (P.written page.new) }
{
    let Some(queue) = queue else {
        return page.put_str("");
    };
    put_queue(page, " sq ", qid, queue.base(), queue.size())?;
    put_ends(page, queue.head(), queue.tail())?;
    put_labelled(page, " to ", u64::from(queue.cqid()))
}

/// Puts a completion queue, if there is one.
fn put_completion<P: Page>(
    page: &mut P,
    qid: u16,
    queue: Option<CompletionQueue>,
) -> Result<(), NoRoom>
    ensures { Adds P.room result (P.written page.old) (completion_text qid queue) (P.written page.new) }
{
    let Some(queue) = queue else {
        return page.put_str("");
    };
    put_queue(page, " cq ", qid, queue.base(), queue.size())?;
    put_ends(page, queue.head(), queue.tail())?;
    put_both(page, " phase ", bit_name(queue.phase()))
}
