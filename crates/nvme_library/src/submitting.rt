//! One command, from its entry to its completion.

ghost use Rattle.std.specs.Prelude.{◌≡◌, ◌==◌};
ghost use Rattle.nvme_library.specs.Submitting.{AlwaysAnswers, Finishes, Submits, SubmitsTo};

use crate::answer::Answer;
use crate::codes;
use crate::completing::complete_in;
use crate::handle::Handle;
use crate::held::Held;
use crate::placing::{Placed, place_in};
use std::alloc::Global;

/// A host takes its turn at a pair of empty queues. It stores a command at the tail of the submission queue and writes
/// the doorbell. The controller fetches and executes the command and posts the completion. The host reads its 16 bytes
/// and writes the head doorbell. No other event comes between these.
///
/// Returns `POSTED` with the status, and the buffer has the completion of this command; or `NOT_READY`, `NO_QUEUE`,
/// `BUSY`, `NO_CONTROLLER` or `CLOSED`, and nothing has happened.
#[unsafe(no_mangle)]
pub extern "C" fn nvmesim_submit(
    alloc: Global,
    sim: &mut Handle,
    cntlid: u16,
    qid: u16,
    entry: &[u8; 64],
    completion: &mut [u8; 16],
) -> Answer
    ensures submits { Submits cntlid qid entry.now sim.old.slot.value result completion.old completion.new
        sim.new.slot.value }
    ensures answers { AlwaysAnswers cntlid qid entry.now sim.old.slot.value result completion.new }
{
    let Some(mut subsystem) = sim.take(alloc) else {
        return Answer::closed();
    };
    let answer = submit_to(&mut subsystem, cntlid, qid, entry, completion);
    *sim = Handle::of(subsystem);
    answer
}

/// Places a command, and completes it if it was taken.
fn submit_to(
    subsystem: &mut Held,
    cntlid: u16,
    qid: u16,
    entry: &[u8; 64],
    completion: &mut [u8; 16],
) -> Answer
    ensures { SubmitsTo cntlid qid entry.now subsystem.old result completion.old completion.new subsystem.new }
{
    let placed = place_in(subsystem, cntlid, qid, entry, 0, &[]);
    finish(subsystem, cntlid, placed, completion)
}

/// Completes a command if it was taken.
fn finish(subsystem: &mut Held, cntlid: u16, placed: Placed, completion: &mut [u8; 16]) -> Answer
    ensures { Finishes (placed.what == 4) cntlid placed subsystem.old result completion.old completion.new
        subsystem.new }
{
    if placed.what == codes::TOOK {
        complete_in(subsystem, cntlid, placed.index, completion).answer
    } else {
        Answer::plain(placed.what)
    }
}
