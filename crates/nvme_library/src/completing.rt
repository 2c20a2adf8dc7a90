//! A fetched command is executed, and its host consumes the completion.

ghost use Rattle.std.specs.Prelude.{◌≡◌};
ghost use Rattle.nvme_machine.specs.Subsystems.{controller_at};
ghost use Rattle.nvme_library.specs.Answers.{plain};
ghost use Rattle.nvme_library.specs.Completing.{
  AlwaysCompletes,
  Completes,
  CompletesBy,
  Consumes,
  completed_by,
  completed_without,
  reply_at,
};
ghost use Rattle.nvme_library.specs.Events.{Executing};

use crate::answer::Answer;
use crate::codes;
use crate::handle::Handle;
use crate::held::Held;
use crate::looking::load_from;
use crate::turn::{Reply, head_doorbell, reply_of};
use nvme_machine::{BareExecuted, BareSeen};
use nvme_subsys::Event;
use std::alloc::Global;

/// The result of completing a command. If no completion was posted, the queue and the head are 0.
#[repr(C)]
#[derive(Clone, Copy)]
pub struct Completed {
    /// The result of the execution.
    pub answer: Answer,
    /// The head that was written to the doorbell of the completion queue.
    pub head: u32,
    /// The completion queue.
    pub cqid: u16,
}

impl Completed {
    /// No completion was posted.
    pub(crate) fn without(answer: Answer) -> Self
        ensures { result ≡ completed_without answer }
    {
        Completed {
            answer,
            head: 0,
            cqid: 0,
        }
    }

    /// The result of an execution, whose completion has this place.
    pub(crate) fn of(seen: BareSeen, reply: Option<Reply>) -> Self
        ensures { result ≡ completed_by seen reply }
    {
        match (seen, reply) {
            (BareSeen::Executed(BareExecuted::Posted(_)), Some(reply)) => Completed {
                answer: Answer::of(seen),
                head: reply.head,
                cqid: reply.cqid,
            },
            _ => Completed::without(Answer::of(seen)),
        }
    }
}

/// A controller executes the `i`-th, from 0, of the commands that it has fetched and not yet executed, and posts its
/// completion. The host reads its 16 bytes and writes the head doorbell, so that none is unread. No other event comes
/// between these.
///
/// Returns `POSTED` with the status, and the buffer has the completion of this command; or `NO_SUCH`, or `CQ_FULL` if
/// the command has to wait, `NO_CONTROLLER` or `CLOSED`, and the buffer is unchanged.
#[unsafe(no_mangle)]
pub extern "C" fn nvmesim_complete(
    alloc: Global,
    sim: &mut Handle,
    cntlid: u16,
    i: usize,
    completion: &mut [u8; 16],
) -> Completed
    ensures completes { Completes cntlid i sim.old.slot.value result completion.old completion.new
        sim.new.slot.value }
    ensures answers { AlwaysCompletes cntlid i sim.old.slot.value result completion.new sim.new.slot.value }
{
    let Some(mut subsystem) = sim.take(alloc) else {
        return Completed::without(Answer::closed());
    };
    let completed = complete_in(&mut subsystem, cntlid, i, completion);
    *sim = Handle::of(subsystem);
    completed
}

/// Executes a command and consumes its completion.
pub(crate) fn complete_in(
    subsystem: &mut Held,
    cntlid: u16,
    i: usize,
    completion: &mut [u8; 16],
) -> Completed
    ensures { CompletesBy (Executing cntlid i) cntlid i subsystem.old result completion.old completion.new
        subsystem.new }
{
    let reply = reply_at(subsystem, cntlid, i);
    let seen = subsystem.execute(cntlid, i);
    consume(subsystem, cntlid, seen, reply, completion);
    Completed::of(seen, reply)
}

/// The place of the completion of a command.
pub(crate) fn reply_at(subsystem: &Held, cntlid: u16, i: usize) -> Option<Reply>
    ensures { result ≡ reply_at (controller_at subsystem.now.state cntlid) i }
{
    reply_of(subsystem.controller(cntlid)?, i)
}

/// If a completion was posted, the host reads it and writes the head doorbell.
pub(crate) fn consume(
    subsystem: &mut Held,
    cntlid: u16,
    seen: BareSeen,
    reply: Option<Reply>,
    completion: &mut [u8; 16],
)
    ensures { Consumes seen reply cntlid subsystem.old completion.old completion.new subsystem.new }
{
    if let (BareSeen::Executed(BareExecuted::Posted(_)), Some(reply)) = (seen, reply) {
        load_from(subsystem, cntlid, reply.completion_at, completion);
        subsystem.react(Event::Write32(cntlid, head_doorbell(reply.cqid), reply.head));
    }
}
