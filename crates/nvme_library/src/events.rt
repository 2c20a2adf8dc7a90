//! The events of a subsystem, one call each.

ghost use Rattle.nvme_machine.specs.Controllers.{after_store, wrote, has_read, after_fetch};
ghost use Rattle.nvme_machine.specs.EventCalls.{ExecutesNothing};
ghost use Rattle.nvme_library.specs.Events.{Happens, Stepping, Reacting, Executing, Cycling};

use crate::answer::Answer;
use crate::handle::Handle;
use nvme_subsys::Event;
use std::alloc::Global;

/// A host stores bytes in its memory, at an address: `STORED`; or `OUTSIDE`, `NO_CONTROLLER` or `CLOSED`, and nothing
/// is stored.
#[unsafe(no_mangle)]
pub extern "C" fn nvmesim_store(
    alloc: Global,
    sim: &mut Handle,
    cntlid: u16,
    address: u64,
    bytes: &[u8],
) -> Answer
    ensures { Happens (Reacting cntlid (after_store address bytes.now)) sim.old.slot.value result sim.new.slot.value }
{
    apply_event(alloc, sim, Event::Store(cntlid, address, bytes))
}

/// A host writes a register of its controller, such as a doorbell: `WROTE`; or `NO_CONTROLLER` or `CLOSED`.
#[unsafe(no_mangle)]
pub extern "C" fn nvmesim_write32(
    alloc: Global,
    sim: &mut Handle,
    cntlid: u16,
    offset: u64,
    value: u32,
) -> Answer
    ensures { Happens (Reacting cntlid (wrote offset value)) sim.old.slot.value result sim.new.slot.value }
{
    apply_event(alloc, sim, Event::Write32(cntlid, offset, value))
}

/// A host reads a register of its controller: `VALUE`, with the value; or `NO_CONTROLLER` or `CLOSED`.
#[unsafe(no_mangle)]
pub extern "C" fn nvmesim_read32(
    alloc: Global,
    sim: &mut Handle,
    cntlid: u16,
    offset: u64,
) -> Answer
    ensures { Happens (Reacting cntlid (has_read offset)) sim.old.slot.value result sim.new.slot.value }
{
    apply_event(alloc, sim, Event::Read32(cntlid, offset))
}

/// A controller fetches the next command of a submission queue: `TOOK`, or `IDLE` if there is none; or `NO_CONTROLLER`
/// or `CLOSED`.
#[unsafe(no_mangle)]
pub extern "C" fn nvmesim_fetch(alloc: Global, sim: &mut Handle, cntlid: u16, qid: u16) -> Answer
    ensures { Happens (Reacting cntlid (after_fetch qid)) sim.old.slot.value result sim.new.slot.value }
{
    apply_event(alloc, sim, Event::Fetch(cntlid, qid))
}

/// A controller executes the `i`-th, from 0, of the commands that it has fetched and not yet executed, and posts its
/// completion: `POSTED`, with the status; `NO_SUCH`, or `CQ_FULL` if the command has to wait; or `NO_CONTROLLER` or
/// `CLOSED`.
#[unsafe(no_mangle)]
pub extern "C" fn nvmesim_execute(alloc: Global, sim: &mut Handle, cntlid: u16, i: usize) -> Answer
    ensures { Happens (Executing cntlid i) sim.old.slot.value result sim.new.slot.value }
{
    let Some(mut subsystem) = sim.take(alloc) else {
        return Answer::closed();
    };
    let seen = subsystem.execute(cntlid, i);
    *sim = Handle::of(subsystem);
    Answer::of(seen)
}

/// The whole subsystem loses power, and regains it: `CYCLED`, or `CLOSED`.
#[unsafe(no_mangle)]
pub extern "C" fn nvmesim_power_cycle(alloc: Global, sim: &mut Handle) -> Answer
    ensures { Happens Cycling sim.old.slot.value result sim.new.slot.value }
{
    apply_event(alloc, sim, Event::PowerCycle)
}

/// Applies an event other than an execution, if a subsystem is open.
#[inline(always)]
fn apply_event(alloc: Global, sim: &mut Handle, event: Event) -> Answer
    requires quiet { ExecutesNothing event }
    ensures { Happens (Stepping event.entry) sim.old.slot.value result sim.new.slot.value }
{
    let Some(mut subsystem) = sim.take(alloc) else {
        return Answer::closed();
    };
    let seen = subsystem.react(event);
    *sim = Handle::of(subsystem);
    Answer::of(seen)
}
