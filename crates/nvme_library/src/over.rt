//! Executions over blocks that the program brings.

ghost use Rattle.std.specs.Prelude.{◌≡◌};
ghost use Rattle.nvme_library.specs.Over.{ExecutesIn, ExecutesOver, not_executed};

use crate::answer::Answer;
use crate::codes;
use crate::handle::Handle;
use crate::held::Held;
use nvme_brought::Room;
use nvme_lent::{LentBytes, NotBrought};
use std::alloc::Global;

/// The result of an execution over brought blocks.
#[repr(C)]
#[derive(Clone, Copy)]
pub struct ExecutedOver {
    /// The number of blocks at the front of the room that are at hand after the execution: brought, or written by the
    /// command. 0 if nothing was executed.
    pub at_hand: u64,
    /// The result of the event.
    pub answer: Answer,
}

impl ExecutedOver {
    /// Nothing was executed, for this reason.
    fn without(what: u32) -> Self
        ensures { result ≡ not_executed what }
    {
        ExecutedOver {
            at_hand: 0,
            answer: Answer::plain(what),
        }
    }
}

/// A controller executes the `i`-th, from 0, of the commands that it has fetched, over a medium of brought blocks: the
/// blocks of the medium from `first` are in the room, and the first `brought` of them have their content. A command can
/// read these, write these and the next ones as far as the room goes, and flush if `flushes`. The room is C's again
/// when the call returns, with what the command wrote.
///
/// Returns what `nvmesim_execute` does; or `OUTSIDE` if the medium does not have all blocks that were brought, or
/// `IN_MEMORY` if the blocks of this subsystem are in memory, and then nothing has changed, nor has the room.
#[unsafe(no_mangle)]
pub extern "C" fn nvmesim_execute_over(
    alloc: Global,
    sim: &mut Handle,
    room: LentBytes,
    cntlid: u16,
    i: usize,
    first: u64,
    brought: u64,
    flushes: bool,
) -> ExecutedOver
    ensures { ExecutesOver cntlid i room first brought flushes sim.old.slot.value result sim.new.slot.value
        sim.new.returned.bytes }
{
    let room = Room::of(room.into_buffer(), first, brought, flushes);
    let Some(mut subsystem) = sim.take(alloc) else {
        sim.give_back_room(room);
        return ExecutedOver::without(codes::CLOSED);
    };
    let (executed, left) = execute_in(&mut subsystem, cntlid, i, room);
    *sim = Handle::of(subsystem);
    sim.give_back_room(left);
    executed
}

/// Executes a command over the blocks of a room, and returns the room, as the command has left it.
fn execute_in(subsystem: &mut Held, cntlid: u16, i: usize, room: Room) -> (ExecutedOver, Room)
    ensures { ExecutesIn cntlid i room subsystem.old result.0 result.1 subsystem.new }
{
    match subsystem.execute_over(cntlid, i, room) {
        Ok((seen, left)) => {
            let executed = ExecutedOver {
                at_hand: left.at_hand(),
                answer: Answer::of(seen),
            };
            (executed, left)
        }
        Err(NotBrought::InMemory(room)) => (ExecutedOver::without(codes::IN_MEMORY), room),
        Err(NotBrought::Outside(room)) => (ExecutedOver::without(codes::OUTSIDE), room),
    }
}
