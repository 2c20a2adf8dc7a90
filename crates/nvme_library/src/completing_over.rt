//! A fetched command is executed over blocks that the program brings, and its host consumes the completion.

ghost use Rattle.std.specs.Prelude.{◌≡◌};
ghost use Rattle.nvme_library.specs.CompletingOver.{
  AlwaysCompletesOver,
  CompletesIn,
  CompletesOver,
  not_completed,
  room_of,
};
ghost use Rattle.nvme_library.specs.Over.{refusal_number};

use crate::answer::Answer;
use crate::codes;
use crate::completing::{Completed, consume, reply_at};
use crate::handle::Handle;
use crate::held::Held;
use nvme_brought::Room;
use nvme_lent::{LentBytes, NotBrought};
use std::alloc::Global;

/// The result of completing a command over brought blocks.
#[repr(C)]
#[derive(Clone, Copy)]
pub struct CompletedOver {
    /// The number of blocks at the front of the room that are at hand after the execution: brought, or written by the
    /// command. 0 if nothing was executed.
    pub at_hand: u64,
    /// The result.
    pub completed: Completed,
}

impl CompletedOver {
    /// Nothing was executed, for this reason.
    fn without(what: u32) -> Self
        ensures { result ≡ not_completed what }
    {
        CompletedOver {
            at_hand: 0,
            completed: Completed::without(Answer::plain(what)),
        }
    }
}

/// A controller executes the `i`-th, from 0, of the commands that it has fetched, over a medium of brought blocks, as
/// `nvmesim_execute_over` does. The host reads the 16 bytes of its completion and writes the head doorbell, as in
/// `nvmesim_complete`. The room is C's again when the call returns, with what the command wrote.
///
/// Returns what `nvmesim_complete` does; or `OUTSIDE` if the medium does not have all blocks that were brought, or
/// `IN_MEMORY` if the blocks of this subsystem are in memory, and then nothing has changed, nor has the room.
#[unsafe(no_mangle)]
pub extern "C" fn nvmesim_complete_over(
    alloc: Global,
    sim: &mut Handle,
    room: LentBytes,
    cntlid: u16,
    i: usize,
    first: u64,
    brought: u64,
    flushes: bool,
    completion: &mut [u8; 16],
) -> CompletedOver
    ensures completes { CompletesOver cntlid i room first brought flushes sim.old.slot.value result completion.old
        completion.new sim.new.slot.value sim.new.returned.bytes }
    ensures answers { AlwaysCompletesOver cntlid i room first brought flushes sim.old.slot.value result completion.new
        sim.new.slot.value }
{
    let room = Room::of(room.into_buffer(), first, brought, flushes);
    let Some(mut subsystem) = sim.take(alloc) else {
        sim.give_back_room(room);
        return CompletedOver::without(codes::CLOSED);
    };
    let (completed, left) = complete_over(&mut subsystem, cntlid, i, room, completion);
    *sim = Handle::of(subsystem);
    sim.give_back_room(left);
    completed
}

/// Executes a command over the blocks of a room and consumes its completion. Returns the room, as the command has left
/// it.
fn complete_over(
    subsystem: &mut Held,
    cntlid: u16,
    i: usize,
    room: Room,
    completion: &mut [u8; 16],
) -> (CompletedOver, Room)
    ensures { CompletesIn cntlid i room subsystem.old result.0 completion.old completion.new result.1 subsystem.new }
{
    let reply = reply_at(subsystem, cntlid, i);
    match subsystem.execute_over(cntlid, i, room) {
        Ok((seen, left)) => {
            consume(subsystem, cntlid, seen, reply, completion);
            let completed = CompletedOver {
                at_hand: left.at_hand(),
                completed: Completed::of(seen, reply),
            };
            (completed, left)
        }
        Err(why) => refused(why),
    }
}

/// The medium does not take the room: the reason, and the room.
fn refused(why: NotBrought) -> (CompletedOver, Room)
    ensures result { result.0 ≡ not_completed (refusal_number why) }
    ensures room { result.1 ≡ room_of why }
{
    match why {
        NotBrought::InMemory(room) => (CompletedOver::without(codes::IN_MEMORY), room),
        NotBrought::Outside(room) => (CompletedOver::without(codes::OUTSIDE), room),
    }
}
