//! A host places a command, and its controller fetches it.

ghost use Rattle.std.specs.Prelude.{◌≡◌};
ghost use Rattle.nvme_machine.specs.Subsystems.{controller_at};
ghost use Rattle.nvme_machine.specs.Controllers.{after_store, wrote};
ghost use Rattle.nvme_library.specs.Events.{Reacting};
ghost use Rattle.nvme_library.specs.Placing.{
  AlwaysTakes,
  Does,
  Fetching,
  Places,
  PlacesAt,
  PlacesTo,
  StoresData,
  not_placed,
};
ghost use Rattle.nvme_library.specs.Turns.{tail_doorbell};

use crate::answer::Answer;
use crate::codes;
use crate::handle::Handle;
use crate::held::Held;
use crate::turn::{Turn, place_of, tail_doorbell};
use nvme_machine::BareSeen;
use nvme_subsys::Event;
use std::alloc::Global;

/// A submission queue of a controller.
#[derive(Clone, Copy)]
struct QueueId {
    cntlid: u16,
    qid: u16,
}

/// The result of placing a command. If it was not taken, the numbers are 0.
#[repr(C)]
#[derive(Clone, Copy)]
pub struct Placed {
    /// The address of the entry in the memory of the host.
    pub entry_at: u64,
    /// The place of the command among those that the controller has fetched and not yet executed.
    pub index: usize,
    /// The tail that was written to the doorbell.
    pub tail: u32,
    /// `TOOK`, or why nothing has happened.
    pub what: u32,
}

impl Placed {
    /// Nothing was placed, for this reason.
    fn without(what: u32) -> Self
        ensures { result ≡ not_placed what }
    {
        Placed {
            entry_at: 0,
            index: 0,
            tail: 0,
            what,
        }
    }
}

/// A host places a command at an empty pair of queues. It stores the entry at the tail of the submission queue, and the
/// data, if there are any, at an address of its own. It writes the tail doorbell, and the controller fetches the
/// command. No other event comes between these.
///
/// Returns `TOOK`, and the controller has fetched exactly this command, as the last of its list; or `NOT_READY`,
/// `NO_QUEUE`, `BUSY`, `OUTSIDE` or `OVERLAPS` for the data, `NO_CONTROLLER` or `CLOSED`, and nothing has happened.
#[unsafe(no_mangle)]
pub extern "C" fn nvmesim_place(
    alloc: Global,
    sim: &mut Handle,
    cntlid: u16,
    qid: u16,
    entry: &[u8; 64],
    data_at: u64,
    bytes: &[u8],
) -> Placed
    ensures places { Places cntlid qid entry.now data_at bytes.now sim.old.slot.value result sim.new.slot.value }
    ensures takes { AlwaysTakes cntlid qid entry.now data_at bytes.now sim.old.slot.value result sim.new.slot.value }
{
    let Some(mut subsystem) = sim.take(alloc) else {
        return Placed::without(codes::CLOSED);
    };
    let placed = place_in(&mut subsystem, cntlid, qid, entry, data_at, bytes);
    *sim = Handle::of(subsystem);
    placed
}

/// Places a command, if a turn is possible.
pub(crate) fn place_in(
    subsystem: &mut Held,
    cntlid: u16,
    qid: u16,
    entry: &[u8; 64],
    data_at: u64,
    bytes: &[u8],
) -> Placed
    ensures { PlacesTo (controller_at subsystem.old.state cntlid) cntlid qid entry.now data_at bytes.now
        subsystem.old result subsystem.new }
{
    let Some(controller) = subsystem.controller(cntlid) else {
        return Placed::without(codes::NO_CONTROLLER);
    };
    match place_of(controller, qid, data_at, bytes.len()) {
        Ok(turn) => place_at(
            subsystem,
            QueueId { cntlid, qid },
            turn,
            entry,
            data_at,
            bytes,
        ),
        Err(why) => Placed::without(why),
    }
}

/// Places a command at its turn.
fn place_at(
    subsystem: &mut Held,
    queue: QueueId,
    turn: Turn,
    entry: &[u8; 64],
    data_at: u64,
    bytes: &[u8],
) -> Placed
    ensures { PlacesAt queue.cntlid queue.qid turn entry.now data_at bytes.now subsystem.old result subsystem.new }
{
    let seen = fetch(subsystem, queue, turn, entry, data_at, bytes);
    Placed {
        entry_at: turn.entry_at,
        index: turn.index,
        tail: turn.tail,
        what: Answer::of(seen).what,
    }
}

/// The events: the host stores the entry and the data and writes the tail doorbell, and the controller fetches.
fn fetch(
    subsystem: &mut Held,
    queue: QueueId,
    turn: Turn,
    entry: &[u8; 64],
    data_at: u64,
    bytes: &[u8],
) -> BareSeen
    ensures { Fetching queue.cntlid queue.qid turn entry.now data_at bytes.now subsystem.old result subsystem.new }
{
    let QueueId { cntlid, qid } = queue;
    store_entry(subsystem, cntlid, turn, entry);
    store_data(subsystem, cntlid, data_at, bytes);
    ring_tail(subsystem, cntlid, qid, turn);
    subsystem.react(Event::Fetch(cntlid, qid))
}

/// The host stores the entry at the tail.
fn store_entry(subsystem: &mut Held, cntlid: u16, turn: Turn, entry: &[u8; 64])
    ensures { Does (Reacting cntlid (after_store turn.entry_at entry.now)) subsystem.old subsystem.new }
{
    subsystem.react(Event::Store(cntlid, turn.entry_at, entry));
}

/// The host stores the data, if there are any.
fn store_data(subsystem: &mut Held, cntlid: u16, data_at: u64, bytes: &[u8])
    ensures { StoresData cntlid data_at bytes.now subsystem.old subsystem.new }
{
    if !bytes.is_empty() {
        subsystem.react(Event::Store(cntlid, data_at, bytes));
    }
}

/// The host writes the tail doorbell.
fn ring_tail(subsystem: &mut Held, cntlid: u16, qid: u16, turn: Turn)
    ensures { Does (Reacting cntlid (wrote (tail_doorbell qid) turn.tail)) subsystem.old subsystem.new }
{
    subsystem.react(Event::Write32(cntlid, tail_doorbell(qid), turn.tail));
}
