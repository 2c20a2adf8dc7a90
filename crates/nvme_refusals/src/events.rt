//! Calls of subsystems and fleets.

use crate::Came;
use crate::opening::{configuration, is_marked, marked};
use nvme_fleet::{Answer, Fleet, FleetEvent, FleetSeen, Request, Ticket};
use nvme_medium::MemMedium;
use nvme_spec::ConfigFault;
use nvme_subsys::{Event, NewFault, Seen, Subsystem};
use nvme_wire::{NoMemory, Status};
use std::alloc::Global;

/// The number of events of one Read. The fleet performs `ROUNDS` Reads in sequence.
const EVENTS: usize = 5;

const ROUNDS: u64 = 33;

/// A subsystem or a fleet was not opened: right if the cause is refused memory, and the medium is unchanged.
fn refused(refusal: &NewFault<MemMedium>) -> Came {
    Came::refused(refusal.fault == ConfigFault::NoMemory && is_marked(&refusal.medium))
}

pub(crate) fn subsystem(alloc: Global) -> Result<Came, NoMemory> {
    let (config, medium) = (configuration(alloc)?, marked(alloc)?);
    Ok(match Subsystem::new(alloc, &config, medium) {
        Ok(subsystem) => Came::done(is_marked(&subsystem.into_medium())),
        Err(refusal) => refused(&refusal),
    })
}

/// Whether a controller of a subsystem has the admin queues that the events name, or still none.
fn names_queues(subsystem: &mut Subsystem<MemMedium>, are_named: bool) -> bool {
    let value = if are_named { 0x001f_0007 } else { 0 };
    matches!(subsystem.apply(Event::Read32(1, 0x24)), Seen::Value(read) if read == value)
}

/// If memory is refused, no event has happened.
pub(crate) fn run_of_a_subsystem(alloc: Global) -> Result<Came, NoMemory> {
    let (config, medium) = (configuration(alloc)?, marked(alloc)?);
    let Ok(mut subsystem) = Subsystem::new(alloc, &config, medium) else {
        return Err(NoMemory);
    };
    Ok(
        match subsystem.run(alloc, &[Event::Write32(1, 0x24, 0x001f_0007)]) {
            Ok(seen) => Came::done(seen.len() == 1 && names_queues(&mut subsystem, true)),
            Err(NoMemory) => Came::refused(names_queues(&mut subsystem, false)),
        },
    )
}

pub(crate) fn fleet(alloc: Global) -> Result<Came, NoMemory> {
    let (config, medium) = (configuration(alloc)?, marked(alloc)?);
    Ok(match Fleet::new(alloc, &config, medium) {
        Ok(fleet) => Came::done(is_marked(&fleet.into_medium())),
        Err(refusal) => refused(&refusal),
    })
}

/// The events of a Read of one block, from its request to its answer.
fn round() -> [FleetEvent<'static>; EVENTS] {
    let request = Request::Read {
        nsid: 1,
        slba: 0,
        blocks: 1,
    };
    [
        FleetEvent::Place(1, request),
        FleetEvent::Ring(1),
        FleetEvent::Fetch(1, 1),
        FleetEvent::Execute(1, 0),
        FleetEvent::Poll(1),
    ]
}

/// Whether the last event of a round delivered the answer to its Read, with the block's data.
fn is_answered(fleet: &Fleet<MemMedium>, seen: &FleetSeen, ticket: u64) -> bool {
    let is_answer = match seen {
        FleetSeen::Polled(
            Ok(
                Some(
                    Answer::Done {
                        ticket: answered,
                        status,
                        ..
                    },
                ),
            ),
        ) => *answered == Ticket(ticket) && *status == Status::SUCCESSFUL_COMPLETION,
        _ => false,
    };
    is_answer && fleet.data() == [7; 512].as_slice()
}

/// Exactly the events whose replies were appended have happened. If memory is refused, each round therefore continues
/// with the next event.
pub(crate) fn run_of_a_fleet(alloc: Global) -> Result<Came, NoMemory> {
    let (config, medium) = (configuration(alloc)?, marked(alloc)?);
    let Ok(mut fleet) = Fleet::new(alloc, &config, medium) else {
        return Err(NoMemory);
    };
    let FleetSeen::Up(Ok(())) = fleet.apply(FleetEvent::BringUp(1)) else {
        return Ok(Came::Wrong);
    };
    let mut came = Came::Done;
    for ticket in 1..ROUNDS + 1 {
        came = match (came, round_of(alloc, &mut fleet, ticket)) {
            (Came::Done, round) => round,
            (came, Came::Done) => came,
            _ => Came::Wrong,
        };
    }
    Ok(came)
}

/// One round: a run of its events, and if that is refused, the rest of them one by one.
fn round_of(alloc: Global, fleet: &mut Fleet<MemMedium>, ticket: u64) -> Came {
    let mut replies = Vec::new(alloc);
    let ran = fleet.run(alloc, &round(), &mut replies);
    let done = replies.len();
    let mut seen = replies.pop().map(|reply| reply.seen);
    for event in round().into_iter().skip(done) {
        seen = Some(fleet.apply(event));
    }
    let is_answer = seen.is_some_and(|seen| is_answered(fleet, &seen, ticket));
    match ran {
        Ok(()) => Came::done(is_answer && done == EVENTS),
        Err(NoMemory) => Came::refused(is_answer && done < EVENTS),
    }
}
