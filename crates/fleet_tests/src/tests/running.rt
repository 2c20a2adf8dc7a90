//! A list of events, and memory that is refused in it.

use crate::tests::asserting::expect_eq;
use crate::tests::bench::{Shown, answered, apply, open, posted, read, show, write};
use nvme_fleet::{Fetched, FleetEvent, Reply, Ticket};
use std::process::Abort;
use std::test::Fail;

/// A block is written, and read back.
fn events(block: &[u8]) -> [FleetEvent<'_>; 11] {
    [
        FleetEvent::BringUp(1),
        FleetEvent::Place(1, write(1, 3, block)),
        FleetEvent::Ring(1),
        FleetEvent::Fetch(1, 1),
        FleetEvent::Execute(1, 0),
        FleetEvent::Poll(1),
        FleetEvent::Place(1, read(1, 3, 1)),
        FleetEvent::Ring(1),
        FleetEvent::Fetch(1, 1),
        FleetEvent::Execute(1, 0),
        FleetEvent::Poll(1),
    ]
}

/// Their results.
fn expected() -> [Shown; 11] {
    [
        Shown::Up(Ok(())),
        Shown::Placed(Ok(Ticket(1))),
        Shown::Rung(Ok(())),
        Shown::Fetched(Fetched::Took),
        posted(),
        answered(1, 0),
        Shown::Placed(Ok(Ticket(2))),
        Shown::Rung(Ok(())),
        Shown::Fetched(Fetched::Took),
        posted(),
        answered(2, 512),
    ]
}

/// Fails unless the replies show these, and perhaps more.
fn expect_replies(rt: &impl Abort, replies: Vec<Reply>, expected: &[Shown]) {
    for (at, reply) in replies.into_iter().enumerate() {
        assert_eq!(rt;
            Some(show(reply.seen)),
            expected.get(at).copied(),
            "at reply {at}"
        );
    }
}

// It holds whichever allocation of `Fleet::run` is refused, as `rt try --fail-alloc` refuses them: the events whose
// replies were appended have happened, and those after them have not.
#[test]
fn want_of_memory_leaves_the_events_behind_it(rt: HostRuntime) -> Result<(), Fail> {
    let block = [0x5a; 512];
    let mut fleet = open(rt.alloc())?;
    let mut replies = Vec::new(rt.alloc());
    let ran = fleet.run(rt.alloc(), &events(&block), &mut replies);
    let count = replies.len();
    expect_eq(&rt, ran.is_ok(), count == expected().len());
    expect_replies(&rt, replies, &expected());
    let (events, expected) = (events(&block), expected());
    for at in count..events.len() {
        expect_eq(&rt, apply(&mut fleet, events[at]), expected[at]);
    }
    expect_eq(&rt, fleet.data(), block.as_slice());
    Ok(())
}
