//! Completions in the memory of a host, which a fleet shows through its controllers.

use crate::tests::asserting::expect_eq;
use crate::tests::bench::{Bench, Shown, answered, apply, open_up, posted, read, show};
use nvme_fleet::{Answer, Fetched, FleetEvent, Ticket};
use std::process::Abort;
use std::test::Fail;

/// Fails unless the completion at an address of controller 1's window is this one.
fn expect_completion(rt: &impl Abort, fleet: &Bench, address: u64, entry: [u8; 16]) {
    let found = match fleet.controller(1) {
        Some(controller) => controller.window().piece(address, 16),
        None => None,
    };
    expect_eq(rt, found, Some(entry.as_slice()));
}

// The completion queue has 32 entries: the 33rd completion is in the slot of the first, with the other phase tag. The
// submission queue has 8, so its head is 1 again.
#[test]
fn completions_go_round(rt: HostRuntime) -> Result<(), Fail> {
    let round = [
        FleetEvent::Place(1, read(1, 0, 1)),
        FleetEvent::Ring(1),
        FleetEvent::Fetch(1, 1),
        FleetEvent::Execute(1, 0),
        FleetEvent::Poll(1),
    ];
    let mut fleet = open_up(rt.alloc())?;
    for ticket in 1..34 {
        let mut replies = Vec::new(rt.alloc());
        fleet.run(rt.alloc(), &round, &mut replies)?;
        let polled = replies.pop().map(|reply| show(reply.seen));
        expect_eq(&rt, polled, Some(answered(ticket, 512)));
    }
    let last = [0, 0, 0, 0, 0, 0, 0, 0, 1, 0, 1, 0, 0, 0, 0, 0];
    expect_completion(&rt, &fleet, 0x3000, last);
    let second = [0, 0, 0, 0, 0, 0, 0, 0, 2, 0, 1, 0, 0, 0, 1, 0];
    expect_completion(&rt, &fleet, 0x3010, second);
    Ok(())
}

// Requests that a reset has aborted keep their slots until they are delivered. So the first request after it has slot
// 3, which is its Command Identifier.
#[test]
fn slots_of_aborted_requests_are_not_used(rt: HostRuntime) -> Result<(), Fail> {
    let placed = |ticket| Shown::Placed(Ok(Ticket(ticket)));
    let aborted = |ticket| Shown::Polled(Ok(Some(Answer::Aborted {
        ticket: Ticket(ticket),
    })));
    let place = FleetEvent::Place(1, read(1, 0, 1));
    let mut fleet = open_up(rt.alloc())?;
    for (event, seen) in [
        (place, placed(1)),
        (place, placed(2)),
        (place, placed(3)),
        (FleetEvent::Ring(1), Shown::Rung(Ok(()))),
        (FleetEvent::Reset(1), Shown::Reset),
        (FleetEvent::BringUp(1), Shown::Up(Ok(()))),
        (place, placed(4)),
        (FleetEvent::Ring(1), Shown::Rung(Ok(()))),
        (FleetEvent::Fetch(1, 1), Shown::Fetched(Fetched::Took)),
        (FleetEvent::Execute(1, 0), posted()),
        (FleetEvent::Poll(1), aborted(1)),
        (FleetEvent::Poll(1), aborted(2)),
        (FleetEvent::Poll(1), aborted(3)),
        (FleetEvent::Poll(1), answered(4, 512)),
    ] {
        expect_eq(&rt, apply(&mut fleet, event), seen);
    }
    let entry = [0, 0, 0, 0, 0, 0, 0, 0, 1, 0, 1, 0, 3, 0, 1, 0];
    expect_completion(&rt, &fleet, 0x3000, entry);
    Ok(())
}
