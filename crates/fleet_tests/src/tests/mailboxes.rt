//! The data and the controllers of a fleet between events.

use crate::tests::asserting::{expect_eq, expect_that};
use crate::tests::bench::{Shown, answered, expect_data, expect_done, open, open_up, posted, read};
use nvme_fleet::{Fetched, FleetEvent, Ticket, UpFault};
use std::test::Fail;

#[test]
fn controllers_are_looked_at_by_their_identifiers(rt: HostRuntime) -> Result<(), Fail> {
    let fleet = open(rt.alloc())?;
    for cntlid in [0, 5, 9, u16::MAX] {
        expect_that(&rt, fleet.controller(cntlid).is_none());
    }
    for cntlid in 1..5 {
        expect_that(&rt, fleet.controller(cntlid).is_some());
    }
    Ok(())
}

#[test]
fn data_last_until_the_next_event(rt: HostRuntime) -> Result<(), Fail> {
    let mut fleet = open_up(rt.alloc())?;
    assert_eq!(rt; fleet.data(), [].as_slice());
    for (event, seen) in [
        (FleetEvent::BringUp(1), Shown::Up(Err(UpFault::AlreadyUp))),
        (
            FleetEvent::Place(1, read(1, 0, 1)),
            Shown::Placed(Ok(Ticket(1))),
        ),
        (FleetEvent::Ring(1), Shown::Rung(Ok(()))),
        (FleetEvent::Fetch(1, 1), Shown::Fetched(Fetched::Took)),
        (FleetEvent::Execute(1, 0), posted()),
        (FleetEvent::Poll(2), Shown::Polled(Ok(None))),
        (FleetEvent::Poll(9), Shown::NoController),
        (FleetEvent::RawStore(1, 0, &[1]), Shown::NotRaw),
        (FleetEvent::RawWrite32(1, 0x14, 0), Shown::NotRaw),
        (FleetEvent::Reset(2), Shown::Reset),
    ] {
        expect_done(&rt, &mut fleet, 4, read(1, 0, 1), &[0; 512])?;
        expect_data(&rt, &mut fleet, event, seen, &[]);
    }
    expect_data(
        &rt,
        &mut fleet,
        FleetEvent::Poll(1),
        answered(1, 512),
        &[0; 512],
    );
    Ok(())
}
