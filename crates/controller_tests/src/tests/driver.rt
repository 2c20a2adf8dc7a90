//! Drivers over a controller of the tests' choice: they come up, refuse and fail.

use crate::tests::asserting::expect_eq;
use nvme_driver::{Answer, Driver, NotUp, PlaceRefusal, PollFault, Port, Request, Ticket, UpFault};
use nvme_wire::{Cqe, Status};
use std::alloc::Global;
use std::test::Fail;

mod port;

use port::TestPort;

const READ: Request<'static> = Request::Read {
    nsid: 1,
    slba: 0,
    blocks: 1,
};

/// A driver that is up, and its port.
fn up(alloc: Global) -> Result<(Driver, TestPort), Fail> {
    let mut port = TestPort::honest(alloc)?;
    let mut driver = Driver::new();
    driver
        .bring_up(&mut port)
        .map_err(|_| "an honest controller did not come up")?;
    Ok((driver, port))
}

/// The completion of a request of the I/O lane (queue pair).
fn done(head: u16, cid: u16, phase: bool) -> [u8; 16] {
    Cqe::new(0, head, 1, cid, phase, Status::SUCCESSFUL_COMPLETION).to_bytes()
}

#[test]
fn an_unknown_completion_fails_the_driver(rt: HostRuntime) -> Result<(), Fail> {
    let unknown = [
        [0, 0, 0, 0, 0, 0, 0, 0, 1, 0, 0, 0, 5, 0, 1, 0],
        [0, 0, 0, 0, 0, 0, 0, 0, 3, 0, 1, 0, 0, 0, 1, 0],
        [255; 16],
    ];
    for entry in unknown {
        let (mut driver, mut port) = up(rt.alloc())?;
        let mut buffer = [0; 131_072];
        expect_eq(&rt, driver.place(&mut port, &READ), Ok(Ticket(1)));
        port.window.store(0x3000, &entry)?;
        expect_eq(
            &rt,
            driver.poll_into(&mut port, &mut buffer),
            Err(PollFault::UnknownCommand),
        );
        expect_eq(
            &rt,
            driver.poll_into(&mut port, &mut buffer),
            Err(PollFault::NotUp),
        );
        expect_eq(
            &rt,
            driver.place(&mut port, &READ),
            Err(PlaceRefusal::NotReady),
        );
        expect_eq(&rt, driver.ring(&mut port), Err(NotUp));
        expect_eq(&rt, driver.bring_up(&mut port), Err(UpFault::AlreadyUp));
        driver.reset(&mut port);
        let aborted = Answer::Aborted { ticket: Ticket(1) };
        expect_eq(
            &rt,
            driver.poll_into(&mut port, &mut buffer),
            Ok(Some(aborted)),
        );
        expect_eq(
            &rt,
            driver.poll_into(&mut port, &mut buffer),
            Err(PollFault::NotUp),
        );
    }
    Ok(())
}

#[test]
fn each_fault_of_bring_up_leaves_the_driver_down(rt: HostRuntime) -> Result<(), Fail> {
    let invalid_size = Status::INVALID_QUEUE_SIZE;
    let done = Status::SUCCESSFUL_COMPLETION;
    let faults = [
        (0, 0, 24, done, UpFault::NotReady, 0),
        (1, 255, 24, done, UpFault::NoAnswer, 4),
        (1, 4, 24, done, UpFault::NoAnswer, 4),
        (1, 0, 23, done, UpFault::NoAnswer, 4),
        (1, 0, 24, invalid_size, UpFault::Refused(invalid_size), 1),
    ];
    for (csts, delay, cid, status, fault, turns) in faults {
        let mut port = TestPort::honest(rt.alloc())?;
        port.csts = csts;
        port.delay = delay;
        port.cid = cid;
        port.status = status;
        let mut driver = Driver::new();
        expect_eq(
            &rt,
            (driver.bring_up(&mut port), port.turns),
            (Err(fault), turns),
        );
        expect_eq(
            &rt,
            driver.place(&mut port, &READ),
            Err(PlaceRefusal::NotReady),
        );
        let mut port = TestPort::honest(rt.alloc())?;
        expect_eq(&rt, driver.bring_up(&mut port), Ok(()));
    }
    Ok(())
}

#[test]
fn a_late_controller_comes_up_over_a_full_window(rt: HostRuntime) -> Result<(), Fail> {
    let mut port = TestPort::honest(rt.alloc())?;
    port.window.store(0, &[0xff; 0x4000])?;
    port.delay = 3;
    let mut driver = Driver::new();
    expect_eq(&rt, driver.bring_up(&mut port), Ok(()));
    expect_eq(&rt, port.turns, 8);
    expect_eq(&rt, port.doorbells, [2, 2, 0, 0]);
    let mut buffer = [0; 131_072];
    expect_eq(&rt, driver.poll_into(&mut port, &mut buffer), Ok(None));
    Ok(())
}

#[test]
fn half_a_block_is_refused(rt: HostRuntime) -> Result<(), Fail> {
    let (mut driver, mut port) = up(rt.alloc())?;
    let write = Request::Write {
        nsid: 1,
        slba: 0,
        bytes: &[0; 511],
    };
    expect_eq(
        &rt,
        driver.place(&mut port, &write),
        Err(PlaceRefusal::BadRequest),
    );
    expect_eq(&rt, driver.place(&mut port, &READ), Ok(Ticket(1)));
    Ok(())
}

#[test]
fn the_last_ticket_is_given_once(rt: HostRuntime) -> Result<(), Fail> {
    let mut port = TestPort::honest(rt.alloc())?;
    let mut driver = Driver::starting_at(18_446_744_073_709_551_615);
    expect_eq(&rt, driver.bring_up(&mut port), Ok(()));
    let last = Ticket(18_446_744_073_709_551_615);
    expect_eq(&rt, driver.place(&mut port, &READ), Ok(last));
    expect_eq(
        &rt,
        driver.place(&mut port, &READ),
        Err(PlaceRefusal::TicketsExhausted),
    );
    Ok(())
}

#[test]
fn completions_are_matched_by_identifier(rt: HostRuntime) -> Result<(), Fail> {
    let (mut driver, mut port) = up(rt.alloc())?;
    let mut buffer = [0; 131_072];
    for ticket in 1..8 {
        expect_eq(&rt, driver.place(&mut port, &READ), Ok(Ticket(ticket)));
    }
    expect_eq(
        &rt,
        driver.place(&mut port, &READ),
        Err(PlaceRefusal::RingFull),
    );
    expect_eq(
        &rt,
        (driver.ring(&mut port), port.doorbells),
        (Ok(()), [2, 2, 7, 0]),
    );
    port.window.store(0x12_0000, &[7; 512])?;
    for (address, cid) in [(0x3000, 1), (0x3010, 0)] {
        port.window.store(address, &done(2, cid, true))?;
    }
    for (ticket, head) in [(2, 1), (1, 2)] {
        let answer = Answer::Done {
            ticket: Ticket(ticket),
            status: Status::SUCCESSFUL_COMPLETION,
            dw0: 0,
            len: 512,
        };
        expect_eq(
            &rt,
            (driver.poll_into(&mut port, &mut buffer), port.doorbells),
            (Ok(Some(answer)), [2, 2, 7, head]),
        );
        expect_eq(&rt, buffer[511], if ticket == 2 { 7 } else { 0 });
    }
    expect_eq(&rt, driver.poll_into(&mut port, &mut buffer), Ok(None));
    expect_eq(&rt, driver.place(&mut port, &READ), Ok(Ticket(8)));
    Ok(())
}
