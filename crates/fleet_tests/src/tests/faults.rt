//! Requests over a medium one of whose calls fails, each call in turn, until a run meets no failure.

use crate::tests::asserting::expect_eq;
use crate::tests::bench::{accepted, carry, configuration, read, write};
use nvme_fleet::{Fleet, FleetEvent, FleetSeen, Request};
use nvme_medium::{Failing, MemMedium};
use nvme_wire::Status;
use std::alloc::Global;
use std::test::Fail;

const DONE: (Status, u8) = (Status::SUCCESSFUL_COMPLETION, 0);

const WRITE_FAULT: (Status, u8) = (Status::WRITE_FAULT, 0);

const READ_ERROR: (Status, u8) = (Status::UNRECOVERED_READ_ERROR, 0);

const DIFFERS: (Status, u8) = (Status::COMPARE_FAILURE, 0);

/// A fleet over blocks of zeros, with controller 1 up. Call number `call` of the medium, counted from 0, fails.
fn open_failing(alloc: Global, call: u64) -> Result<Fleet<Failing<MemMedium>>, Fail> {
    let config = configuration(alloc, 8)?;
    let medium = MemMedium::new(alloc, &[0; 72 * 512])?;
    let mut fleet = accepted(alloc, &config, Failing::new(medium, call))?;
    let FleetSeen::Up(Ok(())) = fleet.apply(FleetEvent::BringUp(1)) else {
        return Err(Fail::from("the controller did not come up"));
    };
    Ok(fleet)
}

/// The outcome of a request: its status, and the number of its rule.
fn outcome(
    fleet: &mut Fleet<Failing<MemMedium>>,
    request: Request<'_>,
) -> Result<(Status, u8), Fail> {
    let carried = carry(fleet, 1, request)?;
    Ok((carried.status, carried.rule))
}

/// A block with these bytes in front.
fn block_of(front: &[u8]) -> [u8; 512] {
    let mut block = [0; 512];
    for (byte, given) in block.iter_mut().zip(front) {
        *byte = *given;
    }
    block
}

/// A block is written and read back. A write that failed has left the block unchanged, and no other command reports its
/// fault.
#[test]
fn a_block_is_written_and_read(rt: HostRuntime) -> Result<(), Fail> {
    let block = block_of(b"Hello");
    let expected = [(WRITE_FAULT, DONE), (DONE, READ_ERROR), (DONE, DONE)];
    for (call, (written, fetched)) in expected.iter().enumerate() {
        let mut fleet = open_failing(rt.alloc(), call as u64)?;
        assert_eq!(rt;
            outcome(&mut fleet, write(1, 0, &block))?,
            *written,
            "at call {call}"
        );
        assert_eq!(rt;
            outcome(&mut fleet, read(1, 0, 1))?,
            *fetched,
            "at call {call}"
        );
        let data = match call {
            0 => [0; 512].as_slice(),
            1 => &[],
            _ => &block,
        };
        assert_eq!(rt; fleet.data(), data, "at call {call}");
    }
    Ok(())
}

/// Three blocks are written. The blocks before the one that failed have their bytes, and the others are unchanged.
#[test]
fn three_blocks_are_written(rt: HostRuntime) -> Result<(), Fail> {
    for call in 0_u64..3 {
        let mut fleet = open_failing(rt.alloc(), call)?;
        let written = outcome(&mut fleet, write(1, 0, &[0x5a; 1536]))?;
        assert_eq!(rt; written, WRITE_FAULT, "at call {call}");
        for i in 0_u64..3 {
            let byte = if i < call { 0x5a } else { 0 };
            assert_eq!(rt; outcome(&mut fleet, read(1, i, 1))?, DONE, "at call {call}");
            assert_eq!(rt;
                fleet.data(),
                [byte; 512].as_slice(),
                "block {i} at call {call}"
            );
        }
    }
    let mut fleet = open_failing(rt.alloc(), 3)?;
    expect_eq(&rt, outcome(&mut fleet, write(1, 0, &[0x5a; 1536]))?, DONE);
    expect_eq(&rt, outcome(&mut fleet, read(1, 0, 3))?, READ_ERROR);
    expect_eq(&rt, outcome(&mut fleet, read(1, 0, 3))?, DONE);
    expect_eq(&rt, fleet.data(), [0x5a; 1536].as_slice());
    Ok(())
}

/// Equal and different blocks are compared. A read that failed is reported as such, instead of as a difference.
#[test]
fn blocks_are_compared(rt: HostRuntime) -> Result<(), Fail> {
    let (same, other) = (block_of(&[0]), block_of(&[1]));
    let expected = [(READ_ERROR, DIFFERS), (DONE, READ_ERROR), (DONE, DIFFERS)];
    for (call, (first, second)) in expected.iter().enumerate() {
        let mut fleet = open_failing(rt.alloc(), call as u64)?;
        for (block, wanted) in [(&same, first), (&other, second)] {
            let request = Request::Compare {
                nsid: 1,
                slba: 0,
                bytes: block,
            };
            assert_eq!(rt; outcome(&mut fleet, request)?, *wanted, "at call {call}");
        }
    }
    Ok(())
}

/// Two blocks are filled with zeros, and flushed. The fault of each command is reported by it, and by nothing else.
#[test]
fn blocks_are_zeroed_and_flushed(rt: HostRuntime) -> Result<(), Fail> {
    let expected = [
        (WRITE_FAULT, DONE),
        (WRITE_FAULT, DONE),
        (DONE, WRITE_FAULT),
        (DONE, DONE),
    ];
    let zeroes = Request::WriteZeroes {
        nsid: 1,
        slba: 0,
        blocks: 2,
    };
    for (call, (zeroed, flushed)) in expected.iter().enumerate() {
        let mut fleet = open_failing(rt.alloc(), call as u64)?;
        for (request, wanted) in [(zeroes, zeroed), (Request::Flush { nsid: 1 }, flushed)] {
            assert_eq!(rt; outcome(&mut fleet, request)?, *wanted, "at call {call}");
        }
    }
    Ok(())
}
