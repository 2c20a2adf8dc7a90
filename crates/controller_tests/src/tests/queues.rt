//! A host without a driver, through the events of a subsystem: I/O completion queue 1 of 32 entries at 3000h, and I/O
//! submission queue 1 of 8 entries at 2000h.

use crate::tests::asserting::expect_eq;
use crate::tests::configuration::shared_configuration;
use crate::tests::entries::{WRITE, transfer};
use nvme_medium::MemMedium;
use nvme_subsys::{Event, Seen, Subsystem};
use std::alloc::Global;
use std::process::Abort;
use std::test::Fail;

type Bench = Subsystem<MemMedium>;

/// An entry with this NSID, PRP entry 1, and command specific double words 10 and 11. Its CID is 7.
fn entry(opcode: u8, nsid: u8, prp1: u16, cdw10: u32, cdw11: u32) -> [u8; 64] {
    let mut bytes = [0; 64];
    bytes[0] = opcode;
    bytes[2] = 7;
    bytes[4] = nsid;
    bytes[24..26].copy_from_slice(&prp1.to_le_bytes());
    bytes[40..44].copy_from_slice(&cdw10.to_le_bytes());
    bytes[44..48].copy_from_slice(&cdw11.to_le_bytes());
    bytes
}

/// Two controllers of two hosts, both enabled with admin queues at 0 and 1000h, and with those I/O queues.
fn open(alloc: Global) -> Result<Bench, Fail> {
    let config = shared_configuration(alloc, [64, 8])?;
    let medium = MemMedium::new(alloc, &[0; 72 * 512])?;
    let mut subsystem = Subsystem::new(alloc, &config, medium).map_err(|refused| refused.fault)?;
    for cntlid in 1..3 {
        for event in [
            Event::Write32(cntlid, 0x24, 0x001f_0007),
            Event::Write32(cntlid, 0x30, 0x1000),
            Event::Write32(cntlid, 0x14, 0x0046_0001),
            Event::Store(cntlid, 0, &entry(5, 0, 0x3000, 0x001f_0001, 1)),
            Event::Store(cntlid, 64, &entry(1, 0, 0x2000, 0x0007_0001, 0x0001_0001)),
            Event::Write32(cntlid, 0x1000, 2),
            Event::Fetch(cntlid, 0),
            Event::Fetch(cntlid, 0),
            Event::Execute(cntlid, 0),
            Event::Execute(cntlid, 0),
        ] {
            let _ = subsystem.apply(event);
        }
    }
    Ok(subsystem)
}

/// Puts a command at a place of the I/O submission queue, and lets the controller fetch and execute it.
fn carry(subsystem: &mut Bench, cntlid: u16, place: u8, command: &[u8; 64]) -> Seen {
    let address = 0x2000 + 64 * u64::from(place);
    let _ = subsystem.apply(Event::Store(cntlid, address, command));
    let _ = subsystem.apply(Event::Write32(cntlid, 0x1008, u32::from(place) + 1));
    let _ = subsystem.apply(Event::Fetch(cntlid, 1));
    subsystem.apply(Event::Execute(cntlid, 0))
}

/// Fails unless the first completion of controller 1 is this one.
fn expect_first(rt: &impl Abort, subsystem: &Bench, completion: [u8; 16]) {
    let found = match subsystem.controller(1) {
        Some(controller) => controller.window().piece(0x3000, 16),
        None => None,
    };
    expect_eq(rt, found, Some(completion.as_slice()));
}

#[test]
fn a_write_is_completed_byte_by_byte(rt: HostRuntime) -> Result<(), Fail> {
    let mut subsystem = open(rt.alloc())?;
    let _ = carry(&mut subsystem, 1, 0, &transfer(WRITE, 1, 0, 1, 0x5000));
    let completion = [0, 0, 0, 0, 0, 0, 0, 0, 1, 0, 1, 0, 7, 0, 1, 0];
    expect_first(&rt, &subsystem, completion);
    Ok(())
}

// The other host registers key 11h and acquires type 1, Write Exclusive: Reservation Conflict (0:83).
#[test]
fn a_fenced_write_is_completed_byte_by_byte(rt: HostRuntime) -> Result<(), Fail> {
    let mut subsystem = open(rt.alloc())?;
    let _ = subsystem.apply(Event::Store(2, 0x5000, &[0, 0, 0, 0, 0, 0, 0, 0, 0x11]));
    let _ = subsystem.apply(Event::Store(2, 0x6000, &[0x11]));
    let _ = carry(&mut subsystem, 2, 0, &entry(0x0d, 1, 0x5000, 0, 0));
    let _ = carry(&mut subsystem, 2, 1, &entry(0x11, 1, 0x6000, 0x100, 0));
    let _ = carry(&mut subsystem, 1, 0, &transfer(WRITE, 1, 0, 1, 0x5000));
    let completion = [0, 0, 0, 0, 0, 0, 0, 0, 1, 0, 1, 0, 7, 0, 7, 1];
    expect_first(&rt, &subsystem, completion);
    Ok(())
}
