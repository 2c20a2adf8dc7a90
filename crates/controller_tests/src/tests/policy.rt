//! The plans of commands that the rules on access allow.

use crate::tests::asserting::expect_eq;
use crate::tests::configuration::opened;
use nvme_policy::{Command, Plan, Verdict, judge};
use nvme_wire::Sqe;
use std::test::Fail;

// An entry by its double words 0, 1 and 10 to 12.
fn entry(cdw0: u32, nsid: u32, cdw10: u32, cdw11: u32, cdw12: u32) -> Sqe {
    let mut bytes = [0; 64];
    bytes[0..4].copy_from_slice(&cdw0.to_le_bytes());
    bytes[4..8].copy_from_slice(&nsid.to_le_bytes());
    bytes[40..44].copy_from_slice(&cdw10.to_le_bytes());
    bytes[44..48].copy_from_slice(&cdw11.to_le_bytes());
    bytes[48..52].copy_from_slice(&cdw12.to_le_bytes());
    Sqe::from_bytes(&bytes)
}

#[test]
fn a_plan_says_what_is_to_be_done(rt: HostRuntime) -> Result<(), Fail> {
    let spaces = opened(rt.alloc())?;
    let plan = |kind, first, blocks, bytes| {
        Verdict::Allowed(Plan {
            kind,
            first,
            blocks,
            bytes,
        })
    };
    expect_eq(
        &rt,
        judge(&spaces, 1, &entry(2, 2, 7, 0, 0), false),
        plan(Command::Read, 7, 1, 512),
    );
    expect_eq(
        &rt,
        judge(&spaces, 1, &entry(8, 2, 0, 0, 7), false),
        plan(Command::WriteZeroes, 0, 8, 0),
    );
    expect_eq(
        &rt,
        judge(&spaces, 1, &entry(0x0e, 1, 31, 1, 0), false),
        plan(Command::ReservationReport, 0, 0, 128),
    );
    expect_eq(
        &rt,
        judge(&spaces, 1, &entry(0x15, 1, 0x0100, 0, 0), false),
        plan(Command::ReservationRelease, 0, 0, 8),
    );
    expect_eq(
        &rt,
        judge(&spaces, 1, &entry(0, 1, 0, 0, 0), false),
        plan(Command::Flush, 0, 0, 0),
    );
    Ok(())
}
