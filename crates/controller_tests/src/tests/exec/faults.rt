//! Commands on a medium of which one call fails.

ghost use Rattle.std.specs.Prelude.{IfOk};
ghost use Rattle.nvme_spec.specs.World.{LiesWithin};
ghost use Rattle.nvme_spec.specs.Execution.{HasKnownRegistrants};

use crate::tests::answers::DONE;
use crate::tests::asserting::{expect_eq, expect_that};
use crate::tests::entries::{COMPARE, FLUSH, READ, WRITE, WRITE_ZEROES, transfer};
use crate::tests::exec::bench::{Bench, bench_over, run};
use crate::tests::memory::holds;
use nvme_medium::{Failing, Medium, MemMedium};
use nvme_wire::Status;
use std::alloc::Global;
use std::test::Fail;

const WRITE_FAULT: Option<(Status, u8)> = Some((Status::WRITE_FAULT, 0));

const READ_ERROR: Option<(Status, u8)> = Some((Status::UNRECOVERED_READ_ERROR, 0));

// Blocks of 33h on a medium that fails the call after `calls` calls, and three blocks of 5Ah in the window.
fn failing_after(alloc: Global, calls: u64) -> Result<Bench<Failing<MemMedium>>, Fail>
    ensures within { IfOk result (λ bench.
        LiesWithin (⟦<Failing<MemMedium> as Medium>⟧.size bench.medium) bench.spaces.namespaces) }
    ensures known { IfOk result (λ bench. HasKnownRegistrants bench.spaces) }
{
    let medium = MemMedium::new(alloc, &[0x33; 72 * 512])?;
    let mut bench = bench_over(alloc, Failing::new(medium, calls))?;
    bench.window.store(0x5000, &[0x5a; 1536])?;
    Ok(bench)
}

// Whether each byte of a block is `byte`.
fn is_filled<M: Medium>(medium: &mut M, i: u64, byte: u8) -> bool {
    let mut block = [0; 512];
    i < medium.blocks() && medium.read(i, &mut block).is_ok() && block == [byte; 512]
}

#[test]
fn a_write_stops_at_its_fault(rt: HostRuntime) -> Result<(), Fail> {
    let write = transfer(WRITE, 1, 0, 3, 0x5000);
    for k in 0..4 {
        let mut bench = failing_after(rt.alloc(), k)?;
        let expected = if k < 3 { WRITE_FAULT } else { DONE };
        expect_eq(&rt, run(&mut bench, 1, &write), expected);
        let is_told = k < 3 || bench.medium.flush().is_err();
        expect_that(&rt, is_told);
        for i in 0..3 {
            let byte = if i < k { 0x5a } else { 0x33 };
            expect_that(&rt, is_filled(&mut bench.medium, i, byte));
        }
    }
    Ok(())
}

#[test]
fn write_zeroes_stops_at_its_fault(rt: HostRuntime) -> Result<(), Fail> {
    let zeroes = transfer(WRITE_ZEROES, 1, 0, 3, 0);
    for k in 0..4 {
        let mut bench = failing_after(rt.alloc(), k)?;
        let expected = if k < 3 { WRITE_FAULT } else { DONE };
        expect_eq(&rt, run(&mut bench, 1, &zeroes), expected);
        let is_told = k < 3 || bench.medium.flush().is_err();
        expect_that(&rt, is_told);
        for i in 0..3 {
            let byte = if i < k { 0 } else { 0x33 };
            expect_that(&rt, is_filled(&mut bench.medium, i, byte));
        }
    }
    Ok(())
}

#[test]
fn a_read_stops_at_its_fault(rt: HostRuntime) -> Result<(), Fail> {
    let read = transfer(READ, 1, 0, 3, 0x5000);
    for k in 0..4 {
        let mut bench = failing_after(rt.alloc(), k)?;
        let expected = if k < 3 { READ_ERROR } else { DONE };
        expect_eq(&rt, run(&mut bench, 1, &read), expected);
        for j in 0..3 {
            let byte = if j < k { 0x33 } else { 0x5a };
            expect_that(&rt, holds(&bench.window, 0x5000 + 512 * j, &[byte; 512]));
        }
    }
    Ok(())
}

#[test]
fn a_compare_stops_at_its_fault(rt: HostRuntime) -> Result<(), Fail> {
    let compare = transfer(COMPARE, 1, 0, 3, 0x5000);
    for k in 0..4 {
        let mut bench = failing_after(rt.alloc(), k)?;
        bench.window.store(0x5000, &[0x33; 1536])?;
        let expected = if k < 3 { READ_ERROR } else { DONE };
        assert_eq!(rt; run(&mut bench, 1, &compare), expected);
    }
    Ok(())
}

#[test]
fn a_compare_stops_at_its_first_difference(rt: HostRuntime) -> Result<(), Fail> {
    let compare = transfer(COMPARE, 1, 0, 3, 0x5000);
    for k in 0..4 {
        let mut bench = failing_after(rt.alloc(), k)?;
        let differs = Some((Status::COMPARE_FAILURE, 0));
        let expected = if k < 1 { READ_ERROR } else { differs };
        assert_eq!(rt; run(&mut bench, 1, &compare), expected);
    }
    Ok(())
}

#[test]
fn a_flush_fails_once(rt: HostRuntime) -> Result<(), Fail> {
    let flush = transfer(FLUSH, 1, 0, 1, 0);
    let mut bench = failing_after(rt.alloc(), 0)?;
    expect_eq(&rt, run(&mut bench, 1, &flush), WRITE_FAULT);
    expect_eq(&rt, run(&mut bench, 1, &flush), DONE);
    Ok(())
}
