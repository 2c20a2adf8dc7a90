//! The registers of a controller: values, writes and their effects.

use crate::tests::asserting::expect_eq;
use nvme_regs::ControllerState::{Failed, Off, Ready, ShutDown};
use nvme_regs::{AdminQueues, RegEffect, Registers};

const CC: u64 = 0x14;

const CSTS: u64 = 0x1c;

// Registers whose AQA, ASQ and ACQ are prepared.
fn prepared(aqa: u32, asq: u64, acq: u64) -> Registers {
    let mut registers = Registers::new();
    let _ = registers.write32(0x24, aqa);
    let _ = registers.write32(0x28, (asq & 0xffff_ffff) as u32);
    let _ = registers.write32(0x2c, (asq >> 32) as u32);
    let _ = registers.write32(0x30, (acq & 0xffff_ffff) as u32);
    let _ = registers.write32(0x34, (acq >> 32) as u32);
    registers
}

#[test]
fn from_enabled_to_shut_down_off_and_failed(rt: HostRuntime) {
    let mut registers = prepared(0x001f_0007, 0, 0x1000);
    expect_eq(&rt, registers.admin_queues(), None);
    expect_eq(&rt, registers.write32(CC, 0x0046_0001), RegEffect::Enable);
    expect_eq(&rt, registers.read32(CSTS), 0x0000_0001);
    let queues = AdminQueues {
        sq_base: 0,
        sq_size: 8,
        cq_base: 0x1000,
        cq_size: 32,
    };
    expect_eq(&rt, registers.admin_queues(), Some(queues));
    let steps = [
        (0x0046_4001, RegEffect::Shutdown, ShutDown, 9),
        (0x0046_8001, RegEffect::Shutdown, ShutDown, 9),
        (0x0046_0001, RegEffect::Nothing, ShutDown, 9),
        (0, RegEffect::Disable, Off, 0),
        (0x0000_0001, RegEffect::Nothing, Failed, 2),
        (0, RegEffect::Disable, Off, 0),
        (0x0046_0001, RegEffect::Enable, Ready, 1),
    ];
    for (cc, effect, state, csts) in steps {
        expect_eq(&rt, registers.write32(CC, cc), effect);
        expect_eq(
            &rt,
            (registers.state(), registers.read32(CSTS)),
            (state, csts),
        );
    }
}

// For each attempt to enable: AQA, ASQ, ACQ, CC, and CSTS afterwards.
const ENABLINGS: [(u32, u64, u64, u32, u32); 39] = [
    (0x001f_0007, 0, 0x1000, 0x0046_0001, 1),
    // Command set, page size and arbitration.
    (0x001f_0007, 0, 0x1000, 0x0046_0011, 2),
    (0x001f_0007, 0, 0x1000, 0x0046_0061, 2),
    (0x001f_0007, 0, 0x1000, 0x0046_0081, 2),
    (0x001f_0007, 0, 0x1000, 0x0046_0401, 2),
    (0x001f_0007, 0, 0x1000, 0x0046_0801, 2),
    (0x001f_0007, 0, 0x1000, 0x0046_3801, 2),
    // Entry sizes.
    (0x001f_0007, 0, 0x1000, 0x0045_0001, 2),
    (0x001f_0007, 0, 0x1000, 0x0047_0001, 2),
    (0x001f_0007, 0, 0x1000, 0x0040_0001, 2),
    (0x001f_0007, 0, 0x1000, 0x0036_0001, 2),
    (0x001f_0007, 0, 0x1000, 0x0056_0001, 2),
    (0x001f_0007, 0, 0x1000, 0x0006_0001, 2),
    (0x001f_0007, 0, 0x1000, 0x0000_0001, 2),
    // Bits outside of fields, and notifications.
    (0xf01f_f007, 0, 0x1000, 0x0046_0001, 1),
    (0x001f_0007, 0, 0x1000, 0xff46_000f, 1),
    (0x001f_0007, 0, 0x1000, 0x0046_4001, 9),
    (0x001f_0007, 0, 0x1000, 0x0046_8001, 9),
    (0x001f_0007, 0, 0x1000, 0x0046_c001, 1),
    // The size of the submission queue: 1, 2, 64, 65 and 4,096 entries.
    (0x001f_0000, 0, 0x1000, 0x0046_0001, 2),
    (0x001f_0001, 0, 0x1000, 0x0046_0001, 1),
    (0x001f_003f, 0, 0x1000, 0x0046_0001, 1),
    (0x001f_0040, 0, 0x1000, 0x0046_0001, 2),
    (0x001f_0fff, 0, 0x1000, 0x0046_0001, 2),
    // The size of the completion queue.
    (0x0000_0007, 0, 0x1000, 0x0046_0001, 2),
    (0x0001_0007, 0, 0x1000, 0x0046_0001, 1),
    (0x003f_0007, 0, 0x1000, 0x0046_0001, 1),
    (0x0040_0007, 0, 0x1000, 0x0046_0001, 2),
    (0x0fff_0007, 0, 0x1000, 0x0046_0001, 2),
    // The address of the submission queue: not a page; before, at and after the end of host memory; past 2^64.
    (0x001f_0007, 0x800, 0x1000, 0x0046_0001, 2),
    (0x001f_0007, 0x003f_f000, 0x1000, 0x0046_0001, 1),
    (0x001f_003f, 0x003f_f000, 0x1000, 0x0046_0001, 1),
    (0x001f_0007, 0x0040_0000, 0x1000, 0x0046_0001, 2),
    (0x001f_003f, 0xffff_ffff_ffff_f000, 0x1000, 0x0046_0001, 2),
    // The address of the completion queue.
    (0x001f_0007, 0, 0x1800, 0x0046_0001, 2),
    (0x003f_0007, 0, 0x003f_f000, 0x0046_0001, 1),
    (0x001f_0007, 0, 0x0040_0000, 0x0046_0001, 2),
    (0x001f_0007, 0, 0x0001_0000_1000, 0x0046_0001, 2),
    (0x003f_0007, 0, 0xffff_ffff_ffff_f000, 0x0046_0001, 2),
];

#[test]
fn enablings_are_taken_whole_or_fail(rt: HostRuntime) {
    for (aqa, asq, acq, cc, csts) in ENABLINGS {
        let mut registers = prepared(aqa, asq, acq);
        let effect = registers.write32(CC, cc);
        let is_ready = csts != 2;
        expect_eq(&rt, registers.read32(CSTS), csts);
        expect_eq(&rt, effect == RegEffect::Enable, is_ready);
        expect_eq(&rt, registers.admin_queues().is_some(), is_ready);
        expect_eq(&rt, registers.read32(CC), cc);
    }
}

#[test]
fn an_enabled_controller_takes_a_notification_alone(rt: HostRuntime) {
    let mut registers = prepared(0x001f_0007, 0x2_0000_0000, 0x1000);
    for offset in [0x28, 0x2c] {
        let _ = registers.write32(offset, 0);
    }
    let _ = registers.write32(CC, 0x0046_0001);
    for offset in [0x24, 0x28, 0x2c, 0x30, 0x34, 0x08, CSTS, 0x38, 0x15] {
        expect_eq(
            &rt,
            registers.write32(offset, 0xffff_ffff),
            RegEffect::Nothing,
        );
    }
    let kept = [
        (0x24, 0x001f_0007),
        (0x28, 0),
        (0x2c, 0),
        (0x30, 0x1000),
        (0x34, 0),
        (CSTS, 1),
    ];
    for (offset, value) in kept {
        expect_eq(&rt, registers.read32(offset), value);
    }
    expect_eq(&rt, registers.write32(CC, 0xffff_ffff), RegEffect::Nothing);
    expect_eq(&rt, registers.read32(CC), 0x0046_c001);
}

#[test]
fn reads_where_registers_are(rt: HostRuntime) {
    let registers = prepared(0x8abc_def0, 0x1122_3344_5566_7788, 0x99aa_bbcc_ddee_ff00);
    let values = [
        (0x00, 0x0101_003f),
        (0x04, 0x0000_0020),
        (0x08, 0x0002_0000),
        (0x0c, 0),
        (0x14, 0),
        (0x15, 0),
        (0x1c, 0),
        (0x24, 0x8abc_def0),
        (0x26, 0),
        (0x28, 0x5566_7788),
        (0x2c, 0x1122_3344),
        (0x30, 0xddee_ff00),
        (0x34, 0x99aa_bbcc),
        (0x38, 0),
        (0x1000, 0),
        (0x1_0000_0014, 0),
        (0xffff_ffff_ffff_fffc, 0),
    ];
    for (offset, value) in values {
        assert_eq!(rt; registers.read32(offset), value);
    }
}

#[test]
fn doorbells_ring_while_the_controller_is_ready(rt: HostRuntime) {
    let mut registers = prepared(0x001f_0007, 0, 0x1000);
    expect_eq(&rt, registers.write32(0x1000, 5), RegEffect::Nothing);
    let _ = registers.write32(CC, 0x0046_0001);
    let rings = [
        (0x1000, 0x0001_0005, RegEffect::SqTail(0, 5)),
        (0x1004, 0xffff_ffff, RegEffect::CqHead(0, 0xffff)),
        (0x1008, 7, RegEffect::SqTail(1, 7)),
        (0x1024, 7, RegEffect::CqHead(4, 7)),
        (0x1028, 7, RegEffect::Nothing),
        (0x1002, 7, RegEffect::Nothing),
        (0x0ff8, 7, RegEffect::Nothing),
        (0xffff_ffff_ffff_fff8, 7, RegEffect::Nothing),
    ];
    for (offset, v, effect) in rings {
        expect_eq(&rt, registers.write32(offset, v), effect);
        expect_eq(&rt, registers.read32(offset), 0);
    }
    let _ = registers.write32(CC, 0x0046_4001);
    expect_eq(&rt, registers.write32(0x1000, 5), RegEffect::SqTail(0, 5));
}
