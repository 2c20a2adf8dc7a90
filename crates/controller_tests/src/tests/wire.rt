//! Queue entries as bytes and as fields, and the texts of statuses.

use crate::tests::asserting::expect_eq;
use nvme_wire::{Cqe, Sqe, SqeFields, Status, u16_at, u32_at, u64_at};
use std::test::Fail;

// A Write of one block at block 0 of namespace 1, with command identifier 7 and PRP1 5000h.
const WRITE: [u8; 64] = [
    0x01, 0x00, 0x07, 0x00, 0x01, 0x00, 0x00, 0x00, 0, 0, 0, 0, 0, 0, 0, 0, //
    0, 0, 0, 0, 0, 0, 0, 0, 0x00, 0x50, 0x00, 0x00, 0x00, 0x00, 0x00, 0x00, //
    0, 0, 0, 0, 0, 0, 0, 0, 0, 0, 0, 0, 0, 0, 0, 0, //
    0, 0, 0, 0, 0, 0, 0, 0, 0, 0, 0, 0, 0, 0, 0, 0,
];

#[test]
fn reads_the_fields_of_a_write(rt: HostRuntime) {
    let sqe = Sqe::from_bytes(&WRITE);
    expect_eq(&rt, sqe.opcode(), 0x01);
    expect_eq(&rt, sqe.fuse(), 0);
    expect_eq(&rt, sqe.psdt(), 0);
    expect_eq(&rt, sqe.cid(), 7);
    expect_eq(&rt, sqe.nsid(), 1);
    expect_eq(&rt, sqe.prp1(), 0x5000);
    expect_eq(&rt, sqe.prp2(), 0);
}

#[test]
fn reads_each_double_word(rt: HostRuntime) {
    let mut bytes = [0; 64];
    for i in 0..64 {
        bytes[i] = i as u8;
    }
    let sqe = Sqe::from_bytes(&bytes);
    expect_eq(
        &rt,
        [sqe.opcode(), sqe.fuse(), sqe.psdt()],
        [0x00, 0b01, 0b00],
    );
    expect_eq(&rt, sqe.cid(), 0x0302);
    expect_eq(
        &rt,
        [sqe.prp1(), sqe.prp2()],
        [0x1f1e_1d1c_1b1a_1918, 0x2726_2524_2322_2120],
    );
    let double_words = [
        (sqe.nsid(), 0x0706_0504),
        (sqe.cdw10(), 0x2b2a_2928),
        (sqe.cdw11(), 0x2f2e_2d2c),
        (sqe.cdw12(), 0x3332_3130),
        (sqe.cdw13(), 0x3736_3534),
        (sqe.cdw14(), 0x3b3a_3938),
        (sqe.cdw15(), 0x3f3e_3d3c),
    ];
    for (double_word, expected) in double_words {
        expect_eq(&rt, double_word, expected);
    }
    expect_eq(&rt, sqe.to_bytes().as_slice(), bytes.as_slice());
}

#[test]
fn makes_the_write_from_its_fields(rt: HostRuntime) {
    let sqe = Sqe::from(SqeFields {
        opcode: 0x01,
        cid: 7,
        nsid: 1,
        prp1: 0x5000,
        ..SqeFields::default()
    });
    assert_eq!(rt; sqe.to_bytes().as_slice(), WRITE.as_slice());
}

// Each byte of the fields that a host sets has a value of its own; the others are 0.
#[test]
fn makes_an_entry_from_all_fields(rt: HostRuntime) {
    let sqe = Sqe::from(SqeFields {
        opcode: 0xa1,
        cid: 0xa3a2,
        nsid: 0xa7a6_a5a4,
        prp1: 0xbfbe_bdbc_bbba_b9b8,
        prp2: 0xc7c6_c5c4_c3c2_c1c0,
        cdw10: 0xcbca_c9c8,
        cdw11: 0xcfce_cdcc,
        cdw12: 0xd3d2_d1d0,
        cdw13: 0xd7d6_d5d4,
        cdw14: 0xdbda_d9d8,
        cdw15: 0xdfde_dddc,
    });
    let mut bytes = [0; 64];
    bytes[0..8].copy_from_slice(&[0xa1, 0, 0xa2, 0xa3, 0xa4, 0xa5, 0xa6, 0xa7]);
    for i in 24..64 {
        bytes[i] = 0xa0 + i as u8;
    }
    assert_eq!(rt; sqe.to_bytes().as_slice(), bytes.as_slice());
}

// The completion of that Write, the first in its queue, denied by a reservation.
const DENIED: [u8; 16] = [
    0x00, 0x00, 0x00, 0x00, 0x00, 0x00, 0x00, 0x00, //
    0x01, 0x00, 0x01, 0x00, 0x07, 0x00, 0x07, 0x01,
];

#[test]
fn makes_a_completion(rt: HostRuntime) {
    let cqe = Cqe::new(0, 1, 1, 7, true, Status::RESERVATION_CONFLICT);
    assert_eq!(rt; cqe.to_bytes().as_slice(), DENIED.as_slice());
}

#[test]
fn reads_the_fields_of_a_completion(rt: HostRuntime) {
    let cqe = Cqe::from_bytes(&DENIED);
    expect_eq(&rt, cqe.dw0(), 0);
    expect_eq(&rt, cqe.sq_head(), 1);
    expect_eq(&rt, cqe.sq_id(), 1);
    expect_eq(&rt, cqe.cid(), 7);
    expect_eq(&rt, cqe.phase(), true);
    expect_eq(&rt, cqe.status(), Status::RESERVATION_CONFLICT);
}

// All bits of the last double word except the phase tag are 1, as are the reserved ones of double word 1.
#[test]
fn keeps_the_bits_that_no_field_names(rt: HostRuntime) {
    let bytes = [
        0x10, 0x11, 0x12, 0x13, 0xff, 0xff, 0xff, 0xff, //
        0x18, 0x19, 0x1a, 0x1b, 0x1c, 0x1d, 0xfe, 0xff,
    ];
    let cqe = Cqe::from_bytes(&bytes);
    expect_eq(&rt, cqe.dw0(), 0x1312_1110);
    expect_eq(&rt, cqe.sq_head(), 0x1918);
    expect_eq(&rt, cqe.sq_id(), 0x1b1a);
    expect_eq(&rt, cqe.cid(), 0x1d1c);
    expect_eq(&rt, cqe.phase(), false);
    expect_eq(&rt, cqe.status(), Status { sct: 7, sc: 0xff });
    expect_eq(&rt, cqe.to_bytes().as_slice(), bytes.as_slice());
}

#[test]
fn reads_numbers_within_bytes(rt: HostRuntime) {
    let bytes = [0x01, 0x02, 0x03, 0x04, 0x05, 0x06, 0x07, 0x08, 0x09];
    expect_eq(&rt, u16_at(&bytes, 1), 0x0302);
    expect_eq(&rt, u32_at(&bytes, 1), 0x0504_0302);
    expect_eq(&rt, u64_at(&bytes, 1), 0x0908_0706_0504_0302);
}

#[test]
fn names_and_prints_statuses(rt: HostRuntime) -> Result<(), Fail> {
    let statuses = [
        (
            Status::SUCCESSFUL_COMPLETION,
            "0:00",
            "Successful Completion",
        ),
        (Status::RESERVATION_CONFLICT, "0:83", "Reservation Conflict"),
        (
            Status::CONTROLLER_LIST_INVALID,
            "1:1c",
            "Controller List Invalid",
        ),
        (Status::COMPARE_FAILURE, "2:85", "Compare Failure"),
        (Status { sct: 0, sc: 0x03 }, "0:03", "Unlisted"),
        (Status { sct: 3, sc: 0x00 }, "3:00", "Unlisted"),
    ];
    for (status, text, name) in statuses {
        expect_eq(&rt, status.name(), name);
        expect_eq(&rt, format!(in rt.alloc(); "{status}")?.as_str(), text);
    }
    Ok(())
}
