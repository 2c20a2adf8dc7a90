//! Calls of media succeed, and what several calls leave.

mod cached;
mod files;

use crate::tests::asserting::{expect_eq, expect_that};
use nvme_medium::{Failing, Lent, Medium, MemMedium, Zeros, read_blocks, write_blocks};
use std::test::Fail;

#[test]
fn keeps_whole_blocks_alone(rt: HostRuntime) -> Result<(), Fail> {
    let copied = MemMedium::new(rt.alloc(), &[7; 1100])?;
    let taken = MemMedium::of(vec![in rt.alloc(); 7; 1100]?);
    for medium in [copied, taken] {
        assert_eq!(rt; medium.blocks(), 2);
        expect_eq(&rt, medium.as_bytes(), [7; 1024].as_slice());
    }
    Ok(())
}

#[test]
fn reads_what_was_written(rt: HostRuntime) -> Result<(), Fail> {
    let mut medium = MemMedium::new(rt.alloc(), &[0; 1536])?;
    let mut buffer = [0; 1024];
    assert_eq!(rt; medium.blocks(), 3);
    expect_that(
        &rt,
        write_blocks(
            &mut medium,
            1,
            2,
            &Lent {
                bytes: &[0x5a; 1024],
            },
        )
        .is_ok(),
    );
    expect_that(&rt, medium.flush().is_ok());
    assert_eq!(rt; medium.blocks(), 3);
    expect_that(&rt, read_blocks(&mut medium, 0, &mut buffer).is_ok());
    expect_eq(&rt, &buffer[..512], [0; 512].as_slice());
    expect_eq(&rt, &buffer[512..], [0x5a; 512].as_slice());
    Ok(())
}

#[test]
fn one_call_fails_without_effect(rt: HostRuntime) -> Result<(), Fail> {
    let inner = MemMedium::new(rt.alloc(), &[7; 1024])?;
    let mut medium = Failing::new(inner, 1);
    let zeros = Zeros { blocks: 2 };
    let mut buffer = [9; 512];
    assert_eq!(rt; medium.blocks(), 2);
    expect_that(&rt, write_blocks(&mut medium, 0, 2, &zeros).is_err());
    expect_that(&rt, medium.read(0, &mut buffer).is_ok());
    expect_eq(&rt, buffer, [0; 512]);
    expect_that(&rt, medium.read(1, &mut buffer).is_ok());
    expect_eq(&rt, buffer, [7; 512]);
    expect_that(&rt, medium.flush().is_ok());
    Ok(())
}
