//! Blocks of a transfer that are borrowed from the window.

use crate::tests::asserting::expect_eq;
use nvme_mem::Window;
use nvme_prp::{BlockPlace, lend_block, walk};
use std::test::Fail;

/// The first page has 508 bytes of the block, and the next page the others.
#[test]
fn places_of_blocks(rt: HostRuntime) -> Result<(), Fail> {
    let mut window = Window::new(rt.alloc())?;
    let two = walk(&window, 0x5e04, 0x6000, 512)?;
    expect_eq(&rt, two.block(0), BlockPlace::Two(0x5e04, 508, 0x6000));
    let one = walk(&window, 0x5000, 0, 1024)?;
    expect_eq(&rt, one.block(1), BlockPlace::One(0x5200));
    window.store(0x5fff, &[1, 2])?;
    let mut buffer = [0; 512];
    let block = lend_block(&window, &two, 0, &mut buffer);
    expect_eq(&rt, block[507], 1);
    expect_eq(&rt, block[508], 2);
    Ok(())
}
