//! Windows of host memory: their ends, and stores.

use crate::tests::asserting::{expect_eq, expect_that};
use nvme_mem::{OutsideWindow, Window};
use nvme_spec::Piece;
use std::test::Fail;

#[test]
fn a_new_window_is_zeros(rt: HostRuntime) -> Result<(), Fail> {
    let window = Window::new(rt.alloc())?;
    let last = window.piece(4_194_302, 2).ok_or("the window is too short")?;
    assert_eq!(rt; last, [0, 0].as_slice());
    Ok(())
}

#[test]
fn pieces_end_where_the_window_ends(rt: HostRuntime) -> Result<(), Fail> {
    let mut window = Window::new(rt.alloc())?;
    let empty = window
        .piece(4_194_304, 0)
        .ok_or("an empty part is refused")?;
    expect_that(&rt, empty.is_empty());
    expect_that(&rt, window.piece(4_194_304, 1).is_none());
    expect_that(&rt, window.piece(18_446_744_073_709_551_615, 2).is_none());
    expect_that(
        &rt,
        window.piece_mut(18_446_744_073_709_551_615, 2).is_none(),
    );
    expect_eq(&rt, window.store(4_194_303, &[1, 2]), Err(OutsideWindow));
    let last = window
        .piece(4_194_303, 1)
        .ok_or("the last byte is refused")?;
    expect_eq(&rt, last, [0].as_slice());
    Ok(())
}

#[test]
fn what_is_stored_is_read(rt: HostRuntime) -> Result<(), Fail> {
    let mut window = Window::new(rt.alloc())?;
    window.store(0x3000, &[0x00, 0x60, 0, 0, 0, 0, 0, 0x01])?;
    expect_eq(&rt, window.u64_at(0x3000), 0x0100_0000_0000_6000);
    let piece = window.piece_mut(0x3001, 2).ok_or("a part is refused")?;
    piece.copy_from_slice(&[7, 8]);
    let piece = Piece {
        address: 0x3000,
        len: 4,
    };
    expect_eq(&rt, window.bytes(piece), [0x00, 7, 8, 0].as_slice());
    let front = Piece {
        address: 0x3000,
        len: 1,
    };
    window.bytes_mut(front).fill(9);
    expect_eq(&rt, window.bytes(piece), [9, 7, 8, 0].as_slice());
    Ok(())
}
