//! Comparisons of bytes, 32 at a time.

use crate::tests::asserting::expect_that;
use nvme_medium::lanes_equal;
use std::test::Fail;

fn differs_at(a: &[u8], i: usize) -> bool {
    let mut other = [7; 512];
    if i >= a.len() || a.len() > 512 {
        return false;
    }
    other[i] = 8;
    !lanes_equal(a, &other[..a.len()])
}

#[test]
fn every_kind_of_length(rt: HostRuntime) -> Result<(), Fail> {
    let bytes = [7; 512];
    for len in [0usize, 1, 31, 32, 33, 512] {
        let a = &bytes[..len];
        expect_that(&rt, lanes_equal(a, a));
        if len > 0 {
            expect_that(&rt, differs_at(a, 0));
            expect_that(&rt, differs_at(a, len - 1));
        }
    }
    expect_that(&rt, !lanes_equal(&bytes[..32], &bytes[..33]));
    Ok(())
}
