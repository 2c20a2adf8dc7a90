//! Compares slices of bytes, 32 bytes at a time.

ghost use Rattle.std.specs.Prelude.{◌≡◌, ◌+◌, ◌≤◌, ◌↔◌, IsTrue, length};
ghost use Rattle.std.specs.Simd.Lanes.{chunk};

use std::simd::prelude::*;

const LANES: usize = 32;

/// Whether the 32 bytes from `at` are equal.
#[inline(always)]
fn same_lanes(a: &[u8], b: &[u8], at: usize) -> bool
    requires in_a { at + 32 ≤ length a.now }
    requires in_b { at + 32 ≤ length b.now }
    ensures { IsTrue result ↔ (chunk at 32 a.now ≡ chunk at 32 b.now) }
{
    let left = u8x32::from_slice(&a[at..]);
    let right = u8x32::from_slice(&b[at..]);
    left.simd_ne(right).to_bitmask() == 0
}

/// Whether two slices are equal: 32 bytes at a time, and the rest byte by byte.
pub fn lanes_equal(a: &[u8], b: &[u8]) -> bool
    ensures { IsTrue result ↔ (a.now ≡ b.now) }
{
    if a.len() != b.len() {
        return false;
    }
    let whole = a.len() / LANES;
    for k in 0..whole {
        if !same_lanes(a, b, LANES * k) {
            return false;
        }
    }
    for i in LANES * whole..a.len() {
        if a[i] != b[i] {
            return false;
        }
    }
    true
}
