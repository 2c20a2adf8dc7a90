//! Bytes that a C program provides.

ghost use Rattle.std.specs.Prelude.{◌≡◌, ◌<◌, ◌^◌, ℕ, List};
ghost use Rattle.std.specs.Borrow.{full_share, u8};
ghost use Rattle.std.specs.Ptr.{lies_at};
ghost use denote.Array.{Array};

use std::marker::Model;
use std_alloc::vec::{Lodged, lodge};

/// Bytes that a C program provides: the address of the first, and the length. The program reads and writes none of them
/// until it gets them back.
#[repr(C)]
#[derive(Drop)]
pub struct LentBytes {
    at: *mut u8,
    len: usize,
    pub ghost items: { List ℕ },
    ghost small: { len < 2 ^ 63 },
}

impl Model for LentBytes {
    ghost also_owns = { λ bytes. lies_at (Array u8 bytes.len) full_share bytes.at bytes.items };
}

impl LentBytes {
    ghost use Rattle.nvme_lent.specs.Bytes.{as_lent};

    /// The bytes at their own address, as the buffer of a `Vec` that neither allocates nor frees. Proved by hand, since
    /// a pointer becomes a buffer.
    pub fn into_buffer(self) -> Vec<u8, Lodged>
        ensures { as_lent result ≡ self }
    {
        let LentBytes { at, len } = self;
        unsafe { lodge(at, len, len) }
    }
}
