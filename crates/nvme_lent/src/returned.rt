//! Bytes that belong to the C program again.

ghost use Rattle.std.specs.Prelude.{◌≡◌, Option, None, Some};
ghost use Rattle.nvme_lent.specs.Bytes.{as_lent, owned};
ghost use Rattle.nvme_lent.specs.declared.bytes.LentBytes.{LentBytes as Lent};

use std::marker::Model;
use std_alloc::vec::Lodged;

/// Bytes that go back to the C program, or none. The value is only the right to them: it has no size, and the program
/// takes the bytes without a call. Both functions are proved by hand, since a right changes owner.
#[repr(C)]
#[derive(Drop)]
pub struct ReturnedBytes {
    pub ghost bytes: { Option Lent },
}

impl Model for ReturnedBytes {
    ghost also_owns = { λ returned. owned returned.bytes };
}

// The right to bytes may move to another thread.
unsafe impl Send for ReturnedBytes {}

impl ReturnedBytes {
    /// No bytes.
    pub fn none() -> ReturnedBytes
        ensures { result.bytes ≡ None }
    {
        ReturnedBytes {}
    }

    /// The bytes of this buffer.
    pub fn of(buffer: Vec<u8, Lodged>) -> ReturnedBytes
        ensures { result.bytes ≡ Some (as_lent buffer) }
    {
        buffer.dislodge();
        ReturnedBytes {}
    }
}
