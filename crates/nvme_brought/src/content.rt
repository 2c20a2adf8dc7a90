//! The content of a disk, for proofs.

ghost use Rattle.std.specs.Prelude.{◌≡◌, ◌*◌, ℕ, List};
ghost use Rattle.std.specs.Borrow.{ftrue};
ghost use Rattle.nvme_spec.specs.Bytes.{with_bytes};

use std::marker::Model;

/// The bytes of a disk's blocks. Only proofs read them: the value has no size, and its calls do nothing when they run.
#[repr(C)]
#[derive(Drop)]
pub struct DiskContent {
    pub ghost bytes: { List ℕ },
}

impl Model for DiskContent {
    ghost also_owns = { λ _. ftrue };
}

// It owns nothing.
unsafe impl Send for DiskContent {}

impl DiskContent {
    /// Puts these bytes over those from block `first`. Proved by hand, since it changes what only proofs read.
    pub(crate) fn put(&mut self, _first: u64, _bytes: &[u8])
        ensures { self.new.bytes ≡ with_bytes self.old.bytes (512 * _first) _bytes.now }
    {}
}
