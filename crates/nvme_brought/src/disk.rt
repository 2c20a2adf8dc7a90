//! A disk that only its program accesses.

ghost use Rattle.std.specs.Prelude.{◌≡◌, ◌*◌, length};

use crate::DiskContent;

/// A disk: its number of blocks, and for proofs its content. The program passes the number.
#[repr(C)]
#[derive(Drop)]
pub struct Disk {
    pub blocks: u64,
    pub content: DiskContent,
    ghost whole: { length content.bytes ≡ 512 * blocks },
}
