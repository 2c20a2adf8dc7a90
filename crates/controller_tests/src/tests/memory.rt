//! The bytes in the memory of a host.

use nvme_mem::Window;

/// Whether the window has these bytes at an address.
pub(crate) fn holds(window: &Window, addr: u64, bytes: &[u8]) -> bool {
    window.piece(addr, bytes.len() as u64) == Some(bytes)
}
