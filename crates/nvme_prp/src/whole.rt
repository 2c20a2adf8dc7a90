//! Whole transfers, gathered and scattered.

ghost use Rattle.std.specs.Prelude.{◌≡◌, ◌+◌, ◌-◌, ◌≤◌, ◌++◌, length, replicate};
ghost use Rattle.nvme_spec.specs.Transfers.{addresses, gathered_bytes, with_scattered};

use crate::walking::Pieces;
use nvme_mem::Window;

/// Copies all bytes of a transfer out of the window. `bytes` must be as long as all pieces together.
pub fn gather(window: &Window, pieces: &Pieces, bytes: &mut [u8])
    requires size { length bytes.old ≡ length (addresses pieces.now.parts.items) }
    ensures bytes { bytes.new ≡ gathered_bytes window.now (addresses pieces.now.parts.items) }
{
    let mut filled = 0;
    for piece in pieces.parts.as_slice() {
        let end = filled + piece.len as usize;
        bytes[filled..end].copy_from_slice(window.bytes(*piece));
        filled = end;
    }
}

/// Copies all bytes of a transfer into the window, in order: if two have the same address, the later one remains.
/// `bytes` must be as long as all pieces together.
pub fn scatter(window: &mut Window, pieces: &Pieces, bytes: &[u8])
    requires size { length bytes.now ≡ length (addresses pieces.now.parts.items) }
    ensures window { window.new ≡ with_scattered window.old (addresses pieces.now.parts.items) bytes.now }
{
    let mut sent = 0;
    for piece in pieces.parts.as_slice() {
        let end = sent + piece.len as usize;
        window.bytes_mut(*piece).copy_from_slice(&bytes[sent..end]);
        sent = end;
    }
}

/// Copies bytes to the front of a slice, and then zeros.
fn copy_padded(part: &mut [u8], front: &[u8])
    requires fits { length front.now ≤ length part.old }
    ensures { part.new ≡ front.now ++ replicate (length part.old - length front.now) 0 }
{
    let (first, rest) = part.split_at_mut(front.len());
    first.copy_from_slice(front);
    rest.fill(0);
}

/// Copies `front` into the window as the first bytes of a transfer, and zeros as the rest, in order: if two bytes have
/// the same address, the later one remains. `front` must be at most as long as all pieces together.
pub fn scatter_padded(window: &mut Window, pieces: &Pieces, front: &[u8])
    requires size { length front.now ≤ length (addresses pieces.now.parts.items) }
    ensures window { window.new ≡ with_scattered window.old (addresses pieces.now.parts.items)
        (front.now ++ replicate (length (addresses pieces.now.parts.items) - length front.now) 0) }
{
    let mut sent = 0;
    for piece in pieces.parts.as_slice() {
        let end = sent + piece.len as usize;
        let part = &front[sent.min(front.len())..end.min(front.len())];
        copy_padded(window.bytes_mut(*piece), part);
        sent = end;
    }
}
