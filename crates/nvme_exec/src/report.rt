//! Reservation Report: the registrants and the holder of a namespace, in the memory of the host.

ghost use Rattle.std.specs.Prelude.{◌≡◌, ◌≤◌, length, IsSome};
ghost use Rattle.nvme_spec.specs.Limits.{most_bytes};
ghost use Rattle.nvme_spec.specs.World.{namespace_of};
ghost use Rattle.nvme_spec.specs.Transfers.{addresses, with_scattered};
ghost use Rattle.nvme_spec.specs.Execution.{report_of};

use nvme_mem::Window;
use nvme_ns::Spaces;
use nvme_prp::{Pieces, scatter_padded};

/// The length of a report of 16 controllers: after it, every report has only zeros.
const FRONT: usize = 1088;

/// Stores a report of `bytes` bytes.
pub fn report(spaces: &Spaces, nsid: u32, window: &mut Window, pieces: &Pieces, bytes: u64)
    requires named { IsSome (namespace_of spaces.now nsid) }
    requires few { bytes ≤ most_bytes }
    requires size { length (addresses pieces.now.parts.items) ≡ bytes }
    ensures stored { window.new ≡ with_scattered window.old (addresses pieces.now.parts.items)
        (report_of (namespace_of spaces.now nsid) spaces.now.controllers bytes) }
    ensures size { length (report_of (namespace_of spaces.now nsid) spaces.now.controllers bytes) ≡ bytes }
{
    let mut buffer = [0; FRONT];
    let front = &mut buffer[..(bytes as usize).min(FRONT)];
    fill_report(spaces, nsid, front);
    scatter_padded(window, pieces, front);
}

/// Fills a buffer with the data of a report.
fn fill_report(spaces: &Spaces, nsid: u32, buffer: &mut [u8])
    requires named { IsSome (namespace_of spaces.now nsid) }
    ensures report { buffer.new ≡ report_of (namespace_of spaces.now nsid) spaces.now.controllers (length buffer.old) }
    ensures size { length buffer.new ≡ length buffer.old }
    ensures few { length spaces.now.controllers ≤ 16 }
{
    let reservation = spaces.reservation(nsid).unwrap();
    reservation.report_into(spaces.controllers(), buffer);
}
