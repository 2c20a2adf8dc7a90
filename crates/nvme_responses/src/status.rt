//! The status field of a completion queue entry.

ghost use Rattle.std.specs.Prelude.{◌≡◌};
ghost use Rattle.nvme_responses.specs.Entries as def;

use nvme_wire::Status;

/// A status of which the last three bits of the type are taken.
#[inline(always)]
pub(crate) fn known(status: Status) -> Status
    ensures { result ≡ def.three_bits status }
{
    Status {
        sct: status.sct % 8,
        sc: status.sc,
    }
}

/// Whether a status has Do Not Retry.
#[inline(always)]
pub(crate) fn has_do_not_retry(status: Status) -> bool
    ensures { result ≡ def.has_do_not_retry status }
{
    match status.sct {
        0 => status.sc != 0x00 && status.sc != 0x0c && status.sc != 0x22,
        1 => status.sc != 0x81,
        3 => status.sc != 0x02,
        _ => true,
    }
}

/// The last word of an entry: its phase tag, which is 0, and the status.
#[inline(always)]
pub fn status_field(status: Status) -> u16
    ensures { result ≡ def.status_field status }
{
    let known = known(status);
    let code = 2 * u16::from(known.sc) + 512 * u16::from(known.sct);
    if has_do_not_retry(known) {
        code + 0x8000
    } else {
        code
    }
}
