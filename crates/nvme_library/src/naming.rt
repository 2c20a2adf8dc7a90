//! The names of statuses.

ghost use Rattle.std.specs.Prelude.{◌≡◌, ◌-◌, ◌++◌, length, take, replicate};
ghost use Rattle.nvme_wire.specs.StatusNames.{name_of};

use nvme_wire::Status;

/// Puts the standard's name of a status into a buffer, `Unlisted` for one that no command answers: the bytes that fit,
/// then zeros. Returns the length of the name, which is below 48.
#[unsafe(no_mangle)]
pub extern "C" fn nvmesim_status_name(sct: u8, sc: u8, bytes: &mut [u8]) -> usize
    ensures length { result ≡ length (name_of (record { sct = sct; sc = sc })) }
    ensures bytes { bytes.new ≡ take (length bytes.old) (name_of (record { sct = sct; sc = sc }))
        ++ replicate (length bytes.old - length (name_of (record { sct = sct; sc = sc }))) 0 }
{
    let status = Status { sct, sc };
    let name = status.name().as_bytes();
    let len = name.len().min(bytes.len());
    bytes[..len].copy_from_slice(&name[..len]);
    bytes[len..].fill(0);
    name.len()
}
