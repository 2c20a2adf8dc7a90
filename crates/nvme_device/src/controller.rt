//! Identify Controller.

ghost use Rattle.std.specs.Prelude.{◌≡◌, ◌≤◌, length};
ghost use Rattle.nvme_device.specs.Controllers.{judged_controller, can_have};

use nvme_wire::{u16_at, u32_at};

/// Why a controller does not suit the driver.
#[derive(Clone, Copy, Debug, PartialEq, Eq)]
pub enum ControllerFault {
    /// CNTRLTYPE: it is a discovery or an administrative controller.
    NotIo,
    /// SQES or CQES: entries of 64 and of 16 bytes are not possible.
    EntrySize,
}

/// What the driver needs of Identify Controller.
#[derive(Clone, Copy, Debug)]
pub struct ControllerFacts {
    /// The highest namespace identifier.
    pub nn: u32,
    /// The controller identifier.
    pub cntlid: u16,
    /// The optional commands.
    pub oncs: u16,
    /// MDTS: a command transfers at most 2 to the power of `mdts` pages of 4 KiB; 0 if there is no limit.
    pub mdts: u8,
    /// Volatile Write Cache: bit 0 is whether there is one.
    pub vwc: u8,
}

/// Whether entries can have 2 to the power of `size` bytes, by a byte with the required size in bits 3:0 and the
/// largest one in bits 7:4.
fn can_have(sizes: u8, size: u8) -> bool
    ensures { result ≡ can_have sizes size }
{
    sizes & 0xf <= size && size <= sizes >> 4
}

impl ControllerFacts {
    /// Judges the Identify Controller data structure, which is at the front of `bytes`.
    ///
    /// # Errors
    ///
    /// The first fault that applies, in the order of `ControllerFault`.
    pub fn judge(bytes: &[u8]) -> Result<ControllerFacts, ControllerFault>
        requires { 4096 ≤ length bytes.now }
        ensures { result ≡ judged_controller bytes.now }
    {
        if bytes[111] > 1 {
            return Err(ControllerFault::NotIo);
        }
        if !can_have(bytes[512], 6) || !can_have(bytes[513], 4) {
            return Err(ControllerFault::EntrySize);
        }
        Ok(ControllerFacts {
            nn: u32_at(bytes, 516),
            cntlid: u16_at(bytes, 78),
            oncs: u16_at(bytes, 520),
            mdts: bytes[77],
            vwc: bytes[525],
        })
    }
}
