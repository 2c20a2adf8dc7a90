//! Controller Capabilities.

ghost use Rattle.std.specs.Prelude.{◌≡◌};
ghost use Rattle.nvme_device.specs.Capabilities.{capabilities_of, judged_capabilities};

/// Why a controller's capabilities do not suit the driver.
#[derive(Clone, Copy, Debug, PartialEq, Eq)]
pub enum CapabilityFault {
    /// The register reads as ones: the device was removed.
    Removed,
    /// MQES: its queues have fewer than 32 entries.
    QueuesTooShort,
    /// CSS: it does not have the NVM command set.
    NoNvmCommands,
    /// MPSMIN: its smallest memory page is larger than 4 KiB.
    PageSize,
}

/// What the driver needs of Controller Capabilities.
#[derive(Clone, Copy, Debug)]
pub struct Capabilities {
    /// The longest time until Controller Status follows Controller Configuration, in milliseconds, from TO.
    pub timeout_ms: u32,
    /// The distance of two doorbells in bytes, from DSTRD.
    pub stride: u32,
}

/// The time of TO that a controller gets which reports 0, in units of 500 ms.
const LEAST_TIMEOUT: u64 = 1;

impl Capabilities {
    /// What the register `cap` says.
    fn of(cap: u64) -> Capabilities
        ensures { result ≡ capabilities_of cap }
    {
        let units = ((cap >> 24) & 0xff).max(LEAST_TIMEOUT) as u32;
        let doubled = (cap >> 32) & 0xf;
        Capabilities {
            timeout_ms: 500 * units,
            stride: 4 * 2_u32.pow(doubled as u32),
        }
    }

    /// Judges the register `cap`.
    ///
    /// # Errors
    ///
    /// The first fault that applies, in the order of `CapabilityFault`.
    pub fn judge(cap: u64) -> Result<Capabilities, CapabilityFault>
        ensures { result ≡ judged_capabilities cap }
    {
        if cap == u64::MAX {
            return Err(CapabilityFault::Removed);
        }
        if cap & 0xffff < 31 {
            return Err(CapabilityFault::QueuesTooShort);
        }
        if (cap >> 37) & 1 == 0 {
            return Err(CapabilityFault::NoNvmCommands);
        }
        if (cap >> 48) & 0xf != 0 {
            return Err(CapabilityFault::PageSize);
        }
        Ok(Capabilities::of(cap))
    }
}
