//! Identify Namespace.

ghost use Rattle.std.specs.Prelude.{◌≡◌, ◌≤◌, ◌<◌, length};
ghost use Rattle.nvme_device.specs.Namespaces.{judged_namespace, format_index, has_metadata};

use nvme_wire::{u16_at, u64_at};

/// Why the driver can't access the blocks of a namespace.
#[derive(Clone, Copy, Debug, PartialEq, Eq)]
pub enum NamespaceFault {
    /// NSZE is 0: there is no such namespace, or it is not attached to this controller.
    NotThere,
    /// LBADS: its blocks do not have 512 bytes.
    BlockSize,
    /// MS or DPS: its blocks have metadata or protection information.
    Metadata,
}

/// What the driver needs of Identify Namespace.
#[derive(Clone, Copy, Debug)]
pub struct NamespaceFacts {
    /// The number of its blocks, of 512 bytes each.
    pub blocks: u64,
}

/// The number of the namespace's LBA format, from FLBAS.
fn format_index(flbas: u8) -> usize
    ensures index { result ≡ format_index flbas }
    ensures below { result < 64 }
{
    usize::from(flbas & 0xf) + 16 * usize::from((flbas >> 5) & 3)
}

/// Whether blocks have metadata, by MS, or protection information, by DPS.
fn has_metadata(ms: u16, dps: u8) -> bool
    ensures { result ≡ has_metadata ms dps }
{
    ms != 0 || dps & 7 != 0
}

impl NamespaceFacts {
    /// Judges the Identify Namespace data structure, which is at the front of `bytes`.
    ///
    /// # Errors
    ///
    /// The first fault that applies, in the order of `NamespaceFault`.
    pub fn judge(bytes: &[u8]) -> Result<NamespaceFacts, NamespaceFault>
        requires { 4096 ≤ length bytes.now }
        ensures { result ≡ judged_namespace bytes.now }
    {
        let blocks = u64_at(bytes, 0);
        let format = 128 + 4 * format_index(bytes[26]);
        if blocks == 0 {
            return Err(NamespaceFault::NotThere);
        }
        if bytes[format + 2] != 9 {
            return Err(NamespaceFault::BlockSize);
        }
        if has_metadata(u16_at(bytes, format), bytes[29]) {
            return Err(NamespaceFault::Metadata);
        }
        Ok(NamespaceFacts { blocks })
    }
}
