//! The fields after the common header of H2CData and of H2CTermReq.

ghost use Rattle.std.specs.Prelude.{◌≡◌};
ghost use Rattle.nvme_pdu.specs.Fields as def;

use crate::fatal::{Fatal, check};
use nvme_wire::{u16_at, u32_at};

/// Whose data a PDU has, and where among all its data they belong.
#[derive(Clone, Copy)]
pub struct HostData {
    /// CCCID, the command identifier.
    pub cid: u16,
    /// TTAG, the Transfer Tag of the R2T.
    pub tag: u16,
    /// DATAO, the offset.
    pub offset: u32,
}

impl HostData {
    /// The fields of an H2CData header with `length` bytes of data: DATAL must be this length.
    #[tactic(auto, unfolding(crate::specs::Fields::host_data))]
    pub fn of(header: &[u8; 24], length: u32) -> Result<HostData, Fatal>
        ensures { result ≡ def.host_data header.now length }
    {
        check(16, u32_at(header, 16) == length)?;
        Ok(HostData {
            cid: u16_at(header, 8),
            tag: u16_at(header, 10),
            offset: u32_at(header, 12),
        })
    }
}

impl Fatal {
    /// Why a host ends its connection, by the header of its H2CTermReq.
    pub fn of(header: &[u8; 24]) -> Fatal
        ensures { result ≡ def.host_termination header.now }
    {
        Fatal {
            status: u16_at(header, 8),
            field: u32_at(header, 10),
        }
    }
}
