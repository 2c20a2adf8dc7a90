//! What a host and a controller agree on when a connection is initialized.

ghost use Rattle.std.specs.Prelude.{◌≡◌, ◌≤◌, IfOk};
ghost use Rattle.nvme_pdu.specs.Agreeing as def;

use crate::fatal::{Fatal, check, support};
use nvme_wire::u16_at;

/// What ICReq and ICResp have agreed on. Before, there are no digests.
#[repr(C)]
#[derive(Clone, Copy)]
pub struct Agreed {
    /// Whether PDUs have a header digest (DGST.HDGST_ENABLE).
    pub header_digests: bool,
    /// Whether data have a digest (DGST.DDGST_ENABLE).
    pub data_digests: bool,
    /// HPDA, 0 to 31: data of the controller begin at a multiple of 4 times one more.
    pub alignment: u8,
}

impl Agreed {
    /// What an ICReq asks for, all of which is granted, or the first field at fault.
    #[tactic(auto, unfolding(crate::specs::Agreeing::agreed_of))]
    pub fn of(request: &[u8; 128]) -> Result<Agreed, Fatal>
        ensures exact { result ≡ def.agreed_of request.now }
        ensures alignment { IfOk result (λ a. a.alignment ≤ 31) }
    {
        support(8, u16_at(request, 8) == 0)?;
        check(10, request[10] <= 31)?;
        Ok(Agreed {
            header_digests: request[11] % 2 == 1,
            data_digests: request[11] / 2 % 2 == 1,
            alignment: request[10],
        })
    }
}
