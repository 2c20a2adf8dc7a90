//! The types of PDUs.

ghost use Rattle.std.specs.Prelude.{◌≡◌};
ghost use Rattle.nvme_pdu.specs.Headers as def;

/// A type of PDU, by its name in the standard.
#[derive(Clone, Copy, PartialEq, Eq)]
pub enum Kind {
    IcReq,
    IcResp,
    H2cTermReq,
    C2hTermReq,
    CapsuleCmd,
    CapsuleResp,
    H2cData,
    C2hData,
    R2t,
}

impl Kind {
    /// Its number, the field PDU-Type.
    pub fn number(self) -> u8
        ensures { result ≡ def.number_of self }
    {
        match self {
            Kind::IcReq => 0,
            Kind::IcResp => 1,
            Kind::H2cTermReq => 2,
            Kind::C2hTermReq => 3,
            Kind::CapsuleCmd => 4,
            Kind::CapsuleResp => 5,
            Kind::H2cData => 6,
            Kind::C2hData => 7,
            Kind::R2t => 9,
        }
    }
}
