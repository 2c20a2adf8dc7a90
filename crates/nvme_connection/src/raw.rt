//! A connection in a struct for C code.

ghost use Rattle.std.specs.Prelude.{◌≡◌};
ghost use Rattle.nvme_connection.specs.Raws.{kind_of, stage_of, stage_number, value_of};

use crate::connection::Connection;
use crate::stage::Stage;
use nvme_pdu::{Agreed, Kind, PduLayout};

/// A connection, which C code keeps between calls. All zeros are a connection of which nothing has come.
#[repr(C)]
#[derive(Clone, Copy)]
pub struct RawConnection {
    /// How many bytes of the PDU in hand have come.
    pub count: usize,
    /// Its layout, once eight of them have come.
    pub length: u32,
    pub data_offset: u32,
    pub data_length: u32,
    pub kind: u8,
    pub header: u8,
    /// How far the connection is with it: 0 to 3 in the order of `Stage`; others have ended.
    pub stage: u8,
    pub is_last: bool,
    pub header_digest: bool,
    pub data_digest: bool,
    /// Whether ICReq was granted, and what was agreed on.
    pub is_open: bool,
    pub agreed: Agreed,
    /// The first bytes of the PDU in hand, and then anything.
    pub kept: [u8; 128],
}

impl Connection {
    /// The connection in a struct.
    #[inline(always)]
    pub fn of(raw: &RawConnection) -> Connection
        ensures { result ≡ value_of raw.now }
    {
        Connection {
            stage: stage_of(raw.stage),
            is_open: raw.is_open,
            agreed: raw.agreed,
            count: raw.count,
            kept: raw.kept,
            layout: PduLayout {
                kind: kind_of(raw.kind),
                is_last: raw.is_last,
                header: raw.header,
                header_digest: raw.header_digest,
                data_offset: raw.data_offset,
                data_length: raw.data_length,
                data_digest: raw.data_digest,
                length: raw.length,
            },
        }
    }

    /// The connection in a struct for C code.
    #[inline(always)]
    #[tactic(auto, using(crate::proofs::Raws::kinds_come_back, crate::proofs::Raws::stages_come_back))]
    pub fn into_raw(self) -> RawConnection
        ensures { value_of result ≡ self }
    {
        let kept = self.kept;
        RawConnection {
            count: self.count,
            length: self.layout.length,
            data_offset: self.layout.data_offset,
            data_length: self.layout.data_length,
            kind: self.layout.kind.number(),
            header: self.layout.header,
            stage: stage_number(self.stage),
            is_last: self.layout.is_last,
            header_digest: self.layout.header_digest,
            data_digest: self.layout.data_digest,
            is_open: self.is_open,
            agreed: self.agreed,
            kept,
        }
    }
}

/// The stage with this number.
#[inline(always)]
fn stage_of(number: u8) -> Stage
    ensures { result ≡ stage_of number }
{
    match number {
        0 => Stage::Taking,
        1 => Stage::Whole,
        2 => Stage::Complete,
        _ => Stage::Ended,
    }
}

/// The number of a stage.
#[inline(always)]
fn stage_number(stage: Stage) -> u8
    ensures { result ≡ stage_number stage }
{
    match stage {
        Stage::Taking => 0,
        Stage::Whole => 1,
        Stage::Complete => 2,
        Stage::Ended => 3,
    }
}

/// The type of a PDU with this number; R2T if there is no other.
#[inline(always)]
fn kind_of(number: u8) -> Kind
    ensures { result ≡ kind_of number }
{
    match number {
        0 => Kind::IcReq,
        1 => Kind::IcResp,
        2 => Kind::H2cTermReq,
        3 => Kind::C2hTermReq,
        4 => Kind::CapsuleCmd,
        5 => Kind::CapsuleResp,
        6 => Kind::H2cData,
        7 => Kind::C2hData,
        _ => Kind::R2t,
    }
}
