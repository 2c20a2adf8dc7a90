//! The headers of the PDUs that a controller sends, and their layouts.

ghost use Rattle.std.specs.Prelude.{◌≡◌, ◌+◌, ◌≤◌, ◌<◌, ◌^◌, IfSome};
ghost use Rattle.nvme_pdu.specs.Layouts.{IsOrdered};
ghost use Rattle.nvme_pdu.specs.Writing as def;

use crate::agreed::Agreed;
use crate::fatal::Fatal;
use crate::kind::Kind;
use crate::layout::{PduLayout, digest_bytes, flags};

/// A header to send, and the layout of its PDU. Bytes between the header's digest and the data are zeros.
#[derive(Clone, Copy)]
pub struct Written {
    pub bytes: [u8; 24],
    pub layout: PduLayout,
}

/// The eight bytes that all PDUs have.
fn common(kind: Kind, flags: u8, hlen: u8, pdo: u8, plen: u32) -> [u8; 8]
    ensures { result ≡ def.common kind flags hlen pdo plen }
{
    let [a, b, c, d] = plen.to_le_bytes();
    [kind.number(), flags, hlen, pdo, a, b, c, d]
}

impl Agreed {
    /// ICResp, which grants what was agreed on: data of the host begin at a multiple of 4 (CPDA 0), and a PDU of it has
    /// at most 131,072 bytes of data (MAXH2CDATA).
    #[tactic(auto, unfolding(crate::specs::Writing::ic_response))]
    pub fn ic_response(self) -> [u8; 128]
        ensures { result ≡ def.ic_response self }
    {
        let mut unit = [0; 128];
        unit[0..8].copy_from_slice(&common(Kind::IcResp, 0, 128, 0, 128));
        unit[11] = flags(self.header_digests, self.data_digests);
        unit[12..16].copy_from_slice(&131_072_u32.to_le_bytes());
        unit
    }

    /// The eight bytes of a PDU without data.
    fn short(self, kind: Kind) -> Written
        ensures { result ≡ def.short self kind }
    {
        let layout = PduLayout::without_data(kind, 24, self.header_digests, false);
        let flags = flags(self.header_digests, false);
        let mut bytes = [0; 24];
        bytes[0..8].copy_from_slice(&common(kind, flags, 24, 0, layout.length));
        Written { bytes, layout }
    }

    /// CapsuleResp: a completion queue entry.
    #[tactic(auto, unfolding(crate::specs::Writing::response))]
    pub fn response(self, entry: &[u8; 16]) -> Written
        ensures { result ≡ def.response self entry.now }
    {
        let mut written = self.short(Kind::CapsuleResp);
        written.bytes[8..24].copy_from_slice(entry);
        written
    }

    /// R2T: asks for the first `length` bytes of the data of a command.
    #[tactic(auto, unfolding(crate::specs::Writing::ready))]
    pub fn ready(self, cid: u16, tag: u16, length: u32) -> Written
        ensures { result ≡ def.ready self cid tag length }
    {
        let mut written = self.short(Kind::R2t);
        written.bytes[8..10].copy_from_slice(&cid.to_le_bytes());
        written.bytes[10..12].copy_from_slice(&tag.to_le_bytes());
        written.bytes[16..20].copy_from_slice(&length.to_le_bytes());
        written
    }

    /// C2HData: all data of a command. None if HPDA is above 31, or if the length of the PDU does not fit PLEN.
    #[tactic(auto, unfolding(crate::specs::Writing::controller_data))]
    pub fn controller_data(self, cid: u16, length: u32) -> Option<Written>
        ensures exact { result ≡ def.controller_data self cid length }
        ensures ordered { IfSome result (λ w. IsOrdered w.layout) }
    {
        if self.alignment > 31 {
            return None;
        }
        let place = self.data_place();
        let plen = length.checked_add(place + digest_bytes(self.data_digests))?;
        let layout = PduLayout {
            kind: Kind::C2hData,
            is_last: true,
            header: 24,
            header_digest: self.header_digests,
            data_offset: place,
            data_length: length,
            data_digest: self.data_digests,
            length: plen,
        };
        let flags = flags(self.header_digests, self.data_digests) + 4;
        let mut bytes = [0; 24];
        bytes[0..8].copy_from_slice(&common(Kind::C2hData, flags, 24, place as u8, plen));
        bytes[8..10].copy_from_slice(&cid.to_le_bytes());
        bytes[16..20].copy_from_slice(&length.to_le_bytes());
        Some(Written { bytes, layout })
    }

    /// PDO of C2HData: the least multiple of the alignment that is not in the header.
    fn data_place(self) -> u32
        requires { self.alignment ≤ 31 }
        ensures exact { result ≡ def.data_place self }
        ensures place { result ≤ 155 }
    {
        let unit = 4 * (u32::from(self.alignment) + 1);
        let header = 24 + digest_bytes(self.header_digests);
        (header + (unit - 1)) / unit * unit
    }
}

impl Fatal {
    /// C2HTermReq, after whose header up to 128 of the `received` bytes of the PDU at fault follow.
    #[tactic(auto, unfolding(crate::specs::Writing::termination))]
    pub fn termination(self, received: u32) -> Written
        ensures { result ≡ def.termination self received }
    {
        let repeated = received.min(128);
        let layout = PduLayout {
            kind: Kind::C2hTermReq,
            is_last: false,
            header: 24,
            header_digest: false,
            data_offset: 24,
            data_length: repeated,
            data_digest: false,
            length: 24 + repeated,
        };
        let mut bytes = [0; 24];
        bytes[0..8].copy_from_slice(&common(Kind::C2hTermReq, 0, 24, 0, layout.length));
        bytes[8..10].copy_from_slice(&self.status.to_le_bytes());
        bytes[10..14].copy_from_slice(&self.field.to_le_bytes());
        Written { bytes, layout }
    }
}
